// The record of a proxy that has heard nothing.
ghost use Rattle.std.specs.Prelude.{◌≡◌, ◌≤◌, length, take};
ghost use Rattle.proxy_record.specs.Rules.{GoodProxy};
ghost use Rattle.proxy_record.specs.Words.{proxy_size};
ghost use Rattle.outcome.specs.Refusal.{said};
ghost use Rattle.writer_proxy.specs.SetUp.{set_up_proxy};

use outcome::Refusal;
use proxy_record::layout::{BASE, PROXY_WORDS};
use proxy_record::rows;

// The first 775 lent words become the record; those past it keep their values. Refused with 3: fewer words than that.
pub fn set_up(t: &mut [u64]) -> Result<(), Refusal>
    ensures result_value { (said result ≡ (set_up_proxy t.old).answer) × (t.new ≡ (set_up_proxy t.old).words) }
    ensures good_proxy { proxy_size ≤ length t.old → GoodProxy (take proxy_size t.new) }
{
    if t.len() < PROXY_WORDS {
        return Err(Refusal::ShortOutput);
    }
    rows::wipe_record(t);
    t[BASE] = 1;
    Ok(())
}
