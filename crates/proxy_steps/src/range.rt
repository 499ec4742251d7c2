// A range that is not available.
ghost use Rattle.std.specs.Prelude.{◌≡◌, ◌<◌, ◌≤◌, ◌-◌, length, Ok};
ghost use Rattle.sequence_number.specs.Number.{top};
ghost use Rattle.proxy_record.specs.State.{cap};
ghost use Rattle.proxy_record.specs.Rules.{GoodProxy};
ghost use Rattle.proxy_record.specs.Words.{proxy_words, proxy_of};
ghost use Rattle.proxy_steps.specs.Steps.{ended_proxy, skipped, put_each, ProxyAnswers};

use crate::{Forced, base};
use proxy_record::layout::{BASE, CAP, COUNT};
use proxy_record::{Mark, rows};

// A range that starts at the base or below it, until before b.
pub fn skip_to(t: &mut [u64], b: u64)
    requires { GoodProxy t.old × (b ≤ top) }
    ensures { t.new ≡ proxy_words (skipped 0 b (proxy_of t.old)) }
{
    if b <= t[BASE] {
        return;
    }
    base::advance_ack_base(t, b);
}

// The numbers from a until before b are put, one by one.
fn fill(t: &mut [u64], a: u64, b: u64)
    requires { GoodProxy t.old × ((proxy_of t.old).base ≤ a) × (a ≤ b) × (b ≤ top) × (length (put_each a (b - a) (proxy_of t.old)).tracked ≤ cap) }
    ensures { t.new ≡ proxy_words (put_each a (b - a) (proxy_of t.old)) }
{
    for n in a..b {
        rows::put(t, n, Mark::NotAvailable);
    }
}

// A range above the base. However long it is, at most 256 of its numbers are put: what the cap would drop goes first.
pub fn range_above(t: &mut [u64], a: u64, b: u64) -> Option<Forced>
    requires { GoodProxy t.old × ((proxy_of t.old).base < a) × (a ≤ b) × (b ≤ top) }
    ensures { ProxyAnswers (Ok result) t.new (ended_proxy (proxy_of t.old) (put_each a (b - a) (proxy_of t.old))) }
{
    let old = t[BASE];
    let x = rows::place(t, a);
    let y = rows::place(t, b);
    let total = x as u64 + (b - a) + (t[COUNT] - y as u64);
    if total <= CAP as u64 {
        fill(t, a, b);
        return None;
    }
    let k = total - CAP as u64;
    if k <= x as u64 {
        let i = k as usize;
        let new = rows::number_at(t, i - 1) + 1;
        rows::shut_rows(t, i);
        t[BASE] = new;
        fill(t, a, b);
        return Some(Forced { old, new });
    }
    let new = a + (k - x as u64);
    let z = rows::place(t, new);
    rows::shut_rows(t, z);
    t[BASE] = new;
    fill(t, new, b);
    Some(Forced { old, new })
}
