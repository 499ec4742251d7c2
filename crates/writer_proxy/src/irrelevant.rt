// Numbers that are not available: one, a range, all up to one.
ghost use Rattle.proxy_record.specs.Rules.{GoodProxy};
ghost use Rattle.proxy_record.specs.Words.{proxy_of};
ghost use Rattle.proxy_steps.specs.Steps.{ProxyAnswers};
ghost use Rattle.writer_proxy.specs.Calls.{irrelevant, irrelevant_range, up_to};

use outcome::Refusal;
use proxy_record::Mark;
use proxy_record::layout::BASE;
use proxy_steps::{Forced, base, range};
use sequence_number::number::{natural, number_of};

// A number is not available. Refused with 4: a number below 1, or 2^63 - 1. The Rust lacks the cap here.
pub fn set_irrelevant_change(t: &mut [u64], number: i64) -> Result<Option<Forced>, Refusal>
    requires { GoodProxy t.old }
    ensures proxy_answers { ProxyAnswers result t.new (irrelevant number (proxy_of t.old)) }
    ensures good_proxy { GoodProxy t.new }
{
    let n = number_of(number).ok_or(Refusal::NoNumber)?;
    if n < t[BASE] {
        return Ok(None);
    }
    Ok(base::track(t, n, Mark::NotAvailable))
}

// The numbers from `from` until before `until` are not available. Refused with 5: a range with its ends the wrong way round.
pub fn irrelevant_changes_range(
    t: &mut [u64],
    from: i64,
    until: i64,
) -> Result<Option<Forced>, Refusal>
    requires { GoodProxy t.old }
    ensures proxy_answers { ProxyAnswers result t.new (irrelevant_range from until (proxy_of t.old)) }
    ensures good_proxy { GoodProxy t.new }
{
    if until < from {
        return Err(Refusal::BackwardRange);
    }
    let a = natural(from);
    let b = natural(until);
    if a <= t[BASE] {
        range::skip_to(t, b);
        return Ok(None);
    }
    Ok(range::range_above(t, a, b))
}

// All numbers below smallest are not available. Refused with 5: one below 0.
pub fn irrelevant_changes_up_to(t: &mut [u64], smallest: i64) -> Result<Option<Forced>, Refusal>
    requires { GoodProxy t.old }
    ensures proxy_answers { ProxyAnswers result t.new (up_to smallest (proxy_of t.old)) }
    ensures good_proxy { GoodProxy t.new }
{
    irrelevant_changes_range(t, 0, smallest)
}
