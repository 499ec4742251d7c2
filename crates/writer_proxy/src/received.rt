// A number received.
ghost use Rattle.std.specs.Prelude.{◌<◌, Ok};
ghost use Rattle.sequence_number.specs.Number.{top};
ghost use Rattle.proxy_record.specs.Rules.{GoodProxy};
ghost use Rattle.proxy_record.specs.Words.{proxy_of};
ghost use Rattle.proxy_steps.specs.Steps.{ProxyAnswers};
ghost use Rattle.writer_proxy.specs.Calls.{received_at, received};

use outcome::Refusal;
use proxy_record::Mark;
use proxy_record::layout::{BASE, COUNT};
use proxy_steps::{Forced, base};
use sequence_number::number::number_of;

// A number came at a time, below the base, at it or above it.
fn received_any(t: &mut [u64], n: u64, time: u64) -> Option<Forced>
    requires { GoodProxy t.old × (n < top) }
    ensures { ProxyAnswers (Ok result) t.new (received_at n time (proxy_of t.old)) }
{
    base::note(t, n, time);
    if n < t[BASE] {
        return None;
    }
    base::track(t, n, Mark::Received(time))
}

// The same as `received_any`, with a short way for the number that is waited for while nothing is tracked.
fn received_at(t: &mut [u64], n: u64, time: u64) -> Option<Forced>
    requires { GoodProxy t.old × (n < top) }
    ensures { ProxyAnswers (Ok result) t.new (received_at n time (proxy_of t.old)) }
{
    if n == t[BASE] && t[COUNT] == 0 {
        base::note(t, n, time);
        t[BASE] = n + 1;
        return None;
    }
    received_any(t, n, time)
}

// A number came at a time. Refused with 4: a number below 1, or 2^63 - 1.
pub fn received_changes_add(
    t: &mut [u64],
    number: i64,
    time: u64,
) -> Result<Option<Forced>, Refusal>
    requires { GoodProxy t.old }
    ensures proxy_answers { ProxyAnswers result t.new (received number time (proxy_of t.old)) }
    ensures good_proxy { GoodProxy t.new }
{
    let n = number_of(number).ok_or(Refusal::NoNumber)?;
    Ok(received_at(t, n, time))
}
