// The steps that calls share: the last received number, the base moved on, the cap, a number tracked.
ghost use Rattle.std.specs.Prelude.{◌≡◌, ◌<◌, ◌≤◌, Ok};
ghost use Rattle.sequence_number.specs.Number.{top};
ghost use Rattle.proxy_record.specs.Rules.{GoodProxyUpTo, GoodProxy};
ghost use Rattle.proxy_record.specs.Entries.{marked_entry};
ghost use Rattle.proxy_record.specs.Words.{column_size, proxy_words, proxy_of};
ghost use Rattle.proxy_steps.specs.Steps.{noted, put, move_on, discard, cut_to, followed, ended_proxy, ProxyAnswers};

use crate::Forced;
use proxy_record::layout::{BASE, CAP, COUNT, LAST, TIME};
use proxy_record::{Mark, rows};

// The last received number follows a greater one.
pub fn note(t: &mut [u64], n: u64, time: u64)
    requires { GoodProxy t.old }
    ensures { t.new ≡ proxy_words (noted n time (proxy_of t.old)) }
{
    if t[LAST] < n {
        t[LAST] = n;
        t[TIME] = time;
    }
}

// The base becomes b and moves on to the first untracked number, and tracked numbers below it go: at once, so that the table moves once.
pub(crate) fn advance_ack_base(t: &mut [u64], b: u64)
    requires { GoodProxy t.old × ((proxy_of t.old).base ≤ b) × (b ≤ top) }
    ensures { t.new ≡ proxy_words (discard (move_on (cut_to b (proxy_of t.old)))) }
{
    let k = rows::place(t, b);
    let r = rows::run_from(t, k, b);
    rows::shut_rows(t, k + r);
    t[BASE] = b + r as u64;
}

// Above 256 tracked, the lowest goes and the base becomes at least one more.
pub(crate) fn enforce_change_map_cap(t: &mut [u64]) -> Option<Forced>
    requires { GoodProxyUpTo column_size t.old }
    ensures { ProxyAnswers (Ok result) t.new (ended_proxy (proxy_of t.old) (proxy_of t.old)) }
{
    if t[COUNT] <= CAP as u64 {
        return None;
    }
    let old = t[BASE];
    let new = old.max(rows::number_at(t, 0) + 1);
    rows::shut_rows(t, 1);
    t[BASE] = new;
    Some(Forced { old, new })
}

// A number at the base or above it is put, and the cap is last. The base's own number is not put: the base steps over it.
pub fn track(t: &mut [u64], n: u64, mark: Mark) -> Option<Forced>
    requires { GoodProxy t.old × ((proxy_of t.old).base ≤ n) × (n < top) }
    ensures { ProxyAnswers (Ok result) t.new (ended_proxy (proxy_of t.old) (followed n (put (marked_entry n mark) (proxy_of t.old)))) }
{
    if n == t[BASE] {
        advance_ack_base(t, n + 1);
        return None;
    }
    rows::put(t, n, mark);
    enforce_change_map_cap(t)
}
