// What a proxy shows. No query changes it, and none is refused.
ghost use Rattle.std.specs.Prelude.{◌≡◌, ◌<◌, length, get_or, IfSome, option_map};
ghost use Rattle.proxy_record.specs.Rules.{GoodProxy};
ghost use Rattle.proxy_record.specs.Words.{proxy_of, tracked_in};
ghost use Rattle.proxy_record.specs.Entries.{look};
ghost use Rattle.proxy_record.specs.Rows.{blank_entry};
ghost use Rattle.writer_proxy.specs.Queries.{status_of, ignored, last_received};

use proxy_record::layout::{BASE, COUNT, LAST, TIME};
use proxy_record::{Mark, rows};
use sequence_number::number::natural;

// The bound below which everything may be acknowledged: received, not available, or given up by a forced step.
pub fn all_ackable_before(t: &[u64]) -> u64
    requires { GoodProxy t.now }
    ensures { result ≡ (proxy_of t.now).base }
{
    t[BASE]
}

// The greatest number received, and its time: the Rust's `last_change_timestamp`, with the number. Nothing where none was received.
pub fn last_received(t: &[u64]) -> Option<(u64, u64)>
    requires { GoodProxy t.now }
    ensures { result ≡ last_received (proxy_of t.now) }
{
    if t[LAST] == 0 {
        return None;
    }
    Some((t[LAST], t[TIME]))
}

// The place of a number's entry, or nothing where it is not tracked.
fn find(t: &[u64], n: u64) -> Option<usize>
    requires { GoodProxy t.now }
    ensures within { IfSome result (λ at. at < length (tracked_in t.now)) }
    ensures shown { option_map (λ at. (get_or (tracked_in t.now) at blank_entry).mark) result ≡ look n (tracked_in t.now) }
{
    let at = rows::place(t, n);
    if at < t[COUNT] as usize && rows::number_at(t, at) == n {
        return Some(at);
    }
    None
}

// The mark of a tracked number; of a number below the base, tracked no more, nothing. Not in the Rust.
pub fn change_status(t: &[u64], number: i64) -> Option<Mark>
    requires { GoodProxy t.now }
    ensures { result ≡ status_of number (proxy_of t.now) }
{
    let at = find(t, natural(number))?;
    Some(rows::mark_at(t, at))
}

// Whether a number is below the base or tracked.
pub fn should_ignore_change(t: &[u64], number: i64) -> bool
    requires { GoodProxy t.now }
    ensures { result ≡ ignored number (proxy_of t.now) }
{
    let n = natural(number);
    n < t[BASE] || find(t, n).is_some()
}
