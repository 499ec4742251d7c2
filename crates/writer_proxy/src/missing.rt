// What is missing of the numbers that a heartbeat names.
ghost use Rattle.std.specs.Prelude.{◌≡◌, map, ◌-◌, ◌≤◌, length, take, pos};
ghost use Rattle.sequence_number.specs.Number.{top};
ghost use Rattle.outcome.specs.Lent.{over};
ghost use Rattle.proxy_record.specs.Rules.{GoodProxy};
ghost use Rattle.proxy_record.specs.Words.{proxy_of, tracked_in};
ghost use Rattle.writer_proxy.specs.Missing.{untracked_from, missing_listed};
ghost use Rattle.outcome.specs.Refusal.{said};

use outcome::Refusal;
use proxy_record::layout::{BASE, COUNT};
use proxy_record::rows;
use sequence_number::number::natural;

// How many of the numbers from lo until before hi are missing: told by the places of the two, so that none is walked.
fn count_missing(t: &[u64], lo: u64, hi: u64) -> u64
    requires { GoodProxy t.now × (lo ≤ hi) }
    ensures { result ≡ length (untracked_from lo (hi - lo) (tracked_in t.now)) }
{
    let a = rows::place(t, lo);
    let b = rows::place(t, hi);
    (hi - lo) - (b - a) as u64
}

// The missing numbers from lo until before hi, from the front of a list, as many as it has room for.
fn list_missing(t: &[u64], lo: u64, hi: u64, out: &mut [i64])
    requires { GoodProxy t.now × (lo ≤ hi) × (hi ≤ top) }
    ensures { out.new ≡ over (take (length out.old) (map pos (untracked_from lo (hi - lo) (tracked_in t.now)))) out.old }
{
    // i and w are counted by hand: each moves on at its own numbers only, and of a list written through a `zip` the library says nothing.
    let len = t[COUNT] as usize;
    let mut i = rows::place(t, lo);
    let mut w = 0;
    for n in lo..hi {
        if i < len && rows::number_at(t, i) == n {
            i += 1;
            continue;
        }
        if w == out.len() {
            return;
        }
        out[w] = n as i64;
        w += 1;
    }
}

// The missing numbers of a heartbeat's range, its end included, to the lent list. Refused with 4: the end is 2^63 - 1; then with 3: the list is too short.
pub fn missing_seqnums(t: &[u64], start: i64, end: i64, out: &mut [i64]) -> Result<usize, Refusal>
    requires { GoodProxy t.now }
    ensures { (said result ≡ (missing_listed start end (proxy_of t.now) out.old).answer) × (out.new ≡ (missing_listed start end (proxy_of t.now) out.old).list) }
{
    if end == i64::MAX {
        return Err(Refusal::NoNumber);
    }
    let lo = t[BASE].max(natural(start));
    let hi = lo.max(natural(end) + 1);
    let count = count_missing(t, lo, hi);
    if (out.len() as u64) < count {
        return Err(Refusal::ShortOutput);
    }
    list_missing(t, lo, hi, out);
    Ok(count as usize)
}
