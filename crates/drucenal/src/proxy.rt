// The writer proxy. words: the record, 775 of them from set-up on. A call that changes it reports a forced step by its old and
// new base, both 0 where there was none: as C has it, and so are the numbers for a status.
ghost use Rattle.std.specs.Prelude.{◌≡◌, ◌≤◌, length, take};
ghost use Rattle.outcome.specs.Outcome.{refusal};
ghost use Rattle.proxy_record.specs.Rules.{GoodProxy};
ghost use Rattle.proxy_record.specs.Words.{proxy_of, proxy_size};
ghost use Rattle.proxy_steps.specs.Steps.{report_said};
ghost use Rattle.writer_proxy.specs.SetUp.{set_up_proxy};
ghost use Rattle.writer_proxy.specs.Calls.{received, irrelevant, irrelevant_range, up_to};
ghost use Rattle.writer_proxy.specs.Queries.{ignored, status_of, last_received};
ghost use Rattle.writer_proxy.specs.Missing.{missing_listed};
ghost use Rattle.ack_nack_counter.specs.Counter.{next_count};
ghost use Rattle.drucenal.specs.ProxyExports.{old_shown, new_shown, Replies, ListsMissing, status_number, status_time, last_number, last_time};

use crate::numbers::{give, refusal_number};
use outcome::Refusal;
use proxy_record::Mark;
use proxy_steps::Forced;

pub fn drucenal_proxy_set_up(words: &mut [u64]) -> u32
    ensures value { (result ≡ refusal (set_up_proxy words.old).answer) × (words.new ≡ (set_up_proxy words.old).words) }
    ensures good_proxy { proxy_size ≤ length words.old → GoodProxy (take proxy_size words.new) }
{
    refusal_number(writer_proxy::set_up::set_up(words))
}

// What became of a call: its refusal, 0 where it has none, and the forced step behind the two references.
fn tell(report: Result<Option<Forced>, Refusal>, old: &mut u64, new: &mut u64) -> u32
    ensures { (result ≡ refusal (report_said report)) × (old.new ≡ old_shown (report_said report) old.old) × (new.new ≡ new_shown (report_said report) new.old) }
{
    match report {
        Ok(None) => {
            *old = 0;
            *new = 0;
            0
        }
        Ok(Some(step)) => {
            *old = step.old;
            *new = step.new;
            0
        }
        Err(refusal) => refusal.into(),
    }
}

pub fn drucenal_proxy_received_changes_add(
    words: &mut [u64],
    number: i64,
    time: u64,
    old: &mut u64,
    new: &mut u64,
) -> u32
    requires { GoodProxy words.old }
    ensures { Replies (received number time (proxy_of words.old)) old.old new.old result old.new new.new words.new }
{
    let r = writer_proxy::received::received_changes_add(words, number, time);
    tell(r, old, new)
}

pub fn drucenal_proxy_set_irrelevant_change(
    words: &mut [u64],
    number: i64,
    old: &mut u64,
    new: &mut u64,
) -> u32
    requires { GoodProxy words.old }
    ensures { Replies (irrelevant number (proxy_of words.old)) old.old new.old result old.new new.new words.new }
{
    let r = writer_proxy::irrelevant::set_irrelevant_change(words, number);
    tell(r, old, new)
}

pub fn drucenal_proxy_irrelevant_changes_range(
    words: &mut [u64],
    from: i64,
    until_before: i64,
    old: &mut u64,
    new: &mut u64,
) -> u32
    requires { GoodProxy words.old }
    ensures { Replies (irrelevant_range from until_before (proxy_of words.old)) old.old new.old result old.new new.new words.new }
{
    let r = writer_proxy::irrelevant::irrelevant_changes_range(words, from, until_before);
    tell(r, old, new)
}

pub fn drucenal_proxy_irrelevant_changes_up_to(
    words: &mut [u64],
    smallest: i64,
    old: &mut u64,
    new: &mut u64,
) -> u32
    requires { GoodProxy words.old }
    ensures { Replies (up_to smallest (proxy_of words.old)) old.old new.old result old.new new.new words.new }
{
    let r = writer_proxy::irrelevant::irrelevant_changes_up_to(words, smallest);
    tell(r, old, new)
}

pub fn drucenal_proxy_all_ackable_before(words: &[u64]) -> u64
    requires { GoodProxy words.now }
    ensures { result ≡ (proxy_of words.now).base }
{
    writer_proxy::query::all_ackable_before(words)
}

pub fn drucenal_proxy_should_ignore_change(words: &[u64], number: i64) -> bool
    requires { GoodProxy words.now }
    ensures { result ≡ ignored number (proxy_of words.now) }
{
    writer_proxy::query::should_ignore_change(words, number)
}

// 0 untracked, 1 not available, 2 received; the time is written for 2 alone.
pub fn drucenal_proxy_change_status(words: &[u64], number: i64, time: &mut u64) -> u32
    requires { GoodProxy words.now }
    ensures { (result ≡ status_number (status_of number (proxy_of words.now))) × (time.new ≡ status_time (status_of number (proxy_of words.now)) time.old) }
{
    match writer_proxy::query::change_status(words, number) {
        None => 0,
        Some(Mark::NotAvailable) => 1,
        Some(Mark::Received(t)) => {
            *time = t;
            2
        }
    }
}

// The number, 0 for none; the time is written where there is one.
pub fn drucenal_proxy_last_received(words: &[u64], time: &mut u64) -> u64
    requires { GoodProxy words.now }
    ensures { (result ≡ last_number (last_received (proxy_of words.now))) × (time.new ≡ last_time (last_received (proxy_of words.now)) time.old) }
{
    match writer_proxy::query::last_received(words) {
        None => 0,
        Some((n, t)) => {
            *time = t;
            n
        }
    }
}

pub fn drucenal_proxy_missing_seqnums(
    words: &[u64],
    start: i64,
    end: i64,
    out: &mut [i64],
    listed: &mut usize,
) -> u32
    requires { GoodProxy words.now }
    ensures { ListsMissing (missing_listed start end (proxy_of words.now) out.old) listed.old result listed.new out.new }
{
    give(
        writer_proxy::missing::missing_seqnums(words, start, end, out),
        listed,
    )
}

// The count that is handed out; the caller's own is moved on where it lies.
pub fn drucenal_next_ack_nack_sequence_number(count: &mut i32) -> i32
    ensures { (result ≡ count.old) × (count.new ≡ next_count count.old) }
{
    ack_nack_counter::next_ack_nack_count(count)
}
