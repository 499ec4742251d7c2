// The writer proxy. words: the record, 775 of them from set-up on. A call that changes it reports a forced step by its old and
// new base, both 0 where there was none.
ghost use Rattle.std.specs.Prelude.{◌≡◌, ◌≤◌, length, take};
ghost use Rattle.outcome.specs.Outcome.{refusal};
ghost use Rattle.proxy_record.specs.Rules.{GoodProxy};
ghost use Rattle.proxy_record.specs.Words.{proxy_of, proxy_size};
ghost use Rattle.writer_proxy.specs.SetUp.{set_up_proxy};
ghost use Rattle.writer_proxy.specs.Calls.{received, irrelevant, irrelevant_range, up_to};
ghost use Rattle.writer_proxy.specs.Queries.{ignored, status_of, last_received};
ghost use Rattle.writer_proxy.specs.Missing.{missing_listed};
ghost use Rattle.ack_nack_counter.specs.Counter.{next_count};
ghost use Rattle.drucenal.specs.ProxyExports.{Replies, ListsMissing, status_number, status_time, last_number, last_time};

#[unsafe(no_mangle)]
pub extern "C" fn drucenal_proxy_set_up(words: &mut [u64]) -> u32
    ensures value { (result ≡ refusal (set_up_proxy words.old).answer) × (words.new ≡ (set_up_proxy words.old).words) }
    ensures good_proxy { proxy_size ≤ length words.old → GoodProxy (take proxy_size words.new) }
{
    drucenal::proxy::drucenal_proxy_set_up(words)
}

#[unsafe(no_mangle)]
pub extern "C" fn drucenal_proxy_received_changes_add(
    words: &mut [u64],
    number: i64,
    time: u64,
    old: &mut u64,
    new: &mut u64,
) -> u32
    requires { GoodProxy words.old }
    ensures { Replies (received number time (proxy_of words.old)) old.old new.old result old.new new.new words.new }
{
    drucenal::proxy::drucenal_proxy_received_changes_add(words, number, time, old, new)
}

#[unsafe(no_mangle)]
pub extern "C" fn drucenal_proxy_set_irrelevant_change(
    words: &mut [u64],
    number: i64,
    old: &mut u64,
    new: &mut u64,
) -> u32
    requires { GoodProxy words.old }
    ensures { Replies (irrelevant number (proxy_of words.old)) old.old new.old result old.new new.new words.new }
{
    drucenal::proxy::drucenal_proxy_set_irrelevant_change(words, number, old, new)
}

#[unsafe(no_mangle)]
pub extern "C" fn drucenal_proxy_irrelevant_changes_range(
    words: &mut [u64],
    from: i64,
    until_before: i64,
    old: &mut u64,
    new: &mut u64,
) -> u32
    requires { GoodProxy words.old }
    ensures { Replies (irrelevant_range from until_before (proxy_of words.old)) old.old new.old result old.new new.new words.new }
{
    drucenal::proxy::drucenal_proxy_irrelevant_changes_range(words, from, until_before, old, new)
}

#[unsafe(no_mangle)]
pub extern "C" fn drucenal_proxy_irrelevant_changes_up_to(
    words: &mut [u64],
    smallest: i64,
    old: &mut u64,
    new: &mut u64,
) -> u32
    requires { GoodProxy words.old }
    ensures { Replies (up_to smallest (proxy_of words.old)) old.old new.old result old.new new.new words.new }
{
    drucenal::proxy::drucenal_proxy_irrelevant_changes_up_to(words, smallest, old, new)
}

#[unsafe(no_mangle)]
pub extern "C" fn drucenal_proxy_all_ackable_before(words: &[u64]) -> u64
    requires { GoodProxy words.now }
    ensures { result ≡ (proxy_of words.now).base }
{
    drucenal::proxy::drucenal_proxy_all_ackable_before(words)
}

#[unsafe(no_mangle)]
pub extern "C" fn drucenal_proxy_should_ignore_change(words: &[u64], number: i64) -> bool
    requires { GoodProxy words.now }
    ensures { result ≡ ignored number (proxy_of words.now) }
{
    drucenal::proxy::drucenal_proxy_should_ignore_change(words, number)
}

// 0 untracked, 1 not available, 2 received; the time is written for 2 alone.
#[unsafe(no_mangle)]
pub extern "C" fn drucenal_proxy_change_status(words: &[u64], number: i64, time: &mut u64) -> u32
    requires { GoodProxy words.now }
    ensures { (result ≡ status_number (status_of number (proxy_of words.now))) × (time.new ≡ status_time (status_of number (proxy_of words.now)) time.old) }
{
    drucenal::proxy::drucenal_proxy_change_status(words, number, time)
}

// The number, 0 for none; the time is written where there is one.
#[unsafe(no_mangle)]
pub extern "C" fn drucenal_proxy_last_received(words: &[u64], time: &mut u64) -> u64
    requires { GoodProxy words.now }
    ensures { (result ≡ last_number (last_received (proxy_of words.now))) × (time.new ≡ last_time (last_received (proxy_of words.now)) time.old) }
{
    drucenal::proxy::drucenal_proxy_last_received(words, time)
}

#[unsafe(no_mangle)]
pub extern "C" fn drucenal_proxy_missing_seqnums(
    words: &[u64],
    start: i64,
    end: i64,
    out: &mut [i64],
    listed: &mut usize,
) -> u32
    requires { GoodProxy words.now }
    ensures { ListsMissing (missing_listed start end (proxy_of words.now) out.old) listed.old result listed.new out.new }
{
    drucenal::proxy::drucenal_proxy_missing_seqnums(words, start, end, out, listed)
}

// The count that is handed out; the caller's own is moved on where it lies.
#[unsafe(no_mangle)]
pub extern "C" fn drucenal_next_ack_nack_sequence_number(count: &mut i32) -> i32
    ensures { (result ≡ count.old) × (count.new ≡ next_count count.old) }
{
    drucenal::proxy::drucenal_next_ack_nack_sequence_number(count)
}
