// The acknack count: handed out, and moved on where the caller keeps it.
#![tactic(auto)]

ghost use Rattle.std.specs.Prelude.{◌≡◌};
ghost use Rattle.ack_nack_counter.specs.Counter.{next_count, fresh_counter, handed_out};

#[derive(Clone, Copy, Debug, PartialEq, Eq)]
pub struct AckNackCounter {
    pub count: i32,
}

// What is handed out, and the counter after it.
#[derive(Clone, Copy, Debug, PartialEq, Eq)]
pub struct HandedOut {
    pub count: i32,
    pub counter: AckNackCounter,
}

// The count after n: "steps by wrapping add on purpose".
fn next_count(n: i32) -> i32
    ensures { result ≡ next_count n }
{
    n.wrapping_add(1)
}

impl AckNackCounter {
    // The counter at first.
    pub fn new() -> AckNackCounter
        ensures { result ≡ fresh_counter }
    {
        AckNackCounter { count: 0 }
    }

    pub fn next_ack_nack_sequence_number(self) -> HandedOut
        ensures { result ≡ handed_out self }
    {
        HandedOut {
            count: self.count,
            counter: AckNackCounter {
                count: next_count(self.count),
            },
        }
    }
}

// The same over a plain number, for callers that keep no struct.
pub fn next_ack_nack_count(count: &mut i32) -> i32
    ensures { (result ≡ count.old) × (count.new ≡ next_count count.old) }
{
    let n = *count;
    *count = next_count(n);
    n
}

// The caller's own counter record, moved on where it lies: C has the plain number, Rust the record.
pub fn next_ack_nack(counter: &mut AckNackCounter) -> i32
    ensures { (result ≡ counter.old.count) × (counter.new ≡ (handed_out counter.old).counter) }
{
    next_ack_nack_count(&mut counter.count)
}
