// The acknack count.
use crate::out::{end, first, next};
use ack_nack_counter::{AckNackCounter, next_ack_nack_count};

// Count: handed out and after it, by the counter as a value, then by the plain number.
pub(crate) fn call(rt: &impl Print, count: i32) {
    let out = AckNackCounter { count }.next_ack_nack_sequence_number();
    first(rt, out.count);
    next(rt, out.counter.count);
    let mut plain = count;
    let given = next_ack_nack_count(&mut plain);
    next(rt, given);
    next(rt, plain);
    end(rt);
}
