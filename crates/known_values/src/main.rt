// Document 01's "Known values at the edges" that are not in the table, and those of its "Easy errors" that the table does not show, run and written out.
// A write that fails is passed over: the program has nowhere else to say so.
#![tactic(auto)]

ghost use Rattle.std.specs.Prelude.{◌≡◌, length};
ghost use Rattle.assembly_record.specs.Sizes.{assembler_size};
ghost use Rattle.assembly_record.specs.Rules.{GoodAssembler};

use fragment_assembler::fragment::{Answer, DataFrag, new_datafrag};
use number_set::set::SequenceNumberSet;
use outcome::Refusal;
use sequence_number::ByteOrder;

// Text and numbers are a write each: where the output takes no more, other bytes would be passed over.
fn say(rt: &impl Print, text: &str) {
    let _ = rt.write_all(text.as_bytes());
}

fn number(rt: &impl Print, n: impl Into<u64>) {
    let n: u64 = n.into();
    let _ = print!(rt; "{n}");
}

// A set of so many bits at the front of 44 bytes: 256 read, 257 are refused.
fn count_of_bits(rt: &impl Print, low: u8) {
    let mut bytes = [0u8; 44];
    bytes[7] = 1;
    bytes[10] = 1;
    bytes[11] = low;
    let read = SequenceNumberSet::read_from(ByteOrder::Big, &bytes);
    say(rt, "count ");
    number(rt, 256 + u64::from(low));
    match read {
        Ok(_) => say(rt, ": reads\n"),
        Err(refusal) => {
            say(rt, ": refused ");
            number(rt, refusal.number());
            say(rt, "\n");
        }
    }
}

// What a fragment call answered.
fn told(rt: &impl Print, reply: Result<Answer, Refusal>) {
    match reply {
        Err(refusal) => {
            say(rt, "refused ");
            number(rt, refusal.number());
        }
        Ok(Answer::Kept) => say(rt, "kept"),
        Ok(
            Answer::Returned {
                number: n,
                place,
                length,
            },
        ) => {
            say(rt, "returned ");
            number(rt, n);
            say(rt, " from place ");
            number(rt, place as u64);
            say(rt, ", length ");
            number(rt, length);
        }
        Ok(Answer::Dropped(n)) => {
            say(rt, "dropped ");
            number(rt, n);
        }
    }
}

// Fragments of a sample of two, of four bytes each.
fn frag(start: u32, count: u16, payload: &[u8]) -> DataFrag<'_> {
    DataFrag {
        fragment_size: 4,
        data_size: 8,
        start,
        count,
        payload,
    }
}

// The numbers 1 to 128 opened, each with the first of its two fragments.
fn open_all(t: &mut [u64], area: &mut [u8])
    requires { GoodAssembler t.old }
    ensures { GoodAssembler t.new }
{
    for i in 1..129 {
        let _ = new_datafrag(t, area, 0, i, frag(1, 1, b"abcd"));
    }
}

// A 129th beside them, with so many of its two fragments: the answer, and how many are in assembly after it.
fn one_more(
    rt: &impl Print,
    what: &str,
    t: &mut [u64],
    area: &mut [u8],
    reliable: bool,
    fragments: u16,
)
    requires { length t.old ≡ assembler_size }
{
    say(rt, what);
    let Ok(()) = fragment_assembler::set_up::set_up(t, 4, reliable, 8) else {
        return;
    };
    open_all(t, area);
    told(
        rt,
        new_datafrag(t, area, 0, 129, frag(1, fragments, b"abcdefgh")),
    );
    say(rt, "; in assembly: ");
    number(rt, fragment_assembler::query::in_assembly(t) as u64);
    say(rt, "\n");
}

// The bytes that the view shows.
fn show(rt: &impl Print, bytes: &[u8]) {
    for byte in bytes {
        say(rt, " ");
        let _ = print!(rt; "{byte:02x}");
    }
    say(rt, "\n");
}

// A place that held a block is opened again, and its second fragment comes with no bytes: zeros, and nothing old.
fn reopened(rt: &impl Print, t: &mut [u64], area: &mut [u8])
    requires { length t.old ≡ assembler_size }
{
    let Ok(()) = fragment_assembler::set_up::set_up(t, 4, true, 8) else {
        return;
    };
    let _ = new_datafrag(t, area, 0, 1, frag(1, 2, b"abcdefgh"));
    say(rt, "a block:");
    show(rt, fragment_assembler::view::view(t, area, 0, 8));
    let _ = new_datafrag(t, area, 0, 2, frag(1, 1, b"wxyz"));
    let _ = new_datafrag(t, area, 0, 2, frag(2, 1, b""));
    say(rt, "its place reopened:");
    show(rt, fragment_assembler::view::view(t, area, 0, 8));
}

// A heartbeat that starts below the base: the list starts at the base.
fn missing_from_base(rt: &impl Print, t: &mut [u64], list: &mut [i64])
    requires { length t.old ≡ 775 }
{
    let _ = writer_proxy::set_up::set_up(t);
    let _ = writer_proxy::received::received_changes_add(t, 1, 10);
    let _ = writer_proxy::received::received_changes_add(t, 3, 11);
    match writer_proxy::missing::missing_seqnums(t, 1, 4, list) {
        Err(refusal) => {
            say(rt, "refused ");
            number(rt, refusal.number());
        }
        Ok(n) => {
            say(rt, "missing of 1 to 4, base ");
            number(rt, writer_proxy::query::all_ackable_before(t));
            say(rt, ": ");
            number(rt, n as u64);
        }
    }
    say(rt, "\n");
}

fn main(rt: HostRuntime) {
    count_of_bits(&rt, 0);
    count_of_bits(&rt, 1);
    let mut record = [0u64; 906];
    let mut area = [0u8; 1032];
    one_more(
        &rt,
        "reliable, an unfinished 129th: ",
        &mut record,
        &mut area,
        true,
        1,
    );
    one_more(
        &rt,
        "best effort, an unfinished 129th: ",
        &mut record,
        &mut area,
        false,
        1,
    );
    one_more(
        &rt,
        "reliable, a whole 129th: ",
        &mut record,
        &mut area,
        true,
        2,
    );
    one_more(
        &rt,
        "best effort, a whole 129th: ",
        &mut record,
        &mut area,
        false,
        2,
    );
    reopened(&rt, &mut record, &mut area);
    let mut proxy = [0u64; 775];
    let mut list = [0i64; 4];
    missing_from_base(&rt, &mut proxy, &mut list);
}
