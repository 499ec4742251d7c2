// Input in pieces of any size, cut into lines: no more is held of a line than shows that it is too long.
ghost use Rattle.std.specs.Prelude.{◌∷◌, [], ◌≤◌, length};
ghost use Rattle.proxy_record.specs.Rules.{GoodProxy};
ghost use Rattle.replay_lines.specs.Answer.{answer_most};
ghost use Rattle.replay_lines.specs.Feed.{feeding, lent, lacking, FedWith, PieceFed};
ghost use Rattle.replay_lines.specs.Inner.{said_most};

use crate::answer::{ANSWER, ROOM, answer};
use line_text::hold::{Held, front, hold};

// How many bytes of a line are held: one more than a line that reads has.
pub const HELD: usize = 35;

// How many bytes of a piece one call takes.
pub const PIECE: usize = 2048;

// 148 * (PIECE + HELD) + ANSWER: 35 bytes may ask for 5,148, so each for 148 at most, those held before among them, and room for one answer is always left.
pub const SAID: usize = 313432;

// What is kept from piece to piece beside the proxy's record: the list that missing numbers go to, and what is held of a line. It is not copied.
#[derive(Drop)]
pub struct Kept {
    pub list: [i64; ROOM],
    pub held: Held<HELD>,
}

// How many bytes of a piece were taken, and how many were written.
#[derive(Clone, Copy)]
pub struct Fed {
    pub taken: usize,
    pub wrote: usize,
}

// How many bytes of a line are held after a byte, and how many were written.
#[derive(Clone, Copy)]
struct Step {
    count: usize,
    wrote: usize,
}

// The end of the line that is held: how many bytes were written. None of it is held any more; the count is the caller's to set.
fn end_line(words: &mut [u64], list: &mut [i64; ROOM], held: &Held<HELD>, out: &mut [u8]) -> usize
    requires { GoodProxy words.old × (answer_most ≤ length out.old) }
    ensures fed_with { FedWith result (feeding words.new list.new held.now.bytes 0) out.old out.new (10 ∷ []) (feeding words.old list.old held.now.bytes held.now.count) }
    ensures good_proxy { GoodProxy words.new }
{
    answer(words, held.line(), list, out)
}

// One byte, where count bytes are held: a line feed ends the line that is held, any other is held or passed over. The count goes from byte to
// byte by value, since in `kept` it would be stored and read back for each.
fn take_byte(words: &mut [u64], kept: &mut Kept, count: usize, byte: u8, out: &mut [u8]) -> Step
    requires { GoodProxy words.old × (answer_most ≤ length out.old) }
    ensures fed_with { FedWith result.wrote (feeding words.new kept.new.list kept.new.held.bytes result.count) out.old out.new (byte ∷ []) (feeding words.old kept.old.list kept.old.held.bytes count) }
    ensures good_proxy { GoodProxy words.new }
{
    if byte == b'\n' {
        kept.held.count = count;
        let wrote = end_line(words, &mut kept.list, &kept.held, out);
        return Step { count: 0, wrote };
    }
    let count = hold(&mut kept.held.bytes, count, byte);
    Step { count, wrote: 0 }
}

// The bytes of a piece, one by one, into a buffer that holds whatever they say. It is called and not inlined, so that the loop has the registers to
// itself: with the count by value a byte of a long line takes 1.1 ns in place of 1.8.
#[inline(never)]
fn take_bytes(words: &mut [u64], kept: &mut Kept, piece: &[u8], out: &mut [u8]) -> usize
    requires { GoodProxy words.old × (said_most (length piece.now) ≤ length out.old) }
    ensures fed_with { FedWith result (lent words.new kept.new) out.old out.new piece.now (lent words.old kept.old) }
    ensures good_proxy { GoodProxy words.new }
{
    let mut count = kept.held.count;
    let mut wrote = 0;
    for byte in piece {
        let step = take_byte(words, kept, count, *byte, &mut out[wrote..wrote + ANSWER]);
        count = step.count;
        wrote += step.wrote;
    }
    kept.held.count = count;
    wrote
}

// A piece of input: all of it, or its first PIECE bytes. A count past HELD holds them all.
pub fn feed(words: &mut [u64], kept: &mut Kept, piece: &[u8], out: &mut [u8; SAID]) -> Fed
    requires { GoodProxy words.old }
    ensures piece_fed { PieceFed result (lent words.new kept.new) out.old out.new piece.now (lent words.old kept.old) }
    ensures good_proxy { GoodProxy words.new }
{
    let first = front(piece, PIECE);
    let wrote = take_bytes(words, kept, first, out);
    Fed {
        taken: first.len(),
        wrote,
    }
}

// The end of the input: a last line that lacks its line feed is answered. How many bytes were written; the bytes held stay, and none counts any more.
pub fn close(
    words: &mut [u64],
    list: &mut [i64; ROOM],
    held: &Held<HELD>,
    out: &mut [u8; SAID],
) -> usize
    requires { GoodProxy words.old }
    ensures fed_with { FedWith result (feeding words.new list.new held.now.bytes 0) out.old out.new (lacking (feeding words.old list.old held.now.bytes held.now.count)) (feeding words.old list.old held.now.bytes held.now.count) }
    ensures good_proxy { GoodProxy words.new }
{
    if held.count == 0 {
        return 0;
    }
    end_line(words, list, held, out)
}
