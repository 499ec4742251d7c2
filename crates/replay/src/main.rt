// Reads document 01's replay lines from standard input and writes the answer to each to standard output, as it goes.
// Input and lines may have any length. The work is that of crate `replay_lines`; here it is fed and what it says is written.
#![tactic(auto)]

ghost use Rattle.std.specs.Prelude.{◌≡◌, ◌≤◌, length, take};
ghost use Rattle.outcome.specs.Lent.{over};
ghost use Rattle.proxy_record.specs.State.{fresh_proxy};
ghost use Rattle.proxy_record.specs.Words.{proxy_words};
ghost use Rattle.proxy_record.specs.Rules.{GoodProxy};
ghost use Rattle.replay_lines.specs.Feed.{feeding, lent, fed_through, said_through};
ghost use Rattle.replay.specs.Run.{FedFront, FedSome, RanToEnd};

use line_text::hold::{Held, front};
use proxy_record::layout::PROXY_WORDS;
use replay_lines::answer::ROOM;
use replay_lines::feed::{HELD, Kept, PIECE, SAID, close, feed};
use std::io::Read;
use writer_proxy::set_up::set_up;

// All that the program works on: the proxy's record, what is kept from piece to piece, a piece of input, and the answers to its lines.
#[derive(Drop)]
struct Replay {
    words: [u64; PROXY_WORDS],
    kept: Kept,
    input: [u8; PIECE],
    out: [u8; SAID],
}

// Zeros, in which answers are then written.
fn said_buffer() -> [u8; SAID]
    ensures { 313432 ≡ length result }
{
    [0; SAID]
}

// All of the bytes to standard output; a write that fails is passed over, so that the input is read to its end all the same.
fn write(rt: &impl Print, bytes: &[u8]) {
    let _ = rt.write_all(bytes);
}

// How many bytes a read gave: none at the end of the input, and none where the read fails, which counts as the end.
fn read(reader: &mut impl Read, input: &mut [u8; PIECE]) -> usize
    ensures { result ≤ length input.new }
{
    reader.read(input).unwrap_or(0)
}

// `GoodProxy` is a clause here: the words are a record only from set-up on.
impl Replay {
    // What a read gave, the first so many bytes of the input, answered, all of it.
    fn take_piece(&mut self, rt: &impl Print, end: usize)
        requires { GoodProxy self.old.words }
        ensures lent_after { lent self.new.words self.new.kept ≡ fed_through (take end self.old.input) (lent self.old.words self.old.kept) }
        ensures out_after { self.new.out ≡ over (said_through (take end self.old.input) (lent self.old.words self.old.kept)) self.old.out }
        ensures input_after { self.new.input ≡ self.old.input }
        ensures good_proxy { GoodProxy self.new.words }
    {
        let piece = front(&self.input, end);
        let fed = feed(&mut self.words, &mut self.kept, piece, &mut self.out);
        write(rt, front(&self.out, fed.wrote));
    }

    // A read, answered: whether the input goes on.
    fn take_some(&mut self, reader: &mut impl Read, rt: &impl Print) -> bool
        requires { GoodProxy self.old.words }
        ensures fed_front { FedFront self.new.input (lent self.old.words self.old.kept) (lent self.new.words self.new.kept) }
        ensures good_proxy { GoodProxy self.new.words }
    {
        let end = read(reader, &mut self.input);
        if end > 0 {
            self.take_piece(rt, end);
        }
        end > 0
    }

    // All input. A proved loop has to end, and nothing says that the input does: no run uses its turns up.
    fn take_input(&mut self, reader: &mut impl Read, rt: &impl Print)
        requires { GoodProxy self.old.words }
        ensures fed_some { FedSome (lent self.old.words self.old.kept) (lent self.new.words self.new.kept) }
        ensures good_proxy { GoodProxy self.new.words }
    {
        for _ in 0..u64::MAX {
            if !self.take_some(reader, rt) {
                return;
            }
        }
    }

    // All input, and a last line that lacks its line feed.
    fn take_all(&mut self, reader: &mut impl Read, rt: &impl Print)
        requires { GoodProxy self.old.words }
        ensures { RanToEnd (lent self.old.words self.old.kept) (feeding self.new.words self.new.kept.list self.new.kept.held.bytes 0) self.new.out }
    {
        self.take_input(reader, rt);
        let wrote = close(
            &mut self.words,
            &mut self.kept.list,
            &self.kept.held,
            &mut self.out,
        );
        write(rt, front(&self.out, wrote));
    }

    // The same from a fresh proxy on, and with nothing held of a line.
    fn run(&mut self, reader: &mut impl Read, rt: &impl Print)
        ensures { RanToEnd (feeding (proxy_words fresh_proxy) self.old.kept.list self.old.kept.held.bytes 0) (feeding self.new.words self.new.kept.list self.new.kept.held.bytes 0) self.new.out }
    {
        self.kept.held.count = 0;
        // These words are as many as a record has, so set-up takes them.
        let _ = set_up(&mut self.words);
        self.take_all(reader, rt);
    }
}

fn main(rt: HostRuntime) {
    let held = Held {
        bytes: [0; HELD],
        count: 0,
    };
    let mut replay = Replay {
        words: [0; PROXY_WORDS],
        kept: Kept {
            list: [0; ROOM],
            held,
        },
        input: [0; PIECE],
        out: said_buffer(),
    };
    replay.run(&mut rt.reader(), &rt);
}
