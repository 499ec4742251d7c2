// A line done on a proxy's record, and its answer line in a lent buffer.
ghost use Rattle.std.specs.Prelude.{◌≡◌, [], ◌∷◌, map, ◌≤◌, length};
ghost use Rattle.sequence_number.specs.Number.{top, nat_of};
ghost use Rattle.outcome.specs.Outcome.{refusal, done};
ghost use Rattle.outcome.specs.Lent.{over};
ghost use Rattle.proxy_record.specs.Rules.{GoodProxy};
ghost use Rattle.proxy_record.specs.Words.{proxy_of};
ghost use Rattle.proxy_steps.specs.Steps.{report_said};
ghost use Rattle.line_text.specs.Decimal.{started};
ghost use Rattle.replay_lines.specs.Frame.{parsed};
ghost use Rattle.replay_lines.specs.Answer.{missing_room, answer_most, told_missing, step_of, LineWritten, LineAnswered};

use crate::frame::{Frame, MISSING, RANGE, RECEIVED, parse};
use line_text::decimal::{put_list, put_next, put_number};
use outcome::Refusal;
use proxy_steps::Forced;
use writer_proxy::irrelevant::irrelevant_changes_range;
use writer_proxy::missing::missing_seqnums;
use writer_proxy::query::all_ackable_before;
use writer_proxy::received::received_changes_add;

// "03 missing (start, end; room 256)".
pub const ROOM: usize = 256;

// The longest answer: `3 0`, a base of nineteen digits, a count of three, 256 numbers of nineteen digits, and a line feed.
pub const ANSWER: usize = 5148;

// The kind of the answer to a line that does not read.
const MALFORMED: u64 = 0;

// Kind, refusal and base, from the front: how many bytes were written.
fn put_head(out: &mut [u8], kind: u64, refusal: u64, base: u64) -> usize
    requires { 63 ≤ length out.old }
    ensures { (out.new ≡ over (started kind (refusal ∷ base ∷ [])) out.old) × (result ≡ length (started kind (refusal ∷ base ∷ []))) }
{
    let a = put_number(out, kind);
    let b = a + put_next(&mut out[a..], refusal);
    b + put_next(&mut out[b..], base)
}

// A line of kind, refusal and base.
fn put_short(out: &mut [u8], kind: u64, refusal: u64, base: u64) -> usize
    requires { 63 ≤ length out.old }
    ensures { LineWritten result out.old out.new kind (refusal ∷ base ∷ []) }
{
    let end = put_head(out, kind, refusal, base);
    out[end] = b'\n';
    end + 1
}

// The line of a missing list.
fn put_missing(out: &mut [u8], base: u64, list: &[i64]) -> usize
    requires { (answer_most ≤ length out.old) × (base ≤ top) × (length list.now ≤ missing_room) }
    ensures { LineWritten result out.old out.new 3 (0 ∷ base ∷ length list.now ∷ map nat_of list.now) }
{
    let a = put_head(out, MISSING, 0, base);
    let b = a + put_next(&mut out[a..], list.len() as u64);
    let end = b + put_list(&mut out[b..], list);
    out[end] = b'\n';
    end + 1
}

// The line of a call that changed the proxy, or would have.
fn tell(words: &[u64], kind: u64, r: Result<Option<Forced>, Refusal>, out: &mut [u8]) -> usize
    requires { GoodProxy words.now × (answer_most ≤ length out.old) }
    ensures { LineWritten result out.old out.new kind (refusal (report_said r) ∷ (proxy_of words.now).base ∷ []) }
{
    let refusal = match r {
        Ok(_) => 0,
        Err(refusal) => u64::from(refusal.number()),
    };
    let base = all_ackable_before(words);
    put_short(out, kind, refusal, base)
}

// What is missing, listed and told.
fn tell_missing(words: &[u64], start: i64, end: i64, list: &mut [i64], out: &mut [u8]) -> usize
    requires { GoodProxy words.now × (missing_room ≤ length list.old) × (answer_most ≤ length out.old) }
    ensures line_written { LineWritten result out.old out.new 3 (told_missing start end (proxy_of words.now) list.old).after }
    ensures list_after { list.new ≡ (told_missing start end (proxy_of words.now) list.old).list }
{
    let listing = missing_seqnums(words, start, end, &mut list[..ROOM]);
    let base = all_ackable_before(words);
    match listing {
        Ok(count) => put_missing(out, base, &list[..count]),
        Err(refusal) => put_short(out, MISSING, u64::from(refusal.number()), base),
    }
}

// A frame, done and told. The record, the list and the buffer are not one struct: it would hold three `&mut`, each with a clause for what it leaves.
fn answer_frame(words: &mut [u64], frame: Frame, list: &mut [i64; ROOM], out: &mut [u8]) -> usize
    requires { GoodProxy words.old × (answer_most ≤ length out.old) }
    ensures line_answered { LineAnswered result words.new list.new out.old out.new (step_of (done frame) (proxy_of words.old) list.old) }
    ensures good_proxy { GoodProxy words.new }
{
    match frame {
        Frame::Received { number, time } => {
            let r = received_changes_add(words, number, time);
            tell(words, RECEIVED, r, out)
        }
        Frame::Range { from, until } => {
            let r = irrelevant_changes_range(words, from, until);
            tell(words, RANGE, r, out)
        }
        Frame::Missing { start, end } => tell_missing(words, start, end, list, out),
    }
}

// A line, without its line feed, read, done and told.
pub(crate) fn answer(
    words: &mut [u64],
    line: &[u8],
    list: &mut [i64; ROOM],
    out: &mut [u8],
) -> usize
    requires { GoodProxy words.old × (answer_most ≤ length out.old) }
    ensures line_answered { LineAnswered result words.new list.new out.old out.new (step_of (parsed line.now) (proxy_of words.old) list.old) }
    ensures good_proxy { GoodProxy words.new }
{
    let Ok(frame) = parse(line) else {
        let base = all_ackable_before(words);
        return put_short(out, MALFORMED, u64::from(Refusal::EndsEarly.number()), base);
    };
    answer_frame(words, frame, list, out)
}

// The answer to a line, without its line feed: how many bytes were written.
pub fn answer_line(
    words: &mut [u64],
    line: &[u8],
    list: &mut [i64; ROOM],
    out: &mut [u8; ANSWER],
) -> usize
    requires { GoodProxy words.old }
    ensures line_answered { LineAnswered result words.new list.new out.old out.new (step_of (parsed line.now) (proxy_of words.old) list.old) }
    ensures good_proxy { GoodProxy words.new }
{
    answer(words, line, list, out)
}
