// A line as a frame: a kind byte and two signed 8-byte big-endian numbers.
ghost use Rattle.std.specs.Prelude.{◌≡◌, IfErr};
ghost use Rattle.outcome.specs.declared.Refusal.TheVariants.{EndsEarly};
ghost use Rattle.outcome.specs.Refusal.{said};
ghost use Rattle.replay_lines.specs.Frame.{parsed, frame_of};

use line_text::hex::{all_hex, value_at};
use outcome::Refusal;

// The kinds of a line, and of its answer.
pub const RECEIVED: u64 = 1;

pub const RANGE: u64 = 2;

pub const MISSING: u64 = 3;

// What a line asks of the proxy.
#[derive(Clone, Copy)]
pub enum Frame {
    Received { number: i64, time: u64 },
    Range { from: i64, until: i64 },
    Missing { start: i64, end: i64 },
}

// How many digits a line has.
const DIGITS: usize = 34;

#[tactic(auto, unfolding(crate::specs::Frame::frame_of))]
fn frame_of(kind: u64, a: u64, b: u64) -> Result<Frame, Refusal>
    ensures { result ≡ frame_of kind a b }
{
    match kind {
        RECEIVED => Ok(Frame::Received {
            number: a.cast_signed(),
            time: b,
        }),
        RANGE => Ok(Frame::Range {
            from: a.cast_signed(),
            until: b.cast_signed(),
        }),
        MISSING => Ok(Frame::Missing {
            start: a.cast_signed(),
            end: b.cast_signed(),
        }),
        _ => Err(Refusal::EndsEarly),
    }
}

// The bytes of a line, without its line feed.
#[tactic(auto, unfolding(crate::specs::Frame::parsed))]
pub fn parse(line: &[u8]) -> Result<Frame, Refusal>
    ensures reads { said result ≡ parsed line.now }
    ensures row { IfErr result (λ refusal. refusal ≡ EndsEarly) }
{
    if line.len() != DIGITS || !all_hex(line) {
        return Err(Refusal::EndsEarly);
    }
    let kind = value_at(line, 0, 2);
    let a = value_at(line, 2, 16);
    let b = value_at(line, 18, 16);
    frame_of(kind, a, b)
}
