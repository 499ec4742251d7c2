// The refusals of a fragment call, in the document's order.
ghost use Rattle.std.specs.Prelude.{◌≡◌, ◌<◌, IfOk};
ghost use Rattle.outcome.specs.Outcome.{refusal};
ghost use Rattle.outcome.specs.Refusal.{said};
ghost use Rattle.sequence_number.specs.Number.{number_of};
ghost use Rattle.assembly_record.specs.Table.{found_place};
ghost use Rattle.assembly_record.specs.Fragments.{fragments};
ghost use Rattle.fragment_assembler.specs.Refusal.{fragment_refusal, run_refusal};
ghost use Rattle.fragment_assembler.specs.Fragment.{fragment_of, head_of};
ghost use Rattle.fragment_assembler.specs.Inner.{opening_refusal};
ghost use Rattle.assembly_record.specs.Words.{places_of, assembler_of};
ghost use Rattle.assembly_record.specs.Rules.{GoodAssembler};

use crate::fragment::DataFrag;
use assembly_record::layout::{FRAGMENT_SIZE, PLACE_SIZE, PLACES, SIZE};
use assembly_record::table::{rows, seek};
use outcome::Refusal;
use sequence_number::number::number_of;

// The most fragments of a sample.
const MOST_FRAGMENTS: u64 = 256;

// 10, 11 and 12, on a sample of d bytes. 12 is asked without F: the run's last fragment has to start before the sample's end.
fn refuse_run(d: u64, f: u64, start: u32, count: u16) -> Result<(), Refusal>
    requires { (0 < f) × ((f < 65536) × (d < 4294967296)) }
    ensures { refusal (said result) ≡ run_refusal (fragments d f) start count }
{
    if count == 0 {
        return Err(Refusal::EmptyRun);
    }
    if start == 0 {
        return Err(Refusal::StartZero);
    }
    let last = (start - 1) as u64 + (count - 1) as u64;
    if d <= last * f {
        return Err(Refusal::RunPastEnd);
    }
    Ok(())
}

// 7, 8 and 9, on a sample that opens with d bytes.
fn refuse_opening(d: u64, f: u64, p: u64) -> Result<(), Refusal>
    requires { (0 < f) × (f < 65536) }
    ensures { refusal (said result) ≡ opening_refusal d f p }
{
    if d < f {
        return Err(Refusal::ShortSample);
    }
    if p < d {
        return Err(Refusal::LongSample);
    }
    if MOST_FRAGMENTS * f < d {
        return Err(Refusal::ManyFragments);
    }
    Ok(())
}

// The number of a call that is accepted, and the place where it stands; `long` is the area's length. No row asks for the payload's.
pub(crate) fn admit(
    t: &[u64],
    long: usize,
    number: i64,
    frag: DataFrag,
) -> Result<(u64, Option<usize>), Refusal>
    requires { GoodAssembler t.now }
    ensures refused { refusal (said result) ≡ fragment_refusal (assembler_of t.now) long (head_of (fragment_of 0 (number_of number) frag.entry)) }
    ensures place { IfOk result (λ r. (r.0 ≡ number_of number) × (r.1 ≡ found_place (number_of number) (places_of t.now))) }
{
    let f = t[FRAGMENT_SIZE];
    let p = t[PLACE_SIZE];
    if long < PLACES * p as usize {
        return Err(Refusal::ShortArea);
    }
    let n = number_of(number).ok_or(Refusal::NoNumber)?;
    if frag.fragment_size as u64 != f {
        return Err(Refusal::OtherFragmentSize);
    }
    let at = seek(t, n);
    let d = match at {
        Some(seat) => rows(t)[seat][SIZE],
        None => {
            refuse_opening(frag.data_size as u64, f, p)?;
            frag.data_size as u64
        }
    };
    refuse_run(d, f, frag.start, frag.count)?;
    Ok((n, at))
}
