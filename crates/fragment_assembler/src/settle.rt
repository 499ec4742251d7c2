// A run put into its place, and the end of a call: returned, dropped or kept.
ghost use Rattle.std.specs.Prelude.{◌≡◌, length, get_or, eqb, Ok};
ghost use Rattle.assembly_record.specs.Sizes.{assembler_size};
ghost use Rattle.assembly_record.specs.State.{place_at};
ghost use Rattle.fragment_assembler.specs.Fragment.{fragment_of, run_of};
ghost use Rattle.fragment_assembler.specs.Call.{drop_if_full, end_at};
ghost use Rattle.assembly_record.specs.Words.{places_of, assembler_of};
ghost use Rattle.fragment_assembler.specs.Inner.{Ends, Closes, RunAsks, Worked, Admitted};
ghost use Rattle.fragment_assembler.specs.Promise.{TakesFragment};

use crate::fragment::{Answer, DataFrag};
use assembly_record::area::{clear_at, copy_at};
use assembly_record::layout::{FRAGMENT_SIZE, NUMBER, PLACE_SIZE, SIZE};
use assembly_record::rows::{RunMarks, open_at, run_at, whole_at, wipe_at};
use assembly_record::table::{pick_victim, rows, seek};

// Where 129 are in assembly one number goes.
fn drop_one(t: &mut [u64]) -> Answer
    requires { length t.old ≡ assembler_size }
    ensures { Ends t.old (drop_if_full (eqb (get_or t.old 2 0) 1) (places_of t.old)) result t.new }
{
    if seek(t, 0).is_some() {
        return Answer::Kept;
    }
    let v = pick_victim(t);
    let at = seek(t, v).unwrap();
    wipe_at(t, at);
    Answer::Dropped(v)
}

// The end of a call on place `seat`: completeness is asked first. Only an opening can make the 129th.
fn close(t: &mut [u64], seat: usize, opened: bool) -> Answer
    requires { Closes t.old seat opened }
    ensures { Ends t.old (end_at (assembler_of t.old) seat (place_at (places_of t.old) seat)) result t.new }
{
    if whole_at(t, seat) {
        let row = &rows(t)[seat];
        let answer = Answer::Returned {
            number: row[NUMBER],
            place: seat,
            length: row[SIZE] as u32,
        };
        wipe_at(t, seat);
        return answer;
    }
    if opened { drop_one(t) } else { Answer::Kept }
}

// The run on the place that was found or opened: bytes, marks and time, and the end of the call.
// time, number and frag go on as `new_datafrag` takes them: a struct of the three would only be built for this and taken apart again.
fn insert_frags(
    t: &mut [u64],
    area: &mut [u8],
    seat: usize,
    opened: bool,
    time: u64,
    number: u64,
    frag: DataFrag,
) -> Answer
    requires { RunAsks t.old (length area.old) seat opened (run_of (fragment_of time number frag)) }
    ensures { Worked t.old area.old seat (run_of (fragment_of time number frag.entry)) result t.new area.new }
{
    let f = t[FRAGMENT_SIZE] as usize;
    let p = t[PLACE_SIZE] as usize;
    let d = rows(t)[seat][SIZE] as usize;
    let first = (frag.start - 1) as usize;
    let count = frag.count as usize;
    let o = first * f;
    let b = (count * f).min(frag.payload.len().min(d - o));
    copy_at(area, seat * p + o, frag.payload, b);
    run_at(
        t,
        seat,
        RunMarks {
            number,
            time,
            first,
            count,
        },
    );
    close(t, seat, opened)
}

// An accepted call; `at` is where its number stands. A free place is sought only where it opens.
pub(crate) fn take_frags(
    t: &mut [u64],
    area: &mut [u8],
    time: u64,
    number: u64,
    at: Option<usize>,
    frag: DataFrag,
) -> Answer
    requires { Admitted t.old area.old (fragment_of time number frag) at }
    ensures { TakesFragment t.old area.old (fragment_of time number frag.entry) (Ok result) t.new area.new }
{
    if let Some(seat) = at {
        return insert_frags(t, area, seat, false, time, number, frag);
    }
    let seat = seek(t, 0).unwrap();
    let p = t[PLACE_SIZE] as usize;
    clear_at(area, seat * p, frag.data_size as usize);
    open_at(t, seat, number, frag.data_size as u64);
    insert_frags(t, area, seat, true, time, number, frag)
}
