// A place of the table: one row of the record, lent on to what changes it.
// It is cut out by its bounds: of rows lent as arrays (`as_chunks_mut`) the library does not say what the whole becomes.
ghost use Rattle.std.specs.Prelude.{◌≡◌, ◌+◌, ◌<◌, ◌≤◌, length, get_or, set};
ghost use Rattle.assembly_record.specs.Sizes.{place_count, most_fragments, row_size, assembler_size};
ghost use Rattle.assembly_record.specs.State.{free_place, place_at};
ghost use Rattle.assembly_record.specs.Fragments.{is_whole};
ghost use Rattle.assembly_record.specs.Words.{place_of, places_of};
ghost use Rattle.assembly_record.specs.Rows.{Became, opened_row, place_ran, Counts};

use crate::layout::{FRAGMENT_SIZE, MARKS, NUMBER, ROW, SIZE, TABLE, TIME};
use crate::marks::{first_gap, mark_run};
use crate::table::rows;

fn open_row(row: &mut [u64], number: u64, size: u64)
    requires { length row.old ≡ row_size }
    ensures { row.new ≡ opened_row number size }
{
    row.fill(0);
    row[NUMBER] = number;
    row[SIZE] = size;
}

// What a run stores in its place: the number, the time, and the marks of `count` fragments from `first`, counted from 0.
#[derive(Clone, Copy)]
pub struct RunMarks {
    pub number: u64,
    pub time: u64,
    pub first: usize,
    pub count: usize,
}

fn run_row(row: &mut [u64], run: RunMarks)
    requires { (length row.old ≡ row_size) × (run.first + run.count ≤ most_fragments) }
    ensures { place_of row.new ≡ place_ran (place_of row.old) run.number run.time run.first run.count }
{
    row[NUMBER] = run.number;
    row[TIME] = run.time;
    mark_run(&mut row[MARKS..ROW], run.first, run.count);
}

// Place `seat` holds a sample of which nothing has come yet.
pub fn open_at(t: &mut [u64], seat: usize, number: u64, size: u64)
    requires { (length t.old ≡ assembler_size) × (seat < place_count) }
    ensures { Became t.old (set (places_of t.old) seat (place_of (opened_row number size))) t.new }
{
    let b = TABLE + ROW * seat;
    open_row(&mut t[b..b + ROW], number, size);
}

// Place `seat` takes the time and the marks of a run.
pub fn run_at(t: &mut [u64], seat: usize, run: RunMarks)
    requires { (length t.old ≡ assembler_size) × ((seat < place_count) × (run.first + run.count ≤ most_fragments)) }
    ensures { Became t.old (set (places_of t.old) seat (place_ran (place_at (places_of t.old) seat) run.number run.time run.first run.count)) t.new }
{
    let b = TABLE + ROW * seat;
    run_row(&mut t[b..b + ROW], run);
}

// Place `seat` is freed.
pub fn wipe_at(t: &mut [u64], seat: usize)
    requires { (length t.old ≡ assembler_size) × (seat < place_count) }
    ensures { Became t.old (set (places_of t.old) seat free_place) t.new }
{
    let b = TABLE + ROW * seat;
    t[b..b + ROW].fill(0);
}

// Whether all fragments of place `seat` have come: those before the first gap reach the sample's end.
pub fn whole_at(t: &[u64], seat: usize) -> bool
    requires { Counts t.now seat }
    ensures { result ≡ is_whole (get_or t.now 0 0) (place_at (places_of t.now) seat) }
{
    let row = &rows(t)[seat];
    let come = first_gap(&row[MARKS..]) as u64;
    row[SIZE] <= come * t[FRAGMENT_SIZE]
}
