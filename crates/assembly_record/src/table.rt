// The table: its rows, where a number stands, the highest and the lowest.
ghost use Rattle.std.specs.Prelude.{◌≡◌, length, get_or, eqb, map};
ghost use Rattle.assembly_record.specs.Sizes.{place_count, assembler_size};
ghost use Rattle.assembly_record.specs.Table.{find, found_place, highest_of, lowest_of, victim};
ghost use Rattle.assembly_record.specs.Words.{place_of, places_of};

use crate::layout::{ASSEMBLER_WORDS, MODE, NUMBER, PLACES, PlaceRow, ROW, TABLE};

// The rows of the places, cut by a length that is known before the call runs: it then divides nothing.
pub fn rows(t: &[u64]) -> &[PlaceRow]
    requires { length t.now ≡ assembler_size }
    ensures long { length result.now ≡ place_count }
    ensures places { map place_of result.now ≡ places_of t.now }
{
    t[TABLE..ASSEMBLER_WORDS].as_chunks::<ROW>().0
}

// The lowest place that has the number n, 129 where none has.
fn first(t: &[u64], n: u64) -> usize
    requires { length t.now ≡ assembler_size }
    ensures { result ≡ find n (places_of t.now) }
{
    for (i, row) in rows(t).iter().enumerate() {
        if row[NUMBER] == n {
            return i;
        }
    }
    PLACES
}

// The lowest place that has the number n; the lowest free place for n = 0.
// The place is a number first: where only `is_some` is asked of a loop's own `Option`, the loop is not unrolled, and 64 rows take 57 ns and not 40.
pub fn seek(t: &[u64], n: u64) -> Option<usize>
    requires { length t.now ≡ assembler_size }
    ensures { result ≡ found_place n (places_of t.now) }
{
    let at = first(t, n);
    (at < PLACES).then_some(at)
}

// The highest and the lowest are a line each: one function for both would be passed `max` or `min`.
fn highest(t: &[u64]) -> u64
    requires { length t.now ≡ assembler_size }
    ensures { result ≡ highest_of (places_of t.now) }
{
    rows(t).iter().map(|row| row[NUMBER]).max().unwrap_or(0)
}

fn lowest(t: &[u64]) -> u64
    requires { length t.now ≡ assembler_size }
    ensures { result ≡ lowest_of (places_of t.now) }
{
    rows(t).iter().map(|row| row[NUMBER]).min().unwrap_or(0)
}

// Which number goes where 129 are in assembly.
pub fn pick_victim(t: &[u64]) -> u64
    requires { length t.now ≡ assembler_size }
    ensures { result ≡ victim (eqb (get_or t.now 2 0) 1) (places_of t.now) }
{
    if t[MODE] == 1 { highest(t) } else { lowest(t) }
}
