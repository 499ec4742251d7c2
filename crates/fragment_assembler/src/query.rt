// Whether a number is in assembly, and how many are.
ghost use Rattle.std.specs.Prelude.{◌≡◌};
ghost use Rattle.sequence_number.specs.Number.{number_of};
ghost use Rattle.assembly_record.specs.Table.{is_partially_received, in_assembly};
ghost use Rattle.assembly_record.specs.Words.{places_of, assembler_of};
ghost use Rattle.assembly_record.specs.Rules.{GoodAssembler};
ghost use Rattle.fragment_assembler.specs.Inner.{place_of_number};

use assembly_record::layout::{NUMBER, PLACES};
use assembly_record::table::{rows, seek};
use sequence_number::number::number_of;

// The place of a number that is in assembly.
pub(crate) fn place(t: &[u64], number: i64) -> Option<usize>
    requires { GoodAssembler t.now }
    ensures { result ≡ place_of_number (places_of t.now) (number_of number) }
{
    seek(t, number_of(number)?)
}

// Whether a number is in assembly: the definition `is_partially_received`.
pub fn is_partially_received(t: &[u64], number: i64) -> bool
    requires { GoodAssembler t.now }
    ensures { result ≡ is_partially_received (assembler_of t.now).places (number_of number) }
{
    place(t, number).is_some()
}

// How many numbers are in assembly: the definition `in_assembly`, not `is_partially_received`, which asks of one number.
pub fn in_assembly(t: &[u64]) -> usize
    requires { GoodAssembler t.now }
    ensures { result ≡ in_assembly (assembler_of t.now).places }
{
    // In a loop: with `filter(..).count()` 128 take 141 ns, so 41. From the last row down: upwards they take 41 or 54, by where the code comes to lie.
    let rows = rows(t);
    let mut n = 0;
    for i in (0..PLACES).rev() {
        if 0 < rows[i][NUMBER] {
            n += 1;
        }
    }
    n
}
