// The missing fragments of a number.
ghost use Rattle.std.specs.Prelude.{◌≡◌, ◌<◌};
ghost use Rattle.sequence_number.specs.Number.{number_of};
ghost use Rattle.assembly_record.specs.Fragments.{fragments};
ghost use Rattle.assembly_record.specs.Rules.{GoodAssembler};
ghost use Rattle.fragment_assembler.specs.Promise.{ListsFragments};

use crate::query::place;
use assembly_record::layout::{FRAGMENT_SIZE, MARKS, SIZE};
use assembly_record::marks::{count_gaps, list_gaps};
use assembly_record::table::rows;
use outcome::Refusal;

// F, how many fragments a sample of d bytes has.
fn count_of(d: u64, f: u64) -> usize
    requires { 0 < f }
    ensures { result ≡ fragments d f }
{
    d.div_ceil(f) as usize
}

// The missing fragments of a number, numbered from 1, written to the lent list, rising, and counted; none of a number that is not in assembly.
pub fn missing_frags_for(t: &[u64], number: i64, out: &mut [u32]) -> Result<usize, Refusal>
    requires { GoodAssembler t.now }
    ensures { ListsFragments t.now (number_of number) out.old result out.new }
{
    let Some(seat) = place(t, number) else {
        return Ok(0);
    };
    let row = &rows(t)[seat];
    let f = count_of(row[SIZE], t[FRAGMENT_SIZE]);
    let k = count_gaps(&row[MARKS..], f);
    if out.len() < k {
        return Err(Refusal::ShortOutput);
    }
    list_gaps(&row[MARKS..], f, out);
    Ok(k)
}
