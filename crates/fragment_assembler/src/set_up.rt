// Setting an assembler up.
ghost use Rattle.std.specs.Prelude.{◌≡◌, ◌∷◌, ◌*◌, replicate};
ghost use Rattle.std.proofs.Math.ListN as lists;
ghost use Rattle.assembly_record.specs.Sizes.{place_count, row_size, assembler_size};
ghost use Rattle.assembly_record.specs.Words.{bit};
ghost use Rattle.fragment_assembler.specs.Promise.{SetsUpAssembler};

use assembly_record::layout::{ASSEMBLER_WORDS, FRAGMENT_SIZE, MODE, PLACE_SIZE};
use outcome::Refusal;

// The largest place.
const LARGEST_PLACE: u32 = 65536;

// The words of a fresh assembler.
fn reset(d: &mut [u64], fragment_size: u64, place_size: u64, reliable: bool)
    requires { lists.length d.old ≡ assembler_size }
    ensures { d.new ≡ fragment_size ∷ (place_size ∷ (bit reliable ∷ replicate (row_size * place_count) 0)) }
{
    d.fill(0);
    d[FRAGMENT_SIZE] = fragment_size;
    d[PLACE_SIZE] = place_size;
    d[MODE] = reliable as u64;
}

// A fresh assembler in the first 906 words.
pub fn set_up(
    t: &mut [u64],
    fragment_size: u16,
    reliable: bool,
    place_size: u32,
) -> Result<(), Refusal>
    ensures { SetsUpAssembler t.old fragment_size reliable place_size result t.new }
{
    if fragment_size == 0 || place_size == 0 || LARGEST_PLACE < place_size {
        return Err(Refusal::BadSetUp);
    }
    if t.len() < ASSEMBLER_WORDS {
        return Err(Refusal::ShortOutput);
    }
    reset(
        &mut t[..ASSEMBLER_WORDS],
        fragment_size as u64,
        place_size as u64,
        reliable,
    );
    Ok(())
}
