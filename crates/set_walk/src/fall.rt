// Members listed falling.
ghost use Rattle.std.specs.Prelude.{◌≡◌, false, map, reverse, ◌+◌, ◌≤◌, length};
ghost use Rattle.std.proofs.lemmas.List.Edits.{sets};
ghost use Rattle.bitmap.specs.Bitmap.{positions, any_past};
ghost use Rattle.set_walk.specs.WordPositions.{word_positions};

use crate::first_bits;
use sequence_number::kind::Number;

// The members of one word, the highest first, from a place on; and the place after them.
fn fall_word<N: Number>(base: N, from: u32, word: u32, out: &mut [N], place: usize) -> usize
    requires from_bound { from ≤ 224 }
    requires word_value { any_past (λ i. N.kind.fits base (from + i)) (word_positions word) ≡ false }
    requires word_in_bounds { place + length (word_positions word) ≤ length out.old }
    ensures value { result ≡ place + length (word_positions word) }
    ensures out_after { out.new ≡ sets out.old place (map (λ i. N.kind.plus base (from + i)) (reverse (word_positions word))) }
{
    let mut n = place;
    let mut w = word;
    let mut i = from + 32;
    // By what is left of the word and not by an index: it ends at the last member.
    while w != 0 {
        i -= 1;
        if w % 2 == 1 {
            out[n] = base.plus(i);
            n += 1;
        }
        w /= 2;
    }
    n
}

// The members from the highest on, from the front of the lent list; and how many.
pub fn fall<N: Number>(base: N, words: [u32; 8], count: u32, out: &mut [N]) -> usize
    requires count_bound { count ≤ 256 }
    requires count_value { any_past (N.kind.fits base) (positions words count) ≡ false }
    requires count_in_bounds { length (positions words count) ≤ length out.old }
    ensures value { result ≡ length (positions words count) }
    ensures out_after { out.new ≡ sets out.old 0 (map (N.kind.plus base) (reverse (positions words count))) }
{
    let end = count.div_ceil(32);
    let mut n: usize = 0;
    for k in (0..end).rev() {
        let w = first_bits(words[k as usize], count - 32 * k);
        n = fall_word(base, 32 * k, w, out, n);
    }
    n
}
