// Members listed rising.
ghost use Rattle.std.specs.Prelude.{◌≡◌, true, false, map, ◌+◌, ◌/◌, ◌≤◌, ◌<◌, length, set};
ghost use Rattle.std.proofs.lemmas.List.Edits.{sets};
ghost use Rattle.bitmap.specs.Bitmap.{positions, any_past};
ghost use Rattle.set_walk.specs.WordPositions.{word_positions};

use crate::first_bits;
use sequence_number::kind::Number;

// The number of bit i to place n, and the next place: the same one where the first bit of w, which is bit i, is not set.
fn step<N: Number>(base: N, i: u32, w: u32, out: &mut [N], n: usize) -> usize
    requires i_value { N.kind.fits base i ≡ true }
    requires n_in_bounds { n < length out.old }
    ensures value { result ≡ n + w / 2147483648 }
    ensures out_after { out.new ≡ set out.old n (N.kind.plus base i) }
{
    out[n] = base.plus(i);
    n + (w >> 31) as usize
}

// The members of a word, the lowest first, from a place on; and the place after them. While something is left of the word, a member is to come and takes the place.
fn rise_rest<N: Number>(base: N, from: u32, word: u32, out: &mut [N], place: usize) -> usize
    requires from_bound { from ≤ 256 }
    requires word_value { any_past (λ i. N.kind.fits base (from + i)) (word_positions word) ≡ false }
    requires word_in_bounds { place + length (word_positions word) ≤ length out.old }
    ensures value { result ≡ place + length (word_positions word) }
    ensures out_after { out.new ≡ sets out.old place (map (λ i. N.kind.plus base (from + i)) (word_positions word)) }
{
    let mut n = place;
    let mut w = word;
    let mut i = from;
    // By what is left of the word and not by an index: it ends at the last member.
    while w != 0 {
        n = step(base, i, w, out, n);
        w <<= 1;
        i += 1;
    }
    n
}

// The same, four bits at a turn while there are members past them.
fn rise_word<N: Number>(base: N, from: u32, word: u32, out: &mut [N], place: usize) -> usize
    requires from_bound { from ≤ 224 }
    requires word_value { any_past (λ i. N.kind.fits base (from + i)) (word_positions word) ≡ false }
    requires word_in_bounds { place + length (word_positions word) ≤ length out.old }
    ensures value { result ≡ place + length (word_positions word) }
    ensures out_after { out.new ≡ sets out.old place (map (λ i. N.kind.plus base (from + i)) (word_positions word)) }
{
    let mut n = place;
    let mut w = word;
    let mut i = from;
    // By what is left of the word, as above.
    while w << 4 != 0 {
        n = step(base, i, w, out, n);
        n = step(base, i + 1, w << 1, out, n);
        n = step(base, i + 2, w << 2, out, n);
        n = step(base, i + 3, w << 3, out, n);
        w <<= 4;
        i += 4;
    }
    rise_rest(base, i, w, out, n)
}

// The members from the lowest on, from the front of the lent list; and how many.
pub fn rise<N: Number>(base: N, words: [u32; 8], count: u32, out: &mut [N]) -> usize
    requires count_bound { count ≤ 256 }
    requires count_value { any_past (N.kind.fits base) (positions words count) ≡ false }
    requires count_in_bounds { length (positions words count) ≤ length out.old }
    ensures value { result ≡ length (positions words count) }
    ensures out_after { out.new ≡ sets out.old 0 (map (N.kind.plus base) (positions words count)) }
{
    let end = count.div_ceil(32);
    let mut n: usize = 0;
    for k in 0..end {
        let w = first_bits(words[k as usize], count - 32 * k);
        n = rise_word(base, 32 * k, w, out, n);
    }
    n
}
