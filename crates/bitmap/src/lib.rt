// The bits of a set's words: asked, and set from a list of members. `count ≤ 256` is a clause here and above, not a type: a set is public with any
// count and refuses more by itself, and a struct with that rule would be made for one call each.
#![tactic(auto)]

ghost use Rattle.std.specs.Prelude.{◌≡◌, ◌-◌, ◌%◌, ◌≤◌};
ghost use Rattle.bitmap.specs.Bitmap.{has_bit, with_bit, zero_words};
ghost use Rattle.bitmap.specs.Marking.{set_bits};

use sequence_number::kind::Number;

// Whether bit i is set, from the most significant bit of word 0.
pub fn has(words: [u32; 8], i: u32) -> bool
    ensures { result ≡ has_bit words i }
{
    if i < 256 {
        let k = (i / 32) as usize;
        (words[k] >> (31 - i % 32)) % 2 == 1
    } else {
        false
    }
}

// A word with the bit of i set.
fn with_mask(w: u32, i: u32) -> u32
    ensures { result ≡ with_bit w (31 - i % 32) }
{
    w | (1 << (31 - i % 32))
}

// The words of the list's members, by their distance from low, below count. The count stays a number with its bound, as a set has it.
pub fn mark<N: Number>(list: &[N], low: N, count: u32) -> [u32; 8]
    requires count_bound { count ≤ 256 }
    ensures { result ≡ set_bits (N.kind.apart low) count zero_words list.now }
{
    let mut words = [0u32; 8];
    for x in list {
        let i = low.apart(*x);
        if i < count as u64 {
            let i = i as u32;
            let k = (i / 32) as usize;
            words[k] = with_mask(words[k], i);
        }
    }
    words
}
