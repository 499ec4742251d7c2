// The members of a set of at most 256 bits to a lent list, all of which fit their type and the list.
// The count stays a number with that bound beside it: a set may have any count, and the calls above refuse one that is larger.
#![tactic(auto)]

pub mod fall;
pub mod rise;

ghost use Rattle.std.specs.Prelude.{◌≡◌, ◌&&◌, [], ◌∷◌, ℕ, ◌<◌, ltb};
ghost use Rattle.bitmap.specs.Bitmap.{has_bit};

// The first m bits of a word.
pub(crate) fn first_bits(w: u32, m: u32) -> u32
    ensures { (i : ℕ) → i < 32 → has_bit (result ∷ []) i ≡ (ltb i m && has_bit (w ∷ []) i) }
{
    if 32 <= m {
        return w;
    }
    if m == 0 {
        return 0;
    }
    (w >> (32 - m)) << (32 - m)
}
