// The two kinds of number, `i64` for sequences and `u32` for fragments: what generic code asks of either.
ghost use Rattle.std.specs.Prelude.{◌≡◌, refl, true, ℕ, ◌+◌, ◌≤◌, ◌<◌, ltb, length, pos};
ghost use Rattle.std.proofs.Common.{rules};
ghost use Rattle.std.proofs.lemmas.List.Edits.{sets};
ghost use Rattle.sequence_number.specs.Kind.{Kind, sequence_number, fragment_number};
ghost use Rattle.sequence_number.specs.Lawful.{Lawful};
ghost use Rattle.sequence_number.specs.Keeps.{sequence_lawful, fragment_lawful};

use crate::ByteOrder;
use crate::number::natural;
use crate::word::{read_word, write_word};

// A kind of number that sets and messages are made of.
pub trait Number: Copy {
    ghost kind: { Kind Self };

    // How many bytes a number takes on the wire.
    ghost SIZE: { ℕ };

    const SIZE: usize;

    // The least member of a made set.
    ghost LEAST: { Self };

    const LEAST: Self;

    // The number that starts at a place.
    fn read(o: ByteOrder, s: &[u8], at: usize) -> Self
        requires { at + kind.size ≤ length s.now }
        ensures { result ≡ kind.number_at o s.now at };

    // The number to a place.
    fn write(self, o: ByteOrder, out: &mut [u8], at: usize)
        requires { at + kind.size ≤ length out.old }
        ensures { out.new ≡ sets out.old at (kind.number_bytes o self) };

    // The number so many further on.
    fn plus(self, i: u32) -> Self
        requires { kind.fits self i ≡ true }
        ensures { result ≡ kind.plus self i };

    // The first position, at most 256, at which no number of the kind stands.
    fn fit(self) -> u32
        ensures { (k : ℕ) → k < 256 → ltb k result ≡ kind.fits self k };

    fn is_below(self, other: Self) -> bool
        ensures { result ≡ kind.below self other };

    // How far it is to a higher number, both 1 or more.
    fn apart(self, other: Self) -> u64
        ensures { result ≡ kind.apart self other };

    ghost size_is: { kind.size ≡ SIZE };

    ghost size_most: { kind.size ≤ 8 };

    ghost least_is: { kind.least ≡ LEAST };

    ghost laws: { Lawful kind };
}

impl Number for i64 {
    ghost kind = { sequence_number };

    ghost SIZE = { 8 };

    const SIZE: usize = 8;

    ghost LEAST = { pos 1 };

    const LEAST: i64 = 1;

    ghost size_is = { refl };

    ghost size_most = { Prim.search rules };

    ghost least_is = { refl };

    ghost laws = { sequence_lawful };

    fn read(o: ByteOrder, s: &[u8], at: usize) -> i64 {
        let high = read_word(o, s, at) as u64;
        let low = read_word(o, s, at + 4) as u64;
        let u = (high << 32) | low;
        u.cast_signed()
    }

    fn write(self, o: ByteOrder, out: &mut [u8], at: usize) {
        let bits = self.cast_unsigned();
        write_word(o, (bits >> 32) as u32, out, at);
        write_word(o, (bits & 0xffff_ffff) as u32, out, at + 4);
    }

    fn plus(self, i: u32) -> i64 {
        self + i as i64
    }

    fn fit(self) -> u32 {
        if self < 0 {
            256
        } else {
            (i64::MAX - self).min(255) as u32 + 1
        }
    }

    fn is_below(self, other: i64) -> bool {
        self < other
    }

    fn apart(self, other: i64) -> u64 {
        // By a test: with `saturating_sub` a set of a thousand numbers is made in 2,090 ns and not in 1,190.
        if other <= self {
            return 0;
        }
        natural(other) - natural(self)
    }
}

impl Number for u32 {
    ghost kind = { fragment_number };

    ghost SIZE = { 4 };

    const SIZE: usize = 4;

    ghost LEAST = { 1 };

    const LEAST: u32 = 1;

    ghost size_is = { refl };

    ghost size_most = { Prim.search rules };

    ghost least_is = { refl };

    ghost laws = { fragment_lawful };

    fn read(o: ByteOrder, s: &[u8], at: usize) -> u32 {
        read_word(o, s, at)
    }

    fn write(self, o: ByteOrder, out: &mut [u8], at: usize) {
        write_word(o, self, out, at)
    }

    fn plus(self, i: u32) -> u32 {
        self + i
    }

    fn fit(self) -> u32 {
        (u32::MAX - self).min(255) + 1
    }

    fn is_below(self, other: u32) -> bool {
        self < other
    }

    fn apart(self, other: u32) -> u64 {
        other.saturating_sub(self) as u64
    }
}
