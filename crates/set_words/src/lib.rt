// A set's count and words on the wire, and its length: of either kind of number. `count ≤ 256` is a clause, as in crate bitmap.
#![tactic(auto)]

ghost use Rattle.std.specs.Prelude.{◌≡◌, ◌+◌, ◌*◌, ◌≤◌, length};
ghost use Rattle.std.proofs.lemmas.List.Edits.{sets};
ghost use Rattle.outcome.specs.Refusal.{said};
ghost use Rattle.set_words.specs.SetWords.{word_count, set_length, read_count, read_words, words_bytes, bits_bytes, write_set};

use outcome::Refusal;
use sequence_number::ByteOrder;
use sequence_number::kind::Number;
use sequence_number::word::{read_word, write_word};

// How many words hold so many bits.
pub fn word_count(count: u32) -> usize
    ensures { result ≡ word_count count }
{
    count.div_ceil(32) as usize
}

// How many bytes a set takes.
pub fn set_length<N: Number>(count: u32) -> usize
    requires { count ≤ 256 }
    ensures { result ≡ set_length N.kind.size count }
{
    N::SIZE + 4 + 4 * word_count(count)
}

// The count of a set, which stands after its base.
pub fn read_count<N: Number>(o: ByteOrder, s: &[u8]) -> Result<u32, Refusal>
    ensures { said result ≡ read_count N.kind.size o s.now }
{
    if s.len() < N::SIZE + 4 {
        return Err(Refusal::EndsEarly);
    }
    let count = read_word(o, s, N::SIZE);
    if 256 < count {
        return Err(Refusal::TooManyBits);
    }
    if s.len() < set_length::<N>(count) {
        return Err(Refusal::EndsEarly);
    }
    Ok(count)
}

// n words from a place on, and zeros.
pub fn read_words(o: ByteOrder, s: &[u8], at: usize, n: usize) -> [u32; 8]
    requires n_bound { n ≤ 8 }
    requires n_in_bounds { at + 4 * n ≤ length s.now }
    ensures { result ≡ read_words o s.now at n }
{
    let mut words = [0u32; 8];
    for (i, word) in words[..n].iter_mut().enumerate() {
        *word = read_word(o, s, at + 4 * i);
    }
    words
}

// The first n words to a place.
fn write_words(o: ByteOrder, words: [u32; 8], n: usize, out: &mut [u8], at: usize)
    requires n_bound { n ≤ 8 }
    requires n_in_bounds { at + 4 * n ≤ length out.old }
    ensures { out.new ≡ sets out.old at (words_bytes o words n) }
{
    for (i, word) in words[..n].iter().enumerate() {
        write_word(o, *word, out, at + 4 * i);
    }
}

// The count and its words to a place.
pub fn write_bits(o: ByteOrder, count: u32, words: [u32; 8], out: &mut [u8], at: usize)
    requires count_bound { count ≤ 256 }
    requires count_in_bounds { at + 4 + 4 * word_count count ≤ length out.old }
    ensures { out.new ≡ sets out.old at (bits_bytes o count words) }
{
    write_word(o, count, out, at);
    write_words(o, words, word_count(count), out, at + 4);
}

// What writing a set to so many bytes answers.
pub fn write_room<N: Number>(count: u32, room: usize) -> Result<usize, Refusal>
    ensures { said result ≡ write_set N.kind.size count room }
{
    if 256 < count {
        return Err(Refusal::TooManyBits);
    }
    let n = set_length::<N>(count);
    if room < n {
        return Err(Refusal::ShortOutput);
    }
    Ok(n)
}
