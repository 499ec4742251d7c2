// Number sets, and how they are read, written and measured. The Rust's words are a Vec; here they are eight, held by value.
ghost use Rattle.std.specs.Prelude.{◌≡◌};
ghost use Rattle.outcome.specs.Refusal.{said};
ghost use Rattle.number_set.specs.SetWire.{read_set, WritesSet, measure_set};

use outcome::Refusal;
use sequence_number::ByteOrder;
use sequence_number::kind::Number;
use set_words::{read_count, read_words, set_length, word_count, write_bits, write_room};

// A set of numbers of either kind.
#[derive(Clone, Copy, Debug, PartialEq, Eq)]
pub struct NumberSet<N> {
    pub base: N,
    pub count: u32,
    pub words: [u32; 8],
}

pub type SequenceNumberSet = NumberSet<i64>;

pub type FragmentNumberSet = NumberSet<u32>;

// A set that was read, and how many bytes were taken.
#[derive(Clone, Copy, Debug, PartialEq, Eq)]
pub struct Taken<N> {
    pub set: NumberSet<N>,
    pub taken: usize,
}

impl<N: Number> NumberSet<N> {
    // The set at the front of the bytes.
    pub fn read_from(o: ByteOrder, s: &[u8]) -> Result<Taken<N>, Refusal>
        ensures { said result ≡ read_set N.kind o s.now }
    {
        let count = read_count::<N>(o, s)?;
        let base = N::read(o, s, 0);
        let words = read_words(o, s, N::SIZE + 4, word_count(count));
        let set = NumberSet { base, count, words };
        Ok(Taken {
            set,
            taken: set_length::<N>(count),
        })
    }

    // The set to the front of the lent bytes.
    pub fn write_to(self, o: ByteOrder, out: &mut [u8]) -> Result<usize, Refusal>
        ensures { WritesSet N.kind o self out.old result out.new }
    {
        let n = write_room::<N>(self.count, out.len())?;
        self.base.write(o, out, 0);
        write_bits(o, self.count, self.words, out, N::SIZE);
        Ok(n)
    }

    // How many bytes the set takes on the wire.
    pub fn len_serialized(self) -> Result<usize, Refusal>
        ensures { said result ≡ measure_set N.kind.size self.count }
    {
        if 256 < self.count {
            return Err(Refusal::TooManyBits);
        }
        Ok(set_length::<N>(self.count))
    }
}
