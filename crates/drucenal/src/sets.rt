// Number sets of either kind: read, written, made, walked, measured. A set goes in and out by its parts, as C has it.
ghost use Rattle.std.specs.Prelude.{◌≡◌, length};
ghost use Rattle.number_set.specs.NumberSet.{members};
ghost use Rattle.number_set.specs.SetWire.{read_set, write_set, set_bytes, measure_set};
ghost use Rattle.number_set.specs.Make.{make_set};
ghost use Rattle.number_set.specs.Walk.{walk_set, in_order};
ghost use Rattle.drucenal.specs.Exports.{order_of, Gives, Lends, set_of, taken_of};

use crate::numbers::{give, order_of};
use number_set::set::NumberSet;
use sequence_number::kind::Number;

// A set's parts behind three references.
fn put_parts<N: Number>(set: NumberSet<N>, base: &mut N, count: &mut u32, words: &mut [u32; 8])
    ensures { set_of base.new count.new words.new ≡ set }
{
    *base = set.base;
    *count = set.count;
    *words = set.words;
}

pub fn drucenal_read_number_set<N: Number>(
    big: bool,
    bytes: &[u8],
    base: &mut N,
    count: &mut u32,
    words: &mut [u32; 8],
    taken: &mut usize,
) -> u32
    ensures { Gives (read_set N.kind (order_of big) bytes.now) (taken_of base.old count.old words.old taken.old) result (taken_of base.new count.new words.new taken.new) }
{
    match NumberSet::<N>::read_from(order_of(big), bytes) {
        Ok(read) => {
            put_parts(read.set, base, count, words);
            *taken = read.taken;
            0
        }
        Err(refusal) => refusal.into(),
    }
}

pub fn drucenal_write_number_set<N: Number>(
    big: bool,
    base: N,
    count: u32,
    words: &[u32; 8],
    out: &mut [u8],
    wrote: &mut usize,
) -> u32
    ensures gives { Gives (write_set N.kind.size count (length out.old)) wrote.old result wrote.new }
    ensures lends { Lends (write_set N.kind.size count (length out.old)) (set_bytes N.kind (order_of big) (set_of base count words.now)) out.old result out.new }
{
    let set = NumberSet {
        base,
        count,
        words: *words,
    };
    give(set.write_to(order_of(big), out), wrote)
}

pub fn drucenal_make_number_set<N: Number>(
    base: N,
    list: &[N],
    low: &mut N,
    count: &mut u32,
    words: &mut [u32; 8],
) -> u32
    ensures { Gives (make_set N.kind base list.now) (set_of low.old count.old words.old) result (set_of low.new count.new words.new) }
{
    match NumberSet::from_base_and_set(base, list) {
        Ok(set) => {
            put_parts(set, low, count, words);
            0
        }
        Err(refusal) => refusal.into(),
    }
}

pub fn drucenal_walk_number_set<N: Number>(
    rising: bool,
    base: N,
    count: u32,
    words: &[u32; 8],
    out: &mut [N],
    listed: &mut usize,
) -> u32
    ensures gives { Gives (walk_set N.kind (set_of base count words.now) (length out.old)) listed.old result listed.new }
    ensures lends { Lends (walk_set N.kind (set_of base count words.now) (length out.old)) (in_order rising (members N.kind (set_of base count words.now))) out.old result out.new }
{
    let set = NumberSet {
        base,
        count,
        words: *words,
    };
    give(set.iter(rising, out), listed)
}

// A set with so many bits, whatever its base and words.
pub fn drucenal_measure_number_set<N: Number>(count: u32, length: &mut usize) -> u32
    ensures { Gives (measure_set N.kind.size count) length.old result length.new }
{
    let set = NumberSet {
        base: N::LEAST,
        count,
        words: [0; 8],
    };
    give(set.len_serialized(), length)
}
