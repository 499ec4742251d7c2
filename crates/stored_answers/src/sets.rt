// The calls on numbers and sets of either kind. A set is its base, its count and eight words.
use crate::args::{Args, fill};
use crate::codes::SetCode;
use crate::out::{end, first, next, no_call, rest, told};
use crate::word::Word;
use number_set::set::{NumberSet, Taken};
use outcome::Refusal;
use sequence_number::kind::Number;
use sequence_number::wire::{read_number, write_number};

// Where a list starts among the words, and a set after order or way, and room.
const LIST: usize = 1;

const SET_AFTER_ROOM: usize = 2;

// The set that starts at a word.
fn set_at<N: Number + Word>(c: Args, at: usize) -> NumberSet<N> {
    let c = Args { words: c.rest(at) };
    let mut words = [0u32; 8];
    fill(&mut words, c.rest(2));
    NumberSet {
        base: c.at(0),
        count: c.at(1),
        words,
    }
}

// Refusal or 0, bytes taken, base, count and words; refused, the empty set at 0.
fn told_set<N: Number + Word>(rt: &impl Print, reply: Result<Taken<N>, Refusal>) {
    let (refused, Taken { set, taken }) = match reply {
        Ok(read) => (0, read),
        Err(refusal) => (refusal.number(), nothing()),
    };
    first(rt, refused);
    next(rt, taken);
    next(rt, set.base);
    next(rt, set.count);
    rest(rt, &set.words);
}

fn nothing<N: Word>() -> Taken<N> {
    let set = NumberSet {
        base: N::of(0),
        count: 0,
        words: [0u32; 8],
    };
    Taken { set, taken: 0 }
}

// A number written: order room number.
fn write_one<N: Number + Word>(rt: &impl Print, c: Args, lent: &mut [u8]) {
    let Some(lent) = lent.get_mut(..c.at(1)) else {
        return no_call(rt);
    };
    told(rt, &write_number::<N>(c.at(0), c.at(2), lent));
    rest(rt, lent);
}

// A set written: order room set.
fn write_set<N: Number + Word>(rt: &impl Print, c: Args, lent: &mut [u8]) {
    let Some(lent) = lent.get_mut(..c.at(1)) else {
        return no_call(rt);
    };
    told(rt, &set_at::<N>(c, SET_AFTER_ROOM).write_to(c.at(0), lent));
    rest(rt, lent);
}

// A number read: order byte ..
fn read_one<N: Number + Word>(rt: &impl Print, c: Args, lent: &mut [u8]) {
    let Some(bytes) = c.list(LIST, lent) else {
        return no_call(rt);
    };
    told(rt, &read_number::<N>(c.at(0), bytes));
    end(rt);
}

// A set read: order byte ..
fn read_set<N: Number + Word>(rt: &impl Print, c: Args, lent: &mut [u8]) {
    let Some(bytes) = c.list(LIST, lent) else {
        return no_call(rt);
    };
    told_set(rt, NumberSet::<N>::read_from(c.at(0), bytes));
}

// A set walked: way room set, way 1 rising and 0 falling.
fn walk<N: Number + Word>(rt: &impl Print, c: Args, lent: &mut [N]) {
    let Some(lent) = lent.get_mut(..c.at(1)) else {
        return no_call(rt);
    };
    told(rt, &set_at::<N>(c, SET_AFTER_ROOM).iter(c.at(0), lent));
    rest(rt, lent);
}

// A set made: base number ..
fn make<N: Number + Word>(rt: &impl Print, c: Args, lent: &mut [N]) {
    let Some(list) = c.list(LIST, lent) else {
        return no_call(rt);
    };
    let made = NumberSet::from_base_and_set(c.at(0), list);
    told_set::<N>(rt, made.map(|set| Taken { set, taken: 0 }));
}

// A set measured: set.
fn measure<N: Number + Word>(rt: &impl Print, c: Args) {
    told(rt, &set_at::<N>(c, 0).len_serialized());
    end(rt);
}

// A kind of number, and its calls on lent numbers: 90 each to list, any to make a set of.
// Each kind makes the array itself, since one of a type parameter has no known size; and these two calls alone have it: as an argument of every
// call it was filled for each line, even for one that is no call, and 400,000 of these took 1,065 million instructions where they take 59.
pub(crate) trait SetKind: Number + Word {
    fn walk(rt: &impl Print, c: Args);

    fn make(rt: &impl Print, c: Args);
}

impl SetKind for i64 {
    fn walk(rt: &impl Print, c: Args) {
        walk(rt, c, &mut [90i64; 300]);
    }

    fn make(rt: &impl Print, c: Args) {
        make(rt, c, &mut [90i64; 300]);
    }
}

impl SetKind for u32 {
    fn walk(rt: &impl Print, c: Args) {
        walk(rt, c, &mut [90u32; 300]);
    }

    fn make(rt: &impl Print, c: Args) {
        make(rt, c, &mut [90u32; 300]);
    }
}

// The bytes lent are 90 each to write, and any to read from.
pub(crate) fn call<N: SetKind>(rt: &impl Print, code: SetCode, c: Args) {
    match code {
        SetCode::WriteNumber => write_one::<N>(rt, c, &mut [90u8; 64]),
        SetCode::WriteSet => write_set::<N>(rt, c, &mut [90u8; 64]),
        SetCode::ReadNumber => read_one::<N>(rt, c, &mut [90u8; 64]),
        SetCode::ReadSet => read_set::<N>(rt, c, &mut [90u8; 64]),
        SetCode::WalkSet => N::walk(rt, c),
        SetCode::MeasureSet => measure::<N>(rt, c),
        SetCode::MakeSet => N::make(rt, c),
    }
}
