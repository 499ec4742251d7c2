// The layout of the record, as C keeps it: three words, then 129 rows of seven.
pub const FRAGMENT_SIZE: usize = 0; // the fragment size f

pub const PLACE_SIZE: usize = 1; // the place size p

pub const MODE: usize = 2; // 1 reliable, 0 best effort

pub const TABLE: usize = 3; // where the rows begin

pub const ROW: usize = 7; // the words of a row

pub const NUMBER: usize = 0; // the sample's number, 0 where the place is free

pub const SIZE: usize = 1; // its size D

pub const TIME: usize = 2; // the time that its last fragment stored

pub const MARKS: usize = 3; // where its marks begin

pub const PLACES: usize = 129; // one more than may stay in assembly

pub const ASSEMBLER_WORDS: usize = 906; // all words

// The words of one place.
pub type PlaceRow = [u64; ROW];
