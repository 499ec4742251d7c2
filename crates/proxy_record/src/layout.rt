// The layout of the record, as C keeps it: a head of four words, then three columns of 257 words, one more than are tracked after a call.
pub const BASE: usize = 0; // the ack base

pub const COUNT: usize = 1; // how many numbers are tracked

pub const LAST: usize = 2; // the last received number

pub const TIME: usize = 3; // its time

pub const NUMBERS: usize = 4; // where the tracked numbers begin

pub const KINDS: usize = 261; // where their kinds begin

pub const TIMES: usize = 518; // where their times begin

pub const PROXY_WORDS: usize = 775; // all words

pub const CAP: usize = 256; // so many are tracked after a call at most

pub const NOT_AVAILABLE: u64 = 0; // the two kinds, as numbers: the record's words, as C keeps them

pub const RECEIVED: u64 = 1;
