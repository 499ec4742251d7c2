// The steps of the calls on a proxy, over numbers that a call takes: a number noted or tracked, the base moved on, the cap, a range.
// The calls, which take any i64, are in crate `writer_proxy`.
// A number is a plain u64, and `n < top` or `b ≤ top` stands in several contracts: an own type for it would be
// unpacked at each step of the arithmetic, and the two bounds differ.
#![tactic(auto)]

pub mod base;
pub mod range;

// A forced step: the base that was, and the one after it.
#[derive(Clone, Copy, Debug, PartialEq, Eq, Hash)]
pub struct Forced {
    pub old: u64,
    pub new: u64,
}
