// Blocks put together from fragments: rustdds 0.15.1, src/rtps/fragment_assembler.rs. The record is lent as words, and a block lies in a place of the lent
// area; crate `assembly_record` has the layout. A module for each kind of call: its promise is in specs/. The record's rules are a clause of each call: C
// lends words, and no struct.
#![tactic(auto)]

pub mod clean;
pub mod fragment;
pub mod missing;
pub mod query;
mod refusal;
pub mod set_up;
mod settle;
pub mod view;
