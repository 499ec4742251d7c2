// Number sets: rustdds 0.15.1, src/structure/sequence_number.rs.
#![tactic(auto)]

pub mod make;
pub mod set;
pub mod walk;
