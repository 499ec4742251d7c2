// The record that a caller keeps for one writer's fragments, as lent words, and the bytes of the lent area: where their parts lie, and the changes of
// one place. What changes a record, `open_at`, `run_at`, `wipe_at` and `sweep_all`, leaves a whole record. The public calls are in
// crate `fragment_assembler`.
// The record stays words that C lends: a struct that holds the `&mut` would have to keep its rules at each single write.
#![tactic(auto)]

pub mod area;
pub mod clean;
pub mod layout;
pub mod marks;
pub mod rows;
pub mod table;
