// The static library for Rust and C: each export calls the call of that name in crate `drucenal`, or the generic one at its kind of
// number (C has no type parameters, so two exports for such a call), and has its promise. A crate is a library or a static library,
// not both, and the theorems above `drucenal` want a library.
#![tactic(auto)]

pub mod assembler;
pub mod numbers;
pub mod proxy;
pub mod sets;
