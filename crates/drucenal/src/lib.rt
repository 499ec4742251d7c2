// The calls for Rust and C: numbers, and slices and arrays of numbers alone. Each calls the port and hands its answer on,
// with the same promise. A call that can be refused answers 0 or document 01's refusal number; what it says beyond that it
// writes through the references, and a refused call writes nothing.
#![tactic(auto)]

pub mod assembler;
pub mod numbers;
pub mod proxy;
pub mod sets;
