// Numbers, as calls take them and on the wire: rustdds 0.15.1, src/structure/sequence_number.rs. Its number sets are crate `number_set`.
#![tactic(auto)]

pub mod kind;
pub mod number;
pub mod wire;
pub mod word;

// The order of the bytes of a word in the stream.
#[derive(Clone, Copy)]
pub enum ByteOrder {
    Big,
    Little,
}
