// Lines of text: hexadecimal digits read, decimals written, and the bytes of a line held as they come.
#![tactic(auto)]

pub mod decimal;
pub mod hex;
pub mod hold;
