// Document 01's replay lines: a line read, done on the proxy and answered, and input in pieces cut into lines.
#![tactic(auto)]

pub mod answer;
pub mod feed;
pub mod frame;
