// What came from one writer, what is missing, and what may be acknowledged: rustdds 0.15.1, src/rtps/rtps_writer_proxy.rs.
// The record lies in 775 words that the caller lends; crate `proxy_record` has its layout. Its rules are a clause of each call: C lends words, and no struct.
#![tactic(auto)]

pub mod irrelevant;
pub mod missing;
pub mod query;
pub mod received;
pub mod set_up;

pub use proxy_record::Mark;
pub use proxy_steps::Forced;
