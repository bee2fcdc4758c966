//! The subscriber buffer: it takes the entries of one origin's log in any order, any number of times, and delivers
//! each once and in order. It holds up to 64 entries that came too early, and reports which numbers are missing.
#![tactic(auto)]

mod arrivals;
mod buffer;
mod held;
pub mod laws;
mod verdict;

pub use arrivals::MAX_VERDICTS;
pub use buffer::{State, SubBuffer};
pub use verdict::{BufferError, Verdict};
