//! The refusals that a client of a site can get, with the one table of their names, and how a line was answered: done or
//! refused.
//!
//! A reply keeps this type until it is written, so nothing reads its text to find out what it reports.
#![tactic(auto)]

mod answered;
mod refusal;

pub use answered::Answered;
pub use refusal::{REFUSAL_COUNT, REFUSALS, Refusal};
