//! The book of rights of one site: what its own log and the entries that it applied of the others issued, spent, gave
//! and reclaimed, as running totals.
#![tactic(auto)]

mod account;
mod book;
mod check;
mod fault;
mod peer;
mod sums;

pub use book::{Book, MAX_KNOWN};
pub use fault::BookError;
pub use sums::SiteSums;
