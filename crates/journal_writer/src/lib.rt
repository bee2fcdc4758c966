//! The thread that appends to a site's journal: what waits at the desk, in one turn each time, as one batch.
#![tactic(auto)]

mod writer;

pub use writer::{JournalWriter, WriteError};
