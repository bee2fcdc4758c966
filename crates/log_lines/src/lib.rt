//! Log lines. They wait in a bounded queue, and one thread writes them, so nobody who logs waits for whoever reads the
//! log.
#![tactic(auto)]

mod backlog;
mod queue;
mod writer;

pub use backlog::LOG_LINES;
pub use queue::LogQueue;
pub use writer::{LAST_TRIES, LogWriter};
