//! One site of a system as a process: it reads commands from a reader, and talks to its peers over TCP.
#![tactic(auto)]

mod laws;
mod site;

pub use laws::{keys_are_on_disk, starts_remember_journal, told_is_not_lost};
pub use site::run_site;
