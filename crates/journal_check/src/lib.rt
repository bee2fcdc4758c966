//! What `check-journal` does: it reads a journal as a site does at its start, and prints what the site would hold. It
//! starts no site, and changes nothing.
#![tactic(auto)]

mod check;
mod first;
mod json;
mod laws;
mod reading;
mod table;
mod texts;

pub use check::{check_device, open_journal};
pub use first::{First, Owner};
pub use laws::reads_records;
pub use reading::{Reading, Restored, restore};
pub use texts::put_cause;
