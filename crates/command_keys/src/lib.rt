//! The keys of commands: which command a client repeats, and where the first one with its key ended.
//!
//! A client gives a command a key, and repeats it with that key where it got no answer. `Keys` remembers the keys that
//! wrote entries, those whose spend waits, and those whose spend expired. Under the lock of the desk, and all in one
//! turn, a command is carried out only if `lookup` finds nothing and `reserve` gets its memory; then `remember` or
//! `wait` notes where it ended, or nothing does if it was refused. A tick calls `serve` and `expire`.
#![tactic(auto)]

mod book;
mod entry_keys;
mod key;
mod keys;
mod last;
pub mod laws;
mod outcome;

pub use book::KeyBook;
pub use key::{Key, MAX_KEY};
pub use keys::{Keys, MAX_EXPIRED};
pub use last::LastKeys;
pub use outcome::{Effect, Ended, Outcome, Waiting, Written};
