//! Messages between sites as lines of text, exact in both directions: what is read is what the line
//! spells, and each message has one spelling.
#![tactic(auto)]

mod answer;
mod cutter;
mod entry;
mod fault;
mod format;
mod laws;
mod length;
mod moves;
mod number;
mod parts;
mod put;
mod reading;
mod short;
mod writing;

pub use cutter::{Cut, LineCutter};
pub use fault::{LineError, Place};
pub use format::{ENTRY_ROOM, PART_BREAK};
pub use laws::{ends_once, no_prefix, read_is_spelled, reads_back, reads_on, spelled_once};
pub use moves::read_move;
pub use number::read_decimal;
pub use parts::{first_decimal, split_first};
pub use put::put_decimal;
pub use reading::{read_line, read_text};
pub use writing::{put_entry_line, put_text_line, write_entry, write_into, write_line};
