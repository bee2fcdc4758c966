//! What the test crates share: moves and entries from bare numbers, text with holes for numbers, calls with each memory
//! request refused in turn, streams that read or write few bytes at a time, and pseudo-random numbers. No part of the
//! product uses it.
#![tactic(auto)]

mod dice;
mod memory;
mod moves;
mod streams;
mod templates;

pub use dice::Dice;
pub use memory::requests_of;
pub use moves::{
    close, close_at, entry, give, grant, is_entry, issue, longest_close, longest_grant,
    move_of_kind, site, spend, take_back,
};
pub use streams::{FewAtATime, Slow};
pub use templates::fill;
