//! What is read is written again unchanged, faults are reported in their order, and no call requests more
//! memory than it needs.

mod cutters;
mod decimals;
mod faults;
mod lengths;
mod memory;
mod messages;
mod pieces;
mod texts;
mod values;
