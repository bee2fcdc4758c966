//! The log by its public calls alone.
mod blocks;
mod calls;
mod examples;
mod memory;
mod room;
mod scripts;
mod sizes;
mod texts;
