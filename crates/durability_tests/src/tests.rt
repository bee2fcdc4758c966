//! A durability by its public calls alone.
mod appending;
mod exits;
