//! Each part by its public calls alone.
mod book;
mod buffer;
mod manager;
mod queue;
mod types;
