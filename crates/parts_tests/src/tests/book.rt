//! The book by its public calls alone.
mod amounts;
mod calls;
mod checks;
mod examples;
mod memory;
mod reported;
mod sites;
