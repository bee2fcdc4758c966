//! The queue by its public calls alone.
mod memory;
mod outcomes;
