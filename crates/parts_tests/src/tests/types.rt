//! The limits of values, and copies of entries.

mod copies;
mod limits;
