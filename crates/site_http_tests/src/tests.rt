//! A client that counts takes the place of a site.
mod counter;
mod exchanges;
mod hosts;
mod keys;
mod limits;
mod memory;
mod talk;
