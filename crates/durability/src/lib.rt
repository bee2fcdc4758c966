//! How far the records of a site's journal are durable, shared by the threads of the site: the thread that appends
//! them, and the exits, which let no byte out before the records that were made by then are durable.
#![tactic(auto)]

mod append;
mod counts;
mod exit_writer;
mod laws;
mod shared;

pub use append::append_batch;
pub use counts::{Counts, Next, Progress};
pub use exit_writer::ExitWriter;
pub use laws::made_only_rises;
pub use shared::{Durability, Held, Raiser};
