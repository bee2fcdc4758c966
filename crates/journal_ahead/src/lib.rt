//! A journal that is read by two threads: while one takes the records of a part of it, the other reads the next part and
//! checks its digests.
#![tactic(auto)]

mod reading;

pub use reading::read_ahead;
