//! Where the command of a key ended.

use crate::key::Key;
use rights_types::SiteId;

/// What a command does, by which a repeat is told from another command under the same key. The deadline of a spend does
/// not count, nor whether it would have waited.
#[derive(Clone, Copy, Debug, PartialEq, Eq)]
pub enum Effect {
    /// It creates so many rights.
    Issue(u64),
    /// It gives a peer so many rights.
    Give(SiteId, u64),
    /// It spends so many rights.
    Spend(u64),
    /// It closes the site. The heir does not count: the entry of a site that held nothing names none.
    Close,
}

/// An entry that a command wrote.
#[derive(Clone, Copy, Debug, PartialEq, Eq)]
pub struct Written {
    /// The number of the entry.
    pub number: u64,
    pub effect: Effect,
    /// The ticket of the spend if it waited, else 0.
    pub ticket: u64,
}

/// A spend that waited and was not served.
#[derive(Clone, Copy, Debug, PartialEq, Eq)]
pub struct Ended {
    pub ticket: u64,
    /// The rights that it would have spent.
    pub amount: u64,
}

/// Where the command of a key ended.
#[derive(Clone, Copy, Debug, PartialEq, Eq)]
pub enum Outcome {
    /// It wrote this entry.
    Wrote(Written),
    /// It is a spend that waits, with its ticket and the rights that it will spend.
    Waits(u64, u64),
    /// It is a spend whose deadline passed, or which was cancelled.
    Expired(Ended),
}

/// A spend that waits under a key.
#[derive(Clone, Copy)]
pub struct Waiting {
    pub key: Key,
    pub ticket: u64,
    /// The rights that it will spend.
    pub amount: u64,
}
