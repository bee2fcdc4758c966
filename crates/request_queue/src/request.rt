//! A request and its outcome.

use rights_types::Amount;

/// A spend that waits for rights.
#[derive(Clone, Copy)]
pub struct Request {
    /// Identifies the request; the first ticket is 1.
    pub ticket: u64,
    /// The rights that it will spend.
    pub amount: Amount,
    /// The latest time at which it may still wait, in the unit in which its site counts time.
    pub deadline: u64,
}

/// How a request ended.
#[derive(Clone, Copy)]
pub(crate) enum Outcome {
    /// It was served by the log entry of this number.
    Spent(u64),
    /// Its deadline passed, or it was cancelled.
    Expired,
}

/// The state of a ticket.
#[derive(Clone, Copy, Debug, PartialEq, Eq)]
pub enum Status {
    /// The request waits.
    Waiting,
    /// It was served by the log entry of this number. Reported once.
    Spent(u64),
    /// Its deadline passed, or it was cancelled. Reported once.
    Expired,
    /// No such ticket was issued, or its outcome was read before.
    Unknown,
}
