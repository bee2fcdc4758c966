//! Why a request is refused.

/// Why a request is refused. The queue is unchanged, and no ticket is used up.
#[derive(Clone, Copy, Debug, PartialEq, Eq)]
pub enum QueueError {
    /// The amount is outside 1 to 10^9.
    BadAmount,
    /// All 32 slots hold a waiting request or an unread outcome, or the last ticket was given.
    QueueFull,
}
