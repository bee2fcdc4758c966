//! Why a value is refused, and lack of memory.

use std::alloc::{AllocError, AllocFailed};

/// The first limit that a value violates.
#[derive(Clone, Copy, Debug, PartialEq, Eq)]
pub enum TypeError {
    /// A site number outside 1 to 16, or an entry of another origin than its answer.
    BadSite,
    /// An amount outside 1 to 10^9, or a total outside 1 to 10^18.
    BadAmount,
    /// A log number above 10^9, an ask number outside 1 to 10^9, or a frontier in which the origin's own position is
    /// missing or not 0.
    BadNumber,
    /// Not 1 to 16 moves, not 2 to 16 numbers in a frontier, or more than 16 entries in an answer.
    BadCount,
    /// A closing move before the last move.
    CloseNotLast,
    /// A move that names its origin, or a message whose two sites are the same.
    SameSite,
}

/// A memory request was refused. The value whose call failed is unchanged, unless the call says otherwise.
#[derive(Clone, Copy, Debug, PartialEq, Eq)]
pub struct OutOfMemory;

impl From<AllocError> for OutOfMemory {
    fn from(_error: AllocError) -> OutOfMemory {
        OutOfMemory
    }
}

impl<T: Drop> From<AllocFailed<T>> for OutOfMemory {
    fn from(_error: AllocFailed<T>) -> OutOfMemory {
        OutOfMemory
    }
}
