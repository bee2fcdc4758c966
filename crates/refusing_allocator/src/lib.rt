//! An allocator for tests that refuses one request for memory.
#![tactic(auto)]

use std::alloc::{AllocError, Allocator};
use std::cell::Cell;

#[cfg(test)]
mod tests;

/// An allocator for tests over the allocator `A`. It grants a number of memory requests, refuses the next one, and
/// grants all that come after it.
///
/// A request is for a new block, or to grow or shrink one. Giving a block back never counts.
/// A `&` to this allocator is an allocator too, and is `Copy`.
///
/// To meet each refusal in turn, a test makes its run with 0 requests granted, then with 1 and
/// so on, until a run ends with `refused` false.
///
/// It is proved that each block comes from the inner allocator and goes back to it unchanged.
/// Which request is refused is only tested, since no clause can say what a cell contains.
#[derive(Drop)]
pub struct Refusing<A: Allocator> {
    inner: A,
    // How many requests are granted before the refusal; `None` once it has happened.
    left: Cell<Option<u64>>,
}

impl<A: Allocator> Refusing<A> {
    /// Grants the first `granted` requests, and refuses the next one.
    pub fn new(inner: A, granted: u64) -> Refusing<A> {
        Refusing {
            inner,
            left: Cell::new(Some(granted)),
        }
    }

    /// Whether the refusal has happened.
    pub fn refused(&self) -> bool {
        self.left.get().is_none()
    }
}

// Counts one request, and returns whether it is the one to refuse.
fn refuses_next(left: &Cell<Option<u64>>) -> bool {
    match left.get() {
        None => false,
        Some(0) => {
            left.set(None);
            true
        }
        Some(count) => {
            left.set(Some(count - 1));
            false
        }
    }
}

// `grow` and `shrink` are the trait's own, which call `allocate` for the new block.
unsafe impl<A: Allocator> Allocator for Refusing<A> {
    ghost dealloc_token = { λ refusing ty ptr. A.dealloc_token refusing.inner ty ptr };

    fn allocate(&self, size: usize, align: usize) -> Result<*mut u8, AllocError> {
        if refuses_next(&self.left) {
            return Err(AllocError);
        }
        self.inner.allocate(size, align)
    }

    unsafe fn deallocate(&self, ptr: *mut u8, size: usize, align: usize) {
        self.inner.deallocate(ptr, size, align);
    }
}
