//! Values that threads leave behind, each at an index of its own.

use rights_types::OutOfMemory;
use std::alloc::Global;
use std::sync::{Mutex, Wait};

/// Values that threads leave behind. Each has an index and a lock of its own, so that no thread waits for another and
/// leaving one needs no memory.
#[derive(Drop)]
pub(crate) struct Slots<T: Drop> {
    slots: Vec<Mutex<Option<T>>>,
}

impl<T: Drop> Slots<T> {
    /// This number of empty slots.
    pub(crate) fn new(alloc: Global, count: usize) -> Result<Slots<T>, OutOfMemory> {
        let mut slots = Vec::with_capacity(alloc, count)?;
        for _ in 0..count {
            slots.push(Mutex::new(None))?;
        }
        Ok(Slots { slots })
    }

    /// Puts a value at this index.
    pub(crate) fn put<R: Wait>(&self, rt: &R, index: usize, thing: T) {
        if let Some(slot) = self.slots.get(index) {
            *slot.lock(rt) = Some(thing);
        }
    }

    /// All values that are there, in the order of their indexes.
    pub(crate) fn into_vec(self, alloc: Global) -> Result<Vec<T>, OutOfMemory> {
        let mut things = Vec::with_capacity(alloc, self.slots.len())?;
        for slot in self.slots {
            if let Some(thing) = slot.into_inner() {
                things.push(thing)?;
            }
        }
        Ok(things)
    }
}
