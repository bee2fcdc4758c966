//! How the two ends of a lane wait for each other.

use rights_types::OutOfMemory;
use std::alloc::Allocator;
use std::hint;
use std::sync::atomic::{AtomicBool, AtomicU64, Ordering};
use std::sync::{Arc, Wait};

/// How often an end looks again before it sleeps: for some microseconds.
const LOOKS: u32 = 64;

/// One end rings it after each of its steps, and the other end sleeps until it is rung.
#[derive(Drop)]
pub(crate) struct Bell {
    rings: AtomicU64,
    /// Whether the other end sleeps, or is about to.
    is_awaited: AtomicBool,
}

impl Bell {
    fn new() -> Bell {
        Bell {
            rings: AtomicU64::new(0),
            is_awaited: AtomicBool::new(false),
        }
    }

    /// Wakes the other end, if it sleeps. Call it after a step that it may wait for. Only the first ring since the other
    /// end began to listen makes a system call.
    pub(crate) fn ring(&self) {
        if self.is_awaited.load(Ordering::SeqCst) && self.is_awaited.swap(false, Ordering::SeqCst) {
            self.rings.fetch_add(1, Ordering::SeqCst);
            self.rings.wake_all();
        }
    }

    /// Announces that this end is about to sleep. Afterwards look once more whether there is a reason to, and then call
    /// `sleep` with both answers: a step that the look misses rings.
    pub(crate) fn listen(&self) -> u32 {
        // Read before the announcement: a ring that takes it back, even for an earlier step, ends the sleep too. A sleep
        // compares the low 32 bits.
        let heard = (self.rings.load(Ordering::SeqCst) & 0xffff_ffff) as u32;
        self.is_awaited.store(true, Ordering::SeqCst);
        heard
    }

    /// Sleeps until the bell is rung, if it was not since `listen` returned `heard`, and if there is a reason to.
    pub(crate) fn sleep<R: Wait>(&self, rt: &R, heard: u32, has_to: bool) {
        if has_to {
            self.rings.park(rt, heard);
        }
        self.is_awaited.store(false, Ordering::SeqCst);
    }
}

/// The bells of a lane.
#[derive(Drop)]
pub(crate) struct Bells {
    /// Rung by the inlet.
    pub(crate) put: Bell,
    /// Rung by the outlet.
    pub(crate) taken: Bell,
}

/// An end's reference to the bells of its lane. When it is dropped, the other end is woken, and finds this one gone: an
/// end drops it last.
pub(crate) struct BellPull<A: Allocator> {
    pub(crate) bells: Arc<Bells, A>,
}

impl<A: Allocator> BellPull<A> {
    /// One for each end of a new lane.
    pub(crate) fn pair(alloc: A) -> Result<(BellPull<A>, BellPull<A>), OutOfMemory> {
        let bells = Bells {
            put: Bell::new(),
            taken: Bell::new(),
        };
        let Ok(one) = Arc::new(alloc, bells) else {
            return Err(OutOfMemory);
        };
        let Ok(other) = Arc::try_clone(&one) else {
            return Err(OutOfMemory);
        };
        Ok((BellPull { bells: one }, BellPull { bells: other }))
    }
}

impl<A: Allocator> Drop for BellPull<A> {
    fn drop(self) {
        let Self { bells } = self;
        bells.put.ring();
        bells.taken.ring();
    }
}

/// Whether an end that has looked this often in vain looks again at once; if so, it pauses first.
pub(crate) fn looks_again(looks: &mut u32) -> bool {
    if *looks >= LOOKS {
        return false;
    }
    hint::spin_loop();
    *looks += 1;
    true
}
