//! The memory that all requests and responses of clients may take together.
ghost use Rattle.std.specs.Prelude.{◌≡◌, ◌+◌, ◌-◌, ◌≤◌, nat_le, if◌then◌else◌};
ghost use Rattle.site_sockets.specs.declared.budget.TheConstants.{MAX_BUFFERED};

use std::marker::Model;
use std::sync::atomic::{AtomicUsize, Ordering};
use std::sync::{Mutex, Wait};

/// How many bytes all connections of clients together may buffer, of bodies that are not carried out yet and of
/// responses that are not taken, apart from the first `FREE` bytes of each connection.
const MAX_BUFFERED: usize = 67_108_864;

/// How many bytes of a body and its response each connection may buffer in any case.
const FREE: usize = 65_536;

/// Memory is counted in pieces of so many bytes.
const PIECE: usize = 65_536;

/// How many bytes are buffered, at most `MAX_BUFFERED`.
#[derive(Drop)]
struct Used {
    bytes: usize,
}

impl Model for Used {
    ghost use Rattle.std.specs.Prelude.{ℕ, ◌≤◌};
    ghost use Rattle.site_sockets.specs.declared.budget.TheConstants.{MAX_BUFFERED};

    ghost Value = { ℕ };

    ghost view = { λ used. used.bytes };

    ghost invariant = { λ used. used.bytes ≤ MAX_BUFFERED };
}

impl Used {
    /// Counts this number of bytes more, if there is room for them.
    fn take(&mut self, more: usize) -> bool
        ensures taken { result ≡ nat_le (self.old + more) MAX_BUFFERED }
        ensures count { self.new ≡ (if result then self.old + more else self.old) }
    {
        if more > MAX_BUFFERED - self.bytes {
            return false;
        }
        self.bytes += more;
        true
    }

    /// Counts this number of bytes less.
    fn give_back(&mut self, less: usize)
        ensures { self.new ≡ self.old - less }
    {
        self.bytes = self.bytes.saturating_sub(less);
    }
}

/// The memory that all connections may take together.
#[derive(Drop)]
pub(crate) struct Budget {
    used: Mutex<Used>,
}

/// What one connection takes of it, in bytes. Only its own thread changes it.
#[derive(Drop)]
pub(crate) struct Share {
    /// Of its input, since its last response.
    input: AtomicUsize,
    /// Counted in the budget.
    counted: AtomicUsize,
}

impl Share {
    pub(crate) fn new() -> Share {
        Share {
            input: AtomicUsize::new(0),
            counted: AtomicUsize::new(0),
        }
    }
}

impl Budget {
    pub(crate) fn new() -> Budget {
        Budget {
            used: Mutex::new(Used { bytes: 0 }),
        }
    }

    /// Counts input of a connection. `false` if there is no room for it.
    pub(crate) fn receive<R: Wait>(&self, rt: &R, share: &Share, count: usize) -> bool {
        let input = share.input.load(Ordering::SeqCst).saturating_add(count);
        share.input.store(input, Ordering::SeqCst);
        self.cover(rt, share, input)
    }

    /// Whether there is room for a response of this many bytes so far, which is counted then.
    pub(crate) fn respond<R: Wait>(&self, rt: &R, share: &Share, len: usize) -> bool {
        let input = share.input.load(Ordering::SeqCst);
        self.cover(rt, share, input.saturating_add(len))
    }

    /// The connection buffers nothing any more.
    pub(crate) fn clear<R: Wait>(&self, rt: &R, share: &Share) {
        share.input.store(0, Ordering::SeqCst);
        let counted = share.counted.swap(0, Ordering::SeqCst);
        if counted > 0 {
            self.used.lock(rt).give_back(counted);
        }
    }

    /// Counts so much more that this number of bytes is covered.
    fn cover<R: Wait>(&self, rt: &R, share: &Share, len: usize) -> bool {
        let counted = share.counted.load(Ordering::SeqCst);
        if len <= counted.saturating_add(FREE) {
            return true;
        }
        let more = (len - counted - FREE).saturating_add(PIECE);
        if !self.used.lock(rt).take(more) {
            return false;
        }
        share
            .counted
            .store(counted.saturating_add(more), Ordering::SeqCst);
        true
    }
}
