//! What an applier passes before it takes the lock.
ghost use Rattle.std.specs.Prelude.{◌≡◌, ℕ};

use rights_types::SiteId;
use std::sync::Wait;
use std::time::Clock;

/// A point that an applier passes after it took an entry and before it takes the lock under which it applies the
/// entry. The lock is not held there.
pub trait Gate {
    /// The effect on a gate when the applier of this origin passes it. The contract of an applier's step says that it
    /// did.
    ghost passes: { Self → ℕ → Self → Type 0 };

    /// Called when the applier of this origin is about to take the lock.
    fn before_apply<R: Wait + Clock>(&mut self, rt: &R, origin: SiteId)
        ensures { passes self.old origin self.new };
}

/// A gate that does nothing.
#[derive(Drop)]
pub struct Free;

impl Gate for Free {
    ghost passes = { λ old _ new. new ≡ old };

    fn before_apply<R: Wait + Clock>(&mut self, _rt: &R, _origin: SiteId) {}
}
