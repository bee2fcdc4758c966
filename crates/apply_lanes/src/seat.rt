//! A seat at a shared desk.

use crate::names::{DeskNames, IssuedBy, SpentBy};
use std::marker::Model;
use thread_parts::Shard;

/// One caller's account at a shared desk: what it issued and spent there is counted, and all seats together have the
/// desk's sums.
#[derive(Drop)]
pub struct Seat<D: DeskNames> {
    pub(crate) issued: Shard<IssuedBy<D>>,
    pub(crate) used: Shard<SpentBy<D>>,
    pub(crate) spent: u64,
    pub(crate) served: u64,
}

/// All seats of the desk were given out; or, for the clock's seat, it was given out before.
#[derive(Clone, Copy, Debug, PartialEq, Eq)]
pub struct SeatsFull;

impl<D: DeskNames> Model for Seat<D> {
    ghost use Rattle.std.specs.Prelude.{◌≡◌, ◌+◌};
    ghost use Rattle.apply_lanes.specs.Kepts.{SeatValue};

    ghost Value = { SeatValue };

    ghost view = { λ s. record { issued = s.issued; spent = s.spent; served = s.served } };

    ghost invariant = { λ s. s.used ≡ s.spent + s.served };
}

impl<D: DeskNames> Seat<D> {
    ghost use Rattle.std.specs.Prelude.{◌≡◌};

    /// The rights that its calls of `issue` reported as issued.
    pub fn told_issued(&self) -> u64
        ensures { result ≡ self.now.issued }
    {
        self.issued.added()
    }

    /// The rights that its calls of `spend` reported as spent.
    pub fn told_spent(&self) -> u64
        ensures { result ≡ self.now.spent }
    {
        self.spent
    }

    /// The rights that its calls of `serve` reported as spent.
    pub fn told_served(&self) -> u64
        ensures { result ≡ self.now.served }
    {
        self.served
    }
}
