//! What identifies a shared desk, and the names of its four ledgers.
ghost use Rattle.apply_lanes.specs.Names.{DeskId};

use std::marker::{Brand, PhantomData};
use std::sync::ledger::{Blank, Ledger};

/// The greatest number of seats of one shared desk, besides that of its site's clock.
pub const SEATS: u64 = 64;

/// The greatest number of appliers of one shared desk: one for each site that a system can have.
pub const APPLIERS: u64 = 16;

/// Names one shared desk: its seats and appliers have types with this parameter. A program picks it when it calls a
/// function over all names through `Brand`, with the desk and the blanks that it passes.
pub trait DeskNames {
    ghost id: { DeskId };
}

impl DeskNames for Brand {
    ghost id = { record { issued = 0; spent = 0; number = 0; received = 0; site = 0; sites = 0 } };
}

/// What the names of the four ledgers are written on: rights issued and spent by seats, numbers applied and rights
/// received by appliers.
#[derive(Drop)]
pub struct Blanks {
    pub issued: Blank,
    pub spent: Blank,
    pub number: Blank,
    pub received: Blank,
}

impl Blanks {
    ghost use Rattle.apply_lanes.specs.Names.{AreBlank};

    /// The blanks of one desk.
    pub fn new() -> Blanks
        ensures { AreBlank result }
    {
        Blanks {
            issued: Blank::new(SEATS + 2),
            spent: Blank::new(SEATS + 2),
            number: Blank::new(APPLIERS + 1),
            received: Blank::new(APPLIERS + 1),
        }
    }
}

/// The ledger of what was issued.
pub struct IssuedBy<D: DeskNames>(PhantomData<D>);

impl<D: DeskNames> Ledger for IssuedBy<D> {
    ghost name = { D.id.issued };

    ghost parts = { 66 };
}

/// The ledger of what was spent.
pub struct SpentBy<D: DeskNames>(PhantomData<D>);

impl<D: DeskNames> Ledger for SpentBy<D> {
    ghost name = { D.id.spent };

    ghost parts = { 66 };
}

/// The ledger of the numbers that were applied.
pub struct NumberOf<D: DeskNames>(PhantomData<D>);

impl<D: DeskNames> Ledger for NumberOf<D> {
    ghost name = { D.id.number };

    ghost parts = { 17 };
}

/// The ledger of what was received.
pub struct ReceivedBy<D: DeskNames>(PhantomData<D>);

impl<D: DeskNames> Ledger for ReceivedBy<D> {
    ghost name = { D.id.received };

    ghost parts = { 17 };
}
