//! The desk of a site with everything that was given out for it.
ghost use Rattle.std.specs.Prelude.{◌≡◌};
ghost use Rattle.apply_lanes.specs.Names.{id_of, AreBlank, IsUnused};

use crate::site::slots::Slots;
use apply_lanes::{Applied, Blanks, DeskNames};
use command_keys::KeyBook;
use desk_turns::{Seats, TurnDesk};
use durability::Durability;
use rights_types::{MAX_SITES, OutOfMemory};
use site_core::Desk;
use site_metrics::CLIENTS;
use std::alloc::Global;
use std::sync::{Arc, Wait};

/// The index of the seat of the client that writes to the site's input. Those before it are for clients that connect.
pub(crate) const COMMANDS: usize = CLIENTS;

/// The index of the seat of the site's own ticks.
pub(crate) const TICKS: usize = COMMANDS + 1;

/// The desk of a site, its seats, and the reports of appliers that are done. A thread gets what it needs of them: one
/// that answers a client the seats; one that reads or applies the lines of a peer its own turns.
#[derive(Drop)]
pub(crate) struct Shared<D: DeskNames> {
    pub(crate) desk: Arc<TurnDesk<D>>,
    pub(crate) seats: Arc<Seats<D>>,
    /// One slot for each site that a system may have.
    pub(crate) applied: Arc<Slots<Applied<D>>>,
}

impl<D: DeskNames> Shared<D> {
    /// Shares a desk that was not used yet, for a site with a journal or without one. Without keys it takes none.
    pub(crate) fn new<R: Wait>(
        rt: &R,
        alloc: Global,
        desk: Desk,
        blanks: Blanks,
        keys: Option<KeyBook>,
        durability: Option<Arc<Durability>>,
    ) -> Result<Shared<D>, OutOfMemory>
        requires id { D.id ≡ id_of desk blanks }
        requires blanks { AreBlank blanks }
        requires unused { IsUnused desk }
    {
        let desk = Arc::new(alloc, TurnDesk::new(desk, blanks, keys, durability))?;
        let seats = Seats::new(rt, alloc, &desk, TICKS)?;
        Ok(Shared {
            seats: Arc::new(alloc, seats)?,
            applied: Arc::new(alloc, Slots::new(alloc, MAX_SITES as usize)?)?,
            desk,
        })
    }
}
