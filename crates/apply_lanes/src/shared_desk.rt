//! A desk that threads share.
ghost use Rattle.std.specs.Prelude.{◌≡◌, ◌<◌, ◌≤◌, [], Some, IfOk, IfErr};
ghost use Rattle.apply_lanes.specs.Names.{id_of, AreBlank, IsUnused};
ghost use Rattle.apply_lanes.specs.Kepts.{KeptValue, IsKept, told_nothing};
ghost use Rattle.apply_lanes.specs.Appliers.{new_applier};
ghost use Rattle.apply_lanes.specs.Admissions.{Admits, GivesSeat, GivesClockSeat, GivesApplier};

use crate::applier::Applier;
use crate::gate::Gate;
use crate::kept::{AdmitError, Kept};
use crate::names::{Blanks, DeskNames};
use crate::seat::{Seat, SeatsFull};
use command_keys::KeyBook;
use crossbeam_utils::Backoff;
use rights_types::SiteId;
use site_core::Desk;
use std::alloc::{Allocator, Global};
use std::sync::{Mutex, MutexGuard, Wait};
use thread_parts::Outlet;

/// How often a thread tries to take the lock of a desk before it sleeps: some microseconds with pauses that double, and then
/// it lets other threads run in between. A desk is held for less time than a thread takes to sleep and to be woken, and once
/// one sleeps on a lock that others take all the time, soon all do.
const TRIES: u32 = 24;

/// A desk that threads share, each with a seat or an applier of its own.
#[derive(Drop)]
pub struct SharedDesk<D: DeskNames, A: Allocator = Global> {
    pub(crate) lock: Mutex<Kept<D, A>>,
}

impl<D: DeskNames, A: Allocator + Copy> SharedDesk<D, A> {
    /// Shares a desk whose log is empty and that applied nothing. The names of its ledgers are written on the
    /// blanks.
    pub fn new(desk: Desk<A>, blanks: Blanks) -> SharedDesk<D, A>
        requires id { D.id ≡ id_of desk blanks }
        requires blanks { AreBlank blanks }
        requires unused { IsUnused desk }
    {
        SharedDesk::with_keys(desk, blanks, None)
    }

    /// The same with keys of commands, of which none wrote an entry yet.
    pub fn with_keys(desk: Desk<A>, blanks: Blanks, keys: Option<KeyBook<A>>) -> SharedDesk<D, A>
        requires id { D.id ≡ id_of desk blanks }
        requires blanks { AreBlank blanks }
        requires unused { IsUnused desk }
    {
        SharedDesk {
            lock: Mutex::new(Kept::open(desk, blanks, keys)),
        }
    }

    /// Waits until no other thread holds the desk, and holds it until the guard is dropped.
    pub fn lock<'a, R: Wait>(&'a self, rt: &R) -> MutexGuard<'a, Kept<D, A>> {
        let backoff = Backoff::new();
        for _ in 0..TRIES {
            if let Some(kept) = self.lock.try_lock() {
                return kept;
            }
            backoff.snooze();
        }
        self.lock.lock(rt)
    }

    /// A new seat, whose calls have reported nothing yet: one of at most `SEATS`, besides the clock's.
    /// `SeatsFull` if all of them were given out.
    pub fn seat<R: Wait>(&self, rt: &R) -> Result<Seat<D>, SeatsFull>
        ensures told { IfOk result (λ s. s ≡ told_nothing) }
        ensures seat { (old : KeptValue) × (new : KeptValue) × IsKept D.id old × IsKept D.id new
            × GivesSeat old result new }
    {
        // The decision is the desk's, under its lock.
        self.lock(rt).seat()
    }

    /// The seat of the site's clock, whose calls have reported nothing yet. It is given out once, besides the `SEATS`
    /// others; then `SeatsFull`.
    pub fn clock_seat<R: Wait>(&self, rt: &R) -> Result<Seat<D>, SeatsFull>
        ensures told { IfOk result (λ s. s ≡ told_nothing) }
        ensures seat { (old : KeptValue) × (new : KeptValue) × IsKept D.id old × IsKept D.id new
            × GivesClockSeat old result new }
    {
        // The decision is the desk's, under its lock.
        self.lock(rt).clock_seat()
    }

    /// The applier of that origin's log, whose entries arrive on this lane. It passes the gate each time before it
    /// takes the lock. The cause of a refusal is in the error.
    pub fn applier<G: Gate, B: Allocator, R: Wait>(
        &self,
        rt: &R,
        origin: SiteId,
        outlet: Outlet<B>,
        gate: G,
    ) -> Result<Applier<D, G, B>, AdmitError<G, B>>
        requires { outlet.taken ≡ [] }
        ensures fresh { IfOk result (λ a. a ≡ new_applier origin outlet gate) }
        ensures ok { IfOk result (λ a. (old : KeptValue) × (new : KeptValue) × IsKept D.id old × IsKept D.id new
            × GivesApplier D.id old origin outlet gate a new) }
        ensures err { IfErr result (λ e. (kept : KeptValue) × IsKept D.id kept
            × Admits D.id kept.admitted origin (Some e.cause)) }
        ensures back { IfErr result (λ e. (e.outlet ≡ outlet) × (e.gate ≡ gate)) }
    {
        // The decision is the desk's, under its lock.
        self.lock(rt).applier(origin, outlet, gate)
    }
}
