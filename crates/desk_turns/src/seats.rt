//! The seats of a desk, each under a lock of its own.
ghost use Rattle.std.specs.Prelude.{◌≡◌, ◌+◌, ◌≤◌, false, [], IfOk, IfSome};
ghost use Rattle.apply_lanes.specs.declared.names.TheConstants.{SEATS};
ghost use Rattle.origin_log.specs.Logs.{entry_text};
ghost use Rattle.transfer_manager.specs.SiteSets.{has_site};
ghost use Rattle.desk_turns.specs.Seated.{ActsAtDesk, ActsKeyedAtDesk, ReplaysAtDesk, TicksAtDesk};

use crate::turns::{Look, TurnDesk, Turns};
use crate::work::{Act, ActKeyed, ReplayOwn, Tick, TickBeside};
use apply_lanes::{DeskNames, Seat};
use command_keys::Key;
use crossbeam_utils::CachePadded;
use rights_types::{Entry, OutOfMemory};
use site_core::{DeskError, ReplayError};
use site_node::{Reply, Ticked};
use site_words::DeskCommand;
use std::alloc::{Allocator, Global};
use std::marker::Model;
use std::sync::{Arc, Mutex, MutexGuard, Wait};
use transfer_manager::SiteSet;

/// The seats of a desk, the clock's last, each under a lock of its own. Whoever has a seat holds its lock, so a seat
/// cannot get lost, nor into the place of another. Each is on cache lines of its own, since each turn changes one. A
/// clause reads it as their number.
#[derive(Drop)]
pub struct Seats<D: DeskNames> {
    desk: Arc<TurnDesk<D>>,
    seats: Vec<CachePadded<Mutex<Seat<D>>>>,
}

/// A seat that is held, and the turns that are taken for it. When this is dropped, the seat is free.
#[derive(Drop)]
pub struct Seated<'a, D: DeskNames> {
    seat: MutexGuard<'a, Seat<D>>,
    turns: Turns<D>,
}

impl<D: DeskNames> Model for Seats<D> {
    ghost use Rattle.std.specs.Prelude.{ℕ, length};

    ghost Value = { ℕ };

    ghost view = { λ seats. length seats.seats.items };
}

impl<'a, D: DeskNames> Model for Seated<'a, D> {
    ghost use Rattle.desk_turns.specs.Seated.{SeatedValue};

    ghost Value = { SeatedValue };

    ghost view = { λ seated. record { told = seated.seat.value; states = seated.turns } };
}

impl<D: DeskNames> Seats<D> {
    /// This many seats of the desk, and the clock's.
    pub fn new<R: Wait>(
        rt: &R,
        alloc: Global,
        desk: &Arc<TurnDesk<D>>,
        count: usize,
    ) -> Result<Seats<D>, OutOfMemory>
        requires { count ≤ SEATS }
        ensures { IfOk result (λ seats. seats ≡ count + 1) }
    {
        let mut seats = Vec::with_capacity(alloc, count + 1)?;
        'seats: for _ in 0..count {
            // A desk has as many, so it does not refuse.
            let Ok(seat) = desk.seat(rt) else {
                return Err(OutOfMemory);
            };
            seats.push(CachePadded::new(Mutex::new(seat)))?;
        }
        let Ok(clock) = desk.clock_seat(rt) else {
            return Err(OutOfMemory);
        };
        seats.push(CachePadded::new(Mutex::new(clock)))?;
        Ok(Seats {
            desk: desk.clone()?,
            seats,
        })
    }

    /// The seat at this index, from 0, before the first turn. `None` if another thread has it, or there is none; or if
    /// memory was refused.
    pub fn sit(&self, index: usize) -> Option<Seated<'_, D>>
        ensures { IfSome result (λ seated. seated.states ≡ []) }
    {
        Some(Seated {
            seat: self.seats.get(index)?.try_lock()?,
            turns: self.turns()?,
        })
    }

    /// Turns at the desk, before the first one. `None` if memory was refused.
    pub fn turns(&self) -> Option<Turns<D>>
        ensures { IfSome result (λ turns. turns ≡ []) }
    {
        Some(Turns::new(self.desk.clone().ok()?))
    }

    /// All seats, which no thread has any more.
    pub fn into_vec(self, alloc: Global) -> Result<Vec<Seat<D>>, OutOfMemory> {
        let Seats { seats, .. } = self;
        let mut free = Vec::with_capacity(alloc, seats.len())?;
        for seat in seats {
            free.push(seat.into_inner().into_inner())?;
        }
        Ok(free)
    }
}

impl<D: DeskNames> Seated<'_, D> {
    /// Carries out a command at the desk, in one turn.
    pub fn act<R: Wait>(&mut self, rt: &R, command: DeskCommand) -> Reply
        ensures { ActsAtDesk D.id self.old command result self.new }
    {
        self.turns.take(rt, Act(command), &mut *self.seat)
    }

    /// Carries out a command under a key at the desk, in one turn.
    pub fn act_keyed<R: Wait>(&mut self, rt: &R, key: Key, command: DeskCommand) -> Reply
        ensures { ActsKeyedAtDesk D.id self.old key command result self.new }
    {
        self.turns.take(rt, ActKeyed(key, command), &mut *self.seat)
    }

    /// Does what is due at this time, in milliseconds, at the desk, in one turn.
    pub fn tick<R: Wait>(&mut self, rt: &R, time: u64) -> Result<Ticked, DeskError>
        ensures { TicksAtDesk (λ _. false) D.id self.old time result self.new }
    {
        self.turns.take(rt, Tick(time), &mut *self.seat)
    }

    /// The same beside silent peers.
    pub fn tick_beside<R: Wait>(
        &mut self,
        rt: &R,
        time: u64,
        silent: SiteSet,
    ) -> Result<Ticked, DeskError>
        ensures { TicksAtDesk (has_site silent) D.id self.old time result self.new }
    {
        self.turns
            .take(rt, TickBeside { time, silent }, &mut *self.seat)
    }

    /// Writes an entry of the site again, of which this is the text, in one turn.
    pub fn replay_own<R: Wait, A: Allocator>(
        &mut self,
        rt: &R,
        entry: &Entry<A>,
        text: &[u8],
    ) -> Result<(), ReplayError>
        requires { text.now ≡ entry_text entry.now }
        ensures { ReplaysAtDesk D.id entry.now self.old result self.new }
    {
        self.turns.take(rt, ReplayOwn(entry, text), &mut *self.seat)
    }

    /// Waits until no other thread holds the desk, and holds it for reading.
    pub fn look<R: Wait>(&self, rt: &R) -> Look<'_, D> {
        self.turns.look(rt)
    }
}
