//! Several entries under one hold of the lock.
ghost use Rattle.std.specs.Prelude.{◌≡◌, ℕ, ◌≤◌, true, false, None, Ok, IsSome, IfOk, IfErr, OnOk, IfSome, IfNone};
ghost use Rattle.apply_lanes.specs.declared.applier.StepError.TheVariants.{LaneClosed as NothingCame};

use crate::applier::{Applier, StepError};
use crate::gate::{Free, Gate};
use crate::kept::Kept;
use crate::names::DeskNames;
use crate::shared_desk::SharedDesk;
use std::alloc::Allocator;
use std::sync::Wait;
use std::{hint, thread};
use thread_parts::Item;

/// The greatest number of entries that are applied under one hold of the lock.
pub const MAX_BATCH: u64 = 256;

// How often an applier pauses before it looks at its lane again, some microseconds in all: meanwhile the lane is the
// reader's alone, and several entries come to wait there.
const PAUSES: u32 = 64;

// How often an applier looks at an empty lane before it sleeps, for some 50 microseconds in all: to wake it costs the
// reader more than to put an entry.
const LOOKS: u32 = 150;

/// Pauses for a moment, between two batches of an applier.
pub fn pause() {
    for _ in 0..PAUSES {
        hint::spin_loop();
    }
}

impl<D: DeskNames, G: Gate, A: Allocator> Applier<D, G, A> {
    ghost use Rattle.apply_lanes.specs.Appliers.{IsCounted, Fills};
    ghost use Rattle.apply_lanes.specs.Batches.{HandlesBatch, BatchFails};

    // Takes in hand the next entry that waits on the lane, unless one is there. `Some(false)` if End was taken; `None`
    // if nothing waits.
    fn fill_ready(&mut self) -> Option<bool>
        ensures some { IfSome result (λ more. Fills self.old more self.new) }
        ensures hand { IfSome result (λ more. more ≡ true → IsSome self.new.hand) }
        ensures none { IfNone result ((self.new ≡ self.old) × (self.old.hand ≡ None)) }
        ensures counted { IsCounted D.id self.new }
        ensures same { (self.new.origin ≡ self.old.origin) × (self.new.outlet.lane ≡ self.old.outlet.lane) }
    {
        if self.ended {
            return Some(false);
        }
        if self.hand.is_some() {
            return Some(true);
        }
        match self.outlet.take_ready() {
            Some(Item::Entry(entry)) => {
                self.hand = Some(entry);
                Some(true)
            }
            Some(Item::End) => {
                self.ended = true;
                Some(false)
            }
            None => None,
        }
    }

    /// Takes the next entry in hand, unless one is there: looks for it for a while, and then blocks until it comes.
    /// `false` if End was taken. Error: `LaneClosed`.
    pub fn fill_soon<R: Wait>(&mut self, rt: &R) -> Result<bool, StepError>
        ensures ok { IfOk result (λ more. Fills self.old more self.new) }
        ensures hand { IfOk result (λ more. more ≡ true → IsSome self.new.hand) }
        ensures counted { IsCounted D.id self.new }
        ensures same { (self.new.origin ≡ self.old.origin) × (self.new.outlet.lane ≡ self.old.outlet.lane) }
        ensures err { IfErr result (λ fault. (fault ≡ NothingCame) × (self.old.hand ≡ None)
            × (self.new ≡ record self.old { outlet = record self.old.outlet { dead = true } })) }
        ensures ended { self.old.ended ≡ true → result ≡ Ok false }
    {
        'looks: for _ in 0..LOOKS {
            if let Some(more) = self.fill_ready() {
                return Ok(more);
            }
            thread::yield_now();
        }
        self.fill(rt)
    }

    /// Applies or drops the entry in hand, and then those that wait on the lane, at most `MAX_BATCH` in all, at the
    /// value under the lock. It waits for none. Returns how many, and `false` if End was taken. Errors: those of
    /// `apply_in`, which concern the entry then in hand; the entries before it were applied or dropped. It passes no
    /// gate.
    pub fn apply_ready<B: Allocator + Copy>(
        &mut self,
        kept: &mut Kept<D, B>,
    ) -> Result<(u64, bool), StepError>
        ensures ok { IfOk result (λ r. HandlesBatch D.id self.old kept.old r.0 r.1 self.new kept.new) }
        ensures few { IfOk result (λ r. r.0 ≤ MAX_BATCH) }
        ensures counted { IsCounted D.id self.new }
        ensures same { (self.new.origin ≡ self.old.origin) × (self.new.outlet.lane ≡ self.old.outlet.lane) }
        ensures err { IfErr result (λ fault. BatchFails D.id self.old kept.old fault self.new kept.new) }
    {
        let mut count = 0;
        while count < MAX_BATCH {
            match self.fill_ready() {
                Some(true) => self.apply_in(kept)?,
                Some(false) => return Ok((count, false)),
                None => return Ok((count, true)),
            }
            count += 1;
        }
        Ok((count, true))
    }
}

impl<D: DeskNames, A: Allocator> Applier<D, Free, A> {
    ghost use Rattle.apply_lanes.specs.Appliers.{IsCounted, Runs};
    ghost use Rattle.apply_lanes.specs.Batches.{StepsReady, ReadyFails, stays};

    /// As `step`, and then, under the same hold of the lock, the same for each entry that waits on the lane, at most
    /// `MAX_BATCH` entries in all. It waits only for the first. Returns how many entries were applied or dropped, and
    /// `false` if End was taken. Errors: those of `step`; the entries before were applied or dropped.
    pub fn step_ready<R: Wait, B: Allocator + Copy>(
        &mut self,
        rt: &R,
        desk: &SharedDesk<D, B>,
    ) -> Result<(u64, bool), StepError>
        ensures ok { IfOk result (λ r. StepsReady D.id self.old r.0 r.1 self.new) }
        ensures few { IfOk result (λ r. r.0 ≤ MAX_BATCH) }
        ensures ended { self.old.ended ≡ true → (result ≡ Ok (0, false)) × (self.new ≡ self.old) }
        ensures counted { IsCounted D.id self.new }
        ensures same { (self.new.origin ≡ self.old.origin) × (self.new.outlet.lane ≡ self.old.outlet.lane) }
        ensures err { IfErr result (λ fault. ReadyFails D.id self.old fault self.new) }
    {
        if !self.fill_soon(rt)? {
            return Ok((0, false));
        }
        let mut kept = desk.lock(rt);
        self.apply_ready(&mut *kept)
    }

    /// Steps until End was taken, with one hold of the lock for all entries that wait. Stops at the first step that
    /// fails.
    pub fn run_ready<R: Wait, B: Allocator + Copy>(
        &mut self,
        rt: &R,
        desk: &SharedDesk<D, B>,
    ) -> Result<(), StepError>
        ensures ok { OnOk result ((n : ℕ) × Runs stays D.id self.old n self.new) }
        ensures ended { OnOk result (self.new.ended ≡ true) }
        ensures counted { IsCounted D.id self.new }
        ensures err { IfErr result (λ fault. ReadyFails D.id self.old fault self.new) }
        ensures same { (self.new.origin ≡ self.old.origin) × (self.new.outlet.lane ≡ self.old.outlet.lane) }
    {
        for _ in rt.forever() {
            let (_, more) = self.step_ready(rt, desk)?;
            if !more {
                return Ok(());
            }
            pause();
        }
        unreachable!()
    }
}
