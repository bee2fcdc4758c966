//! One thread's part in applying one log.
ghost use Rattle.std.specs.Prelude.{◌≡◌, ◌≢◌, ℕ, ◌≤◌, true, false, [], Some, None, Ok, IsSome, IfOk, IfErr, OnOk};
ghost use Rattle.std.specs.Prelude.{OnErr, length};
ghost use Rattle.rights_types.specs.Entries.{EntryValue};
ghost use Rattle.rights_protocol.specs.Retiring.{numbers_in};
ghost use Rattle.apply_lanes.specs.Appliers.{IsApplier, new_applier};
ghost use Rattle.apply_lanes.specs.declared.applier.StepError.TheVariants.{OutOfMemory as NoMemory};
ghost use Rattle.apply_lanes.specs.declared.applier.StepError.TheVariants.{LaneClosed as NothingCame};

mod batch;
mod replaying;

use crate::gate::Gate;
use crate::kept::Kept;
use crate::names::{DeskNames, NumberOf, ReceivedBy};
use crate::shared_desk::SharedDesk;
pub use batch::{MAX_BATCH, pause};
use rights_types::{Entry, SiteId};
use std::alloc::{Allocator, Global};
use std::marker::Model;
use std::sync::Wait;
use std::time::Clock;
use thread_parts::{Item, Outlet, Shard};

/// Why a step of an applier failed, in the order in which the causes are checked.
#[derive(Clone, Copy, Debug, PartialEq, Eq)]
pub enum StepError {
    /// The lane's other end is gone, and no item waits.
    LaneClosed,
    /// The entry is from another site's log; or the desk's number of this log is not the one before the entry, or the
    /// desk has this log closed. The entry stays in hand.
    OutOfStep,
    /// A memory request was refused. The entry stays in hand, and the next step tries it again.
    OutOfMemory,
}

/// Takes the entries of one log from a lane, and applies them at a shared desk, one each time it holds the lock. Once
/// it finds the desk closed, it drops that entry and all later ones.
#[derive(Drop)]
pub struct Applier<D: DeskNames, G: Gate, A: Allocator = Global> {
    pub(crate) origin: SiteId,
    pub(crate) outlet: Outlet<A>,
    pub(crate) gate: G,
    pub(crate) hand: Option<Entry<A>>,
    pub(crate) ended: bool,
    pub(crate) dropping: bool,
    pub(crate) number: Shard<NumberOf<D>>,
    pub(crate) received: Shard<ReceivedBy<D>>,
}

impl<D: DeskNames, G: Gate, A: Allocator> Model for Applier<D, G, A> {
    ghost use Rattle.apply_lanes.specs.Appliers.{ApplierValue, IsApplier};

    ghost Value = { ApplierValue G A };

    ghost view = { λ a. record {
      origin = a.origin;
      outlet = a.outlet;
      gate = a.gate;
      hand = a.hand;
      ended = a.ended;
      dropping = a.dropping;
      number = a.number;
      received = a.received;
    } };

    ghost invariant = { λ a. IsApplier D.id
        (record {
          origin = a.origin;
          outlet = a.outlet;
          gate = a.gate;
          hand = a.hand;
          ended = a.ended;
          dropping = a.dropping;
          number = a.number;
          received = a.received;
        }) };
}

impl<D: DeskNames, G: Gate, A: Allocator> Applier<D, G, A> {
    ghost use Rattle.apply_lanes.specs.Appliers.{ApplierValue, IsCounted, is_late, step_fault, StepRefuses, MovesOn};
    ghost use Rattle.apply_lanes.specs.Appliers.{applied, dropped, counted_on, Fills, Steps, StepFails, Runs, RunFails};
    ghost use Rattle.apply_lanes.specs.Kepts.{IsKept};
    ghost use Rattle.apply_lanes.specs.Steps.{StepsBy, RecordsBy, apply_change};

    /// Applies the entry in hand to the value under the lock; at a closed desk the entry is dropped. Errors, in this
    /// order: `OutOfStep`, `OutOfMemory`. An error leaves the entry in hand, and changes nothing.
    pub fn apply_in<B: Allocator + Copy>(&mut self, kept: &mut Kept<D, B>) -> Result<(), StepError>
        requires { IsSome self.old.hand }
        ensures refused { (e : EntryValue) → self.old.hand ≡ Some e
            → StepRefuses (step_fault self.old kept.old.desk e) result }
        ensures dropped { OnOk result (is_late self.old kept.old.desk ≡ true
            → (self.new ≡ dropped self.old) × (kept.new ≡ kept.old)) }
        ensures applied { OnOk result (is_late self.old kept.old.desk ≡ false → (e : EntryValue)
            → self.old.hand ≡ Some e → self.new ≡ applied D.id self.old e) }
        ensures desk { OnOk result (is_late self.old kept.old.desk ≡ false → (e : EntryValue) → self.old.hand ≡ Some e
            → MovesOn D.id.site kept.old.desk self.old.origin e kept.new.desk
            × (kept.new ≡ counted_on D.id kept.old e kept.new.desk)) }
        ensures step { OnOk result ((e : EntryValue) → self.old.hand ≡ Some e
            → StepsBy D.id kept.old.desk (apply_change (is_late self.old kept.old.desk) self.old.origin e)
            kept.new.desk) }
        ensures records { OnOk result ((e : EntryValue) → self.old.hand ≡ Some e
            → RecordsBy D.id kept.old (apply_change (is_late self.old kept.old.desk) self.old.origin e) kept.new) }
        ensures same { (self.new.origin ≡ self.old.origin) × (self.new.outlet ≡ self.old.outlet) }
        ensures before { IsCounted D.id self.old }
        ensures after { IsCounted D.id self.new }
        ensures kept { IsKept D.id kept.old }
        ensures err { OnErr result ((self.new ≡ self.old) × (kept.new ≡ kept.old)) }
        ensures memory { (e : EntryValue) → self.old.hand ≡ Some e → numbers_in e.moves ≡ None
            → IfErr result (λ fault. ¬ (fault ≡ NoMemory)) }
    {
        let is_late = self.is_late(kept);
        let Some(entry) = &self.hand else {
            unreachable!()
        };
        if is_late {
            self.hand = None;
            self.dropping = true;
            return Ok(());
        }
        if entry.origin() != self.origin {
            // The lane is that of another site.
            return Err(StepError::OutOfStep);
        }
        if kept.desk.closed(self.origin) || kept.desk.applied(self.origin) != entry.prev() {
            return Err(StepError::OutOfStep);
        }
        match kept.apply(self.origin, entry, &mut self.number, &mut self.received) {
            Ok(()) => {
                self.hand = None;
                Ok(())
            }
            Err(_) => Err(StepError::OutOfMemory),
        }
    }

    // Whether the desk had closed when the applier reached it, now or before.
    fn is_late<B: Allocator + Copy>(&self, kept: &Kept<D, B>) -> bool
        ensures { result ≡ is_late self.now kept.now.desk }
    {
        self.dropping || kept.desk.log().closed()
    }

    // Takes the next entry in hand, unless one is there. `false` if End was taken.
    fn fill<R: Wait>(&mut self, rt: &R) -> Result<bool, StepError>
        ensures ok { IfOk result (λ more. Fills self.old more self.new) }
        ensures hand { IfOk result (λ more. more ≡ true → IsSome self.new.hand) }
        ensures counted { IsCounted D.id self.new }
        ensures same { (self.new.origin ≡ self.old.origin) × (self.new.outlet.lane ≡ self.old.outlet.lane) }
        ensures err { IfErr result (λ fault. (fault ≡ NothingCame) × (self.old.hand ≡ None)
            × (self.new ≡ record self.old { outlet = record self.old.outlet { dead = true } })) }
        ensures ended { self.old.ended ≡ true → result ≡ Ok false }
    {
        if self.ended {
            return Ok(false);
        }
        if self.hand.is_some() {
            return Ok(true);
        }
        match self.outlet.take(rt) {
            Ok(Item::Entry(entry)) => {
                self.hand = Some(entry);
                Ok(true)
            }
            Ok(Item::End) => {
                self.ended = true;
                Ok(false)
            }
            Err(_) => Err(StepError::LaneClosed),
        }
    }

    // Passes the gate.
    fn pass<R: Wait + Clock>(&mut self, rt: &R)
        ensures passes { G.passes self.old.gate self.old.origin self.new.gate }
        ensures rest { self.new ≡ record self.old { gate = self.new.gate } }
    {
        self.gate.before_apply(rt, self.origin);
    }

    /// Takes the next entry if none is in hand, passes the gate, and applies or drops the entry under the lock.
    /// `false` if End was taken. Errors, in this order: `LaneClosed`; those of `apply_in`.
    pub fn step<R: Wait + Clock, B: Allocator + Copy>(
        &mut self,
        rt: &R,
        desk: &SharedDesk<D, B>,
    ) -> Result<bool, StepError>
        ensures ok { IfOk result (λ more. Steps G.passes D.id self.old more self.new) }
        ensures ended { self.old.ended ≡ true → (result ≡ Ok false) × (self.new ≡ self.old) }
        ensures counted { IsCounted D.id self.new }
        ensures same { (self.new.origin ≡ self.old.origin) × (self.new.outlet.lane ≡ self.old.outlet.lane) }
        ensures err { IfErr result (λ fault. StepFails G.passes D.id self.old fault self.new) }
    {
        if !self.fill(rt)? {
            return Ok(false);
        }
        self.pass(rt);
        let mut kept = desk.lock(rt);
        self.apply_in(&mut *kept)?;
        Ok(true)
    }

    /// Steps until End was taken, and returns how many entries were applied or dropped. Stops at the first step that
    /// fails.
    pub fn run<R: Wait + Clock, B: Allocator + Copy>(
        &mut self,
        rt: &R,
        desk: &SharedDesk<D, B>,
    ) -> Result<u64, StepError>
        ensures ok { IfOk result (λ n. Runs G.passes D.id self.old n self.new) }
        ensures ended { OnOk result (self.new.ended ≡ true) }
        ensures counted { IsCounted D.id self.new }
        ensures err { IfErr result (λ fault. RunFails G.passes D.id self.old fault self.new) }
        ensures same { (self.new.origin ≡ self.old.origin) × (self.new.outlet.lane ≡ self.old.outlet.lane) }
    {
        for count in 0..u64::MAX {
            if !self.step(rt, desk)? {
                return Ok(count);
            }
        }
        // No log has this many entries.
        for _ in rt.forever() {}
        unreachable!()
    }
}

/// What an applier reports, once it is done.
#[derive(Drop)]
pub struct Applied<D: DeskNames> {
    origin: SiteId,
    number: Shard<NumberOf<D>>,
    received: Shard<ReceivedBy<D>>,
}

impl<D: DeskNames> Model for Applied<D> {
    ghost use Rattle.apply_lanes.specs.Appliers.{AppliedValue};

    ghost Value = { AppliedValue };

    ghost view = { λ a. record { origin = a.origin; number = a.number; received = a.received } };
}

impl<D: DeskNames> Applied<D> {
    /// The site whose log it applied.
    pub fn origin(&self) -> SiteId
        ensures { result ≡ self.now.origin }
    {
        self.origin
    }

    /// The number of the last entry that it applied, or 0 if it applied none.
    pub fn number(&self) -> u64
        ensures { result ≡ self.now.number }
    {
        self.number.added()
    }

    /// The rights that the entries that it applied gave to the site.
    pub fn received(&self) -> u64
        ensures { result ≡ self.now.received }
    {
        self.received.added()
    }

    pub(crate) fn into_shards(self) -> (Shard<NumberOf<D>>, Shard<ReceivedBy<D>>)
        ensures { (result.0 ≡ self.number) × (result.1 ≡ self.received) }
    {
        let Applied {
            origin: _,
            number,
            received,
        } = self;
        (number, received)
    }
}

impl<D: DeskNames, G: Gate + Drop, A: Allocator> Applier<D, G, A> {
    ghost use Rattle.apply_lanes.specs.Appliers.{IsCounted};

    /// Ends the applier. An entry in hand is dropped.
    pub fn done(self) -> Applied<D>
        ensures value { result ≡ record { origin = self.origin; number = self.number; received = self.received } }
        ensures counted { IsCounted D.id self }
    {
        let Applier {
            origin,
            outlet: _,
            gate: _,
            hand: _,
            ended: _,
            dropping: _,
            number,
            received,
        } = self;
        Applied {
            origin,
            number,
            received,
        }
    }
}
