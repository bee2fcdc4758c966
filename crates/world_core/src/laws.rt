//! Laws of the definitions, with no program in them. The functions do nothing.
ghost use Rattle.std.specs.Prelude.{◌≡◌, ℕ, ◌≤◌, true, List, Result};
ghost use Rattle.rights_types.specs.Chains.{is_closed};
ghost use Rattle.rights_types.specs.declared.limits.TheConstants.{MIN_SITES, MAX_SITES};
ghost use Rattle.rights_protocol.specs.Changes.{Start};
ghost use Rattle.rights_protocol.specs.Retirement.{AppliedClose};
ghost use Rattle.rights_protocol.specs.BoundedCounter.{Counter, Operation, CounterRun, EmptyCounter};
ghost use Rattle.rights_protocol.specs.CounterOfLists.{state_of};
ghost use Rattle.world_core.specs.Values.{WorldValue};
ghost use Rattle.world_core.specs.Worlds.{start, log, applied, lists_of};
ghost use Rattle.world_core.specs.Step.{Runs};
ghost use Rattle.world_core.specs.Headline.{Headline};
ghost use Rattle.world_core.specs.Refinement.{Refines, Later, Reached};
ghost use Rattle.world_core.specs.declared.event.Event.{Event};
ghost use Rattle.world_core.specs.declared.reply.Reply.{Reply};
ghost use Rattle.world_core.specs.declared.fault.WorldError.{WorldError};

/// The headline and retirement hold of every world that a run of the step relation reaches from the start, whatever
/// the events and their outcomes. (The values of events and replies do not depend on where they are stored, so the
/// type that represents this is arbitrary.)
pub fn every_run()
    ensures { (n : ℕ) (events : List (Event ℕ)) (outcomes : List (Result (Reply ℕ) WorldError)) (w : WorldValue)
        → MIN_SITES ≤ n → n ≤ MAX_SITES → Runs (start n) events outcomes w → Headline w }
{}

/// From any world that events reach, any later events are changes of the protocol: one after another they lead from
/// the old lists to the new ones. One event is such a run too.
pub fn later_refines()
    ensures { (n : ℕ) (old new : WorldValue) → Reached n old → Later old new → Refines old new }
{}

/// The start of a world is the protocol's start, so every run of a world is a run of the protocol from its start.
pub fn every_run_refines()
    ensures { (n : ℕ) (w : WorldValue) → Reached n w → Start n (lists_of (start n)) × Refines (start n) w }
{}

/// Every run of a world is a run of the Bounded Counter's operations, each within its guard.
pub fn every_run_operates()
    ensures { (n : ℕ) (w : WorldValue) → Reached n w
        → (ops : List Operation)
        × ((empty : Counter) × EmptyCounter empty × CounterRun n ops empty (state_of (lists_of w))) }
{}

/// Whatever happens later, a site that is closed stays closed, and what it applied never changes.
pub fn closed_for_good()
    ensures { (n : ℕ) (old new : WorldValue) (c : ℕ) → Reached n old → Later old new → is_closed (log old c) ≡ true
        → (is_closed (log new c) ≡ true) × ((o : ℕ) → applied new c o ≡ applied old c o) }
{}

/// Whatever happens later, a closing entry that a site applied stays applied, and stays the last of its log.
pub fn applied_for_good()
    ensures { (n : ℕ) (old new : WorldValue) (s c : ℕ) (numbers : List ℕ) → Reached n old → Later old new
        → AppliedClose (lists_of old) s c numbers → AppliedClose (lists_of new) s c numbers }
{}
