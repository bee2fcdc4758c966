//! The laws, on functions that do nothing.
ghost use Rattle.rights_protocol.specs.Laws.{EveryMoment, EveryRun, StartKept, StepKeeps, KeptPromises, ClosedForGood};
ghost use Rattle.rights_protocol.specs.Laws.{AppliedForGood, OneSite};

/// The headline and retirement hold at each moment of every run from the start.
pub fn every_moment()
    ensures { EveryMoment }
{}

/// The headline and retirement hold of all lists that any run from the start leads to.
pub fn every_run()
    ensures { EveryRun }
{}

/// The invariant holds at the start.
pub fn start_is_kept()
    ensures { StartKept }
{}

/// Each change preserves the invariant.
pub fn step_keeps()
    ensures { StepKeeps }
{}

/// The invariant implies the headline and retirement.
pub fn kept_promises()
    ensures { KeptPromises }
{}

/// A closed site stays closed, and what it applied never changes.
pub fn closed_for_good()
    ensures { ClosedForGood }
{}

/// A closing entry that was applied stays applied, and stays the last of its log.
pub fn applied_for_good()
    ensures { AppliedForGood }
{}

/// Each step of one site preserves the invariant of that site, which bounds its log and its book.
pub fn one_site()
    ensures { OneSite }
{}
