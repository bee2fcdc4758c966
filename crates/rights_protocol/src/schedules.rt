//! Sites that run independently, in threads or processes: laws on functions that do nothing.
ghost use Rattle.rights_protocol.specs.Schedules.{AnyCut, AnySchedule, LocalKeeps, LocalRunKept};

/// In every schedule of the steps of all sites, from fresh ones, the headline and retirement hold at each moment, and
/// the steps form a run of the protocol. The premise: an entry that a site applies is in its origin's log by then, and
/// each log has one writer.
pub fn any_schedule()
    ensures { AnySchedule }
{}

/// The invariants of the single sites imply the headline and retirement of the system, if what a site applied of a log
/// is always a prefix of that log. No history is needed, and the sites may be read at different moments.
pub fn any_cut()
    ensures { AnyCut }
{}

/// Each step of a site preserves the invariant of that site.
pub fn local_keeps()
    ensures { LocalKeeps }
{}

/// So the invariant holds of a site after any of its steps from the start, whatever the others did.
pub fn local_run_kept()
    ensures { LocalRunKept }
{}
