//! Sites that crash, and start again from their journals: laws on functions that do nothing.
ghost use Rattle.rights_protocol.specs.Crashes.{AnyCrash, DurableForGood, DurableSchedule};

/// After any steps, asks, syncs and crashes of all sites, from new ones, the headline and retirement hold: of what the
/// sites have in memory, of what is durable, and of whatever fronts of their journals a crash may leave. The premises: an
/// entry that a site applies is durable at its origin by then, each log has one writer, and what is durable is not lost.
pub fn any_crash()
    ensures { AnyCrash }
{}

/// What was durable at some moment is durable ever after, whatever crashes follow. So what a site told when it was
/// durable is still in its log, and in its journal.
pub fn durable_for_good()
    ensures { DurableForGood }
{}

/// What is durable changes by a schedule of the sites' steps in which nobody crashes, and so by a run of the protocol.
pub fn durable_schedule()
    ensures { DurableSchedule }
{}
