//! What the two ends of one lane say of each other, and what the calls at all desks of a system add up to.
ghost use Rattle.std.specs.Prelude.{◌≡◌, true, List};
ghost use Rattle.rights_types.specs.Entries.{EntryValue};
ghost use Rattle.thread_parts.specs.Items.{StartsWith};
ghost use Rattle.link_intake.specs.Intakes.{Sends, IsIntake};
ghost use Rattle.apply_lanes.specs.Between.{IsBetween};
ghost use Rattle.apply_lanes.specs.Steps.{EverySchedule};
ghost use Rattle.apply_lanes.specs.Journals.{CallIsDeskStep, EveryCrashUnderLocks};
ghost use Rattle.apply_lanes.specs.Restarts.{AllAreRecorded, AllReplay, JournalRestoresKept};

use crate::applier::Applier;
use crate::gate::Gate;
use crate::names::DeskNames;
use link_intake::Intake;
use std::alloc::Allocator;
pub use thread_parts::ends_taken_in;

/// Given the intake and the applier of one lane, what the applier took is a prefix of what the intake put, and all of
/// it where End was taken. The applier comes back as it was. In whatever schedule of their threads, between two calls
/// of each: what the buffer delivered is what was applied, dropped, is in hand, waits on the lane, and is still to be
/// sent, in this order.
pub fn taken_in<D: DeskNames, G: Gate, A: Allocator>(
    intake: Intake<A>,
    mut applier: Applier<D, G, A>,
) -> Applier<D, G, A>
    requires { applier.outlet.lane ≡ intake.inlet.lane }
    ensures same { result ≡ applier }
    ensures prefix { StartsWith intake.inlet.put applier.outlet.taken }
    ensures whole { applier.ended ≡ true → applier.outlet.taken ≡ intake.inlet.put }
    ensures sent { IsIntake intake }
    ensures between { (delivered : List EntryValue) → Sends delivered intake → IsBetween D.id delivered intake applier }
{
    applier.outlet = ends_taken_in(intake.into_inlet(), applier.outlet);
    applier
}

/// The desks of a system's sites, each under its lock, unused at first. In every schedule of calls under these locks,
/// by any threads of any sites, the headline and retirement hold whenever no lock is held. The premise: an entry that
/// a site applies is already in its origin's log, which has one writer.
pub fn every_schedule()
    ensures { EverySchedule }
{}

/// Each call under the lock, by its clause `step`, is a step in the sense of the law `every_crash` of site_core.
pub fn call_is_desk_step()
    ensures { CallIsDeskStep }
{}

/// The desks of a system's sites, each under its lock, unused at first, each with a journal that has its records. After
/// any calls under these locks, syncs and crashes, whenever no lock is held: each desk has the lists that its records
/// stand for, and all promises hold of these lists, of those that are durable, and of any mixture. The premises: what a
/// desk applies is durable at its origin by then, and a crash leaves what was durable.
pub fn every_crash_under_locks()
    ensures { EveryCrashUnderLocks }
{}

/// Each call under the lock is a step of the desk with a record or without, or several, as a plan is; and exactly their
/// records are appended.
pub fn calls_are_recorded()
    ensures { AllAreRecorded }
{}

/// What an applier applies as the site starts again is replayed; tickets, keys, seats and appliers change nothing of it.
pub fn starts_replay()
    ensures { AllReplay }
{}

/// Whatever calls are made under the lock of a new desk: a new value, whose start replays the records, has the same log,
/// the same book and the same sums, and the same asks but for denials. What is lost is in `IsKeptAgain`.
pub fn journal_restores_kept()
    ensures { JournalRestoresKept }
{}
