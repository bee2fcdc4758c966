//! Laws of desks that start again from their journals, with no program in them. The functions do nothing.
ghost use Rattle.site_core.specs.Replaying.{RefusedIsNotPermitted, SameListsSameBook};
ghost use Rattle.site_core.specs.Restored.{JournalRestoresDesk, AlikeMayReplay, NoRecordIsRefused, TestedMayReplay};
ghost use Rattle.site_core.specs.Recorded.{CallsTakeSteps};
ghost use Rattle.site_core.specs.Desks.{DeskValue};
ghost use Rattle.site_core.specs.Journaling.{JournalMakesDesk, EveryCrash, ToldIsDurable};

/// A record is refused only if it may not be replayed, or for memory.
pub fn refused_is_not_permitted()
    ensures { RefusedIsNotPermitted }
{}

/// The book is determined by the log and by what was applied. So a desk that was made again from a journal has the book
/// of the one that wrote it.
pub fn same_lists_same_book()
    ensures { SameListsSameBook }
{}

/// A desk that replayed the records of a journal has the lists that the journal stands for.
pub fn journal_makes_desk()
    ensures { JournalMakesDesk }
{}

/// Whatever steps a desk takes, the replay of their records makes a desk with the same log, the same book, the same lists
/// applied, and the same asks but for denials. What is lost is in `IsRestored`.
pub fn journal_restores_desk()
    ensures { JournalRestoresDesk }
{}

/// What a desk may do next, the desk that was made again from its journal may do too: no record of it is refused.
pub fn alike_may_replay()
    ensures { AlikeMayReplay }
{}

/// So replay refuses no record of a desk's journal, but for memory.
pub fn no_record_is_refused()
    ensures { NoRecordIsRefused }
{}

/// Each call of a desk is a step with a record, or one without; a plan is several.
pub fn calls_take_steps()
    ensures { (d new : DeskValue) → CallsTakeSteps d new }
{}

/// What a desk tested in a call may be replayed: the step is one that the desk may take.
pub fn tested_may_replay()
    ensures { (d : DeskValue) → TestedMayReplay d }
{}

/// The desks of a system's sites, each with a journal, unused at first. After any calls, syncs and crashes, each desk
/// has the lists that its journal stands for, and all promises hold: in memory, of what is durable, and of any mixture.
/// The premises: what a desk applies is durable at its origin by then, and a crash leaves what was durable.
pub fn every_crash()
    ensures { EveryCrash }
{}

/// What a line told of the desk's log is in the durable log once the records that the desk had then are durable.
pub fn told_is_durable()
    ensures { ToldIsDurable }
{}
