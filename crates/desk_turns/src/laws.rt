//! What each turn at a desk is: laws of the definitions, with no program in them. The functions do nothing.
ghost use Rattle.apply_lanes.specs.Names.{DeskId};
ghost use Rattle.apply_lanes.specs.Kepts.{KeptValue};
ghost use Rattle.desk_turns.specs.JournalLines.{HandedReadsBack};
ghost use Rattle.desk_turns.specs.KeyTurns.{AllWorkIsKeyTurn, ApplyIsKeyTurn};

/// Each work that may be done in a turn at a desk, but for the two by which a start ends or remembers a key, is one of
/// the turns of which the laws on keys speak: a command under a key, a tick, a hand-over, or one that changes no key
/// and no entry of the log. Only a hand-over changes what the journal was handed.
pub fn work_is_key_turn()
    ensures { AllWorkIsKeyTurn }
{}

/// The turns of appliers change no key, and only add to the log.
pub fn appliers_take_key_turns<G, A>()
    ensures { (id : DeskId) (old new : KeptValue) → ApplyIsKeyTurn G A id old new }
{}

/// The lines that are handed over for a journal are read back as what waited for it: the records, in order, each as a
/// step of this site, and the keys. The premise: asks and keys are within their limits, as their types are.
pub fn handed_reads_back()
    ensures { HandedReadsBack }
{}
