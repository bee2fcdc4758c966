//! What clients were told: laws of the definitions, with no program in them. The functions do nothing.
ghost use Rattle.std.specs.Prelude.{List};
ghost use Rattle.site_core.specs.Desks.{DeskValue};
ghost use Rattle.apply_lanes.specs.Kepts.{SeatValue};
ghost use Rattle.site_node.specs.Confirmed.{Turn, HasTurns, CountsConfirmed};
ghost use Rattle.site_node.specs.Outliving.{KeysOutliveCrashes};
ghost use Rattle.site_node.specs.Remembering.{LastWrites, RepliesAreThose, StartsRemember, WritesAreRecorded};
ghost use Rattle.site_node.specs.Telling.{PeersSpendNothing, ToldExactly, ToldOnce};

/// After any turns of a client, its seat counts as issued and as spent exactly what the client was told in them.
pub fn confirmed_is_counted()
    ensures { (was : SeatValue) (turns : List Turn) (now : SeatValue) → HasTurns was turns now
        → CountsConfirmed was turns now }
{}

/// Each entry of the log that spends is told to a client, or is the outcome of a spend that waited and that nobody has
/// read: if that holds before any turns at a desk, of whichever clients, ticks and peers, then also after them, with
/// what the clients are told in these turns.
pub fn told_exactly()
    ensures { ToldExactly }
{}

/// Of these numbers, no two are equal: no entry is told as spent to two clients, or twice to one.
pub fn told_once()
    ensures { ToldOnce }
{}

/// What peers send spends nothing, and touches no outcome.
pub fn peers_spend_nothing()
    ensures { (old new : DeskValue) → PeersSpendNothing old new }
{}

/// Of all entries that were ever written under keys, in any turns, by whichever clients and ticks: the keys that are
/// remembered are the last of them, each with its last entry, and none is remembered twice.
pub fn last_writes_are_remembered()
    ensures { LastWrites }
{}

/// A command under a key that wrote an entry is told its number. As long as the key is remembered, the same command is
/// told the same again, and another is refused; and neither writes anything.
pub fn replies_are_those_of_the_entry()
    ensures { RepliesAreThose }
{}

/// With a journal, the records of keys that were handed over in any turns, and those that are to be, are those of all that
/// was written under keys, in order.
pub fn writes_are_recorded()
    ensures { WritesAreRecorded }
{}

/// A site that starts again from its journal remembers what it remembered: of all that was written under keys until the
/// last batch that the crash left, the last, as many as it is told to remember now.
pub fn starts_remember()
    ensures { StartsRemember }
{}

/// A site with a journal, from its first start on, after any turns, crashes and starts with any numbers of keys: it
/// remembers the last of all that was written under keys and that no crash took away, each key once, with the number of its
/// last entry. The premises: a crash leaves the journal as it was when some batch was handed over, and each start keeps a
/// journal and takes the records of it.
pub fn keys_outlive_crashes()
    ensures { KeysOutliveCrashes }
{}
