//! What a site remembers after a restart: laws of the definitions, with no program in them. The functions do nothing.
ghost use Rattle.site_server.specs.KeysOnDisk.{KeysAreOnDisk, StartsRememberJournal, ToldIsNotLost};

/// A site that takes the records of its journal, one after another, and has the desk alone meanwhile, remembers the
/// last of all that was written under keys, as far as the journal says that: as many as it is told to remember, or
/// none.
pub fn starts_remember_journal()
    ensures { StartsRememberJournal }
{}

/// A site from its first start on an empty file, after any turns, appends, crashes at any moment and starts with any
/// numbers of keys, 0 among them: it remembers the last of all that was written under keys and that no crash took away,
/// each key once, with the number of its last entry.
pub fn keys_are_on_disk()
    ensures { KeysAreOnDisk }
{}

/// What was written under keys by the time at which a batch was handed over is not lost from the moment on at which the
/// append of that batch returned Ok, whatever turns, appends, crashes and starts come later.
pub fn told_is_not_lost()
    ensures { ToldIsNotLost }
{}
