//! What holds of all that is done to the counts.
ghost use Rattle.durability.specs.Counts.{MadeOnlyRises};

/// No change under the lock lowers the number of records that were made: it stays as high as a turn noted.
pub fn made_only_rises()
    ensures { MadeOnlyRises }
{}
