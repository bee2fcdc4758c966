//! Worked examples of two sites, by computation. Their runs show that each change can happen.
ghost use Rattle.rights_protocol.specs.Examples.{Inherits, GiftComesBack, BothClose, IsGranted, GapFills, IsTurnedAway};

/// Site 1 issues 10, spends 4, gives 3 and closes. Site 2 inherits the other 3, although the closing entry arrives
/// first and is held.
pub fn heir_inherits()
    ensures { Inherits }
{}

/// Site 1 issues 10 and gives 4 to site 2, which closes before the gift arrives. Site 1 reclaims the 4 when it applies
/// the closing entry, and the late gift is not applied.
pub fn gift_is_taken_back()
    ensures { GiftComesBack }
{}

/// Two sites that close towards each other reclaim nothing; what was in transit stays in transit.
pub fn both_close()
    ensures { BothClose }
{}

/// Site 1 grants 6 of 10 to site 2, which spends them.
pub fn grant_is_spent()
    ensures { IsGranted }
{}

/// The last of three entries arrives first and is held; it is delivered once the others have arrived. An entry that
/// arrives again changes nothing.
pub fn gap_fills()
    ensures { GapFills }
{}

/// If 64 entries are held, another one that is not next is turned away.
pub fn full_is_turned_away()
    ensures { IsTurnedAway }
{}
