//! The logs that are measured, and where they are read.
ghost use Rattle.std.specs.Prelude.{◌≡◌, false, IfOk};
ghost use Rattle.std.specs.List.{list_any};
ghost use Rattle.rights_types.specs.Moves.{names};
ghost use Rattle.origin_log.specs.Logs.{is_special};

use origin_log::OriginLog;
use rights_types::{Amount, AskNumber, Move, Query, SiteId};
use std::alloc::{AllocError, Global};

/// The number of moves of each entry.
pub(crate) const MOVES: u64 = 4;

// The moves of an entry of site 1.
fn moves_of_one(alloc: Global) -> Result<Vec<Move>, AllocError>
    ensures ordinary { IfOk result (λ moves. list_any is_special moves.items ≡ false) }
    ensures others { IfOk result (λ moves. list_any (names 1) moves.items ≡ false) }
{
    let peer = SiteId::known(2);
    Vec::from_slice(
        alloc,
        &[
            Move::Issue(Amount::known(123_456)),
            Move::Spend(Amount::known(250)),
            Move::Give {
                peer,
                amount: Amount::known(75_000),
            },
            Move::Grant {
                peer,
                amount: Amount::known(1_234_567),
                ask: AskNumber::known(4_567),
            },
        ],
    )
}

/// The log of site 1 with this number of entries.
pub(crate) fn filled(alloc: Global, entries: u64) -> Option<OriginLog> {
    let mut log = OriginLog::new(alloc, SiteId::known(1));
    for _ in 0..entries {
        log.append(moves_of_one(alloc).ok()?).ok()?;
    }
    Some(log)
}

/// The next number of a sequence that covers its whole range.
pub(crate) fn next(number: u64) -> u64 {
    number
        .wrapping_mul(6_364_136_223_846_793_005)
        .wrapping_add(1_442_695_040_888_963_407)
}

/// Site 2 queries a number and this many after it.
pub(crate) fn query(first: u64, more: u64) -> Option<Query> {
    let last = first.saturating_add(more);
    Query::new(SiteId::known(2), SiteId::known(1), first, last).ok()
}
