//! The amount that a site reclaims from a site that has closed.
ghost use Rattle.std.specs.Prelude.{◌≡◌, ◌≤◌, IfOk, length, Some};
ghost use Rattle.rights_types.specs.Chains.{moves_of};
ghost use Rattle.rights_types.specs.Rights.{to};
ghost use Rattle.rights_types.specs.declared.limits.TheConstants.{MAX_MOVES, MAX_TOTAL};
ghost use Rattle.rights_protocol.specs.Retiring.{numbers_in, given_beyond};

use origin_log::OriginLog;
use rights_types::{Entry, Frontier, Move, OutOfMemory, SiteId};
use std::alloc::Allocator;

/// The frontier among these moves, if there is one.
pub(crate) fn frontier_in(moves: &[Move]) -> Option<Frontier>
    ensures { result ≡ numbers_in moves.now }
{
    for m in moves {
        if let Move::CloseAt(frontier) = m {
            return Some(*frontier);
        }
    }
    None
}

/// What the log gave to the peer in the entries that begin at this number or after it. It reads these from the log's
/// end backwards, and one more.
pub(crate) fn given_beyond<A: Allocator + Copy>(
    log: &OriginLog<A>,
    peer: SiteId,
    number: u64,
) -> Result<u64, OutOfMemory>
    requires { to peer (moves_of log.now.entries) ≤ MAX_TOTAL }
    ensures value { IfOk result (λ n. n ≡ given_beyond peer log.now.entries (Some number)) }
    ensures within { IfOk result (λ n. n ≤ to peer (moves_of log.now.entries)) }
{
    let mut index = log.len();
    let mut given = 0;
    while index > 0 {
        let Some(entry) = log.get(index - 1)? else {
            unreachable!()
        };
        if entry.prev() < number {
            break;
        }
        given += gifts_to(entry.moves(), peer);
        index -= 1;
    }
    Ok(given)
}

// What these moves give to the site.
fn gifts_to(moves: &[Move], site: SiteId) -> u64
    requires { length moves.now ≤ MAX_MOVES }
    ensures { result ≡ to site moves.now }
{
    moves.iter().map(|m| m.gift_to(site)).sum()
}
