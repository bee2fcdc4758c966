//! The checks that a book makes of moves, and their sums.
ghost use Rattle.std.specs.Prelude.{◌≡◌, ◌*◌, ◌≤◌, length};
ghost use Rattle.std.specs.List.{list_any};
ghost use Rattle.rights_types.specs.Rights.{covers, to};
ghost use Rattle.rights_book.specs.Checks.{names_above};

use rights_types::{MAX_AMOUNT, MAX_MOVES, Move, SiteId};

/// Whether a move names a site above the last one of the system.
pub(crate) fn any_above(moves: &[Move], sites: u64) -> bool
    ensures { result ≡ list_any (names_above sites) moves.now }
{
    moves.iter().any(|m| names_above(m, sites))
}

fn names_above(m: &Move, sites: u64) -> bool
    ensures { result ≡ names_above sites m.now }
{
    match m.peer() {
        Some(peer) => peer.number() > sites,
        None => false,
    }
}

/// Whether each move, in order, costs no more than is held after the moves before it. It computes in 128 bits, since
/// nothing bounds how many moves there are.
pub(crate) fn covers(rights: u64, moves: &[Move]) -> bool
    ensures { result ≡ covers rights moves.now }
{
    let mut left = rights as u128;
    for m in moves {
        let cost = m.cost() as u128;
        if cost > left {
            return false;
        }
        left = left - cost + m.gain() as u128;
    }
    true
}

/// What these moves give to the site.
pub(crate) fn gifts_to(moves: &[Move], site: SiteId) -> u64
    requires { length moves.now ≤ MAX_MOVES }
    ensures value { result ≡ to site moves.now }
    ensures range { result ≤ MAX_MOVES * MAX_AMOUNT }
{
    let mut gifts = 0;
    for m in moves {
        gifts += m.gift_to(site);
    }
    gifts
}
