//! Moves and entries from bare numbers.
ghost use Rattle.std.specs.Prelude.{◌≡◌};
ghost use Rattle.rights_types.specs.Ranges.{IsAmount, IsAskNumber, IsSite, IsTotal};

use rights_types::{
    Amount, AskNumber, Entry, Frontier, MAX_AMOUNT, MAX_ASK, MAX_NUMBER, Move, SiteId, Total,
    TypeError,
};
use std::alloc::Allocator;
use std::test::Fail;

/// The site with a number.
pub fn site(number: u64) -> SiteId
    requires { IsSite number }
    ensures { result ≡ number }
{
    SiteId::known(number)
}

/// Issues rights.
pub fn issue(amount: u64) -> Move
    requires { IsAmount amount }
{
    Move::Issue(Amount::known(amount))
}

/// Spends rights.
pub fn spend(amount: u64) -> Move
    requires { IsAmount amount }
{
    Move::Spend(Amount::known(amount))
}

/// Gives rights to a peer.
pub fn give(peer: u64, amount: u64) -> Move
    requires peer { IsSite peer }
    requires amount { IsAmount amount }
{
    Move::Give {
        peer: SiteId::known(peer),
        amount: Amount::known(amount),
    }
}

/// Grants rights to a peer.
pub fn grant(peer: u64, amount: u64, ask: u64) -> Move
    requires peer { IsSite peer }
    requires amount { IsAmount amount }
    requires ask { IsAskNumber ask }
{
    Move::Grant {
        peer: SiteId::known(peer),
        amount: Amount::known(amount),
        ask: AskNumber::known(ask),
    }
}

/// Takes rights back from a peer.
pub fn take_back(peer: u64, amount: u64) -> Move
    requires peer { IsSite peer }
    requires amount { IsTotal amount }
{
    Move::TakeBack {
        peer: SiteId::known(peer),
        amount: Total::known(amount),
    }
}

/// Closes a log without a frontier, as older writers did.
pub fn close() -> Move {
    Move::Close
}

/// Closes a log with a frontier of these numbers.
pub fn close_at(numbers: &[u64]) -> Result<Move, TypeError> {
    Ok(Move::CloseAt(Frontier::new(numbers)?))
}

/// The grant with the longest text: to site 16, of the greatest amount and ask number.
pub fn longest_grant() -> Move {
    grant(16, MAX_AMOUNT, MAX_ASK)
}

/// The closing move of site 1 with the longest text: sixteen sites, and the greatest numbers throughout.
pub fn longest_close() -> Result<Move, TypeError> {
    let mut numbers = [MAX_NUMBER; 16];
    numbers[0] = 0;
    close_at(&numbers)
}

/// The move of site 1 of this kind, from 0 to 4: the moves that may be anywhere in any entry.
pub fn move_of_kind(kind: u64) -> Move {
    match kind {
        0 => issue(10),
        1 => spend(9),
        2 => grant(2, 8, 7),
        3 => give(3, 6),
        _ => take_back(4, 5),
    }
}

/// The entry of an origin with these moves.
pub fn entry<A: Allocator>(
    alloc: A,
    origin: u64,
    prev: u64,
    moves: &[Move],
) -> Result<Entry<A>, Fail> {
    let moves = Vec::from_slice(alloc, moves)?;
    Ok(Entry::new(SiteId::new(origin)?, prev, moves)?)
}

/// Whether the entry is that of the origin after a number, with these moves.
pub fn is_entry<A: Allocator>(entry: &Entry<A>, origin: u64, prev: u64, moves: &[Move]) -> bool {
    entry.origin().number() == origin && entry.prev() == prev && entry.moves() == moves
}
