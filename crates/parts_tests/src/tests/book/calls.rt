//! Calls of a book that are made only if its own readers allow them.
ghost use Rattle.std.specs.Prelude.{◌≡◌, ◌≤◌, length};
ghost use Rattle.rights_types.specs.Moves.{take_back_from};
ghost use Rattle.rights_types.specs.Ranges.{IsSite};
ghost use Rattle.rights_types.specs.Rights.{back};

use rights_book::{Book, BookError};
use rights_types::{Entry, MAX_MOVES, MAX_NUMBER, MAX_SITES, MAX_TOTAL, Move, SiteId};
use std::alloc::{AllocGlobal, Allocator};
use test_kit::site;

/// Writes the moves as the next entry of the book's site, if it may.
pub(crate) fn write<A: Allocator>(book: &mut Book<A>, moves: &[Move]) -> bool {
    let Ok(()) = book.check(moves) else {
        return false;
    };
    if moves.is_empty() || moves.len() > MAX_MOVES {
        return false;
    }
    let me = book.me();
    if book.closed(me) || book.number() + moves.len() as u64 > MAX_NUMBER {
        return false;
    }
    // For the proof: each amount and peer is in its range.
    Move::all_in_range(moves);
    for index in 0..MAX_SITES {
        let site = SiteId::known(index + 1);
        if taken_back(moves, site) > book.given_to(site) - book.back(site) {
            return false;
        }
    }
    book.own(moves);
    true
}

// Applies the entry as the origin's next one, if it is.
fn apply<A: Allocator, B: Allocator>(book: &mut Book<A>, origin: SiteId, entry: &Entry<B>) -> bool {
    let me = book.me();
    if origin.number() > book.sites() || origin == me {
        return false;
    }
    if book.closed(origin) || entry.prev() != book.applied(origin) {
        return false;
    }
    book.apply(origin, entry);
    true
}

/// Applies the entry of these moves after a number as the origin's next one, if it is.
pub(crate) fn applies<A: Allocator>(
    rt: &impl AllocGlobal,
    book: &mut Book<A>,
    origin: u64,
    prev: u64,
    moves: &[Move],
) -> bool
    requires { IsSite origin }
{
    let origin = site(origin);
    let Ok(moves) = Vec::from_slice(rt.alloc(), moves) else {
        return false;
    };
    let Ok(entry) = Entry::new(origin, prev, moves) else {
        return false;
    };
    apply(book, origin, &entry)
}

/// Why a book refuses these moves, if it does.
pub(crate) fn refusal<A: Allocator>(book: &Book<A>, moves: &[Move]) -> Option<BookError> {
    book.check(moves).err()
}

// What these moves take back from the site.
fn taken_back(moves: &[Move], site: SiteId) -> u64
    requires { length moves.now ≤ MAX_MOVES }
    ensures { result ≡ back site moves.now }
{
    let mut sum = 0;
    for m in moves {
        sum += taken_back_by(m, site);
    }
    sum
}

fn taken_back_by(m: &Move, site: SiteId) -> u64
    ensures value { result ≡ take_back_from site m.now }
    ensures range { result ≤ MAX_TOTAL }
{
    match m {
        Move::TakeBack { peer, amount } => { if *peer == site { amount.value() } else { 0 } }
        _ => 0,
    }
}
