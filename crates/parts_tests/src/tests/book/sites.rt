//! A system of sixteen sites.
use crate::tests::book::calls::{applies, write};
use crate::tests::book::reported::{
    NO_TOTALS, Reported, Totals, UNREPORTED, new_book, reported_of, totals_of,
};
use rights_book::Book;
use rights_types::{MAX_SITES, Move, SiteId};
use std::alloc::{AllocError, Allocator};
use test_kit::{give, issue, site};

/// An issue, and a gift of one to each other site.
fn gifts<A: Allocator>(alloc: A, from: SiteId) -> Result<Vec<Move, A>, AllocError> {
    let mut moves = Vec::new(alloc);
    moves.push(issue(20))?;
    for index in 0..MAX_SITES {
        let peer = SiteId::known(index + 1);
        if peer != from {
            moves.push(give(index + 1, 1))?;
        }
    }
    Ok(moves)
}

// Whether the book knows that each site has 20, and of the others one gift in each direction.
fn knows_all<A: Allocator>(book: &Book<A>, me: SiteId) -> bool {
    for index in 0..MAX_SITES {
        let gift = if index + 1 == me.number() { 0 } else { 1 };
        let reported = Reported {
            known: 20,
            applied: 16 * gift,
            received: gift,
            given: gift,
            ..UNREPORTED
        };
        if reported_of(book, index + 1) != reported {
            return false;
        }
    }
    true
}

/// Sixteen sites give to each other, and each applies what the others gave.
#[test]
fn each_gives_to_each(rt: HostRuntime) -> Result<(), AllocError> {
    let totals = Totals {
        number: 16,
        issued: 20,
        given: 15,
        received: 15,
        held: 20,
        ..NO_TOTALS
    };
    for index in 0..MAX_SITES {
        let me = site(index + 1);
        let mut book = new_book(&rt, index + 1, MAX_SITES);
        assert!(rt; write(&mut book, &gifts(rt.alloc(), me)?));
        for other in 0..MAX_SITES {
            let moves = gifts(rt.alloc(), site(other + 1))?;
            assert!(rt; applies(&rt, &mut book, other + 1, 0, &moves) == (other != index));
        }
        assert!(rt; totals_of(&book) == totals);
        assert!(rt; knows_all(&book, me));
    }
    Ok(())
}
