//! What `check` refuses, and in which order.
use crate::tests::book::calls::{applies, refusal, write};
use crate::tests::book::reported::{Reported, UNREPORTED, held, new_book, reported_of};
use rights_book::{Book, BookError};
use rights_types::Move;
use std::alloc::Global;
use test_kit::{give, issue, spend, take_back};

/// Each check goes over all moves before the next one begins.
#[test]
fn refuses_in_order(rt: HostRuntime) {
    let mut book = new_book(&rt, 1, 2);
    assert!(rt; applies(&rt, &mut book, 2, 0, &[Move::Close]));
    let moves = [spend(1), give(2, 1), give(1, 1), take_back(3, 1)];
    assert!(rt; refusal(&book, &moves) == Some(BookError::NoSuchSite));
    assert!(rt; refusal(&book, &moves[..3]) == Some(BookError::SameSite));
    assert!(rt; refusal(&book, &moves[..2]) == Some(BookError::PeerClosed));
    assert!(rt; refusal(&book, &moves[..1]) == Some(BookError::Short));
    assert!(rt; refusal(&book, &[issue(1), spend(1)]).is_none());
    assert!(rt; refusal(&book, &[]).is_none());
}

// Whether the book allows these moves.
fn covers(book: &Book<Global>, moves: &[Move]) -> bool {
    refusal(book, moves).is_none()
}

// Whether it lacks the rights for these moves.
fn is_short(book: &Book<Global>, moves: &[Move]) -> bool {
    refusal(book, moves) == Some(BookError::Short)
}

// Whether three rights do not cover four, whatever comes with it or after it.
fn all_are_short(book: &Book<Global>) -> bool {
    is_short(book, &[spend(4)])
        && is_short(book, &[spend(2), give(2, 2)])
        && is_short(book, &[spend(4), issue(4)])
}

/// Rights are counted move by move.
#[test]
fn counts_rights_in_order(rt: HostRuntime) {
    let mut book = new_book(&rt, 1, 2);
    assert!(rt; write(&mut book, &[issue(5), give(2, 2)]));
    assert!(rt; covers(&book, &[spend(3)]));
    assert!(rt; covers(&book, &[spend(2), give(2, 1)]));
    assert!(rt; covers(&book, &[take_back(2, 2), spend(5)]));
    assert!(rt; covers(&book, &[Move::Close, spend(3)]));
    assert!(rt; all_are_short(&book));
    assert!(rt; held(&book) == 3);
}

/// Nothing is known of a site that the system does not have.
#[test]
fn knows_nothing_of_other_systems(rt: HostRuntime) {
    let mut book = new_book(&rt, 1, 2);
    assert!(rt; applies(&rt, &mut book, 2, 0, &[issue(5), give(9, 3)]));
    assert!(rt; book.me().number() == 1);
    assert!(rt; book.sites() == 2);
    let reported = Reported {
        known: 2,
        applied: 2,
        ..UNREPORTED
    };
    assert!(rt; reported_of(&book, 2) == reported);
    assert!(rt; reported_of(&book, 9) == UNREPORTED);
}
