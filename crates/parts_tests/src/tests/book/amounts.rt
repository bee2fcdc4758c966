//! The greatest amounts, and many of them.
use crate::tests::book::calls::{applies, refusal, write};
use crate::tests::book::reported::{
    NO_TOTALS, Reported, Totals, UNREPORTED, held, known, new_book, reported_of, totals_of,
};
use rights_book::{Book, BookError};
use rights_types::{MAX_AMOUNT, MAX_MOVES, MAX_TOTAL};
use std::alloc::Global;
use test_kit::{give, issue, spend, take_back};

// The amount of an entry of the greatest moves.
const ALL: u64 = MAX_MOVES as u64 * MAX_AMOUNT;

// Whether the book issues all of that, gives it, and takes it back, and no more than it gave.
fn goes_round(book: &mut Book<Global>) -> bool {
    write(book, &[issue(MAX_AMOUNT); 16])
        && held(book) == ALL
        && write(book, &[give(2, MAX_AMOUNT); 16])
        && held(book) == 0
        && !write(book, &[take_back(2, MAX_TOTAL)])
        && write(book, &[take_back(2, ALL)])
        && !write(book, &[take_back(2, 1)])
}

/// The greatest amounts are booked, and what was given may be taken back once.
#[test]
fn greatest_moves(rt: HostRuntime) {
    let mut book = new_book(&rt, 1, 2);
    assert!(rt; goes_round(&mut book));
    let totals = Totals {
        number: 33,
        issued: ALL,
        given: ALL,
        taken_back: ALL,
        held: ALL,
        ..NO_TOTALS
    };
    assert!(rt; totals_of(&book) == totals);
    let reported = Reported {
        known: ALL as i128,
        given: ALL,
        back: ALL,
        ..UNREPORTED
    };
    assert!(rt; reported_of(&book, 2) == reported);
}

/// The greatest gifts of another site, in one entry, are received in full.
#[test]
fn greatest_gifts(rt: HostRuntime) {
    let mut book = new_book(&rt, 1, 2);
    assert!(rt; applies(&rt, &mut book, 2, 0, &[give(1, MAX_AMOUNT); 16]));
    let totals = Totals {
        received: ALL,
        held: ALL,
        ..NO_TOTALS
    };
    assert!(rt; totals_of(&book) == totals);
    let reported = Reported {
        known: -16_000_000_000,
        applied: 16,
        received: ALL,
        ..UNREPORTED
    };
    assert!(rt; known(&book, 1) == 16_000_000_000 && reported_of(&book, 2) == reported);
}

/// A check of many moves counts beyond 64 bits.
#[test]
fn many_moves_do_not_wrap(rt: HostRuntime) {
    let book = new_book(&rt, 1, 2);
    assert!(rt; refusal(&book, &[take_back(2, MAX_TOTAL); 40]).is_none());
    let mut moves = [take_back(2, MAX_TOTAL); 20];
    moves[19] = spend(MAX_AMOUNT);
    assert!(rt; refusal(&book, &moves).is_none());
    assert!(rt; refusal(&book, &[spend(MAX_AMOUNT)]) == Some(BookError::Short));
}

/// What another site took back may exceed 64 bits.
#[test]
fn known_passes_64_bits(rt: HostRuntime) {
    let backs = [take_back(1, MAX_TOTAL); 16];
    let mut book = new_book(&rt, 1, 2);
    assert!(rt; applies(&rt, &mut book, 2, 0, &backs));
    assert!(rt; applies(&rt, &mut book, 2, 16, &backs));
    assert!(rt; known(&book, 2) == 32_000_000_000_000_000_000);
    assert!(rt; applies(&rt, &mut book, 2, 32, &[spend(MAX_AMOUNT)]));
    assert!(rt; known(&book, 2) == 31_999_999_999_000_000_000);
    assert!(rt; held(&book) == 0);
}

/// Rights go round many times, in full each time.
#[test]
fn many_entries(rt: HostRuntime) {
    let mut book = new_book(&rt, 1, 2);
    assert!(rt; write(&mut book, &[issue(MAX_AMOUNT)]));
    let out = [give(2, MAX_AMOUNT)];
    let home = [give(1, MAX_AMOUNT)];
    for round in 0..1000 {
        assert!(rt; write(&mut book, &out));
        assert!(rt; held(&book) == 0);
        assert!(rt; applies(&rt, &mut book, 2, round, &home));
        assert!(rt; held(&book) == MAX_AMOUNT);
    }
    let all = 1000 * MAX_AMOUNT;
    let totals = Totals {
        number: 1001,
        issued: MAX_AMOUNT,
        given: all,
        received: all,
        held: MAX_AMOUNT,
        ..NO_TOTALS
    };
    assert!(rt; totals_of(&book) == totals);
    let reported = Reported {
        applied: 1000,
        received: all,
        given: all,
        ..UNREPORTED
    };
    assert!(rt; reported_of(&book, 2) == reported);
}
