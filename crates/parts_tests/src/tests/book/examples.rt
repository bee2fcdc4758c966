//! Books of sites that issue, spend, give, close and take back.
use crate::tests::book::calls::{applies, refusal, write};
use crate::tests::book::reported::{
    NO_TOTALS, Reported, Totals, UNREPORTED, held, known, new_book, reported_of, totals_of,
};
use rights_book::{Book, BookError, SiteSums};
use rights_types::TypeError;
use std::alloc::Global;
use test_kit::{close_at, give, grant, issue, site, spend, take_back};

/// A site's spend may arrive before the gift that it used.
#[test]
fn known_of_gifts_not_yet_applied(rt: HostRuntime) {
    let mut book = new_book(&rt, 3, 3);
    assert!(rt; applies(&rt, &mut book, 2, 0, &[spend(6)]));
    assert!(rt; known(&book, 2) == -6);
    assert!(rt; known(&book, 1) == 0);
    assert!(rt; applies(&rt, &mut book, 1, 0, &[issue(10), give(2, 6)]));
    assert!(rt; known(&book, 1) == 4);
    assert!(rt; known(&book, 2) == 0);
    assert!(rt; held(&book) == 0);
}

/// One entry issues, spends and gives; the other site applies it.
#[test]
fn gives_what_is_held(rt: HostRuntime) {
    let moves = [issue(10), spend(4), give(2, 3)];
    let mut first = new_book(&rt, 1, 2);
    assert!(rt; write(&mut first, &moves));
    let totals = Totals {
        number: 3,
        issued: 10,
        spent: 4,
        given: 3,
        held: 3,
        ..NO_TOTALS
    };
    assert!(rt; totals_of(&first) == totals);
    assert!(rt;
        reported_of(&first, 1)
            == Reported {
                known: 3,
                ..UNREPORTED
            }
    );
    assert!(rt;
        reported_of(&first, 2)
            == Reported {
                known: 3,
                given: 3,
                ..UNREPORTED
            }
    );
    let mut second = new_book(&rt, 2, 2);
    assert!(rt; applies(&rt, &mut second, 1, 0, &moves));
    assert!(rt;
        totals_of(&second)
            == Totals {
                received: 3,
                held: 3,
                ..NO_TOTALS
            }
    );
    let reported = Reported {
        known: 3,
        applied: 3,
        received: 3,
        ..UNREPORTED
    };
    assert!(rt; reported_of(&second, 1) == reported);
    let sums = SiteSums {
        site: site(1),
        end: 3,
        issued: 10,
        spent: 4,
        given: 3,
        received: 0,
        taken_back: 0,
        closed: false,
    };
    assert!(rt; second.sums(site(1)) == sums);
}

/// A site asks, gets a grant, and spends.
#[test]
fn spends_what_was_granted(rt: HostRuntime) {
    let mut second = new_book(&rt, 2, 2);
    assert!(rt; applies(&rt, &mut second, 1, 0, &[issue(10)]));
    assert!(rt; known(&second, 1) == 10);
    assert!(rt; !write(&mut second, &[spend(6)]));
    let granted = [grant(2, 6, 1)];
    assert!(rt; applies(&rt, &mut second, 1, 1, &granted));
    assert!(rt; !applies(&rt, &mut second, 1, 1, &granted));
    assert!(rt; held(&second) == 6);
    assert!(rt; write(&mut second, &[spend(6)]));
    let totals = Totals {
        number: 1,
        spent: 6,
        received: 6,
        ..NO_TOTALS
    };
    assert!(rt; totals_of(&second) == totals);
    let reported = Reported {
        known: 4,
        applied: 2,
        received: 6,
        ..UNREPORTED
    };
    assert!(rt; reported_of(&second, 1) == reported);
    assert!(rt; reported_of(&second, 2) == UNREPORTED);
}

/// The site that grants keeps the rest.
#[test]
fn grants_what_is_held(rt: HostRuntime) {
    let mut first = new_book(&rt, 1, 2);
    assert!(rt; write(&mut first, &[issue(10)]));
    assert!(rt; write(&mut first, &[grant(2, 6, 1)]));
    assert!(rt; held(&first) == 4);
    assert!(rt; known(&first, 2) == 6);
}

/// Two sites have what a third one lacks.
#[test]
fn knows_what_others_hold(rt: HostRuntime) {
    let mut book = new_book(&rt, 2, 3);
    assert!(rt; applies(&rt, &mut book, 1, 0, &[issue(4)]));
    assert!(rt; applies(&rt, &mut book, 3, 0, &[issue(4)]));
    assert!(rt; known(&book, 1) == 4);
    assert!(rt; known(&book, 2) == 0);
    assert!(rt; known(&book, 3) == 4);
    assert!(rt; held(&book) == 0);
}

/// A site closes with an heir: its log accepts nothing more.
#[test]
fn closes_with_an_heir(rt: HostRuntime) -> Result<(), TypeError> {
    let last = [give(2, 3), close_at(&[0, 0])?];
    let mut first = new_book(&rt, 1, 2);
    assert!(rt; write(&mut first, &[issue(10), spend(4), give(2, 3)]));
    assert!(rt; write(&mut first, &last));
    let totals = Totals {
        number: 5,
        issued: 10,
        spent: 4,
        given: 6,
        ..NO_TOTALS
    };
    assert!(rt; totals_of(&first) == totals);
    assert!(rt;
        reported_of(&first, 1)
            == Reported {
                closed: true,
                ..UNREPORTED
            }
    );
    assert!(rt; !write(&mut first, &[issue(1)]));
    Ok(())
}

// Whether site 1 may not be given anything, and what it was given may be taken back.
fn gets_nothing(book: &Book<Global>) -> bool {
    refusal(book, &[give(1, 1)]) == Some(BookError::PeerClosed)
        && refusal(book, &[take_back(1, 1)]).is_none()
}

/// Nothing more is applied from a site that closed, and nothing is given to it.
#[test]
fn nothing_is_given_to_a_closed_site(rt: HostRuntime) -> Result<(), TypeError> {
    let last = [give(2, 3), close_at(&[0, 0])?];
    let mut second = new_book(&rt, 2, 2);
    assert!(rt; applies(&rt, &mut second, 1, 0, &[issue(10), spend(4), give(2, 3)]));
    assert!(rt; !reported_of(&second, 1).closed);
    assert!(rt; applies(&rt, &mut second, 1, 3, &last));
    assert!(rt; !applies(&rt, &mut second, 1, 5, &[issue(1)]));
    let reported = Reported {
        applied: 5,
        received: 6,
        closed: true,
        ..UNREPORTED
    };
    assert!(rt; reported_of(&second, 1) == reported);
    assert!(rt; held(&second) == 6);
    assert!(rt; gets_nothing(&second));
    Ok(())
}

/// What was given to a site that closed before it applied the gift is taken back.
#[test]
fn takes_back_from_a_closed_site(rt: HostRuntime) -> Result<(), TypeError> {
    let mut first = new_book(&rt, 1, 2);
    assert!(rt; write(&mut first, &[issue(10)]));
    assert!(rt; write(&mut first, &[give(2, 4)]));
    assert!(rt; applies(&rt, &mut first, 2, 0, &[close_at(&[1, 0])?]));
    assert!(rt; held(&first) == 6);
    assert!(rt; !write(&mut first, &[take_back(2, 5)]));
    assert!(rt; write(&mut first, &[take_back(2, 4)]));
    let totals = Totals {
        number: 3,
        issued: 10,
        given: 4,
        taken_back: 4,
        held: 10,
        ..NO_TOTALS
    };
    assert!(rt; totals_of(&first) == totals);
    assert!(rt; known(&first, 1) == 10);
    // What was given to it still counts, although it was taken back.
    let reported = Reported {
        known: 4,
        applied: 1,
        given: 4,
        back: 4,
        closed: true,
        ..UNREPORTED
    };
    assert!(rt; reported_of(&first, 2) == reported);
    Ok(())
}

/// A site closes with nothing, and no heir.
#[test]
fn closes_with_no_heir(rt: HostRuntime) -> Result<(), TypeError> {
    let mut second = new_book(&rt, 2, 2);
    assert!(rt; applies(&rt, &mut second, 1, 0, &[issue(10)]));
    assert!(rt; write(&mut second, &[close_at(&[1, 0])?]));
    assert!(rt;
        totals_of(&second)
            == Totals {
                number: 1,
                ..NO_TOTALS
            }
    );
    assert!(rt; reported_of(&second, 2).closed);
    Ok(())
}
