//! Everything that a book reports, to be compared whole.
ghost use Rattle.std.specs.Prelude.{◌≤◌};
ghost use Rattle.rights_types.specs.Ranges.{IsSite};

use rights_book::Book;
use rights_types::{MAX_SITES, MIN_SITES};
use std::alloc::{AllocGlobal, Allocator, Global};
use std::process::Abort;
use test_kit::site;

/// What a book reports of its own site: of its log, and what it received and holds.
#[derive(Clone, Copy, PartialEq)]
pub(crate) struct Totals {
    pub(crate) number: u64,
    pub(crate) issued: u64,
    pub(crate) spent: u64,
    pub(crate) given: u64,
    pub(crate) taken_back: u64,
    pub(crate) received: u64,
    pub(crate) held: u64,
}

/// Nothing was booked.
pub(crate) const NO_TOTALS: Totals = Totals {
    number: 0,
    issued: 0,
    spent: 0,
    given: 0,
    taken_back: 0,
    received: 0,
    held: 0,
};

/// What a book reports of a site.
#[derive(Clone, Copy, PartialEq)]
pub(crate) struct Reported {
    pub(crate) known: i128,
    pub(crate) applied: u64,
    pub(crate) received: u64,
    pub(crate) given: u64,
    pub(crate) back: u64,
    pub(crate) closed: bool,
}

/// Nothing is known of the site.
pub(crate) const UNREPORTED: Reported = Reported {
    known: 0,
    applied: 0,
    received: 0,
    given: 0,
    back: 0,
    closed: false,
};

/// The book of site `me` in a system of this many sites, in which nothing is booked.
pub(crate) fn new_book(rt: &(impl Abort + AllocGlobal), me: u64, sites: u64) -> Book<Global>
    requires me { IsSite me }
    requires system { (MIN_SITES ≤ sites) × (sites ≤ MAX_SITES) }
    requires member { me ≤ sites }
{
    match Book::new(rt.alloc(), site(me), sites) {
        Ok(book) => book,
        Err(_) => panic!(rt; "no memory"),
    }
}

pub(crate) fn totals_of<A: Allocator>(book: &Book<A>) -> Totals {
    Totals {
        number: book.number(),
        issued: book.issued(),
        spent: book.spent(),
        given: book.given(),
        taken_back: book.taken_back(),
        received: book.received(),
        held: book.held(),
    }
}

pub(crate) fn reported_of<A: Allocator>(book: &Book<A>, number: u64) -> Reported
    requires { IsSite number }
{
    let site = site(number);
    Reported {
        known: book.known(site),
        applied: book.applied(site),
        received: book.received_from(site),
        given: book.given_to(site),
        back: book.back(site),
        closed: book.closed(site),
    }
}

pub(crate) fn held<A: Allocator>(book: &Book<A>) -> u64 {
    book.held()
}

pub(crate) fn known<A: Allocator>(book: &Book<A>, number: u64) -> i128
    requires { IsSite number }
{
    book.known(site(number))
}
