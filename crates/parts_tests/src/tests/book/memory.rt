//! The book requests its memory once.
ghost use Rattle.std.specs.Prelude.{◌≤◌};

use crate::tests::book::calls::{applies, write};
use crate::tests::book::reported::{NO_TOTALS, UNREPORTED, held, known, reported_of, totals_of};
use linked_list_allocator::LocalHeap;
use refusing_allocator::Refusing;
use rights_book::Book;
use rights_types::{MAX_SITES, MIN_SITES, OutOfMemory, SiteId};
use std::alloc::{AllocError, AllocGlobal, Allocator};
use std::test::Fail;
use test_kit::{give, issue, site};

// Whether no book is made if the first memory request is refused.
fn is_refused(rt: &impl AllocGlobal, me: SiteId, sites: u64) -> bool
    requires system { (MIN_SITES ≤ sites) × (sites ≤ MAX_SITES) }
    requires member { me ≤ sites }
{
    let refusing = Refusing::new(rt.alloc(), 0);
    let made = Book::new(&refusing, me, sites);
    made.is_err() && refusing.refused()
}

// Whether one request makes a book in which nothing is booked.
fn is_made_by_one_request(rt: &impl AllocGlobal, me: SiteId, sites: u64) -> bool
    requires system { (MIN_SITES ≤ sites) × (sites ≤ MAX_SITES) }
    requires member { me ≤ sites }
{
    let once = Refusing::new(rt.alloc(), 1);
    let Ok(book) = Book::new(&once, me, sites) else {
        return false;
    };
    !once.refused() && book.me() == me && book.sites() == sites && nothing_booked(&book)
}

// Everything that the book reports of its own log and of each site's is 0, and no site has closed.
fn nothing_booked<A: Allocator>(book: &Book<A>) -> bool {
    for index in 0..MAX_SITES {
        if reported_of(book, index + 1) != UNREPORTED {
            return false;
        }
    }
    totals_of(book) == NO_TOTALS
}

/// In a system of each size, each site's book is made with one memory request, and is refused
/// if that is.
#[test]
fn each_new_book(rt: HostRuntime) {
    for sites in MIN_SITES..=MAX_SITES {
        for index in 0..sites {
            let me = site(index + 1);
            assert!(rt; is_refused(&rt, me, sites));
            assert!(rt; is_made_by_one_request(&rt, me, sites));
        }
    }
}

// Whether an entry of its own and one of site 2 are booked.
fn writes_and_applies<A: Allocator>(rt: &impl AllocGlobal, book: &mut Book<A>) -> bool {
    write(book, &[issue(10), give(2, 4)])
        && applies(rt, book, 2, 0, &[give(1, 1)])
        && held(book) == 7
        && known(book, 2) == 3
}

/// A new book requests memory once, and nothing else does.
#[test]
fn asks_for_memory_once(rt: HostRuntime) -> Result<(), OutOfMemory> {
    let once = Refusing::new(rt.alloc(), 1);
    let mut book = Book::new(&once, site(1), 16)?;
    assert!(rt; writes_and_applies(&rt, &mut book));
    assert!(rt; !once.refused());
    Ok(())
}

// The bytes of 96 for each of this number of sites.
fn bytes_of_sites(heap: &LocalHeap, sites: u64) -> Result<usize, AllocError> {
    let _rows: Vec<[u64; 12], &LocalHeap> = Vec::with_capacity(heap, sites as usize)?;
    Ok(heap.used())
}

/// A book's memory is 96 bytes for each site, and no more.
#[test]
fn memory_of_its_sites(rt: HostRuntime) -> Result<(), Fail> {
    for sites in MIN_SITES..=MAX_SITES {
        let heap = LocalHeap::new(rt.alloc(), 1 << 14)?;
        let wanted = bytes_of_sites(&heap, sites)?;
        let book = Book::new(&heap, site(1), sites)?;
        assert!(rt; wanted > 0 && heap.used() == wanted && held(&book) == 0);
    }
    Ok(())
}
