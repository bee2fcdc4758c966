//! How many bytes the lines of a desk take: those that they have, to the heap's next 16.
use linked_list_allocator::LocalHeap;
use rights_types::{Query, SiteId};
use site_core::Desk;
use std::process::Abort;
use test_kit::{issue, site};

// What a heap may use in addition to the bytes of a line.
const SPARE: usize = 32;

// Whether a line of this number of bytes was made since the heap used this number, and no more.
fn takes_its_bytes(heap: &LocalHeap, before: usize, length: usize) -> bool {
    length > 0 && heap.used() <= before.saturating_add(length).saturating_add(SPARE)
}

fn publishes(heap: &LocalHeap, desk: &mut Desk<&LocalHeap>, peer: SiteId) -> bool {
    let before = heap.used();
    match desk.publish(peer) {
        Ok(Some(line)) => takes_its_bytes(heap, before, line.len()),
        _ => false,
    }
}

fn beats(heap: &LocalHeap, desk: &Desk<&LocalHeap>, peer: SiteId) -> bool {
    let before = heap.used();
    match desk.beat_line(peer) {
        Ok(line) => takes_its_bytes(heap, before, line.len()),
        Err(_) => false,
    }
}

fn answers(heap: &LocalHeap, desk: &Desk<&LocalHeap>, query: &Query) -> bool {
    let before = heap.used();
    match desk.on_query(query) {
        Ok(line) => takes_its_bytes(heap, before, line.len()),
        Err(_) => false,
    }
}

// Site 1 of two, with entries of 16 moves.
fn desk_on<'a>(rt: &impl Abort, heap: &'a LocalHeap) -> Desk<&'a LocalHeap> {
    let mut desk = Desk::new(heap, site(1), 2).expect(rt, "memory");
    for _ in 0..20u8 {
        assert!(rt; desk.post(&[issue(1_000_000_000); 16]).is_ok());
    }
    desk
}

#[test]
fn lines_take_their_bytes(rt: HostRuntime) {
    let heap = LocalHeap::new(rt.alloc(), 1 << 18).expect(&rt, "memory");
    let mut desk = desk_on(&rt, &heap);
    let query = Query::new(site(2), site(1), 1, 320).expect(&rt, "a query");
    assert!(rt; answers(&heap, &desk, &query));
    assert!(rt; beats(&heap, &desk, site(2)));
    for _ in 0..20u8 {
        assert!(rt; publishes(&heap, &mut desk, site(2)));
    }
}
