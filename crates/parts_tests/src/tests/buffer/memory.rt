//! The buffer requests its memory once.
use crate::tests::buffer::steps::{Step, first_wrong};
use linked_list_allocator::LocalHeap;
use refusing_allocator::Refusing;
use rights_types::{Entry, MAX_HELD, OutOfMemory, SiteId};
use std::alloc::{AllocError, Allocator};
use std::test::Fail;
use sub_buffer::{State, SubBuffer};
use test_kit::requests_of;

// Whether a buffer of these sites is made, at which nothing has arrived, unless memory was refused.
fn makes<A: Allocator>(memory: &Refusing<A>, me: SiteId, origin: SiteId) -> bool {
    if me == origin {
        return false;
    }
    match SubBuffer::new(memory, me, origin) {
        Ok(buffer) => {
            let is_new = buffer.last() == 0 && buffer.told() == 0 && buffer.held_count() == 0;
            is_new && buffer.me() == me && buffer.origin() == origin && !memory.refused()
        }
        Err(OutOfMemory) => memory.refused(),
    }
}

/// For any two sites `new` makes a buffer with one memory request, and reports if that is refused.
#[test]
fn one_request_for_any_two_sites(rt: HostRuntime) {
    for me in 1..=16u64 {
        for origin in 1..=16u64 {
            if me == origin {
                continue;
            }
            let made = requests_of(rt.alloc(), |memory| {
                makes(memory, SiteId::known(me), SiteId::known(origin))
            });
            assert_eq!(rt; made, Some(1), "{me} of {origin}");
        }
    }
}

// The bytes that room for 64 entries takes.
fn bytes_of_entries(heap: &LocalHeap) -> Result<usize, AllocError> {
    let _entries: Vec<Entry<&LocalHeap>, &LocalHeap> = Vec::with_capacity(heap, MAX_HELD)?;
    Ok(heap.used())
}

/// The memory is that of 64 entries, and no more.
#[test]
fn memory_of_64_entries(rt: HostRuntime) -> Result<(), Fail> {
    let heap = LocalHeap::new(rt.alloc(), 1 << 16)?;
    let wanted = bytes_of_entries(&heap)?;
    let buffer = SubBuffer::new(&heap, SiteId::known(2), SiteId::known(1))?;
    assert!(rt; wanted > 0 && heap.used() == wanted && buffer.held_count() == 0);
    Ok(())
}

/// No call except `new` requests memory: 66 entries arrive, are held and delivered, and each made its one
/// request when it was built.
#[test]
fn no_growth_after_new(rt: HostRuntime) {
    let steps = [
        Step::OfferEach(1, 64, "held"),
        Step::Offer(65, 1, "full"),
        Step::Want(Some((1, 1))),
        Step::Offer(0, 1, "ready"),
        Step::Pop(1, 64),
        Step::Beat(70),
        Step::WantAgain(Some((66, 70))),
        Step::Is(State::Buffering),
    ];
    let requests = requests_of(rt.alloc(), |memory| {
        match first_wrong(memory, &steps) {
            Ok(wrong) => wrong.is_none() && !memory.refused(),
            Err(OutOfMemory) => memory.refused(),
        }
    });
    assert_eq!(rt; requests, Some(67));
}
