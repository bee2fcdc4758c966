//! The queue requests its memory once.
use linked_list_allocator::LocalHeap;
use refusing_allocator::Refusing;
use request_queue::{QueueError, RequestQueue, SLOTS, Status};
use rights_types::OutOfMemory;
use std::alloc::Allocator;
use std::test::Fail;
use test_kit::requests_of;

// A new queue requests memory for its waiting requests, and for its outcomes.
const REQUESTS: u64 = 2;

/// Each memory request of a new queue is refused in turn, and then none is.
#[test]
fn each_growth_of_a_new_queue_refused(rt: HostRuntime) {
    let requests = requests_of(rt.alloc(), |memory| {
        match RequestQueue::new(memory) {
            Ok(queue) => {
                !memory.refused()
                    && queue.waiting() == 0
                    && queue.total() == 0
                    && queue.front().is_none()
            }
            Err(OutOfMemory) => memory.refused(),
        }
    });
    assert!(rt; requests == Some(REQUESTS));
}

/// A queue takes memory for as many requests as it has slots, and for as many outcomes: each has at most three
/// numbers.
#[test]
fn room_of_the_slots(rt: HostRuntime) -> Result<(), Fail> {
    let heap = LocalHeap::new(rt.alloc(), 1 << 16)?;
    let queue = RequestQueue::new(&heap)?;
    assert!(rt; heap.used() <= 2 * SLOTS * 24);
    assert!(rt; queue.waiting() == 0);
    drop(queue);
    assert!(rt; heap.used() == 0);
    Ok(())
}

// Whether all slots fill, with requests that expire.
fn fills<A: Allocator>(queue: &mut RequestQueue<A>) -> bool {
    for ticket in 1..=SLOTS as u64 {
        if queue.put(1, ticket) != Ok(ticket) {
            return false;
        }
    }
    for ticket in 1..=SLOTS as u64 {
        if queue.expire_one(ticket + 1) != Some(ticket) {
            return false;
        }
    }
    true
}

// Whether they empty again, as the outcomes are read.
fn empties<A: Allocator>(queue: &mut RequestQueue<A>) -> bool {
    for ticket in 1..=SLOTS as u64 {
        if queue.status(ticket) != Status::Expired {
            return false;
        }
    }
    true
}

// Whether the request with that ticket is served by an entry with number 1.
fn serves<A: Allocator>(queue: &mut RequestQueue<A>, ticket: u64) -> bool {
    if queue.waiting() == 0 {
        return false;
    }
    queue.serve_front(1);
    queue.status(ticket) == Status::Spent(1)
}

/// After `new` no call requests memory: all slots fill, empty and fill again with none available.
#[test]
fn no_call_after_new_takes_memory(rt: HostRuntime) -> Result<(), Fail> {
    let refusing = Refusing::new(rt.alloc(), REQUESTS);
    let mut queue = RequestQueue::new(&refusing)?;
    assert!(rt; fills(&mut queue));
    assert!(rt; queue.put(1, 0) == Err(QueueError::QueueFull));
    assert!(rt; empties(&mut queue));
    assert!(rt; queue.put(1, 0) == Ok(33));
    assert!(rt; serves(&mut queue, 33));
    assert!(rt; !refusing.refused());
    Ok(())
}
