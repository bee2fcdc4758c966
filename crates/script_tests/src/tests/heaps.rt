//! How much memory worlds take: bytes on a heap that counts them, and requests.
use linked_list_allocator::LocalHeap;
use refusing_allocator::Refusing;
use std::alloc::{Allocator, Global};
use test_kit::{requests_of, site};
use transfer_world::{Event, Keeping, Reply, World};

/// The stage that an entry reaches.
#[derive(Clone, Copy, PartialEq, Eq)]
enum Way {
    /// Site 1 issues a right.
    Issued,
    /// Site 1 also publishes the entry to site 2.
    Published,
    /// The entry arrives there.
    Arrived,
    /// The entry is applied there.
    Taken,
}

/// Whether an entry reaches this stage, as the packet with this number.
fn goes<A: Allocator + Copy, K: Keeping>(world: &mut World<A, K>, packet: u64, way: Way) -> bool {
    let (one, two) = (site(1), site(2));
    world.step(Event::Issue(one, 1)).is_ok()
        && (way == Way::Issued || world.step(Event::Publish(one, two)).is_ok())
        && (way != Way::Arrived && way != Way::Taken
            || world.step(Event::Arrive(two, packet)).is_ok())
        && (way != Way::Taken
            || matches!(world.step(Event::Take(two, one)), Ok(Reply::Taken(own)) if own == packet))
}

/// Whether this number of entries reaches this stage.
fn all_go<A: Allocator + Copy, K: Keeping>(world: &mut World<A, K>, count: u64, way: Way) -> bool {
    for packet in 1..=count {
        if !goes(world, packet, way) {
            return false;
        }
    }
    true
}

/// How many bytes this number of entries takes up to this stage, by what a world keeps.
fn bytes_of<K: Keeping>(
    heap: &LocalHeap,
    world: &mut World<&LocalHeap, K>,
    count: u64,
    way: Way,
) -> Option<usize> {
    let before = heap.used();
    if all_go(world, count, way) {
        heap.used().checked_sub(before)
    } else {
        None
    }
}

/// This number of entries fills the capacity of their lists.
const COUNT: u64 = 1_024;

/// The bytes that entries take in a world that is made on a heap of its own. All of them are given back when it is
/// dropped.
fn bytes_for_replies(alloc: Global, way: Way) -> Option<usize> {
    let heap = LocalHeap::new(alloc, 1 << 20).ok()?;
    let fresh = heap.used();
    let mut world = World::for_replies(&heap, 2).ok()?;
    let bytes = bytes_of(&heap, &mut world, COUNT, way);
    drop(world);
    if heap.used() == fresh { bytes } else { None }
}

/// The same for a world that has readers.
fn bytes_for_readers(alloc: Global, way: Way) -> Option<usize> {
    let heap = LocalHeap::new(alloc, 1 << 20).ok()?;
    let fresh = heap.used();
    let mut world = World::new(&heap, 2).ok()?;
    let bytes = bytes_of(&heap, &mut world, COUNT, way);
    drop(world);
    if heap.used() == fresh { bytes } else { None }
}

/// The log's first block, its draft, and the spare capacity of the lists of a world.
const FIXED: usize = 65_536 + 6_144;

/// Whether these bytes are at most this number for each entry, and what the log takes in any case.
fn is_within(bytes: Option<usize>, each: usize) -> bool {
    let most = each.saturating_mul(COUNT as usize).saturating_add(FIXED);
    bytes.is_some_and(|count| count <= most)
}

/// An entry takes a row of the log's index besides its line, a packet its index, and an entry that waits to be
/// applied its moves.
#[test]
fn bytes_of_a_scripts_entries(rt: HostRuntime) {
    assert!(rt; is_within(bytes_for_replies(rt.alloc(), Way::Issued), 12));
    assert!(rt; is_within(bytes_for_replies(rt.alloc(), Way::Published), 60));
    assert!(rt; is_within(bytes_for_replies(rt.alloc(), Way::Arrived), 180));
}

/// What a script's world has applied takes no more bytes than what was published.
#[test]
fn bytes_of_what_a_script_applied(rt: HostRuntime) {
    assert!(rt; is_within(bytes_for_replies(rt.alloc(), Way::Taken), 60));
}

/// What a world for readers has applied takes as many bytes as it did when it arrived.
#[test]
fn bytes_of_entries_for_readers(rt: HostRuntime) {
    assert!(rt; is_within(bytes_for_readers(rt.alloc(), Way::Published), 60));
    let taken = bytes_for_readers(rt.alloc(), Way::Taken);
    assert!(rt; is_within(taken, 180));
    assert!(rt; taken == bytes_for_readers(rt.alloc(), Way::Arrived));
}

/// How many entries arrive in reverse order, so that all but the last of them are held.
const HELD: u64 = 32;

/// Whether this number of entries is published, arrives in reverse order, and is taken.
fn come_in_reverse<A: Allocator + Copy, K: Keeping>(world: &mut World<A, K>, before: u64) -> bool {
    for own in 1..=HELD {
        if !goes(world, before.saturating_add(own), Way::Published) {
            return false;
        }
    }
    for own in 0..HELD {
        let packet = before.saturating_add(HELD).saturating_sub(own);
        if world.step(Event::Arrive(site(2), packet)).is_err() {
            return false;
        }
    }
    are_taken(world, before)
}

/// Whether this number of entries after this number is taken, and no more.
fn are_taken<A: Allocator + Copy, K: Keeping>(world: &mut World<A, K>, before: u64) -> bool {
    for own in 1..=HELD {
        let number = before.saturating_add(own);
        if !matches!(world.step(Event::Take(site(2), site(1))), Ok(Reply::Taken(taken)) if taken == number)
        {
            return false;
        }
    }
    matches!(
        world.step(Event::Take(site(2), site(1))),
        Ok(Reply::Nothing)
    )
}

/// The bytes that all entries take if they arrive in reverse order, by what a world keeps.
fn bytes_with_gaps<K: Keeping>(
    heap: &LocalHeap,
    world: &mut World<&LocalHeap, K>,
) -> Option<usize> {
    let before = heap.used();
    for round in 0..COUNT / HELD {
        if !come_in_reverse(world, round.saturating_mul(HELD)) {
            return None;
        }
    }
    heap.used().checked_sub(before)
}

fn gaps_for_replies(alloc: Global) -> Option<usize> {
    let heap = LocalHeap::new(alloc, 1 << 20).ok()?;
    let fresh = heap.used();
    let mut world = World::for_replies(&heap, 2).ok()?;
    let bytes = bytes_with_gaps(&heap, &mut world);
    drop(world);
    if heap.used() == fresh { bytes } else { None }
}

fn gaps_for_readers(alloc: Global) -> Option<usize> {
    let heap = LocalHeap::new(alloc, 1 << 20).ok()?;
    let fresh = heap.used();
    let mut world = World::new(&heap, 2).ok()?;
    let bytes = bytes_with_gaps(&heap, &mut world);
    drop(world);
    if heap.used() == fresh { bytes } else { None }
}

/// Once applied, entries that were held take no more bytes in a script's world, and in one for readers those of the
/// list of what reached it.
#[test]
fn bytes_of_entries_that_were_held(rt: HostRuntime) {
    assert!(rt; is_within(gaps_for_replies(rt.alloc()), 60));
    assert!(rt; is_within(gaps_for_readers(rt.alloc()), 300));
}

/// How many requests a script's world makes until this number of entries has reached this stage.
fn requests_until(alloc: Global, count: u64, way: Way) -> Option<u64> {
    requests_of(alloc, |memory| goes_on(memory, count, way))
}

fn goes_on<A: Allocator + Copy>(memory: &Refusing<A>, count: u64, way: Way) -> bool {
    let Ok(mut world) = World::for_replies(memory, 2) else {
        return memory.refused();
    };
    all_go(&mut world, count, way) || memory.refused()
}

/// How many requests the entries from the 65th to the 128th make.
fn requests_of_more(alloc: Global, way: Way) -> Option<u64> {
    let some = requests_until(alloc, 64, way)?;
    requests_until(alloc, 128, way)?.checked_sub(some)
}

/// An entry that is issued or published makes no request unless a list doubles its capacity. One that arrives makes
/// one, for its moves, and none when it is taken.
#[test]
fn requests_of_entries(rt: HostRuntime) {
    let bounds = [
        (Way::Issued, 2),
        (Way::Published, 4),
        (Way::Arrived, 68),
        (Way::Taken, 68),
    ];
    for (way, most) in bounds {
        let made = requests_of_more(rt.alloc(), way);
        assert!(rt;
            made.is_some_and(|count| count <= most),
            "{made:?} and not {most}"
        );
    }
}

/// Whether this number of beats is sent.
fn beats<A: Allocator + Copy>(memory: &Refusing<A>, count: u64) -> bool {
    let Ok(mut world) = World::for_replies(memory, 2) else {
        return memory.refused();
    };
    for _ in 0..count {
        if world.step(Event::Beat(site(1), site(2))).is_err() {
            return memory.refused();
        }
    }
    true
}

fn requests_of_beats(alloc: Global, count: u64) -> Option<u64> {
    requests_of(alloc, |memory| beats(memory, count))
}

/// A beat makes one request, for its line, and two more when the lists of packets and of their lines double their
/// capacity.
#[test]
fn requests_of_beats_lines(rt: HostRuntime) {
    let some = requests_of_beats(rt.alloc(), 64).expect(&rt, "beats");
    let more = requests_of_beats(rt.alloc(), 128).expect(&rt, "beats");
    assert_eq!(rt; Some(more), some.checked_add(64 + 2));
}
