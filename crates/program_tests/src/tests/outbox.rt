//! Waiting lines, with one thread and with three.
ghost use Rattle.std.specs.Prelude.{◌≡◌, ◌≤◌, IfOk};
ghost use Rattle.entry_codec.specs.Pieces.{IsLine};

use entry_codec::write_line;
use peer_links::{OUTBOX_LINES, Outbox, PutError};
use refusing_allocator::Refusing;
use rights_types::{Beat, Message, OutOfMemory, SiteId};
use std::alloc::{Allocator, Global};
use std::sync::Wait;
use std::thread;
use std::thread::Threads;
use std::time::{Clock, Duration};
use test_kit::requests_of;

/// The beat of site 1 with this number.
pub(crate) fn beat<A: Allocator + Copy>(alloc: A, number: u64) -> Result<Vec<u8, A>, OutOfMemory>
    ensures { IfOk result (λ line. IsLine line.items) }
{
    let beat = Beat::new(SiteId::known(1), number).map_err(|_| OutOfMemory)?;
    let message: Message<A> = Message::Beat(beat);
    write_line(alloc, &message)
}

/// A line of this number of bytes, at least its line feed.
pub(crate) fn long_line(alloc: Global, length: usize) -> Result<Vec<u8>, OutOfMemory>
    requires { 1 ≤ length }
    ensures { IfOk result (λ line. IsLine line.items) }
{
    let mut line = vec![in alloc; b'x'; length - 1]?;
    line.push(b'\n')?;
    Ok(line)
}

/// Puts the beats with these numbers, and returns whether there was room for all.
pub(crate) fn put_beats<R: Wait, A: Allocator + Copy>(
    rt: &R,
    alloc: A,
    outbox: &Outbox<A>,
    first: u64,
    last: u64,
) -> bool {
    for number in first..last {
        let Ok(line) = beat(alloc, number) else {
            return false;
        };
        if outbox.put(rt, line).is_err() {
            return false;
        }
    }
    true
}

/// Whether the outbox returns the beats with these numbers.
fn takes_beats<R: Wait>(rt: &R, alloc: Global, outbox: &Outbox, first: u64, last: u64) -> bool {
    for number in first..last {
        let Some(line) = outbox.take(rt) else {
            return false;
        };
        let Ok(text) = format!(in alloc; "B 1 {number}\n") else {
            return false;
        };
        if line.as_slice() != text.as_bytes() {
            return false;
        }
    }
    true
}

/// Whether putting the beat with this number has that result.
fn puts<R: Wait>(
    rt: &R,
    alloc: Global,
    outbox: &Outbox,
    number: u64,
    wanted: Result<(), PutError>,
) -> bool {
    let Ok(line) = beat(alloc, number) else {
        return false;
    };
    outbox.put(rt, line) == wanted
}

#[test]
fn many_lines_fit_and_no_more(rt: HostRuntime) {
    assert_eq!(rt; OUTBOX_LINES, 256);
    let outbox = Outbox::new(rt.alloc()).expect(&rt, "memory");
    let alloc = rt.alloc();
    assert!(rt; put_beats(&rt, alloc, &outbox, 0, 256));
    assert!(rt; puts(&rt, alloc, &outbox, 256, Err(PutError::Full)));
    assert!(rt; takes_beats(&rt, alloc, &outbox, 0, 1));
    assert!(rt; puts(&rt, alloc, &outbox, 256, Ok(())));
    outbox.end(&rt);
    assert!(rt; puts(&rt, alloc, &outbox, 257, Err(PutError::Ended)));
    assert!(rt; takes_beats(&rt, alloc, &outbox, 1, 257));
    assert!(rt; is_over(&rt, &outbox));
}

/// Whether the outbox returns nothing, and nothing when it is asked again.
fn is_over<R: Wait>(rt: &R, outbox: &Outbox) -> bool {
    outbox.take(rt).is_none() && outbox.take(rt).is_none()
}

#[test]
fn an_abandoned_outbox_gives_nothing(rt: HostRuntime) {
    let outbox = Outbox::new(rt.alloc()).expect(&rt, "memory");
    assert!(rt; put_beats(&rt, rt.alloc(), &outbox, 0, 3));
    outbox.abandon(&rt);
    assert!(rt; outbox.take(&rt).is_none());
    let ended = Err(PutError::Ended);
    assert!(rt; puts(&rt, rt.alloc(), &outbox, 3, ended));
}

/// Whether there is no room for the line of the beat with this number after as many others as may wait.
pub(crate) fn finds_no_room<R: Wait>(rt: &R, alloc: Global, number: u64) -> bool {
    let Ok(outbox) = Outbox::new(alloc) else {
        return false;
    };
    put_beats(rt, alloc, &outbox, 0, 256) && puts(rt, alloc, &outbox, number, Err(PutError::Full))
}

/// Puts this number of equal beats, and returns whether there was room for all.
fn put_same<R: Wait>(rt: &R, alloc: Global, outbox: &Outbox, count: u64) -> bool {
    for _ in 0..count {
        if !put_beats(rt, alloc, outbox, 7, 8) {
            return false;
        }
    }
    true
}

/// How many beats the outbox returns until it has ended.
fn count_taken<R: Wait, A: Allocator>(rt: &R, outbox: &Outbox<A>) -> u64 {
    let mut count = 0u64;
    for _ in rt.forever() {
        let Some(_line) = outbox.take(rt) else {
            return count;
        };
        count = count.wrapping_add(1);
    }
    unreachable!()
}

/// Two threads put lines, and then the outbox ends.
fn put_by_two<R: Wait + Threads + Sync>(rt: &R, alloc: Global, outbox: &Outbox) -> bool {
    let (one, other) = thread::join(
        rt,
        || put_same(rt, alloc, outbox, 100),
        || put_same(rt, alloc, outbox, 100),
    );
    outbox.end(rt);
    one && other
}

#[test]
fn two_threads_put_and_one_takes(rt: HostRuntime) {
    let outbox = Outbox::new(rt.alloc()).expect(&rt, "memory");
    let alloc = rt.alloc();
    let (put, taken) = thread::join(
        &rt,
        || put_by_two(&rt, alloc, &outbox),
        || count_taken(&rt, &outbox),
    );
    assert!(rt; put);
    assert_eq!(rt; taken, 200);
}

/// Puts a beat once another thread has had time to wait for it, and returns whether there was room.
fn put_late<R: Wait + Clock>(rt: &R, alloc: Global, outbox: &Outbox) -> bool {
    thread::sleep(rt, Duration::from_millis(50));
    put_beats(rt, alloc, outbox, 7, 8)
}

#[test]
fn a_put_wakes_a_taker(rt: HostRuntime) {
    let outbox = Outbox::new(rt.alloc()).expect(&rt, "memory");
    let alloc = rt.alloc();
    let (put, taken) = thread::join(
        &rt,
        || put_late(&rt, alloc, &outbox),
        || takes_beats(&rt, alloc, &outbox, 7, 8),
    );
    assert!(rt; put);
    assert!(rt; taken);
}

/// Puts two beats under one lock once another thread has had time to wait for them, and answers whether both found
/// room.
fn put_two_late<R: Wait + Clock>(rt: &R, alloc: Global, outbox: &Outbox) -> bool {
    thread::sleep(rt, Duration::from_millis(50));
    let (Ok(one), Ok(other)) = (beat(alloc, 7), beat(alloc, 8)) else {
        return false;
    };
    let mut lines = outbox.lock(rt);
    lines.put(one).is_ok() && lines.put(other).is_ok()
}

#[test]
fn lines_put_under_one_lock_wake_a_taker(rt: HostRuntime) {
    let outbox = Outbox::new(rt.alloc()).expect(&rt, "memory");
    let alloc = rt.alloc();
    let (put, taken) = thread::join(
        &rt,
        || put_two_late(&rt, alloc, &outbox),
        || takes_beats(&rt, alloc, &outbox, 7, 9),
    );
    assert!(rt; put);
    assert!(rt; taken);
}

/// Whether the outbox seems ready or not, as wanted, and this number of lines wait.
fn shows<R: Wait>(rt: &R, outbox: &Outbox, is_ready: bool, count: usize) -> bool {
    outbox.seems_ready() == is_ready && outbox.len(rt) == count
}

#[test]
fn an_outbox_shows_what_waits(rt: HostRuntime) {
    let outbox = Outbox::new(rt.alloc()).expect(&rt, "memory");
    let alloc = rt.alloc();
    assert!(rt; shows(&rt, &outbox, false, 0));
    assert!(rt; put_beats(&rt, alloc, &outbox, 0, 2));
    assert!(rt; shows(&rt, &outbox, true, 2));
    assert!(rt; takes_beats(&rt, alloc, &outbox, 0, 1));
    assert!(rt; shows(&rt, &outbox, true, 1));
    assert!(rt; takes_beats(&rt, alloc, &outbox, 1, 2));
    assert!(rt; shows(&rt, &outbox, false, 0));
    outbox.end(&rt);
    assert!(rt; shows(&rt, &outbox, true, 0));
}

/// Longer than a test may take.
fn an_hour() -> Duration {
    Duration::from_secs(3600)
}

/// Whether the outbox is empty in the end, when another thread has had time to do something about it.
fn waits_while<R: Wait + Clock + Threads + Sync, F: FnOnce() + Send + Drop>(
    rt: &R,
    outbox: &Outbox,
    act: F,
) -> bool
    requires { F.pre act }
{
    let (is_empty, _) = thread::join(
        rt,
        || outbox.wait_until_empty(rt, an_hour()),
        || {
            thread::sleep(rt, Duration::from_millis(50));
            act();
        },
    );
    is_empty
}

#[test]
fn an_empty_outbox_is_not_waited_for(rt: HostRuntime) {
    let outbox = Outbox::new(rt.alloc()).expect(&rt, "memory");
    assert!(rt; outbox.wait_until_empty(&rt, an_hour()));
    assert!(rt; put_beats(&rt, rt.alloc(), &outbox, 0, 1));
    assert!(rt; !outbox.wait_until_empty(&rt, Duration::from_millis(10)));
}

#[test]
fn the_last_line_taken_ends_the_wait(rt: HostRuntime) {
    let outbox = Outbox::new(rt.alloc()).expect(&rt, "memory");
    let alloc = rt.alloc();
    assert!(rt; put_beats(&rt, alloc, &outbox, 0, 1));
    assert!(rt; waits_while(&rt, &outbox, || drop(outbox.take(&rt))));
}

#[test]
fn an_abandoned_outbox_is_not_waited_for(rt: HostRuntime) {
    let outbox = Outbox::new(rt.alloc()).expect(&rt, "memory");
    assert!(rt; put_beats(&rt, rt.alloc(), &outbox, 0, 3));
    assert!(rt; waits_while(&rt, &outbox, || outbox.abandon(&rt)));
}

/// Whether an outbox is made, or refused for want of memory alone; where it is made, nothing that it is
/// asked takes memory.
fn is_made<R: Wait>(rt: &R, alloc: &Refusing<Global>) -> bool {
    match Outbox::new(alloc) {
        Ok(outbox) => {
            outbox.end(rt);
            outbox.take(rt).is_none()
        }
        Err(OutOfMemory) => alloc.refused(),
    }
}

#[test]
fn each_growth_for_an_outbox_refused(rt: HostRuntime) {
    let requests = requests_of(rt.alloc(), |alloc| is_made(&rt, alloc));
    assert_eq!(rt; requests, Some(1));
}

/// How many lines an outbox returns until it has ended, if it and its 256 beats take this memory. `None`
/// if it has no room for them.
fn taken_of_256<R: Wait>(rt: &R, memory: &Refusing<Global>) -> Option<u64> {
    let outbox = Outbox::new(memory).ok()?;
    if !put_beats(rt, memory, &outbox, 0, 256) {
        return None;
    }
    outbox.end(rt);
    Some(count_taken(rt, &outbox))
}

#[test]
fn no_memory_is_taken_by_putting(rt: HostRuntime) {
    let memory = Refusing::new(rt.alloc(), 1 + 256);
    assert_eq!(rt; taken_of_256(&rt, &memory), Some(256));
    assert!(rt; !memory.refused());
}
