//! Exits that wait. No contract says that a thread is woken, so it is tested: a wake that is lost leaves a test waiting
//! for good.

use durability::{Durability, ExitWriter, Next, Progress};
use histories::History;
use std::alloc::Global;
use std::io::Write;
use std::process::Abort;
use std::sync::Wait;
use std::thread;
use std::thread::Threads;
use std::time::{Clock, Duration};

/// What another thread does while an exit waits for two records.
#[derive(Clone, Copy, Debug, PartialEq, Eq)]
enum Act {
    Raise(u64),
    Fail,
    Close,
    RaiseAndClose,
    RaiseAndFail,
}

/// With what the exit was opened or not.
const CASES: [(Act, bool); 6] = [
    (Act::Raise(2), true),
    (Act::Raise(9), true),
    (Act::RaiseAndClose, true),
    (Act::Fail, false),
    (Act::Close, false),
    (Act::RaiseAndFail, false),
];

/// Does it, once an exit has asked for records. `false` if none did.
fn make_act<R: Wait + Clock>(rt: &R, durability: &Durability, what: Act) -> bool {
    let mut raiser = durability.raiser();
    if raiser.next(rt) != Next::Wanted {
        return false;
    }
    thread::sleep(rt, Duration::from_millis(20));
    match what {
        Act::Raise(count) => raiser.raise(rt, count, 60, 5),
        Act::Fail => durability.fail(rt, &mut History::new()),
        Act::Close => raiser.close(rt),
        Act::RaiseAndClose => {
            raiser.raise(rt, 2, 60, 5);
            raiser.close(rt);
        }
        Act::RaiseAndFail => {
            raiser.fail(rt);
            raiser.raise(rt, 2, 60, 5);
        }
    }
    true
}

/// What is written at an exit, after two records were made. `None` if the write failed.
fn written<R: Wait>(rt: &R, alloc: Global, durability: Option<&Durability>) -> Option<Vec<u8>> {
    let mut text = Vec::new(alloc);
    let mut exit = ExitWriter::new(rt, durability, &mut text);
    let is_written = exit.write(b"ok").is_ok();
    drop(exit);
    // At an error nothing is written.
    if is_written == text.is_empty() {
        return Some(text);
    }
    if is_written { Some(text) } else { None }
}

/// Whether something is written at an exit.
fn writes<R: Wait>(rt: &R, alloc: Global, durability: Option<&Durability>) -> bool {
    match written(rt, alloc, durability) {
        Some(text) => text.as_slice() == b"ok".as_slice(),
        None => false,
    }
}

/// Whether an exit that waits opens when another thread does this.
fn opens<R: Wait + Clock + Threads + Sync>(rt: &R, alloc: Global, what: Act) -> Option<bool> {
    let durability = Durability::new();
    durability.note(rt, 2, &mut History::new());
    let (is_open, has_acted) = thread::join(
        rt,
        || writes(rt, alloc, Some(&durability)),
        || make_act(rt, &durability, what),
    );
    has_acted.then_some(is_open)
}

#[test]
fn exits_wait_until_they_are_let_go(rt: HostRuntime) {
    for (what, is_open) in CASES {
        assert_eq!(rt; opens(&rt, rt.alloc(), what), Some(is_open));
    }
}

/// The progress with these numbers.
pub(crate) fn progress(records: u64, durable: u64, bytes: u64, synced: u64) -> Progress {
    Progress {
        records,
        durable,
        bytes,
        synced,
    }
}

/// What a thread that appends and an exit are told after the records were durable, and after a failure.
#[test]
fn no_exit_opens_after_a_failure(rt: HostRuntime) {
    let durability = Durability::new();
    assert!(rt;
        durability.pass(&rt, &mut History::new()) && !durability.is_shut(&rt, &mut History::new())
    );
    assert_eq!(rt;
        durability.progress(&rt, &mut History::new()),
        progress(0, 0, 0, 0)
    );
    durability.note(&rt, 3, &mut History::new());
    durability.raiser().raise(&rt, 3, 90, 7);
    assert!(rt; durability.pass(&rt, &mut History::new()));
    durability.note(&rt, 2, &mut History::new());
    assert_eq!(rt;
        durability.progress(&rt, &mut History::new()),
        progress(3, 3, 90, 7)
    );
    durability.fail(&rt, &mut History::new());
    durability.end(&rt, &mut History::new());
    assert!(rt;
        !durability.pass(&rt, &mut History::new())
            && durability.has_failed(&rt, &mut History::new())
            && durability.is_shut(&rt, &mut History::new())
    );
    assert!(rt; durability.raiser().next(&rt) == Next::Stop);
}

/// Without a journal nothing waits; with one that ends what is left is to be appended, also if no exit waits for it.
#[test]
fn the_end_and_no_journal(rt: HostRuntime) {
    assert!(rt; writes(&rt, rt.alloc(), None));
    let durability = Durability::new();
    durability.note(&rt, 1, &mut History::new());
    assert!(rt; durability.raiser().next(&rt) == Next::Due);
    durability.end(&rt, &mut History::new());
    let mut raiser = durability.raiser();
    assert!(rt; raiser.next(&rt) == Next::End && !durability.is_shut(&rt, &mut History::new()));
    raiser.close(&rt);
    assert!(rt; raiser.next(&rt) == Next::Stop && durability.is_shut(&rt, &mut History::new()));
    assert!(rt;
        !durability.pass(&rt, &mut History::new())
            && !durability.has_failed(&rt, &mut History::new())
    );
}

/// What the thread that appends is to do, if it waits for so long until a record is made, for which no exit waits.
fn next_after<R: Wait + Clock + Threads + Sync>(rt: &R, milliseconds: u64) -> Next {
    let durability = Durability::new();
    let (next, ()) = thread::join(
        rt,
        || durability.raiser().next(rt),
        || {
            thread::sleep(rt, Duration::from_millis(milliseconds));
            durability.note(rt, 1, &mut History::new());
        },
    );
    next
}

/// Also where it found nothing to append for so long that it looks no more by itself.
#[test]
fn a_record_is_due_after_any_pause(rt: HostRuntime) {
    for milliseconds in [1u64, 30, 1500] {
        assert!(rt; next_after(&rt, milliseconds) == Next::Due);
    }
}
