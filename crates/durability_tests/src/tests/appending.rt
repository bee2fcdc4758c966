//! A batch that is appended, and one that is not.

use crate::tests::exits::progress;
use durability::{Durability, Progress, append_batch};
use histories::History;
use journal_device::{Limits, Memory};
use site_journal::{Batch, Journal, TakeRecords, open};
use std::alloc::Global;
use std::sync::Wait;

/// Takes each record, and keeps none.
#[derive(Drop)]
struct Nothing;

impl TakeRecords for Nothing {
    ghost takes = { λ old text new. Unit {0} };

    ghost refuses = { λ old text new. Unit {0} };

    fn take_record(&mut self, _text: &[u8]) -> bool {
        true
    }
}

/// A journal over an empty file in memory, which fails after this many calls.
fn journal_of(alloc: Global, calls: Option<u64>) -> Option<Journal<Memory>> {
    let limits = Limits {
        calls,
        ..Limits::NONE
    };
    let file = Memory::new(alloc, b"", limits).ok()?;
    open(alloc, file, &mut Nothing).ok()
}

fn batch_of_one(alloc: Global) -> Option<Batch> {
    let mut batch = Batch::new(alloc).ok()?;
    batch.push(b"T 5").ok()?;
    Some(batch)
}

/// Appends one record to a journal that fails after this many calls, and for which two records were made by earlier
/// processes, in 50 bytes. Returns whether that was done and an exit opens then, and how far the journal is.
fn appended<R: Wait>(rt: &R, alloc: Global, calls: Option<u64>) -> Option<(bool, bool, Progress)> {
    let durability = Durability::new();
    let mut journal = journal_of(alloc, calls)?;
    let mut batch = batch_of_one(alloc)?;
    let mut raiser = durability.raiser();
    raiser.begin(rt, 2, 50, 4);
    durability.note(rt, 3, &mut History::new());
    let is_done = append_batch(rt, &mut journal, &mut batch, 3, 9, &mut raiser).is_ok();
    Some((
        is_done,
        durability.pass(rt, &mut History::new()),
        durability.progress(rt, &mut History::new()),
    ))
}

#[test]
fn what_is_appended_is_durable(rt: HostRuntime) {
    let alloc = rt.alloc();
    // The header of the batch has 21 bytes with its line feed, and the record 4.
    assert!(rt; appended(&rt, alloc, None) == Some((true, true, progress(3, 3, 25, 9))));
    // The write fails, and then the sync.
    let mut refused = 0u64;
    for calls in 0..8u64 {
        if appended(&rt, alloc, Some(calls)) == Some((false, false, progress(3, 2, 50, 4))) {
            refused = refused.wrapping_add(1);
        }
    }
    assert_eq!(rt; refused, 2);
}
