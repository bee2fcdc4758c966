//! Calls on the file that fail, a disk that is full, memory that is refused, and batches that are refused.
use super::kit::{
    answer, append, image_of, new_journal, no_texts, open_in, opened, push, reads_as,
};
use journal_device::{Limits, Memory};
use refusing_allocator::Refusing;
use site_journal::{Batch, Journal, JournalError, MAX_BATCH, is_text, open};
use std::alloc::{AllocGlobal, Allocator};
use std::process::Abort;

/// Two batches, and the rest of a third one.
const FILE: &[u8] =
    b"= 9 883fe6fcd28b39b9\nA 1\nB 22\n= 4 c198056f7db711ab\nC 3\n= 4 c198056f7db711ab\nC";

const TEXTS: &[u8] = b"A 1|B 22|C 3|";

/// What is appended to them.
const RUN: [&[u8]; 3] = [b"D|", b"E 4|FF|", b"G|"];

/// The records with the first of these.
const TOLD: [&[u8]; 4] = [
    TEXTS,
    b"A 1|B 22|C 3|D|",
    b"A 1|B 22|C 3|D|E 4|FF|",
    b"A 1|B 22|C 3|D|E 4|FF|G|",
];

/// Which call of a run failed, and whether it answered as it must.
#[derive(Clone, Copy)]
enum Met {
    Opening,
    Appending,
    Nothing,
    Wrong,
}

/// A run whose call after so many fails, or whose file has no room past a length.
fn meets(rt: &(impl Abort + AllocGlobal), calls: Option<u64>, room: usize) -> Met {
    let limits = Limits {
        calls,
        room,
        ..Limits::NONE
    };
    match open_in(rt, FILE, limits) {
        Ok(mut journal) => meets_appending(rt, &mut journal),
        Err((error, file)) => meets_opening(rt, error, &file),
    }
}

/// After a restart the file has its records.
fn meets_opening(rt: &(impl Abort + AllocGlobal), error: JournalError, file: &Memory) -> Met {
    let image = image_of(rt, file, u64::MAX, usize::MAX);
    if error == JournalError::Failed && reads_as(rt, image.as_slice(), TEXTS) {
        Met::Opening
    } else {
        Met::Wrong
    }
}

fn meets_appending(rt: &(impl Abort + AllocGlobal), journal: &mut Journal<Memory>) -> Met {
    for (i, texts) in RUN.iter().enumerate() {
        match answer(rt, journal, texts) {
            Ok(()) => {}
            Err(JournalError::Failed) if fails_for_good(rt, journal, i) => return Met::Appending,
            Err(_) => return Met::Wrong,
        }
    }
    Met::Nothing
}

/// Whether each later append fails too and writes nothing, and the file still has what was told.
fn fails_for_good(
    rt: &(impl Abort + AllocGlobal),
    journal: &mut Journal<Memory>,
    told: usize,
) -> bool {
    let before = image_of(rt, journal.device(), u64::MAX, usize::MAX);
    fails_again(rt, journal)
        && before.as_slice() == image_of(rt, journal.device(), u64::MAX, usize::MAX).as_slice()
        && has_told(rt, journal.device(), told)
}

fn fails_again(rt: &(impl Abort + AllocGlobal), journal: &mut Journal<Memory>) -> bool {
    for texts in &RUN {
        if answer(rt, journal, texts) != Err(JournalError::Failed) {
            return false;
        }
    }
    true
}

fn has_told(rt: &(impl Abort + AllocGlobal), file: &Memory, told: usize) -> bool {
    let texts = TOLD.get(told).copied().unwrap_or(b"");
    reads_as(rt, image_of(rt, file, 0, 0).as_slice(), texts)
}

/// A read, a cut or a sync that fails while the file is opened, and a write or a sync that fails in an append.
#[test]
fn calls_that_fail(rt: HostRuntime) {
    let mut opening = 0u64;
    let mut appending = 0u64;
    for calls in 0..40 {
        match meets(&rt, Some(calls), usize::MAX) {
            Met::Opening => opening = opening.saturating_add(1),
            Met::Appending => appending = appending.saturating_add(1),
            Met::Nothing => break,
            Met::Wrong => panic!(rt; "call {calls}"),
        }
    }
    // Reads, a cut and a sync; then three writes and syncs.
    assert!(rt; opening > 3);
    assert!(rt; appending == 6);
}

/// A disk that is full at each byte of the run.
#[test]
fn full_disks(rt: HostRuntime) {
    // The batches end at 55, 78, 106 and 129.
    for room in 55..129 {
        assert!(rt; matches!(meets(&rt, None, room), Met::Appending), "{room}");
    }
    assert!(rt; matches!(meets(&rt, None, 129), Met::Nothing));
}

/// Whether a run whose memory is refused once answers as it must, and loses nothing that was told.
fn meets_refusal<A: Allocator + Copy>(rt: &(impl Abort + AllocGlobal), alloc: A) -> bool {
    let Ok(file) = Memory::new(alloc, FILE, Limits::NONE) else {
        return true;
    };
    match open(alloc, file, &mut no_texts(rt.alloc())) {
        Ok(mut journal) => appends_or_not(rt, alloc, &mut journal),
        Err((error, file)) => error == JournalError::Memory && has(rt, &file, TEXTS),
    }
}

/// Whether a crash that loses what it can leaves these records.
fn has<A: Allocator + Copy>(
    rt: &(impl Abort + AllocGlobal),
    file: &Memory<A>,
    texts: &[u8],
) -> bool {
    // It asks for memory itself.
    match file.image(0, 0) {
        Ok(image) => reads_as(rt, image.as_slice(), texts),
        Err(_) => true,
    }
}

fn appends_or_not<A: Allocator + Copy>(
    rt: &(impl Abort + AllocGlobal),
    alloc: A,
    journal: &mut Journal<Memory<A>>,
) -> bool {
    let Ok(mut batch) = Batch::new(alloc) else {
        return true;
    };
    if is_text(b"D") && batch.push(b"D").is_err() {
        return batch.is_empty();
    }
    match journal.append(&mut batch) {
        Ok(()) => has(rt, journal.device(), b"A 1|B 22|C 3|D|"),
        Err(JournalError::Memory) => {
            journal.append(&mut batch) == Err(JournalError::Failed)
                && has(rt, journal.device(), TEXTS)
        }
        Err(_) => false,
    }
}

#[test]
fn memory_is_refused(rt: HostRuntime) {
    let mut requests = 0;
    for granted in 0..60 {
        let refusing = Refusing::new(rt.alloc(), granted);
        assert!(rt; meets_refusal(&rt, &refusing), "request {granted}");
        if !refusing.refused() {
            break;
        }
        requests = granted + 1;
    }
    assert!(rt; requests > 8);
    assert!(rt; requests < 60);
}

/// A batch with so many bytes of records. Their number is no constant here, so no proof writes them out.
fn long_batch(rt: &(impl Abort + AllocGlobal), count: usize) -> Batch {
    let mut text = Vec::new(rt.alloc());
    text.resize(count.saturating_sub(1), b'x')
        .expect(rt, "memory");
    let mut batch = Batch::new(rt.alloc()).expect(rt, "memory");
    push(rt, &mut batch, text.as_slice());
    batch
}

/// What the journal answers to a batch of so many bytes.
fn answer_long(
    rt: &(impl Abort + AllocGlobal),
    journal: &mut Journal<Memory>,
    count: usize,
) -> Result<(), JournalError> {
    let mut batch = long_batch(rt, count);
    journal.append(&mut batch)
}

/// How many bytes of records a file with these bytes has, with their bars.
fn len_of_records(rt: &(impl Abort + AllocGlobal), image: &[u8]) -> usize {
    let mut texts = no_texts(rt.alloc());
    let _journal = opened(rt, image, &mut texts);
    texts.all.len()
}

/// Whether a journal with no record has this answer to a batch of so many bytes, and so many bytes of records then.
fn appends_long(
    rt: &(impl Abort + AllocGlobal),
    count: usize,
    wanted: Result<(), JournalError>,
    len: usize,
) -> bool {
    let mut journal = new_journal(rt);
    let is_answered = answer_long(rt, &mut journal, count) == wanted;
    append(rt, &mut journal, b"A|");
    is_answered && len_of_records(rt, journal.device().bytes()) == len
}

/// The greatest batch, and one of a byte more.
#[test]
fn too_long_a_batch(rt: HostRuntime) {
    assert!(rt; appends_long(&rt, MAX_BATCH, Ok(()), MAX_BATCH + 2));
    assert!(rt; appends_long(&rt, MAX_BATCH + 1, Err(JournalError::TooLong), 2));
}
