//! How many bytes answers take, counted by a heap of one block.
use crate::tests::scripts::tell;
use crate::tests::texts::longest_log;
use linked_list_allocator::LocalHeap;
use origin_log::OriginLog;
use rights_types::{Entry, MAX_ANSWER, OutOfMemory, Query};
use std::process::Abort;
use test_kit::site;

/// How many bytes these entries take if each is copied.
fn bytes_of_copies(heap: &LocalHeap, entries: &[Entry<&LocalHeap>]) -> Result<usize, OutOfMemory> {
    let before = heap.used();
    let mut copies: Vec<Entry<&LocalHeap>, &LocalHeap> = Vec::with_capacity(heap, MAX_ANSWER)?;
    for entry in entries {
        copies.push(entry.clone_in(heap)?)?;
    }
    Ok(heap.used().saturating_sub(before))
}

// Whether an answer of 16 entries takes as many bytes as copies of them do.
fn answer_takes_no_spare_bytes(
    heap: &LocalHeap,
    log: &OriginLog<&LocalHeap>,
    query: &Query,
) -> bool {
    let before = heap.used();
    let Ok(found) = log.answer(query) else {
        return false;
    };
    let taken = heap.used().saturating_sub(before);
    found.len() == MAX_ANSWER && bytes_of_copies(heap, &found) == Ok(taken)
}

// Whether an answer's line takes as many bytes as it has. The heap allocates in units of at most 32 bytes.
fn line_takes_no_spare_bytes(heap: &LocalHeap, log: &OriginLog<&LocalHeap>, query: &Query) -> bool {
    let before = heap.used();
    match log.answer_line(query) {
        Ok(line) => heap.used().saturating_sub(before) < line.len().saturating_add(32),
        Err(_) => false,
    }
}

// Site 16 queries the first of the longest entries, as many as this, or what comes after all of them.
fn query_for(rt: &impl Abort, count: u64) -> Query {
    let (first, last) = if count == 0 {
        (273, 300)
    } else {
        (1, count.saturating_mul(16))
    };
    Query::new(site(16), site(15), first, last).expect(rt, "a query")
}

// Whether the lines of answers of 0 to 17 entries, of which they have at most 16, take no spare bytes.
fn lines_take_no_spare_bytes(
    rt: &impl Abort,
    heap: &LocalHeap,
    log: &OriginLog<&LocalHeap>,
) -> bool {
    for count in 0..=17u64 {
        if !line_takes_no_spare_bytes(heap, log, &query_for(rt, count)) {
            return false;
        }
    }
    true
}

/// An answer takes the memory of copies of its entries, and its line that of its bytes. Both give it back.
#[test]
fn answers_take_no_spare_bytes(rt: HostRuntime) {
    let heap = LocalHeap::new(rt.alloc(), 1 << 18).expect(&rt, "a heap");
    let mut log = OriginLog::new(&heap, site(15));
    tell(&rt, &mut log, &longest_log(&rt, 17));
    let kept = heap.used();
    assert!(rt; answer_takes_no_spare_bytes(&heap, &log, &query_for(&rt, 17)));
    assert!(rt; lines_take_no_spare_bytes(&rt, &heap, &log));
    assert!(rt; heap.used() == kept);
}
