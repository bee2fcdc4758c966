//! Logs of many lines.
use crate::tests::calls::{Put, lend};
use crate::tests::scripts::tell;
use linked_list_allocator::LocalHeap;
use origin_log::OriginLog;
use rights_types::Move;
use std::alloc::{AllocError, AllocGlobal, Allocator, Global};
use std::process::Abort;
use test_kit::{fill, is_entry, issue, site};

const ENTRIES: u64 = 3_000;

// The grants of the entry at an index, each with an ask number of its own.
fn put_grants(text: &mut String, index: u64) -> Put {
    let before = index.saturating_mul(16);
    for place in 1..=16u64 {
        let ask = before.saturating_add(place);
        fill(text, " G:2:1000000000:$1", &[ask])?;
    }
    Ok(())
}

// A command of an index, a number before an entry and its own, and the entry's moves.
fn put_row(script: &mut String, template: &str, index: u64) -> Put {
    let prev = index.saturating_mul(16);
    fill(script, template, &[index, prev, prev.saturating_add(16)])?;
    put_grants(script, index)
}

fn check_row(
    rt: &(impl Abort + AllocGlobal),
    log: &mut OriginLog,
    template: &str,
    index: u64,
    end: &str,
) {
    let mut script = String::new(rt.alloc());
    put_row(&mut script, template, index).expect(rt, "memory");
    fill(
        &mut script,
        end,
        &[index.saturating_add(1).saturating_mul(16)],
    )
    .expect(rt, "memory");
    tell(rt, log, &script);
}

/// Each of 3,000 entries of 16 grants is returned by its index and by its number.
#[test]
fn a_long_log_gives_each_entry_back(rt: HostRuntime) {
    let mut log: OriginLog = OriginLog::new(rt.alloc(), site(1));
    for index in 0..ENTRIES {
        check_row(&rt, &mut log, "append", index, " > $1");
    }
    for index in 0..ENTRIES {
        check_row(&rt, &mut log, "entry $1 > E 1 $2 $3", index, "");
        check_row(
            &rt,
            &mut log,
            "find Q 2 1 $3 $3 > found;E 1 $2 $3",
            index,
            "",
        );
    }
    tell(
        &rt,
        &mut log,
        "end > 3000 entries, the last 48000, a beat 48000",
    );
}

/// `I:n` with this number of digits.
fn issue_of(digits: usize) -> Move {
    match digits {
        1 => issue(1),
        2 => issue(10),
        3 => issue(100),
        _ => issue(1_000),
    }
}

/// The bytes of the last line.
fn last_len<A: Allocator + Copy>(log: &OriginLog<A>) -> usize {
    match log.line(log.len().saturating_sub(1)) {
        Some(line) => line.len(),
        None => 0,
    }
}

fn append(rt: &impl Abort, log: &mut OriginLog<&LocalHeap>, moves: &[Move]) {
    assert!(rt; matches!(lend(log, moves), Some(Ok(_))));
}

/// Appends short entries until less than 80 bytes of the first block are left, and returns how many.
fn nearly_fill(rt: &impl Abort, log: &mut OriginLog<&LocalHeap>) -> usize {
    let mut room = 65_536usize.saturating_sub(last_len(log));
    for _ in 0..10_000 {
        append(rt, log, &[issue(1)]);
        room = room.saturating_sub(last_len(log));
        if room < 80 {
            break;
        }
    }
    room
}

/// Moves whose line has this number of bytes more than that of one move.
fn longer_by(alloc: Global, more: usize) -> Result<Vec<Move>, AllocError> {
    let mut moves = Vec::new(alloc);
    // Each further move adds four bytes, and each further digit one.
    for _ in 0..more / 4 {
        moves.push(issue(1))?;
    }
    moves.push(issue_of(more % 4 + 1))?;
    Ok(moves)
}

// Appends these moves, and returns how many bytes the heap gave for that.
fn bytes_of(
    rt: &impl Abort,
    heap: &LocalHeap,
    log: &mut OriginLog<&LocalHeap>,
    moves: &[Move],
) -> usize {
    let used = heap.used();
    append(rt, log, moves);
    heap.used().saturating_sub(used)
}

/// Whether the entry at an index is read again whole.
fn gives(log: &OriginLog<&LocalHeap>, index: usize, prev: u64, moves: &[Move]) -> bool {
    match log.get(index) {
        Ok(Some(entry)) => is_entry(&entry, 1, prev, moves),
        _ => false,
    }
}

// Whether the log ends with an entry of these moves, and one that issues 7.
fn ends_with(log: &OriginLog<&LocalHeap>, moves: &[Move]) -> bool {
    let last = log.len().saturating_sub(1);
    let filled = log.end().saturating_sub(1);
    let before = filled.saturating_sub(moves.len() as u64);
    gives(log, last.saturating_sub(1), before, moves) && gives(log, last, filled, &[issue(7)])
}

// Whether the moves fill the rest of a block, of this many bytes, and the next line begins a block of 65,536 bytes.
fn fill_block(
    rt: &impl Abort,
    heap: &LocalHeap,
    log: &mut OriginLog<&LocalHeap>,
    moves: &[Move],
    room: usize,
) -> bool {
    bytes_of(rt, heap, log, moves) == 0
        && last_len(log) == room
        && bytes_of(rt, heap, log, &[issue(7)]) == 65_536
        && ends_with(log, moves)
        && bytes_of(rt, heap, log, &[issue(8)]) == 0
}

fn is_filled(
    rt: &(impl Abort + AllocGlobal),
    heap: &LocalHeap,
    log: &mut OriginLog<&LocalHeap>,
) -> bool {
    // The first append makes the draft, with room for the long line below.
    if bytes_of(rt, heap, log, &[issue(1)]) >= 70_000 {
        return false;
    }
    let room = nearly_fill(rt, log);
    let moves = longer_by(rt.alloc(), room.saturating_sub(last_len(log))).expect(rt, "memory");
    fill_block(rt, heap, log, &moves, room)
}

/// A line ends at the last byte of a block, and the next one begins another.
#[test]
fn a_block_is_filled_to_its_last_byte(rt: HostRuntime) {
    let heap = LocalHeap::new(rt.alloc(), 1 << 20).expect(&rt, "a heap");
    let mut log = OriginLog::new(&heap, site(1));
    assert!(rt; is_filled(&rt, &heap, &mut log));
}
