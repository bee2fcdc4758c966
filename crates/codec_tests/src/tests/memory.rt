//! Lines for which there is no memory to read or to write them, and how many requests they make.

use super::faults::check;
use super::texts::{answer_of, is_written, longest_entry};
use entry_codec::{LineError, read_line, write_entry, write_into, write_line};
use linked_list_allocator::LocalHeap;
use refusing_allocator::Refusing;
use rights_types::{Message, OutOfMemory};
use std::alloc::{AllocGlobal, Global};
use std::process::Abort;
use test_kit::requests_of;

/// Lines, and how many requests their messages make.
const LINES: [(&str, u64); 11] = [
    ("E 1 0 1 I:10\n", 1),
    ("E 1 0 3 I:10 S:4 R:2:3\n", 1),
    ("A 1 2;E 1 0 1 I:10\n", 2),
    ("A 1 2;E 1 0 1 I:10;E 1 1 4 S:1 S:1 S:1\n", 3),
    ("A 1 2;E 1 0 1 I:10;E 1 1 4 S:1 S:1 S:1;E 1 4 5 K:0:7\n", 4),
    ("Q 2 1 1 4\n", 0),
    ("A 1 2\n", 0),
    ("B 1 5\n", 0),
    ("W 2 1 1 6\n", 0),
    ("D 1 2 1\n", 0),
    ("H 1\n", 0),
];

/// A call that requests memory.
#[derive(Clone, Copy)]
enum Call {
    Read,
    Write,
    /// Writes the line after another one.
    WriteBehind,
    WriteEntry,
}

// Whether the call on this line has its result, or says that there is no memory for it. A fault is reported whether
// there is memory or not.
fn meets(alloc: Global, memory: &Refusing<Global>, call: Call, line: &[u8]) -> bool {
    match read_line(alloc, line) {
        Ok(message) => is_met(alloc, memory, call, &message, line),
        Err(fault) => read_line(memory, line).err() == Some(fault),
    }
}

fn is_met(
    alloc: Global,
    memory: &Refusing<Global>,
    call: Call,
    message: &Message,
    line: &[u8],
) -> bool {
    match call {
        Call::Read => is_read(alloc, memory, line),
        Call::Write => is_put(memory, write_line(memory, message), line),
        Call::WriteBehind => is_behind(memory, message, line),
        Call::WriteEntry => is_entry_put(memory, message, line),
    }
}

fn is_entry_put(memory: &Refusing<Global>, message: &Message, line: &[u8]) -> bool {
    match message {
        Message::Push(entry) => is_put(memory, write_entry(memory, entry), line),
        _ => false,
    }
}

fn is_read(alloc: Global, memory: &Refusing<Global>, line: &[u8]) -> bool {
    match read_line(memory, line) {
        Ok(message) => !memory.refused() && is_written(alloc, &message, line),
        Err(error) => memory.refused() && error == LineError::OutOfMemory,
    }
}

fn is_put(
    memory: &Refusing<Global>,
    text: Result<Vec<u8, &Refusing<Global>>, OutOfMemory>,
    line: &[u8],
) -> bool {
    match text {
        Ok(text) => !memory.refused() && text.as_slice() == line,
        Err(OutOfMemory) => memory.refused(),
    }
}

// The line before stays unchanged.
fn is_behind(memory: &Refusing<Global>, message: &Message, line: &[u8]) -> bool {
    let Ok(mut buffer) = Vec::from_slice(memory, b"H 1\n") else {
        return memory.refused();
    };
    let written = write_into(&mut buffer, message).is_ok();
    let wanted = if written { line } else { b"".as_slice() };
    written != memory.refused() && buffer.as_slice().strip_prefix(b"H 1\n") == Some(wanted)
}

// How many requests the call makes, if each refusal is reported.
fn requests(rt: &impl AllocGlobal, call: Call, line: &[u8]) -> Option<u64> {
    requests_of(rt.alloc(), |memory| meets(rt.alloc(), memory, call, line))
}

// A line is written with one request, so its buffer does not grow step by step.
fn check_requests(rt: &(impl Abort + AllocGlobal), line: &[u8], reading: u64) {
    assert!(rt; requests(rt, Call::Read, line) == Some(reading));
    assert!(rt; requests(rt, Call::Write, line) == Some(1));
    assert!(rt; requests(rt, Call::WriteBehind, line) == Some(2));
    if line.starts_with(b"E") {
        assert!(rt; requests(rt, Call::WriteEntry, line) == Some(1));
    }
}

/// The list of an answer's entries makes one request, and so does each entry.
#[test]
fn requests_of_lines(rt: HostRuntime) {
    for (line, count) in &LINES {
        check_requests(&rt, line.as_bytes(), *count);
    }
    let longest = longest_entry(rt.alloc()).expect(&rt, "memory");
    check_requests(&rt, &longest, 1);
    for entries in 1..=16u64 {
        let line = answer_of(rt.alloc(), entries).expect(&rt, "memory");
        check_requests(&rt, &line, entries.saturating_add(1));
    }
}

/// Lines with a fault after the parts that take memory.
const FAULTS: [(&str, &str); 4] = [
    ("E 1 0 1 I:5;\n", "TrailingBytes"),
    ("A 1 2;E 1 0 1 I:5;E 1 1 2 I:0\n", "move 2 4"),
    ("A 1 2;E 1 0 1 I:5;E 1 1 2 I:5;\n", "field 3 0"),
    ("A 1 2;E 1 0 1 I:5;E 1 1 3 I:5\n", "CountWrong"),
];

fn check_fault(rt: &(impl Abort + AllocGlobal), text: &mut String, line: &[u8], wanted: &str) {
    check(rt, text, line, wanted);
    assert!(rt; requests(rt, Call::Read, line).is_some(), "{wanted}");
}

/// A fault is reported whether there is memory or not, also the fault of too many entries.
#[test]
fn faults_come_before_want_of_memory(rt: HostRuntime) {
    let mut text = String::new(rt.alloc());
    for (line, wanted) in &FAULTS {
        check_fault(&rt, &mut text, line.as_bytes(), wanted);
    }
    let line = answer_of(rt.alloc(), 17).expect(&rt, "memory");
    check_fault(&rt, &mut text, &line, "CountWrong");
}

// Whether the line is read, and its message takes at most this number of bytes of the heap.
fn is_read_within(heap: &LocalHeap, line: &[u8], most: usize) -> bool {
    match read_line(heap, line) {
        Ok(_message) => heap.used() <= most,
        Err(_) => false,
    }
}

// An entry takes its moves, at most 80 bytes each, and an answer in addition room for 16 entries of 80 bytes.
fn are_read_within(heap: &LocalHeap, entry: &[u8], answer: &[u8]) -> bool {
    is_read_within(heap, b"E 1 0 1 I:10\n", 80)
        && is_read_within(heap, entry, 16 * 80)
        && is_read_within(heap, b"A 1 2;E 1 0 1 I:10\n", 16 * 80 + 80)
        && is_read_within(heap, answer, 16 * 80 + 16 * 16 * 80)
}

#[test]
fn bytes_of_messages(rt: HostRuntime) {
    let entry = longest_entry(rt.alloc()).expect(&rt, "memory");
    let answer = answer_of(rt.alloc(), 16).expect(&rt, "memory");
    let heap = LocalHeap::new(rt.alloc(), 32768).expect(&rt, "a heap");
    assert!(rt; are_read_within(&heap, &entry, &answer));
}
