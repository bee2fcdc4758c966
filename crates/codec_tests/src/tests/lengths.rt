//! Lines of every length, with ample memory: what is read or cut is what was written. A body that gives up at some
//! length can be proved, since it may always run out of memory; it is found here.

use super::texts::{Put, is_again, repeated};
use entry_codec::{read_line, write_entry, write_into, write_line};
use linked_list_allocator::LocalHeap;
use rights_types::{MAX_LINE, Message};
use std::alloc::{AllocError, Global};

// The text of a move of each kind, those that close after the others.
const MOVES: [&str; 7] = [
    " I:10", " S:9", " G:2:8:7", " R:3:6", " V:4:5", " C", " K:0:1:2",
];

// Adds an entry with this number of moves, of the kinds in turn; the last is of this kind.
fn add_entry(line: &mut Vec<u8>, count: usize, last: usize) -> Put {
    line.extend_from_slice(b"E 1 0 ")?;
    if count >= 10 {
        line.push(b'1')?;
    }
    line.push(b'0' + (count % 10) as u8)?;
    for index in 1..count {
        line.extend_from_slice(MOVES[index % 5].as_bytes())?;
    }
    line.extend_from_slice(MOVES[last % 7].as_bytes())
}

fn entry_line(alloc: Global, count: usize, last: usize) -> Result<Vec<u8>, AllocError> {
    let mut line = Vec::new(alloc);
    add_entry(&mut line, count, last)?;
    line.push(b'\n')?;
    Ok(line)
}

// Whether the message is an entry that is written as this.
fn is_entry_line(alloc: Global, message: &Message, line: &[u8]) -> bool {
    match message {
        Message::Push(entry) => {
            match write_entry(alloc, entry) {
                Ok(text) => text.as_slice() == line,
                Err(_) => false,
            }
        }
        _ => false,
    }
}

// Whether an entry with this number of moves is read, and written again unchanged.
fn is_entry_again(alloc: Global, count: usize, last: usize) -> bool {
    let Ok(line) = entry_line(alloc, count, last) else {
        return false;
    };
    match read_line(alloc, &line) {
        Ok(message) => is_entry_line(alloc, &message, &line),
        Err(_) => false,
    }
}

/// Entries of 1 to 16 moves, each ending in a move of each kind.
#[test]
fn entries_of_every_count(rt: HostRuntime) {
    for count in 1..=16usize {
        for last in 0..7usize {
            assert!(rt;
                is_entry_again(rt.alloc(), count, last),
                "{count} moves, the last of kind {last}"
            );
        }
    }
}

// An answer with entries of 1, 2 and more moves.
fn answer_line(alloc: Global, entries: usize) -> Result<Vec<u8>, AllocError> {
    let mut line = Vec::from_slice(alloc, b"A 1 2")?;
    for count in 1..=entries {
        line.push(b';')?;
        add_entry(&mut line, count, count)?;
    }
    line.push(b'\n')?;
    Ok(line)
}

/// Answers with 0 to 16 entries, which have 1, 2 and more moves.
#[test]
fn answers_of_every_count(rt: HostRuntime) {
    for entries in 0..=16usize {
        let line = answer_line(rt.alloc(), entries).expect(&rt, "memory");
        assert!(rt; is_again(rt.alloc(), &line), "{entries} entries");
    }
}

// Removes one zero from the last number that has more than one digit and ends in zero, if there is one.
fn shorten(line: &mut Vec<u8>) -> bool {
    let mut found = 0;
    for at in 1..line.len() {
        if line[at] == b'0' && line[at - 1].is_ascii_digit() {
            found = at;
        }
    }
    if found == 0 || found >= line.len() {
        return false;
    }
    line.remove(found);
    true
}

// Whether the message is written as this line, in no more memory than its length, to the heap's next 16 bytes.
fn is_written_within(heap: &LocalHeap, message: &Message, line: &[u8]) -> bool {
    match write_line(heap, message) {
        Ok(text) => heap.used() <= line.len() + 16 && text.as_slice() == line,
        Err(_) => false,
    }
}

// Whether it is written in this way after another line.
fn is_written_behind(alloc: Global, message: &Message, line: &[u8]) -> bool {
    let Ok(mut buffer) = Vec::from_slice(alloc, b"H 1\n") else {
        return false;
    };
    write_into(&mut buffer, message).is_ok()
        && buffer.len() == line.len() + 4
        && &buffer[4..] == line
}

// Whether the line is read, and written again unchanged.
fn is_kept(alloc: Global, heap: &LocalHeap, line: &[u8]) -> bool {
    match read_line(alloc, line) {
        Ok(message) => {
            is_written_within(heap, &message, line) && is_written_behind(alloc, &message, line)
        }
        Err(_) => false,
    }
}

// Checks the line and all that result from removing zeros, and returns the length of the first that is not kept, or
// else that of the last one.
fn first_lost(alloc: Global, heap: &LocalHeap, line: &mut Vec<u8>) -> Result<usize, usize> {
    for _ in 0..MAX_LINE {
        if !is_kept(alloc, heap, line) {
            return Err(line.len());
        }
        if !shorten(line) {
            return Ok(line.len());
        }
    }
    Err(line.len())
}

// The text of an entry whose numbers can be shortened.
const WIDE_ENTRY: &str =
    ";E 16 0 16 G:15:1000000000:1000000000 G:15:1000000000:1000000000 G:15:1000000000:1000000000 G:15:1000000000:1000000000 G:15:1000000000:1000000000 G:15:1000000000:1000000000 G:15:1000000000:1000000000 G:15:1000000000:1000000000 G:15:1000000000:1000000000 G:15:1000000000:1000000000 G:15:1000000000:1000000000 G:15:1000000000:1000000000 G:15:1000000000:1000000000 G:15:1000000000:1000000000 G:15:1000000000:1000000000 K:1000000000:1000000000:1000000000:1000000000:1000000000:1000000000:1000000000:1000000000:1000000000:1000000000:1000000000:1000000000:1000000000:1000000000:1000000000:0";

// Whether a text with another one repeated has that length, and is kept together with all that result from removing
// zeros, the last of which has that length.
fn are_kept(alloc: Global, heap: &LocalHeap, span: &Span) -> bool {
    let (front, text, times, longest, shortest) = *span;
    let Ok(mut line) = repeated(alloc, front.as_bytes(), text.as_bytes(), times, b"\n") else {
        return false;
    };
    line.len() == longest && first_lost(alloc, heap, &mut line) == Ok(shortest)
}

/// A text, another one that is repeated behind it, how often, and the lengths of the longest and of the shortest line.
type Span = (&'static str, &'static str, usize, usize, usize);

/// Answers of every length from 187 to 9,352 bytes, and entries of every length from 13 to 218 bytes.
const SPANS: [Span; 9] = [
    ("A 16 15", WIDE_ENTRY, 1, 592, 187),
    ("A 16 15", WIDE_ENTRY, 2, 1176, 366),
    ("A 16 15", WIDE_ENTRY, 4, 2344, 724),
    ("A 16 15", WIDE_ENTRY, 8, 4680, 1440),
    ("A 16 15", WIDE_ENTRY, 16, 9352, 2872),
    ("E 16 0 1", " I:1000000000", 1, 22, 13),
    ("E 16 0 4", " I:1000000000", 4, 61, 25),
    ("E 16 0 8", " I:1000000000", 8, 113, 41),
    ("E 16 0 16", " I:1000000000", 16, 218, 74),
];

#[test]
fn lines_of_every_length(rt: HostRuntime) {
    let heap = LocalHeap::new(rt.alloc(), MAX_LINE).expect(&rt, "a heap");
    for span in &SPANS {
        assert!(rt; are_kept(rt.alloc(), &heap, span), "{} bytes", span.3);
    }
}
