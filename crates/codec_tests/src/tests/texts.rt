//! Lines with many parts or fields, and lines that are read and written again.

use entry_codec::{read_line, write_line};
use rights_types::Message;
use std::alloc::{AllocError, Allocator, Global};

/// Whether the host had memory for a text.
pub(super) type Put = Result<(), AllocError>;

/// Adds the text of the longest entry: 15 of the longest grants, and the longest close.
fn add_longest_entry(text: &mut Vec<u8>) -> Put {
    text.extend_from_slice(b"E 16 999999984 1000000000")?;
    for _ in 0..15usize {
        text.extend_from_slice(b" G:15:1000000000:1000000000")?;
    }
    text.extend_from_slice(b" K")?;
    for _ in 0..15usize {
        text.extend_from_slice(b":1000000000")?;
    }
    text.extend_from_slice(b":0")
}

/// The longest line of an entry.
pub(super) fn longest_entry(alloc: Global) -> Result<Vec<u8>, AllocError> {
    let mut line = Vec::new(alloc);
    add_longest_entry(&mut line)?;
    line.push(b'\n')?;
    Ok(line)
}

/// The line of an answer with this number of the longest entries.
pub(super) fn answer_of(alloc: Global, entries: u64) -> Result<Vec<u8>, AllocError> {
    let mut line = Vec::from_slice(alloc, b"A 16 15")?;
    for _ in 0..entries {
        line.push(b';')?;
        add_longest_entry(&mut line)?;
    }
    line.push(b'\n')?;
    Ok(line)
}

/// A text, another one repeated, and an end.
pub(super) fn repeated(
    alloc: Global,
    front: &[u8],
    text: &[u8],
    times: usize,
    end: &[u8],
) -> Result<Vec<u8>, AllocError> {
    let mut line = Vec::from_slice(alloc, front)?;
    for _ in 0..times {
        line.extend_from_slice(text)?;
    }
    line.extend_from_slice(end)?;
    Ok(line)
}

/// Whether this is the line of the message.
pub(super) fn is_written<A: Allocator>(alloc: Global, message: &Message<A>, line: &[u8]) -> bool {
    match write_line(alloc, message) {
        Ok(text) => text.as_slice() == line,
        Err(_) => false,
    }
}

/// Whether the line is read, and written again unchanged.
pub(super) fn is_again(alloc: Global, line: &[u8]) -> bool {
    match read_line(alloc, line) {
        Ok(message) => is_written(alloc, &message, line),
        Err(_) => false,
    }
}
