//! Streams that are cut into lines.

use super::texts::repeated;
use entry_codec::{Cut, LineCutter};
use rights_types::{MAX_LINE, OutOfMemory};
use std::alloc::Global;

/// More pushes than any stream here needs.
const MANY: usize = 100_000;

/// Takes the bytes, and appends each piece to the text: a line unchanged, and `long` for one that is
/// too long.
fn feed(cutter: &mut LineCutter, bytes: &[u8], text: &mut Vec<u8>) -> Result<(), OutOfMemory> {
    let mut rest = bytes;
    for _ in 0..MANY {
        if rest.is_empty() {
            return Ok(());
        }
        let count = cutter.push(rest);
        rest = &rest[count..];
        match cutter.next_line()? {
            Some(Cut::Line(line)) => text.extend_from_slice(&line)?,
            Some(Cut::Long) => text.extend_from_slice(b"long\n")?,
            None => {}
        }
    }
    Ok(())
}

// Whether these parts of a stream are cut into the lines of this text.
fn are_cut(cutter: &mut LineCutter, alloc: Global, parts: &[&[u8]], expected: &[u8]) -> bool {
    let mut text = Vec::new(alloc);
    for part in parts {
        if feed(cutter, part, &mut text).is_err() {
            return false;
        }
    }
    text.as_slice() == expected
}

// Whether the line `x`, first part and rest, which is one byte too long, is reported as too long.
fn is_too_long(cutter: &mut LineCutter, alloc: Global, front: &[u8], rest: &[u8]) -> bool {
    are_cut(cutter, alloc, &[b"x", front], b"")
        && cutter.unfinished()
        && are_cut(cutter, alloc, &[rest], b"long\n")
}

// Whether the cutter takes this line whole, and returns it.
fn is_given(cutter: &mut LineCutter, line: &[u8]) -> bool {
    if cutter.push(line) != line.len() {
        return false;
    }
    match cutter.next_line() {
        Ok(Some(Cut::Line(given))) => given.as_slice() == line,
        _ => false,
    }
}

// The first length at which the end of the line is not returned whole.
fn lost_length(cutter: &mut LineCutter, line: &[u8]) -> Option<usize> {
    for length in 1..=line.len() {
        if !is_given(cutter, &line[line.len() - length..]) {
            return Some(length);
        }
    }
    None
}

// Whether a byte more is too many, after each of the line's first bytes.
fn is_longest(cutter: &mut LineCutter, alloc: Global, line: &[u8]) -> bool {
    for count in 0..line.len().min(20) {
        let (front, rest) = line.split_at(count);
        if !is_too_long(cutter, alloc, front, rest) {
            return false;
        }
    }
    true
}

/// Lines of every length are returned whole, up to the longest, and one byte more is too many, in one push or in two.
#[test]
fn lines_of_every_length(rt: HostRuntime) {
    let line = repeated(rt.alloc(), b"", b"x", MAX_LINE - 1, b"\n").expect(&rt, "memory");
    let mut cutter = LineCutter::new(rt.alloc()).expect(&rt, "a cutter");
    let lost = lost_length(&mut cutter, &line);
    assert!(rt; lost.is_none(), "{lost:?}");
    assert!(rt; is_longest(&mut cutter, rt.alloc(), &line));
}

// Whether a new cutter cuts the parts of a stream into its lines.
fn are_cut_anew(alloc: Global, parts: &[&[u8]], stream: &[u8]) -> bool {
    match LineCutter::new(alloc) {
        Ok(mut cutter) => are_cut(&mut cutter, alloc, parts, stream),
        Err(OutOfMemory) => false,
    }
}

/// A stream is cut into the same lines however it arrives.
#[test]
fn stream_cut_at_every_byte(rt: HostRuntime) {
    let stream = b"\nE 1 0 1 I:5\n\n\nB 1 5\nwhatever this is\nA 1 2;E 1 0 1 I:5\nH 1\n".as_slice();
    for first in 0..stream.len() + 1 {
        for second in first..stream.len() + 1 {
            let parts = [&stream[..first], &stream[first..second], &stream[second..]];
            assert!(rt;
                are_cut_anew(rt.alloc(), &parts, stream),
                "cut at {first} and {second}"
            );
        }
    }
}
