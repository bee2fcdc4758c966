//! Messages that are read from their lines, and written again.

use super::texts::{answer_of, is_again, is_written, longest_entry, repeated};
use super::values::{put_field, put_read};
use entry_codec::{read_line, write_into};
use rights_types::Message;
use std::alloc::Global;

const AGAIN: [&str; 20] = [
    "E 1 0 3 I:10 S:4 R:2:3\n",
    // A take-back may come before other moves.
    "E 1 0 2 V:2:5 I:1\n",
    // The least values.
    "E 1 0 1 C\n",
    "E 1 0 7 I:1 S:1 G:2:1:1 R:2:1 V:2:1 V:3:1 K:0:0\n",
    "Q 1 2 0 0\n",
    "A 1 2\n",
    "A 1 2;E 1 0 1 C\n",
    "B 1 0\n",
    "W 1 2 1 1\n",
    "D 1 2 1\n",
    "H 1\n",
    // The greatest values.
    "E 16 999999999 1000000000 I:1000000000\n",
    "E 16 999999994 1000000000 I:1000000000 S:1000000000 G:15:1000000000:1000000000 R:15:1000000000 V:15:1000000000000000000 K:1000000000:1000000000:1000000000:1000000000:1000000000:1000000000:1000000000:1000000000:1000000000:1000000000:1000000000:1000000000:1000000000:1000000000:1000000000:0\n",
    "Q 16 15 1000000000 1000000000\n",
    "B 16 1000000000\n",
    "W 16 15 1000000000 1000000000\n",
    "D 16 15 1000000000\n",
    "H 16\n",
    // Sixteen moves, and sixteen entries.
    "E 1 0 16 I:1 I:1 I:1 I:1 I:1 I:1 I:1 I:1 I:1 I:1 I:1 I:1 I:1 I:1 I:1 I:1\n",
    "A 1 2;E 1 0 1 I:1;E 1 0 1 I:1;E 1 0 1 I:1;E 1 0 1 I:1;E 1 0 1 I:1;E 1 0 1 I:1;E 1 0 1 I:1;E 1 0 1 I:1;E 1 0 1 I:1;E 1 0 1 I:1;E 1 0 1 I:1;E 1 0 1 I:1;E 1 0 1 I:1;E 1 0 1 I:1;E 1 0 1 I:1;E 1 0 1 I:1\n",
];

#[test]
fn lines_again(rt: HostRuntime) {
    for line in &AGAIN {
        assert!(rt; is_again(rt.alloc(), line.as_bytes()), "{line}");
    }
}

/// Lines, and the values of their messages.
const VALUES: [(&str, &str); 7] = [
    ("Q 2 1 3 4\n", "query 2 1 3 4"),
    ("B 2 3\n", "beat 2 3"),
    ("W 2 1 3 4\n", "ask 2 1 3 4"),
    ("D 2 1 3\n", "denial 2 1 3"),
    ("H 2\n", "hello 2"),
    ("E 2 3 5 I:7 S:8\n", "entry 2 3 5, issue 7, spend 8"),
    (
        "A 2 1;E 2 3 5 I:7 S:8\n",
        "answer 2 1; entry 2 3 5, issue 7, spend 8",
    ),
];

#[test]
fn values(rt: HostRuntime) {
    let mut text = String::new(rt.alloc());
    for (line, wanted) in &VALUES {
        text.clear();
        put_read(rt.alloc(), &mut text, line.as_bytes()).expect(&rt, "memory");
        assert!(rt; text.as_str() == *wanted, "{line}: {text}");
    }
}

/// Fields, and the moves that they spell.
const FIELDS: [(&str, &str); 20] = [
    ("I:4", "issue 4"),
    ("S:4", "spend 4"),
    ("G:2:4:5", "grant 2 4 5"),
    ("R:2:4", "give 2 4"),
    ("C", "close"),
    ("V:2:4", "take back 2 4"),
    ("K:1:0", "close at 2"),
    ("V:2:1000000000000000000", "take back 2 1000000000000000000"),
    ("K:0:0:0:0:0:0:0:0:0:0:0:0:0:0:0:0", "close at 16"),
    ("V:2:1000000000000000001", "no move"),
    ("R:2:1000000001", "no move"),
    ("G:17:4:5", "no move"),
    ("G:2:4", "no move"),
    ("R:2:4:5", "no move"),
    ("K:0", "no move"),
    ("K:0:0:0:0:0:0:0:0:0:0:0:0:0:0:0:0:0", "no move"),
    ("C:", "no move"),
    ("I", "no move"),
    ("i:4", "no move"),
    ("", "no move"),
];

#[test]
fn fields(rt: HostRuntime) {
    let mut text = String::new(rt.alloc());
    for (field, wanted) in &FIELDS {
        text.clear();
        put_field(&mut text, field).expect(&rt, "memory");
        assert!(rt; text.as_str() == *wanted, "{field}: {text}");
    }
}

// Whether the line is that of an entry with sixteen moves.
fn has_moves(alloc: Global, line: &[u8]) -> bool {
    match read_line(alloc, line) {
        Ok(message) => matches!(&message, Message::Push(entry) if entry.moves().len() == 16),
        Err(_) => false,
    }
}

/// The longest entry has sixteen moves, and the longest line far fewer bytes than a line may have.
#[test]
fn longest_lines(rt: HostRuntime) {
    let entry = longest_entry(rt.alloc()).expect(&rt, "memory");
    assert!(rt; has_moves(rt.alloc(), &entry) && is_again(rt.alloc(), &entry));
    let line = answer_of(rt.alloc(), 16).expect(&rt, "memory");
    assert!(rt; line.len() == 9608 && is_again(rt.alloc(), &line));
}

/// The lengths of the prefixes of the longest line that are lines once a line feed is added: `A 16 1`, `A 16 15`, and
/// those that end with an entry.
const ENDED: [usize; 18] = [
    7, 8, 608, 1208, 1808, 2408, 3008, 3608, 4208, 4808, 5408, 6008, 6608, 7208, 7808, 8408, 9008,
    9608,
];

/// Whether the prefix with a line feed is a line, or not one, as expected. If it is, it is written again unchanged.
fn is_line_if(alloc: Global, is_line: bool, front: &[u8]) -> bool {
    let Ok(text) = repeated(alloc, front, b"", 0, b"\n") else {
        return false;
    };
    match read_line(alloc, &text) {
        Ok(message) => is_line && is_written(alloc, &message, &text),
        Err(_) => !is_line,
    }
}

// The length of the first proper prefix that is a line, or with a line feed is one or not as it should not.
fn wrong_front(alloc: Global, line: &[u8]) -> Option<usize> {
    for count in 0..line.len() {
        let front = &line[..count];
        let is_line = ENDED.contains(&(count + 1));
        if read_line(alloc, front).is_ok() || !is_line_if(alloc, is_line, front) {
            return Some(count);
        }
    }
    None
}

/// No proper prefix of a long line is a line, unless a line feed is added.
#[test]
fn fronts_of_the_longest_line(rt: HostRuntime) {
    let line = answer_of(rt.alloc(), 16).expect(&rt, "memory");
    let wrong = wrong_front(rt.alloc(), &line);
    assert!(rt; wrong.is_none(), "{wrong:?}");
}

/// Writes the message of the line after what is there, and returns whether it could.
fn adds(alloc: Global, buffer: &mut Vec<u8>, line: &[u8]) -> bool {
    match read_line(alloc, line) {
        Ok(message) => write_into(buffer, &message).is_ok(),
        Err(_) => false,
    }
}

fn are_added(alloc: Global, buffer: &mut Vec<u8>, long: &[u8]) -> bool {
    let short = b"H 1\nB 1 5\n".as_slice();
    adds(alloc, buffer, b"H 1\n")
        && adds(alloc, buffer, b"B 1 5\n")
        && buffer.as_slice() == short
        && adds(alloc, buffer, long)
        && buffer.as_slice().strip_prefix(short) == Some(long)
}

#[test]
fn lines_behind_each_other(rt: HostRuntime) {
    let long = answer_of(rt.alloc(), 16).expect(&rt, "memory");
    let mut buffer = Vec::new(rt.alloc());
    assert!(rt; are_added(rt.alloc(), &mut buffer, &long));
}
