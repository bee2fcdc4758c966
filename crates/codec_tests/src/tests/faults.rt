//! Lines that are refused, and the causes: a field or a move, with its part and its place there, or the line as a whole.

use super::texts::repeated;
use super::values::put_read;
use std::alloc::AllocGlobal;
use std::process::Abort;

const FAULTS: [(&str, &str); 93] = [
    // One fault in each.
    ("E 1 0 01 I:5\n", "field 0 3"),
    ("E 1 0 2 I:5\n", "CountWrong"),
    ("E 1 0 2 C I:5\n", "move 0 4"),
    ("E 1 0 1 I:0\n", "move 0 4"),
    ("E 1 0 1 R:1:3\n", "move 0 4"),
    ("E 1 0 1 I:5 \n", "move 0 5"),
    ("E 9 0 1 I:5\n", "entry 9 0 1, issue 5"),
    ("E 17 0 1 I:5\n", "field 0 1"),
    ("A 1 2;E 2 0 1 I:5\n", "field 1 1"),
    ("X 1\n", "BadKind"),
    ("B 1 5 \n", "TrailingBytes"),
    ("B 1 5", "NoEnd"),
    // The last number of a log.
    (
        "E 1 999999999 1000000000 C\n",
        "entry 1 999999999 1000000000, close",
    ),
    ("E 1 1000000000 1000000001 C\n", "field 0 3"),
    // Lines that lack something, have something more, or are two in one.
    ("", "NoEnd"),
    ("\n", "BadKind"),
    ("E 1 0\n", "field 0 3"),
    ("E 1 0 1\n", "CountWrong"),
    ("E 1 0 1  I:5\n", "move 0 4"),
    ("E 1 0 1 G:2:5\n", "move 0 4"),
    ("B 1 5\r\n", "field 0 2"),
    ("B 1 5B 1 5\n", "field 0 2"),
    ("B 1 5\nB 1 6\n", "field 0 2"),
    ("B 1 1000000001\n", "field 0 2"),
    ("B 1 99999999999999999999999\n", "field 0 2"),
    ("Q 2 2 1 4\n", "field 0 2"),
    ("W 2 1 0 6\n", "field 0 3"),
    ("A 1 2;\n", "field 1 0"),
    // More parts or fields than the kind has, frontiers that do not fit their origin, moves that name it, and
    // closing moves that are not the last.
    ("B 1 5;E 1 0 1 I:5\n", "TrailingBytes"),
    ("E 1 0 1 I:5;\n", "TrailingBytes"),
    ("H 1 2\n", "TrailingBytes"),
    ("E 1 0 1 K:0:0\n", "entry 1 0 1, close at 2"),
    ("E 1 0 1 K:1:0\n", "move 0 4"),
    ("E 1 0 1 K:0\n", "move 0 4"),
    ("E 1 0 2 K:0:0 I:1\n", "move 0 4"),
    ("E 1 0 2 C C\n", "move 0 4"),
    ("E 1 0 2 C K:0:0\n", "move 0 4"),
    ("E 1 0 2 K:0:0 C\n", "move 0 4"),
    ("E 1 0 1 V:1:4\n", "move 0 4"),
    // The first fault in the order decides, and within it the lowest position.
    ("X", "NoEnd"),
    ("X 0 0 0 X;\n", "BadKind"),
    ("E 0 x 01 X;\n", "field 0 1"),
    ("E 1 x 01 X;\n", "field 0 2"),
    ("E 1 0 9 X Y;\n", "move 0 4"),
    ("E 1 0 9 I:1 Y;\n", "move 0 5"),
    ("E 1 0 9 I:1;\n", "CountWrong"),
    ("E 1 0 1 I:1;\n", "TrailingBytes"),
    ("Q 2 2 x 1 9\n", "field 0 2"),
    ("Q 2 1 x 1 9\n", "field 0 3"),
    ("B 1 5 6;\n", "TrailingBytes"),
    // The same for asks, denials and first lines.
    ("W 1 1 0 0 5;\n", "field 0 2"),
    ("W 1 2 0 0 5;\n", "field 0 3"),
    ("W 1 2 1 0 5;\n", "field 0 4"),
    ("W 1 2 1 1 5;\n", "TrailingBytes"),
    ("D 1 1 0;\n", "field 0 2"),
    ("D 1 2 0;\n", "field 0 3"),
    ("D 1 2 1;\n", "TrailingBytes"),
    ("H 0 1;\n", "field 0 1"),
    ("H 1;\n", "TrailingBytes"),
    // Part 0 of an answer comes first, then the parts in order, and the count of parts last.
    ("A 1 1;X\n", "field 0 2"),
    ("A 1 2 3;X\n", "TrailingBytes"),
    ("A 1 2;E 1 0 2 I:1;X\n", "CountWrong"),
    ("A 1 2;E 1 0 1 I:1;X\n", "field 2 0"),
    ("A 1 2;E 1 0 1 I:1;E 1 0 1 I:0\n", "move 2 4"),
    ("A 1 2; E 1 0 1 I:1\n", "field 1 0"),
    // Sites that must differ.
    ("Q 3 3 0 0\n", "field 0 2"),
    ("A 3 3\n", "field 0 2"),
    ("W 3 3 1 1\n", "field 0 2"),
    ("D 3 3 1\n", "field 0 2"),
    // Each fixed field missing, and below and above its range.
    ("E\n", "field 0 1"),
    ("Q\n", "field 0 1"),
    ("Q 1 2 3\n", "field 0 4"),
    ("Q 1 2 3 1000000001\n", "field 0 4"),
    ("A 1\n", "field 0 2"),
    ("A 1 17\n", "field 0 2"),
    ("B 0 5\n", "field 0 1"),
    ("B 1\n", "field 0 2"),
    ("W 1 2 1000000001 1\n", "field 0 3"),
    ("W 1 2 1 0\n", "field 0 4"),
    ("D 1 2 0\n", "field 0 3"),
    ("D 1 2\n", "field 0 3"),
    ("H\n", "field 0 1"),
    ("H 0\n", "field 0 1"),
    // No sign, no leading zero, no other byte, and no number that exceeds a word.
    ("B 1 +5\n", "field 0 2"),
    ("B 1 -0\n", "field 0 2"),
    ("B 1 00\n", "field 0 2"),
    ("B 1 05\n", "field 0 2"),
    ("B 01 5\n", "field 0 1"),
    ("B 1 5:\n", "field 0 2"),
    ("B 1 18446744073709551621\n", "field 0 2"),
    ("B 1 0000000000000000000000005\n", "field 0 2"),
    ("B 1 0\n", "beat 1 0"),
    ("B 1 1000000000\n", "beat 1 1000000000"),
];

/// The line is read as that.
pub(super) fn check(rt: &(impl Abort + AllocGlobal), text: &mut String, line: &[u8], wanted: &str) {
    text.clear();
    put_read(rt.alloc(), text, line).expect(rt, "memory");
    assert!(rt; text.as_str() == wanted, "{wanted}: {text}");
}

#[test]
fn faults(rt: HostRuntime) {
    let mut text = String::new(rt.alloc());
    for (line, wanted) in &FAULTS {
        check(&rt, &mut text, line.as_bytes(), wanted);
    }
    check(&rt, &mut text, b"\xff\n", "BadKind");
}

/// A text, another one so many times, an end, and the cause.
const TOO_MANY: [(&str, &str, usize, &str, &str); 6] = [
    ("E 1 0 17", " I:1", 17, "\n", "CountWrong"),
    ("A 1 2", ";E 1 0 1 I:1", 17, "\n", "CountWrong"),
    ("", "x", 16384, "\n", "TooLong"),
    ("", "x", 16385, "", "TooLong"),
    ("", "x", 16383, "\n", "BadKind"),
    // The parts of an answer are read before they are counted.
    ("A 1 2", ";E 1 0 1 I:1", 17, ";E 1 0 1 I:0\n", "move 18 4"),
];

/// Too many moves, entries or bytes. Sixteen moves or entries are not too many (`lines_again`).
#[test]
fn too_many(rt: HostRuntime) {
    let mut read = String::new(rt.alloc());
    for (front, text, times, end, wanted) in &TOO_MANY {
        let (front, text, end) = (front.as_bytes(), text.as_bytes(), end.as_bytes());
        let line = repeated(rt.alloc(), front, text, *times, end).expect(&rt, "memory");
        check(&rt, &mut read, &line, wanted);
    }
}
