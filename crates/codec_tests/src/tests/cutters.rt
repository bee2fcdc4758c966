//! Scripts of calls of a cutter: each line is a command, followed by ` > ` and the reply to it. `$` stands for a line
//! feed.

use super::texts::Put;
use entry_codec::{Cut, LineCutter};
use linked_list_allocator::LocalHeap;
use refusing_allocator::Refusing;
use rights_types::OutOfMemory;
use std::alloc::{AllocGlobal, Allocator, Global};
use std::process::Abort;
use std::str;
use test_kit::requests_of;

// Takes these bytes, and says how many.
fn take<A: Allocator + Copy>(
    alloc: Global,
    text: &mut String,
    cutter: &mut LineCutter<A>,
    words: &str,
) -> Put {
    let mut bytes = Vec::from_slice(alloc, words.as_bytes())?;
    for byte in bytes.iter_mut() {
        if *byte == b'$' {
            *byte = b'\n';
        }
    }
    write!(text, "{}", cutter.push(&bytes))
}

// Takes this number of bytes, none of them a line feed, one by one, and says how many. Each leaves a line unfinished.
fn fill<A: Allocator + Copy>(text: &mut String, cutter: &mut LineCutter<A>, count: usize) -> Put {
    let mut taken = 0u64;
    for _ in 0..count {
        if cutter.push(b"x") == 1 && cutter.unfinished() {
            taken = taken.saturating_add(1);
        }
    }
    write!(text, "{taken}")
}

fn next<A: Allocator + Copy>(text: &mut String, cutter: &mut LineCutter<A>) -> Put {
    match cutter.next_line() {
        Ok(Some(Cut::Line(line))) => put_line(text, &line),
        Ok(Some(Cut::Long)) => text.push_str("too long"),
        Ok(None) => text.push_str("nothing"),
        Err(OutOfMemory) => text.push_str(NO_MEMORY),
    }
}

const NO_MEMORY: &str = "error OutOfMemory";

// Adds a short line, or the length of a long one.
fn put_line(text: &mut String, line: &[u8]) -> Put {
    if line.len() > 100 {
        return write!(text, "{} bytes", line.len());
    }
    let line = str::from_utf8(line).unwrap_or("");
    text.push_str(line.strip_suffix('\n').unwrap_or("no line"))
}

// Makes the reply to a command.
fn put_reply<A: Allocator + Copy>(
    alloc: Global,
    text: &mut String,
    cutter: &mut LineCutter<A>,
    command: &str,
) -> Put {
    let (name, words) = command.split_once(' ').unwrap_or((command, ""));
    text.clear();
    if name == "take" {
        return take(alloc, text, cutter, words);
    }
    if name == "fill" {
        return fill(text, cutter, words.parse().unwrap_or(0));
    }
    if name == "next" {
        return next(text, cutter);
    }
    text.push_str(if cutter.unfinished() {
        "unfinished"
    } else {
        "finished"
    })
}

fn say<A: Allocator + Copy>(
    rt: &(impl Abort + AllocGlobal),
    text: &mut String,
    cutter: &mut LineCutter<A>,
    command: &str,
) {
    put_reply(rt.alloc(), text, cutter, command).expect(rt, "memory");
}

fn check(rt: &impl Abort, command: &str, text: &str, wanted: &str) {
    assert!(rt; text == wanted, "{command}: {text}");
}

// The cutter takes nothing, and no line is unfinished.
fn check_waiting<A: Allocator + Copy>(
    rt: &(impl Abort + AllocGlobal),
    text: &mut String,
    cutter: &mut LineCutter<A>,
) {
    say(rt, text, cutter, "take B");
    check(rt, "take B", text, "0");
    say(rt, text, cutter, "state");
    check(rt, "state", text, "finished");
}

// The command of a script's line, and the reply to it.
fn row(line: &str) -> (&str, &str) {
    line.split_once(" > ").unwrap_or((line, ""))
}

// A line for which memory is refused still waits, and is returned when the cutter is asked again.
fn step<A: Allocator>(
    rt: &(impl Abort + AllocGlobal),
    memory: &Refusing<A>,
    text: &mut String,
    cutter: &mut LineCutter<&Refusing<A>>,
    line: &str,
) {
    let (command, wanted) = row(line);
    let refused = memory.refused();
    say(rt, text, cutter, command);
    if memory.refused() != refused {
        check(rt, command, text, NO_MEMORY);
        check_waiting(rt, text, cutter);
        say(rt, text, cutter, command);
    }
    check(rt, command, text, wanted);
}

// Whether a cutter is made, and meets the script, or lacks memory as it should.
fn play<A: Allocator>(rt: &(impl Abort + AllocGlobal), memory: &Refusing<A>, script: &str) -> bool {
    let Ok(mut cutter) = LineCutter::new(memory) else {
        return memory.refused();
    };
    let mut text = String::new(rt.alloc());
    for line in script.lines() {
        step(rt, memory, &mut text, &mut cutter, line);
    }
    true
}

/// Scripts, and how many requests the cutter makes: one for its buffer, and one for each line that it returns. The bytes
/// that it takes need none, and to say that a line was too long neither.
const SCRIPTS: [(&str, u64); 6] = [
    // A line that arrives in two parts, and the first byte of the next one.
    (
        "\
take B 1 > 3
next > nothing
state > unfinished
take  5$B > 3
take B > 0
state > finished
next > B 1 5
state > finished
take B > 1
state > unfinished",
        2,
    ),
    // A line that is one byte too long, and the line after it.
    (
        "\
fill 16384 > 16384
state > unfinished
take $ > 1
state > finished
next > too long
take H 1$ > 4
next > H 1",
        2,
    ),
    ("fill 16384 > 16384", 1),
    ("fill 16384 > 16384\ntake $ > 1\nnext > too long", 1),
    // An unfinished line is unfinished even if its bytes were dropped.
    ("fill 20000 > 20000\nnext > nothing\nstate > unfinished", 1),
    (
        "take B 1 5$B > 6\nnext > B 1 5\ntake H 1$ > 4\nnext > H 1",
        3,
    ),
];

#[test]
fn cutters(rt: HostRuntime) {
    for (script, wanted) in &SCRIPTS {
        let requests = requests_of(rt.alloc(), |memory| play(&rt, memory, script));
        assert!(rt; requests == Some(*wanted), "{script}");
    }
}

/// Heaps of so many bytes on which scripts are played: a cutter's buffer has the size of the longest line, and a line
/// that it returns takes its own length, to the heap's next 16 bytes. No more are held at any moment.
const HEAPS: [(usize, &str); 3] = [
    (16384, "fill 16384 > 16384"),
    (16400, "take B 1 5$ > 6\nnext > B 1 5"),
    (32768, "fill 16383 > 16383\ntake $ > 1\nnext > 16384 bytes"),
];

#[test]
fn bytes_of_cutters(rt: HostRuntime) {
    for (bytes, script) in &HEAPS {
        let heap = LocalHeap::new(rt.alloc(), *bytes).expect(&rt, "a heap");
        let memory = Refusing::new(&heap, u64::MAX);
        assert!(rt; play(&rt, &memory, script), "{bytes} bytes");
    }
}
