//! Outgoing lines, to writers that are slow, full or fail.
ghost use Rattle.std.specs.Prelude.{◌≤◌};

use crate::tests::links::streams::{Counting, Feeding, Torn};
use crate::tests::outbox::{beat, long_line, put_beats};
use peer_links::{LinkFault, Outbox, write_link};
use refusing_allocator::Refusing;
use rights_types::OutOfMemory;
use std::alloc::{Allocator, Global};
use std::sync::Wait;
use test_kit::Slow;

/// An outbox that has ended, with the beats 0 to 4. `None` if it has no room for them.
fn five_beats<R: Wait>(rt: &R, alloc: Global) -> Option<Outbox> {
    let outbox = Outbox::new(alloc).ok()?;
    if !put_beats(rt, alloc, &outbox, 0, 5) {
        return None;
    }
    outbox.end(rt);
    Some(outbox)
}

const FIVE_BEATS: &[u8] = b"B 1 0\nB 1 1\nB 1 2\nB 1 3\nB 1 4\n";

/// Whether a writer that takes at most `step` bytes at a time gets this text until the outbox's end.
fn gives<R: Wait>(rt: &R, alloc: Global, outbox: &Outbox, step: usize, text: &[u8]) -> bool {
    let mut writer = Slow {
        text: Vec::new(alloc),
        step,
    };
    write_link(rt, &mut writer, &mut &*outbox).is_ok() && writer.text.as_slice() == text
}

/// Whether a writer that fails after this number of bytes gets this text, and the failure is reported.
fn is_torn<R: Wait>(rt: &R, alloc: Global, outbox: &Outbox, room: usize, text: &[u8]) -> bool {
    let mut torn = Torn {
        text: Vec::new(alloc),
        room,
    };
    write_link(rt, &mut torn, &mut &*outbox) == Err(LinkFault::WriteFailed)
        && torn.text.as_slice() == text
}

/// How many writes of at most `step` bytes write this text until the outbox's end, if each is interrupted
/// first. `None` if another text is written.
fn writes_of<R: Wait>(
    rt: &R,
    alloc: Global,
    outbox: &Outbox,
    step: usize,
    text: &[u8],
) -> Option<u64> {
    let mut counting = Counting {
        writer: Slow {
            text: Vec::new(alloc),
            step,
        },
        writes: 0,
        interrupted: false,
    };
    let written = write_link(rt, &mut counting, &mut &*outbox);
    if written.is_ok() && counting.writer.text.as_slice() == text {
        Some(counting.writes)
    } else {
        None
    }
}

#[test]
fn a_slow_writer_gets_the_same(rt: HostRuntime) {
    for step in [1, 2, 5, 6, 7, 29, 30, 31] {
        let outbox = five_beats(&rt, rt.alloc()).expect(&rt, "five beats");
        assert!(rt;
            gives(&rt, rt.alloc(), &outbox, step, FIVE_BEATS),
            "at {step}"
        );
    }
}

#[test]
fn a_torn_line_is_lost(rt: HostRuntime) {
    for (room, rest) in [
        (0, 6),
        (1, 6),
        (5, 6),
        (6, 12),
        (9, 12),
        (11, 12),
        (12, 18),
        (24, 30),
        (29, 30),
    ] {
        let outbox = five_beats(&rt, rt.alloc()).expect(&rt, "five beats");
        let front = &FIVE_BEATS[..room];
        assert!(rt; is_torn(&rt, rt.alloc(), &outbox, room, front), "at {room}");
        let rest = &FIVE_BEATS[rest..];
        assert!(rt; gives(&rt, rt.alloc(), &outbox, 100, rest), "at {room}");
    }
}

#[test]
fn a_writer_that_takes_no_byte(rt: HostRuntime) {
    let outbox = five_beats(&rt, rt.alloc()).expect(&rt, "five beats");
    let mut writer = Slow {
        text: Vec::new(rt.alloc()),
        step: 0,
    };
    let written = write_link(&rt, &mut writer, &mut &outbox);
    assert_eq!(rt; written, Err(LinkFault::WriteFailed));
}

#[test]
fn lines_that_wait_go_by_one_write(rt: HostRuntime) {
    let outbox = five_beats(&rt, rt.alloc()).expect(&rt, "five beats");
    let writes = writes_of(&rt, rt.alloc(), &outbox, 1000, FIVE_BEATS);
    assert_eq!(rt; writes, Some(1));
}

#[test]
fn a_write_that_is_interrupted_goes_on(rt: HostRuntime) {
    let outbox = five_beats(&rt, rt.alloc()).expect(&rt, "five beats");
    let writes = writes_of(&rt, rt.alloc(), &outbox, 4, FIVE_BEATS);
    assert_eq!(rt; writes, Some(8));
}

/// The beats that are written one at a time, up to this number, each put while the one before it is written.
fn beats_one_by_one<R: Wait>(rt: &R, alloc: Global, end: u64) -> Option<Vec<u8>> {
    let outbox = Outbox::new(alloc).ok()?;
    if !put_beats(rt, alloc, &outbox, 0, 1) {
        return None;
    }
    let mut writer = Feeding {
        rt,
        alloc,
        outbox: &outbox,
        next: 1,
        end,
        text: Vec::new(alloc),
    };
    write_link(rt, &mut writer, &mut &outbox).ok()?;
    Some(writer.text)
}

/// The beats with the numbers below this one.
fn beats_below(alloc: Global, end: u64) -> Result<Vec<u8>, OutOfMemory> {
    let mut text = Vec::new(alloc);
    for number in 0..end {
        text.extend_from_slice(&beat(alloc, number)?)?;
    }
    Ok(text)
}

#[test]
fn many_writes_over_one_link(rt: HostRuntime) {
    let wanted = beats_below(rt.alloc(), 2_000).expect(&rt, "memory");
    let written = beats_one_by_one(&rt, rt.alloc(), 2_000).expect(&rt, "all is written");
    assert!(rt; written == wanted);
}

/// Puts a line of this number of bytes, adds it to the text, and returns whether there was room for it.
fn put_long<R: Wait>(
    rt: &R,
    alloc: Global,
    outbox: &Outbox,
    text: &mut Vec<u8>,
    length: usize,
) -> bool
    requires { 1 ≤ length }
{
    let Ok(line) = long_line(alloc, length) else {
        return false;
    };
    text.extend_from_slice(&line).is_ok() && outbox.put(rt, line).is_ok()
}

#[test]
fn lines_of_any_length_go(rt: HostRuntime) {
    let outbox = Outbox::new(rt.alloc()).expect(&rt, "memory");
    let mut text = Vec::new(rt.alloc());
    for length in [
        1, 16_384, 16_384, 1, 32_767, 1, 32_768, 32_769, 2, 100_000, 5,
    ] {
        assert!(rt; put_long(&rt, rt.alloc(), &outbox, &mut text, length));
    }
    outbox.end(&rt);
    let writes = writes_of(&rt, rt.alloc(), &outbox, 100_000, &text);
    assert_eq!(rt; writes, Some(8));
}

/// An outbox that has ended, with a line of 40,000 bytes and one of 3. `None` if it has no room for them.
fn long_and_short<R: Wait>(rt: &R, alloc: Global) -> Option<Outbox> {
    let outbox = Outbox::new(alloc).ok()?;
    outbox.put(rt, long_line(alloc, 40_000).ok()?).ok()?;
    outbox.put(rt, long_line(alloc, 3).ok()?).ok()?;
    outbox.end(rt);
    Some(outbox)
}

#[test]
fn a_torn_line_without_room_is_lost(rt: HostRuntime) {
    let outbox = long_and_short(&rt, rt.alloc()).expect(&rt, "two lines");
    let front = [b'x'; 39_999];
    assert!(rt; is_torn(&rt, rt.alloc(), &outbox, 39_999, &front));
    assert!(rt; gives(&rt, rt.alloc(), &outbox, 100, b"xx\n"));
}

/// Whether everything that waits in an outbox is written.
fn is_emptied<R: Wait, A: Allocator>(rt: &R, alloc: Global, outbox: &Outbox<A>) -> bool {
    let mut writer = Slow {
        text: Vec::new(alloc),
        step: 100,
    };
    write_link(rt, &mut writer, &mut &*outbox).is_ok()
}

/// Whether 200 beats are put and written, if the beats and the outbox take this memory.
fn are_written<R: Wait>(rt: &R, alloc: Global, memory: &Refusing<Global>) -> bool {
    let Ok(outbox) = Outbox::new(memory) else {
        return false;
    };
    let put = put_beats(rt, memory, &outbox, 0, 200);
    outbox.end(rt);
    put && is_emptied(rt, alloc, &outbox)
}

#[test]
fn no_memory_is_taken_by_writing(rt: HostRuntime) {
    let memory = Refusing::new(rt.alloc(), 1 + 200);
    assert!(rt; are_written(&rt, rt.alloc(), &memory));
    assert!(rt; !memory.refused());
}
