//! Incoming lines, over connections that are cut.
ghost use Rattle.std.specs.Prelude.{◌≡◌, false, IfSome};
ghost use Rattle.thread_parts.specs.Items.{IsOpen};
ghost use Rattle.link_intake.specs.declared.desk_message.DeskMessage.{DeskMessage};

use crate::tests::links::hello::first_line;
use crate::tests::links::ports::{Lacking, Noting, link_in};
use crate::tests::links::streams::{Counted, Failing, Interrupted};
use crate::tests::outbox::finds_no_room;
use apply_lanes::{Intake, Item, Outlet};
use entry_codec::LineCutter;
use peer_links::{LinkFault, Port, read_link};
use rights_types::SiteId;
use std::alloc::{AllocError, Global};
use std::io::Read;
use std::sync::Wait;
use test_kit::FewAtATime;

/// The result of a connection over this reader.
fn connect<R: Wait, I: Read, P: Port>(
    rt: &R,
    alloc: Global,
    intake: &mut Intake,
    reader: &mut I,
    port: &mut P,
) -> Result<(), LinkFault>
    requires unfinished { intake.old.finished ≡ false }
    requires accepts { (m : DeskMessage) → P.accepts m }
    ensures { intake.new.finished ≡ false }
{
    let mut cutter = LineCutter::new(alloc)?;
    read_link(rt, reader, &mut cutter, intake, port)
}

/// Whether a connection over this reader has that result, and the port receives that.
fn comes<R: Wait, I: Read>(
    rt: &R,
    alloc: Global,
    intake: &mut Intake,
    reader: &mut I,
    came: Result<(), LinkFault>,
    told: &[u8],
) -> bool
    requires { intake.old.finished ≡ false }
    ensures { intake.new.finished ≡ false }
{
    let mut port = Noting {
        text: Vec::new(alloc),
    };
    connect(rt, alloc, intake, reader, &mut port) == came && port.text.as_slice() == told
}

/// Whether a connection with this text, of which each read returns at most `step` bytes, is read to its end, and the
/// port receives that.
pub(crate) fn is_told<R: Wait>(
    rt: &R,
    alloc: Global,
    intake: &mut Intake,
    text: &[u8],
    step: usize,
    told: &[u8],
) -> bool
    requires { intake.old.finished ≡ false }
    ensures { intake.new.finished ≡ false }
{
    let mut reader = FewAtATime { rest: text, step };
    comes(rt, alloc, intake, &mut reader, Ok(()), told)
}

/// `comes`, for a first connection.
fn comes_first<R: Wait, I: Read>(
    rt: &R,
    alloc: Global,
    reader: &mut I,
    came: Result<(), LinkFault>,
    told: &[u8],
) -> bool {
    let Ok((mut intake, _outlet)) = link_in(alloc) else {
        return false;
    };
    comes(rt, alloc, &mut intake, reader, came, told)
}

/// `is_told`, for a first connection.
pub(crate) fn is_told_first<R: Wait>(
    rt: &R,
    alloc: Global,
    text: &[u8],
    step: usize,
    told: &[u8],
) -> bool {
    let mut reader = FewAtATime { rest: text, step };
    comes_first(rt, alloc, &mut reader, Ok(()), told)
}

/// The own number of the next item, if it is an entry.
pub(crate) fn take_own<R: Wait>(rt: &R, outlet: &mut Outlet) -> Option<u64>
    requires { IsOpen outlet.old.taken }
    ensures { IfSome result (λ _. IsOpen outlet.new.taken) }
{
    match outlet.take(rt) {
        Ok(Item::Entry(entry)) => Some(entry.own()),
        Ok(Item::End) => None,
        Err(_) => None,
    }
}

/// The own numbers of the next three items, if they are entries.
fn take_three<R: Wait>(rt: &R, outlet: &mut Outlet) -> Option<[u64; 3]>
    requires { IsOpen outlet.old.taken }
{
    let first = take_own(rt, outlet)?;
    let second = take_own(rt, outlet)?;
    let third = take_own(rt, outlet)?;
    Some([first, second, third])
}

#[test]
fn a_line_that_is_cut_is_dropped(rt: HostRuntime) {
    let mut reader = Failing {
        rest: b"B 1 5\nE 1 0",
        step: 100,
    };
    let failed = Err(LinkFault::ReadFailed);
    let told = b"Q 2 1 1 5\nb0\n";
    assert!(rt; comes_first(&rt, rt.alloc(), &mut reader, failed, told));
    let mut reader = FewAtATime {
        rest: b"H 1\n",
        step: 100,
    };
    let read = first_line(rt.alloc(), &mut reader);
    assert_eq!(rt; read, Ok(SiteId::known(1)));
}

/// The own numbers of three entries: one connection asks for a gap, and the answer over the next one fills it.
fn take_answered<R: Wait>(rt: &R, alloc: Global) -> Option<[u64; 3]> {
    let Ok((mut intake, mut outlet)) = link_in(alloc) else {
        return None;
    };
    let later = b"E 1 4 5 S:2\nA 1 2;E 1";
    if !is_told(rt, alloc, &mut intake, later, 100, b"Q 2 1 1 4\nb1\n") {
        return None;
    }
    let answer = b"A 1 2;E 1 0 1 I:10;E 1 1 4 S:1 S:1 S:1\n";
    if !is_told(rt, alloc, &mut intake, answer, 7, b"n0\n") {
        return None;
    }
    take_three(rt, &mut outlet)
}

#[test]
fn an_answer_comes_over_another_connection(rt: HostRuntime) {
    assert_eq!(rt; take_answered(&rt, rt.alloc()), Some([1, 4, 5]));
}

/// All kinds of lines, and what a port receives for them.
const LINES: &[u8] = b"H 1\n\
E 1 0 1 I:5\n\
x\n\
B 2 9\n\
Q 1 2 1 4\n\
W 1 2 1 6\n\
D 1 2 1\n\
E 1 0 1 I:5\n\
E 1 2 3 S:1\n\
E 1 2 3 S:1\n\
B 1 3\n\
\n\
E 1 1 2 S:1\n\
E 1";

const TOLD: &[u8] = b"n0\n\
n0\n\
n0\n\
n0\n\
Q\nn0\n\
W\nn0\n\
D\nn0\n\
n0\n\
Q 2 1 2 2\nb1\n\
b1\n\
Q 2 1 2 2\nb1\n\
b1\n\
n0\n";

#[test]
fn all_kinds_of_lines(rt: HostRuntime) {
    for step in [1, 2, 3, 7, 30, 1000] {
        assert!(rt;
            is_told_first(&rt, rt.alloc(), LINES, step, TOLD),
            "at {step}"
        );
    }
}

/// A line that is too long, between two beats.
fn long_between_beats(alloc: Global) -> Result<Vec<u8>, AllocError> {
    let mut text = Vec::from_slice(alloc, b"B 1 1\n")?;
    text.extend_from_slice(&[b'x'; 50_000])?;
    text.extend_from_slice(b"\nB 1 2\n")?;
    Ok(text)
}

#[test]
fn a_long_line_is_skipped(rt: HostRuntime) {
    let text = long_between_beats(rt.alloc()).expect(&rt, "memory");
    let told = b"Q 2 1 1 1\nb0\nb0\nQ 2 1 1 2\nb0\n";
    for step in [1_000, 16_384, 20_000] {
        assert!(rt; is_told_first(&rt, rt.alloc(), &text, step, told));
    }
}

#[test]
fn a_read_that_is_interrupted_is_tried_again(rt: HostRuntime) {
    let mut reader = Interrupted {
        rest: LINES,
        step: 5,
        interrupted: false,
    };
    assert!(rt; comes_first(&rt, rt.alloc(), &mut reader, Ok(()), TOLD));
}

#[test]
fn what_came_is_taken_in_by_one_read(rt: HostRuntime) {
    let (mut intake, _outlet) = link_in(rt.alloc()).expect(&rt, "memory");
    let mut reader = Counted {
        rest: &[b'\n'; 16_384],
        reads: 0,
    };
    let read = connect(&rt, rt.alloc(), &mut intake, &mut reader, &mut Lacking);
    assert_eq!(rt; read, Ok(()));
    // The second read finds the end.
    assert_eq!(rt; reader.reads, 2);
}

#[test]
fn a_message_that_finds_no_memory_ends_the_connection(rt: HostRuntime) {
    let (mut intake, _outlet) = link_in(rt.alloc()).expect(&rt, "memory");
    let mut reader = FewAtATime {
        rest: b"B 1 0\nQ 1 2 1 4\nB 1 5\n",
        step: 100,
    };
    let read = connect(&rt, rt.alloc(), &mut intake, &mut reader, &mut Lacking);
    assert_eq!(rt; read, Err(LinkFault::OutOfMemory));
}

/// Whether a connection with entries ends because no applier takes them.
fn finds_lane_closed<R: Wait>(rt: &R, alloc: Global, intake: &mut Intake) -> bool
    requires { intake.old.finished ≡ false }
    ensures { intake.new.finished ≡ false }
{
    let mut reader = FewAtATime {
        rest: b"E 1 0 1 I:5\nE 1 1 2 I:5\n",
        step: 100,
    };
    let closed = Err(LinkFault::LaneClosed);
    comes(rt, alloc, intake, &mut reader, closed, b"n0\n")
}

#[test]
fn a_lane_that_is_closed_ends_the_connection(rt: HostRuntime) {
    let (mut intake, outlet) = link_in(rt.alloc()).expect(&rt, "memory");
    drop(outlet);
    assert!(rt; finds_lane_closed(&rt, rt.alloc(), &mut intake));
    assert!(rt; finds_lane_closed(&rt, rt.alloc(), &mut intake));
}

/// The own number of an entry of which a beat told: the link asks for it, and takes the answer.
fn take_asked_for<R: Wait>(rt: &R, alloc: Global) -> Option<u64> {
    let Ok((mut intake, mut outlet)) = link_in(alloc) else {
        return None;
    };
    if !is_told(rt, alloc, &mut intake, b"B 1 1\n", 100, b"Q 2 1 1 1\nb0\n") {
        return None;
    }
    if !is_told(rt, alloc, &mut intake, b"A 1 2;E 1 0 1 I:5\n", 100, b"n0\n") {
        return None;
    }
    take_own(rt, &mut outlet)
}

#[test]
fn a_line_that_found_no_room_is_asked_for(rt: HostRuntime) {
    // The push of entry 1 would have been this line.
    assert!(rt; finds_no_room(&rt, rt.alloc(), 1));
    assert_eq!(rt; take_asked_for(&rt, rt.alloc()), Some(1));
}
