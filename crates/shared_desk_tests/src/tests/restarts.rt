//! A desk that is made again under its lock: a site's own records by a seat, those of its peer by an applier.
ghost use Rattle.std.specs.Prelude.{◌≡◌};
ghost use Rattle.rights_types.specs.Values.{value_of};
ghost use Rattle.entry_codec.specs.Spelling.{text_of};

use crate::tests::desks::{alone, applier_at, report_of, seat_at, with_applied, with_seat};
use crate::tests::links::{feed, link};
use crate::tests::scenes::{Host, Scene, play};
use apply_lanes::{Applied, Applier, DeskNames, Free, Report, Seat, SharedDesk, StepError};
use entry_codec::{read_line, read_text};
use rights_types::{Ask, Message, SiteId};
use site_core::{DeskError, ReplayError};
use std::alloc::Allocator;

// What the site wrote and asked before it applied its peer's gift.
const BEFORE: [&str; 3] = ["E 1 0 1 I:10\n", "W 1 2 1 5\n", "E 1 1 3 S:4 R:2:6\n"];

const GIFT: &str = "E 2 0 2 I:20 R:1:7\n";

// As many moves, one of which is another.
const OTHER: &str = "E 2 0 2 I:20 R:1:8\n";

// What it wrote afterwards.
const AFTER: [&str; 2] = ["E 1 3 4 S:5\n", "E 1 4 6 S:1 I:2\n"];

// The desk replays the record of that line.
fn replay<D: DeskNames, R: Host>(
    rt: &R,
    desk: &SharedDesk<D>,
    seat: &mut Seat<D>,
    line: &str,
) -> Result<(), ReplayError> {
    let text = line.strip_suffix("\n").unwrap_or(line).as_bytes();
    match read_text(rt.alloc(), text) {
        Ok(message) => replay_message(rt, desk, seat, &message, text),
        Err(_) => Err(ReplayError::NoRecord),
    }
}

fn replay_message<D: DeskNames, R: Host, A: Allocator>(
    rt: &R,
    desk: &SharedDesk<D>,
    seat: &mut Seat<D>,
    message: &Message<A>,
    text: &[u8],
) -> Result<(), ReplayError>
    requires { text.now ≡ text_of (value_of message.now) }
{
    match message {
        Message::Push(entry) => desk.lock(rt).replay_own(seat, entry, text),
        Message::Ask(ask) => replay_ask(rt, desk, ask),
        _ => Err(ReplayError::NoRecord),
    }
}

fn replay_ask<D: DeskNames, R: Host>(
    rt: &R,
    desk: &SharedDesk<D>,
    ask: &Ask,
) -> Result<(), ReplayError> {
    desk.lock(rt).replay_ask(ask)
}

fn replay_all<D: DeskNames, R: Host>(
    rt: &R,
    desk: &SharedDesk<D>,
    seat: &mut Seat<D>,
    lines: &[&str],
) {
    for line in lines {
        assert!(rt; replay(rt, desk, seat, line) == Ok(()), "{line}");
    }
}

// The applier applies the entry of that line again.
fn apply_again<D: DeskNames, R: Host>(
    rt: &R,
    desk: &SharedDesk<D>,
    applier: &mut Applier<D, Free>,
    line: &str,
) -> Result<(), StepError> {
    match read_line(rt.alloc(), line.as_bytes()) {
        Ok(Message::Push(entry)) => {
            let mut kept = desk.lock(rt);
            applier.apply_again(&mut *kept, &entry)
        }
        _ => Err(StepError::OutOfStep),
    }
}

// What the peer's applier reports, once it has applied the gift again, and no other entry.
fn gift<D: DeskNames, R: Host>(rt: &R, desk: &SharedDesk<D>) -> Applied<D> {
    let (intake, outlet) = link(rt, rt.alloc(), 2, 2);
    let _intake = feed(rt, intake, GIFT);
    let mut applier = applier_at(rt, desk, 2, outlet, Free);
    assert!(rt; applier.fill_soon(rt) == Ok(true));
    assert!(rt; apply_again(rt, desk, &mut applier, OTHER) == Err(StepError::OutOfStep));
    assert!(rt; apply_again(rt, desk, &mut applier, GIFT) == Ok(()));
    assert!(rt; apply_again(rt, desk, &mut applier, GIFT) == Err(StepError::OutOfStep));
    applier.done()
}

// Whether the ask to the peer is outstanding again.
fn is_asked<D: DeskNames, R: Host>(rt: &R, desk: &SharedDesk<D>) -> bool {
    match desk.lock(rt).ask_line(SiteId::known(2)) {
        Ok(Some(line)) => line.as_slice() == BEFORE[1].as_bytes(),
        _ => false,
    }
}

// Records that are refused, each for its own cause.
fn refuse<D: DeskNames, R: Host>(rt: &R, desk: &SharedDesk<D>, seat: &mut Seat<D>) {
    let short = Err(ReplayError::NotPermitted(DeskError::Short));
    assert!(rt; replay(rt, desk, seat, "E 1 6 7 S:9\n") == short);
    let order = Err(ReplayError::OutOfOrder);
    assert!(rt; replay(rt, desk, seat, "E 1 4 5 S:1\n") == order);
    assert!(rt; replay(rt, desk, seat, "W 1 2 1 5\n") == order);
}

/// The desk is made again, and then ends.
#[derive(Clone, Copy)]
struct Restart;

impl Scene for Restart {
    type Seen = Report;

    fn play<D: DeskNames, R: Host>(self, rt: &R, desk: SharedDesk<D>) -> Report {
        let mut seat = seat_at(rt, &desk);
        replay_all(rt, &desk, &mut seat, &BEFORE);
        let applied = gift(rt, &desk);
        replay_all(rt, &desk, &mut seat, &AFTER);
        refuse(rt, &desk, &mut seat);
        assert!(rt; is_asked(rt, &desk));
        let parts = with_seat(rt, alone(rt.alloc(), desk), seat);
        report_of(rt, with_applied(rt, parts, applied))
    }
}

/// What was issued and spent before the restart counts, and so does what was applied.
#[test]
fn a_desk_is_made_again(rt: HostRuntime) {
    let report = play(&rt, 2, Restart);
    assert!(rt; (report.issued, report.spent, report.given) == (12, 10, 6));
    assert!(rt; (report.received, report.held, report.applied) == (7, 3, 2));
    assert!(rt; (report.told_issued, report.told_spent, report.told_served) == (12, 10, 0));
}
