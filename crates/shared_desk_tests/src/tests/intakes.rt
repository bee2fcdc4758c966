//! An intake with each memory request refused.
ghost use Rattle.std.specs.Prelude.{◌≡◌, false};

use crate::tests::links::link_in;
use apply_lanes::{Arrived, Intake, IntakeError, Outlet, VerdictCounts};
use entry_codec::LineError;
use inbound::InboundError;
use refusing_allocator::Refusing;
use rights_types::{Beat, OutOfMemory, SiteId};
use std::alloc::Global;
use std::process::Abort;
use std::sync::Wait;
use sub_buffer::State;
use test_kit::requests_of;

type Refused<'a> = &'a Refusing<Global>;

fn is_want_of_memory(error: IntakeError) -> bool {
    matches!(
        error,
        IntakeError::Inbound(InboundError::OutOfMemory | InboundError::Line(LineError::OutOfMemory))
    )
}

// Takes the line in. If it runs out of memory it has changed nothing, and it is taken in when it arrives again.
fn heard<R: Wait>(rt: &R, intake: &mut Intake<Refused>, line: &str) -> Option<Arrived>
    requires { intake.old.finished ≡ false }
    ensures { intake.new.finished ≡ false }
{
    let before = (intake.state(), intake.held_count());
    match intake.on_line(rt, line.as_bytes()) {
        Ok(arrived) => Some(arrived),
        Err(error) => {
            if !is_want_of_memory(error) || (intake.state(), intake.held_count()) != before {
                return None;
            }
            intake.on_line(rt, line.as_bytes()).ok()
        }
    }
}

fn counts(ready: usize, held: usize) -> Option<Arrived> {
    Some(Arrived::Entries(VerdictCounts {
        ready,
        held,
        repeat: 0,
        after_close: 0,
        full: 0,
    }))
}

// The query for the gap. If there is no memory for its line, the gap counts as queried.
fn asks_once(intake: &mut Intake<Refused>) -> bool
    ensures { intake.new.finished ≡ intake.old.finished }
{
    let first = match intake.query_line(false) {
        Ok(line) => line.is_some(),
        Err(OutOfMemory) => true,
    };
    first && matches!(intake.query_line(false), Ok(None))
}

fn asks_again(intake: &mut Intake<Refused>) -> bool
    ensures { intake.new.finished ≡ intake.old.finished }
{
    match intake.query_line(true) {
        Ok(line) => line.is_some(),
        Err(OutOfMemory) => matches!(intake.query_line(true), Ok(Some(_))),
    }
}

// Each line does what it should, the second time if it ran out of memory.
fn hear_each_line<R: Wait + Abort>(rt: &R, intake: &mut Intake<Refused>)
    requires { intake.old.finished ≡ false }
{
    assert!(rt; heard(rt, intake, "E 2 0 1 I:10\n") == counts(1, 0));
    assert!(rt; heard(rt, intake, "E 2 3 4 S:1\n") == counts(0, 1));
    assert!(rt;
        heard(rt, intake, "B 2 5\n") == Some(Arrived::Beat(Beat::known(SiteId::known(2), 5)))
    );
    assert!(rt; intake.state() == State::Buffering);
    assert!(rt; asks_once(intake));
    assert!(rt; asks_again(intake));
    let answer = "A 2 1;E 2 1 2 S:1;E 2 2 3 S:1;E 2 4 5 S:1\n";
    assert!(rt; heard(rt, intake, answer) == counts(4, 0));
    assert!(rt; intake.state() == State::Normal);
}

fn hear_over<R: Wait + Abort>(rt: &R, link: (Intake<Refused>, Outlet<Refused>))
    requires { link.0.finished ≡ false }
{
    let (mut intake, _outlet) = link;
    hear_each_line(rt, &mut intake);
}

fn tried<R: Wait + Abort>(rt: &R, memory: Refused) -> bool {
    match link_in(memory, 2, 2) {
        Ok(link) => {
            hear_over(rt, link);
            true
        }
        Err(OutOfMemory) => memory.refused(),
    }
}

/// A line that runs out of memory has changed nothing, and is taken in when it arrives again. A query that runs
/// out of memory counts as made.
#[test]
fn each_growth_of_an_intake_refused(rt: HostRuntime) {
    let requests = requests_of(rt.alloc(), |memory| tried(&rt, memory));
    assert!(rt; requests.is_some_and(|count| count > 10));
}
