//! A lane whose other end is gone.
ghost use Rattle.std.specs.Prelude.{◌≡◌, false};

use crate::tests::desks::{applier_at, issue, seat_at};
use crate::tests::links::link;
use crate::tests::scenes::{Host, Scene, play};
use apply_lanes::{DeskNames, DeskView, Free, Intake, IntakeError, SharedDesk};
use std::alloc::Global;
use std::process::Abort;
use std::sync::Wait;

// Whether the line finds the lane closed.
fn finds_it_closed<R: Wait>(rt: &R, intake: &mut Intake, line: &[u8]) -> bool
    requires { intake.old.finished ≡ false }
    ensures { intake.new.finished ≡ false }
{
    matches!(intake.on_line(rt, line), Err(IntakeError::LaneClosed))
}

// Whether each line and End find the lane closed.
fn is_dead<R: Wait>(rt: &R, intake: &mut Intake) -> bool
    requires { intake.old.finished ≡ false }
{
    finds_it_closed(rt, intake, b"E 2 0 1 I:1\n")
        && finds_it_closed(rt, intake, b"B 2 1\n")
        && intake.finish(rt).is_err()
}

// The intake of an applier that is gone.
fn an_intake<D: DeskNames, R: Wait + Abort>(rt: &R, alloc: Global, desk: &SharedDesk<D>) -> Intake
    ensures { result.finished ≡ false }
{
    let (intake, outlet) = link(rt, alloc, 2, 3);
    drop(applier_at(rt, desk, 2, outlet, Free));
    intake
}

fn meet_a_closed_lane<D: DeskNames, R: Wait + Abort>(rt: &R, alloc: Global, desk: &SharedDesk<D>) {
    let mut intake = an_intake(rt, alloc, desk);
    assert!(rt; is_dead(rt, &mut intake));
}

/// An applier is dropped.
#[derive(Clone, Copy)]
struct DroppedApplier;

impl Scene for DroppedApplier {
    type Seen = DeskView;

    fn play<D: DeskNames, R: Host>(self, rt: &R, desk: SharedDesk<D>) -> DeskView {
        let mut seat = seat_at(rt, &desk);
        issue(rt, &desk, &mut seat, 5);
        meet_a_closed_lane(rt, rt.alloc(), &desk);
        desk.lock(rt).view()
    }
}

/// Once its applier is gone an intake is dead, and the desk continues unchanged.
#[test]
fn an_intake_without_its_applier(rt: HostRuntime) {
    let view = play(&rt, 3, DroppedApplier);
    assert!(rt; (view.issued, view.held, view.number, view.received) == (5, 5, 1, 0));
}
