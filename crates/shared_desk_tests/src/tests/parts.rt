//! Appliers and the end of a desk: what is refused, and that the parts are returned.
ghost use Rattle.std.specs.Prelude.{◌≡◌, ◌≤◌, []};

use crate::tests::desks::{alone, applier_at, issue, report_of, seat_at, with_applied, with_seat};
use crate::tests::links::link;
use crate::tests::scenes::{Host, Scene, play};
use apply_lanes::{
    AdmitCause, Applier, DeskNames, Free, Outlet, Parts, Report, Seat, SharedDesk, StopError, stop,
};
use rights_types::SiteId;
use std::alloc::Global;
use std::process::Abort;
use std::sync::Wait;

/// The parts that are returned, if a seat is missing among them.
pub(crate) fn without_a_seat<D: DeskNames, R: Abort>(rt: &R, parts: Parts<D>) -> Parts<D> {
    match stop(parts) {
        Err(StopError::SeatMissing(parts)) => parts,
        _ => panic!(rt; "no seat is missing"),
    }
}

// The parts that are returned, if all seats are there and an applier is missing among them.
fn without_an_applier<D: DeskNames, R: Abort>(rt: &R, parts: Parts<D>) -> Parts<D> {
    match stop(parts) {
        Err(StopError::ApplierMissing(parts)) => parts,
        _ => panic!(rt; "no applier is missing"),
    }
}

// Issues ten rights and gives three of them.
fn issue_and_give<D: DeskNames, R: Wait + Abort>(rt: &R, desk: &SharedDesk<D>, seat: &mut Seat<D>) {
    issue(rt, desk, seat, 10);
    let given = desk.lock(rt).give_back(SiteId::known(2), 3);
    assert!(rt; given == Ok(2));
}

// The desk, and the seat that did so.
fn with_a_seat<D: DeskNames, R: Wait + Abort>(rt: &R, parts: Parts<D>) -> Parts<D> {
    let mut seat = seat_at(rt, &parts.desk);
    issue_and_give(rt, &parts.desk, &mut seat);
    with_seat(rt, parts, seat)
}

/// A stop without the second of two seats, which is used after it, and one with both.
#[derive(Clone, Copy)]
struct MissingSeat;

impl Scene for MissingSeat {
    type Seen = Report;

    fn play<D: DeskNames, R: Host>(self, rt: &R, desk: SharedDesk<D>) -> Report {
        let parts = with_a_seat(rt, alone(rt.alloc(), desk));
        let mut missing = seat_at(rt, &parts.desk);
        let parts = without_a_seat(rt, parts);
        issue(rt, &parts.desk, &mut missing, 5);
        report_of(rt, with_seat(rt, parts, missing))
    }
}

/// A desk stops once all seats are back, and continues until then.
#[test]
fn no_stop_without_a_seat(rt: HostRuntime) {
    let report = play(&rt, 2, MissingSeat);
    assert!(rt; report.issued == 15 && report.spent == 0);
    assert!(rt; report.given == 3 && report.held == 12);
}

// The outlet of a lane whose other end is gone.
fn an_outlet<R: Abort>(rt: &R, alloc: Global) -> Outlet
    ensures { result.taken ≡ [] }
{
    let (_intake, outlet) = link(rt, alloc, 2, 3);
    outlet
}

/// Why an applier of that origin is refused, and that its lane is returned.
pub(crate) fn refusal<D: DeskNames, R: Wait + Abort>(
    rt: &R,
    alloc: Global,
    desk: &SharedDesk<D>,
    origin: u64,
) -> AdmitCause
    requires { (1 ≤ origin) × (origin ≤ 16) }
{
    match desk.applier(rt, SiteId::known(origin), an_outlet(rt, alloc), Free) {
        Ok(_) => panic!(rt; "an applier"),
        Err(error) => error.cause,
    }
}

// An applier of site 2; there is no second one for it, and none for a site that is not a peer.
fn an_applier<D: DeskNames, R: Wait + Abort>(
    rt: &R,
    alloc: Global,
    desk: &SharedDesk<D>,
) -> Applier<D, Free> {
    let applier = applier_at(rt, desk, 2, an_outlet(rt, alloc), Free);
    assert!(rt; refusal(rt, alloc, desk, 4) == AdmitCause::NoSuchSite);
    assert!(rt; refusal(rt, alloc, desk, 1) == AdmitCause::SameSite);
    assert!(rt; refusal(rt, alloc, desk, 2) == AdmitCause::Taken);
    applier
}

/// A stop without an applier, and one with it.
#[derive(Clone, Copy)]
struct MissingApplier;

impl Scene for MissingApplier {
    type Seen = Report;

    fn play<D: DeskNames, R: Host>(self, rt: &R, desk: SharedDesk<D>) -> Report {
        let applier = an_applier(rt, rt.alloc(), &desk);
        let parts = without_an_applier(rt, alone(rt.alloc(), desk));
        report_of(rt, with_applied(rt, parts, applier.done()))
    }
}

/// An origin has at most one applier, and the desk stops once it is done.
#[test]
fn no_stop_without_an_applier(rt: HostRuntime) {
    let report = play(&rt, 3, MissingApplier);
    assert!(rt; report.applied == 0 && report.received == 0);
}
