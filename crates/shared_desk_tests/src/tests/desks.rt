//! Desks, seats and appliers with ample memory, and the end of a desk.
ghost use Rattle.std.specs.Prelude.{◌≡◌, ◌≤◌, [], IfOk};
ghost use Rattle.apply_lanes.specs.Names.{IsUnused};

use apply_lanes::{
    Applied, Applier, DeskNames, Gate, Outlet, Parts, Report, Seat, SharedDesk, stop,
};
use rights_types::{OutOfMemory, SiteId};
use site_core::Desk;
use std::alloc::{Allocator, Global};
use std::process::Abort;
use std::sync::Wait;

/// A desk of that site in a system of this many, at which nothing has happened.
pub(crate) fn new_desk<A: Allocator + Copy>(
    alloc: A,
    me: u64,
    sites: u64,
) -> Result<Desk<A>, OutOfMemory>
    requires sites { (2 ≤ sites) × (sites ≤ 16) }
    requires me { (1 ≤ me) × (me ≤ sites) }
    ensures { IfOk result (λ d. IsUnused d) }
{
    Desk::new(alloc, SiteId::known(me), sites)
}

/// The same for site 1, with ample memory.
pub(crate) fn desk_among<R: Abort>(rt: &R, alloc: Global, sites: u64) -> Desk
    requires { (2 ≤ sites) × (sites ≤ 16) }
    ensures { IsUnused result }
{
    new_desk(alloc, 1, sites).expect(rt, "a desk")
}

/// A seat at the desk.
pub(crate) fn seat_at<D: DeskNames, A: Allocator + Copy, R: Wait + Abort>(
    rt: &R,
    desk: &SharedDesk<D, A>,
) -> Seat<D> {
    desk.seat(rt).expect(rt, "a seat")
}

/// The seat of the desk's clock.
pub(crate) fn clock_seat_at<D: DeskNames, A: Allocator + Copy, R: Wait + Abort>(
    rt: &R,
    desk: &SharedDesk<D, A>,
) -> Seat<D> {
    desk.clock_seat(rt).expect(rt, "the clock's seat")
}

/// Issues rights through a seat.
pub(crate) fn issue<D: DeskNames, R: Wait + Abort>(
    rt: &R,
    desk: &SharedDesk<D>,
    seat: &mut Seat<D>,
    amount: u64,
) {
    assert!(rt; desk.lock(rt).issue(seat, amount).is_ok());
}

/// The applier of that origin's log.
pub(crate) fn applier_at<D: DeskNames, A: Allocator + Copy, G: Gate, R: Wait + Abort>(
    rt: &R,
    desk: &SharedDesk<D, A>,
    origin: u64,
    outlet: Outlet,
    gate: G,
) -> Applier<D, G>
    requires origin { (1 ≤ origin) × (origin ≤ 16) }
    requires outlet { outlet.taken ≡ [] }
    ensures { result.outlet ≡ outlet }
{
    match desk.applier(rt, SiteId::known(origin), outlet, gate) {
        Ok(applier) => applier,
        Err(_) => panic!(rt; "an applier"),
    }
}

/// A desk from which nothing was given out.
pub(crate) fn alone<D: DeskNames>(alloc: Global, desk: SharedDesk<D>) -> Parts<D> {
    Parts {
        desk,
        seats: Vec::new(alloc),
        applied: Vec::new(alloc),
    }
}

/// The parts, with that seat too.
pub(crate) fn with_seat<D: DeskNames, R: Abort>(
    rt: &R,
    mut parts: Parts<D>,
    seat: Seat<D>,
) -> Parts<D> {
    parts.seats.push(seat).ok().expect(rt, "memory");
    parts
}

/// The parts, with what that applier reports too.
pub(crate) fn with_applied<D: DeskNames, R: Abort>(
    rt: &R,
    mut parts: Parts<D>,
    applied: Applied<D>,
) -> Parts<D> {
    parts.applied.push(applied).ok().expect(rt, "memory");
    parts
}

/// What a desk with all its parts reports.
pub(crate) fn report_of<D: DeskNames, R: Abort>(rt: &R, parts: Parts<D>) -> Report {
    match stop(parts) {
        Ok(report) => report,
        Err(_) => panic!(rt; "a part is missing"),
    }
}
