//! Appliers that apply all that waits under one hold of the lock, as those of a running site do.
ghost use Rattle.std.specs.Prelude.{◌≡◌, false};
ghost use Rattle.apply_lanes.specs.Names.{id_of, AreBlank, IsUnused};

use crate::tests::desks::{
    alone, applier_at, desk_among, issue, new_desk, report_of, seat_at, with_applied, with_seat,
};
use crate::tests::links::{feed, link};
use crate::tests::scenes::{Host, Scene, play};
use crate::tests::waits::rest;
use apply_lanes::{
    Applied, Applier, Blanks, DeskNames, Free, Intake, Parts, Report, Seat, SharedDesk, StepError,
};
use refusing_allocator::Refusing;
use rights_types::{OutOfMemory, SiteId};
use site_core::Desk;
use std::alloc::Global;
use std::marker::Brand;
use std::process::Abort;
use std::sync::Wait;
use std::thread;
use std::thread::Threads;
use std::time::Clock;
use test_kit::requests_of;

// An answer of three entries, two of which give to site 1.
const THREE: &str = "A 2 1;E 2 0 1 I:20;E 2 1 2 R:1:5;E 2 2 3 R:1:4\n";

// An answer of two entries, the second of which closes site 2, before it applied anything of site 1.
const CLOSING: &str = "A 2 1;E 2 0 1 I:20;E 2 1 2 K:0:0\n";

// ---- beside another thread

// Issues once the applier waits, and only then takes in the line.
fn issue_and_feed<D: DeskNames, R: Wait + Clock + Abort>(
    rt: &R,
    desk: &SharedDesk<D>,
    mut seat: Seat<D>,
    intake: Intake,
) -> Seat<D>
    requires { intake.finished ≡ false }
{
    rest(rt);
    issue(rt, desk, &mut seat, 5);
    feed(rt, intake, THREE);
    seat
}

// What the applier reports, once it has applied its log.
fn apply_all<D: DeskNames, R: Wait + Abort>(
    rt: &R,
    desk: &SharedDesk<D>,
    mut applier: Applier<D, Free>,
) -> Applied<D> {
    assert!(rt; applier.run_ready(rt, desk) == Ok(()));
    applier.done()
}

fn beside<D: DeskNames + Send + Sync, R: Threads + Wait + Clock + Abort + Sync>(
    rt: &R,
    alloc: Global,
    desk: Desk,
    blanks: Blanks,
) -> Report
    requires id { D.id ≡ id_of desk blanks }
    requires blanks { AreBlank blanks }
    requires unused { IsUnused desk }
{
    let desk = SharedDesk::<D>::new(desk, blanks);
    let seat = seat_at(rt, &desk);
    let (intake, outlet) = link(rt, alloc, 2, 2);
    let applier = applier_at(rt, &desk, 2, outlet, Free);
    let shared = &desk;
    let (seat, applied) = thread::join(
        rt,
        move || -> Seat<D>
            requires { intake.finished ≡ false }
        { issue_and_feed(rt, shared, seat, intake) },
        move || apply_all(rt, shared, applier),
    );
    let parts = with_seat(rt, alone(alloc, desk), seat);
    report_of(rt, with_applied(rt, parts, applied))
}

/// An applier that waits for an entry leaves the desk to others, and applies what comes then.
#[test]
fn who_waits_for_an_entry_holds_no_lock(rt: HostRuntime) {
    let desk = desk_among(&rt, rt.alloc(), 2);
    let report = beside::<Brand, HostRuntime>(&rt, rt.alloc(), desk, Blanks::new());
    assert!(rt; (report.issued, report.received, report.applied) == (5, 9, 3));
}

// ---- a reader that is gone

// What the applier reports, once it found the other end gone.
fn applied_without_end<D: DeskNames, R: Wait + Abort>(
    rt: &R,
    alloc: Global,
    desk: &SharedDesk<D>,
) -> Applied<D> {
    let (mut intake, outlet) = link(rt, alloc, 2, 2);
    assert!(rt; intake.on_line(rt, THREE.as_bytes()).is_ok());
    drop(intake);
    let mut applier = applier_at(rt, desk, 2, outlet, Free);
    assert!(rt; applier.run_ready(rt, desk) == Err(StepError::LaneClosed));
    applier.done()
}

/// A reader goes, and puts no End.
#[derive(Clone, Copy)]
struct NoEnd;

impl Scene for NoEnd {
    type Seen = Report;

    fn play<D: DeskNames, R: Host>(self, rt: &R, desk: SharedDesk<D>) -> Report {
        let applied = applied_without_end(rt, rt.alloc(), &desk);
        report_of(rt, with_applied(rt, alone(rt.alloc(), desk), applied))
    }
}

/// All entries that a reader put before it went are applied.
#[test]
fn what_a_reader_put_before_it_went(rt: HostRuntime) {
    let report = play(&rt, 2, NoEnd);
    assert!(rt; (report.received, report.held, report.applied) == (9, 9, 3));
}

// ---- memory that is refused

type Refused<'a> = &'a Refusing<Global>;

// Whether the applier comes to End. If memory is refused, it says so, and comes there when it runs again.
fn comes_to_end<D: DeskNames, R: Wait>(
    rt: &R,
    desk: &SharedDesk<D, Refused>,
    memory: Refused,
    mut applier: Applier<D, Free>,
) -> bool {
    let was_refused = memory.refused();
    match applier.run_ready(rt, desk) {
        Ok(()) => memory.refused() == was_refused,
        Err(StepError::OutOfMemory) => {
            memory.refused() != was_refused && applier.run_ready(rt, desk) == Ok(())
        }
        Err(_) => false,
    }
}

// Issues and gives, unless memory is refused.
fn gives<D: DeskNames, R: Wait>(rt: &R, desk: &SharedDesk<D, Refused>, seat: &mut Seat<D>) -> bool {
    let mut kept = desk.lock(rt);
    kept.issue(seat, 5).is_ok() && kept.give_back(SiteId::known(2), 3).is_ok()
}

fn tried_at<D: DeskNames, R: Wait + Abort>(
    rt: &R,
    alloc: Global,
    memory: Refused,
    desk: Desk<Refused>,
    blanks: Blanks,
) -> bool
    requires id { D.id ≡ id_of desk blanks }
    requires blanks { AreBlank blanks }
    requires unused { IsUnused desk }
{
    let desk = SharedDesk::<D, Refused>::new(desk, blanks);
    let mut seat = seat_at(rt, &desk);
    if !gives(rt, &desk, &mut seat) {
        return memory.refused();
    }
    let (intake, outlet) = link(rt, alloc, 2, 2);
    feed(rt, intake, CLOSING);
    comes_to_end(rt, &desk, memory, applier_at(rt, &desk, 2, outlet, Free))
}

fn tried<R: Wait + Abort>(rt: &R, alloc: Global, memory: Refused) -> bool {
    match new_desk(memory, 1, 2) {
        Ok(desk) => tried_at::<Brand, R>(rt, alloc, memory, desk, Blanks::new()),
        Err(OutOfMemory) => memory.refused(),
    }
}

/// An applier that has no memory for what a closing entry leaves behind says so, and goes on when it runs again.
#[test]
fn each_growth_of_a_run_refused(rt: HostRuntime) {
    let requests = requests_of(rt.alloc(), |memory| tried(&rt, rt.alloc(), memory));
    assert!(rt; requests.is_some_and(|count| count > 3));
}
