//! Appliers of all other sites at one desk, and the longest entry that passes over a lane.
ghost use Rattle.std.specs.Prelude.{◌≤◌};

use crate::tests::desks::{alone, applier_at, report_of, with_applied};
use crate::tests::links::{feed, link};
use crate::tests::parts::refusal;
use crate::tests::scenes::{Host, Scene, play};
use apply_lanes::laws::taken_in;
use apply_lanes::{AdmitCause, Applied, DeskNames, Free, Parts, Report, SharedDesk};
use std::alloc::Global;
use std::process::Abort;
use std::sync::Wait;
use std::time::Clock;
use test_kit::fill;

// What each other site of sixteen gives to site 1.
const GIFT: &str = "E $1 0 2 I:20 R:1:$1\n";

// An entry of 16 moves.
const LONGEST: &str =
    "E 2 0 16 I:20 R:1:1 R:1:1 R:1:1 R:1:1 R:1:1 R:1:1 R:1:1 R:1:1 R:1:1 R:1:1 R:1:1 R:1:1 R:1:1 R:1:1 R:1:1\n";

// An answer of three entries, two of which give to site 1.
const THREE: &str = "A 2 1;E 2 0 1 I:20;E 2 1 2 R:1:5;E 2 2 3 R:1:4\n";

// What the applier of that origin reports, once it has applied the entry of that line.
fn applied_of<D: DeskNames, R: Wait + Clock + Abort>(
    rt: &R,
    alloc: Global,
    desk: &SharedDesk<D>,
    origin: u64,
    line: &str,
) -> Applied<D>
    requires { (2 ≤ origin) × (origin ≤ 16) }
{
    let (intake, outlet) = link(rt, alloc, origin, 16);
    let intake = feed(rt, intake, line);
    let mut applier = applier_at(rt, desk, origin, outlet, Free);
    assert!(rt; applier.run(rt, desk) == Ok(1));
    taken_in(intake, applier).done()
}

// What the applier of that origin reports, once it has applied its gift.
fn gift_of<D: DeskNames, R: Host>(rt: &R, desk: &SharedDesk<D>, origin: u64) -> Applied<D>
    requires { (2 ≤ origin) × (origin ≤ 16) }
{
    let mut line = String::new(rt.alloc());
    fill(&mut line, GIFT, &[origin]).expect(rt, "memory");
    applied_of(rt, rt.alloc(), desk, origin, &line)
}

// The desk, and the gifts of all other sites.
fn with_all_gifts<D: DeskNames, R: Host>(rt: &R, mut parts: Parts<D>) -> Parts<D> {
    for origin in 2..17 {
        let gift = gift_of(rt, &parts.desk, origin);
        parts = with_applied(rt, parts, gift);
    }
    parts
}

/// Each other site of sixteen has an applier, and gets no second one.
#[derive(Clone, Copy)]
struct Fifteen;

impl Scene for Fifteen {
    type Seen = Report;

    fn play<D: DeskNames, R: Host>(self, rt: &R, desk: SharedDesk<D>) -> Report {
        let parts = with_all_gifts(rt, alone(rt.alloc(), desk));
        for origin in 2..17 {
            assert!(rt; refusal(rt, rt.alloc(), &parts.desk, origin) == AdmitCause::Taken);
        }
        report_of(rt, parts)
    }
}

/// Each other site of sixteen gets an applier, and no second one.
#[test]
fn an_applier_for_each_of_fifteen_peers(rt: HostRuntime) {
    let report = play(&rt, 16, Fifteen);
    assert!(rt; (report.received, report.held, report.applied) == (135, 135, 30));
}

/// An entry of sixteen moves arrives.
#[derive(Clone, Copy)]
struct Longest;

impl Scene for Longest {
    type Seen = Report;

    fn play<D: DeskNames, R: Host>(self, rt: &R, desk: SharedDesk<D>) -> Report {
        let applied = applied_of(rt, rt.alloc(), &desk, 2, LONGEST);
        report_of(rt, with_applied(rt, alone(rt.alloc(), desk), applied))
    }
}

/// An entry of sixteen moves passes over a lane, and is applied.
#[test]
fn sixteen_moves_over_a_lane(rt: HostRuntime) {
    let report = play(&rt, 16, Longest);
    assert!(rt; (report.received, report.held, report.applied) == (15, 15, 16));
}

// What the applier of site 2 reports, once it has applied three entries under one hold of the lock.
fn applied_at_once<D: DeskNames, R: Wait + Abort>(
    rt: &R,
    alloc: Global,
    desk: &SharedDesk<D>,
) -> Applied<D> {
    let (intake, outlet) = link(rt, alloc, 2, 2);
    let intake = feed(rt, intake, THREE);
    let mut applier = applier_at(rt, desk, 2, outlet, Free);
    assert!(rt; applier.step_ready(rt, desk) == Ok((3, false)));
    assert!(rt; applier.step_ready(rt, desk) == Ok((0, false)));
    taken_in(intake, applier).done()
}

/// Three entries are applied at once.
#[derive(Clone, Copy)]
struct AtOnce;

impl Scene for AtOnce {
    type Seen = Report;

    fn play<D: DeskNames, R: Host>(self, rt: &R, desk: SharedDesk<D>) -> Report {
        let applied = applied_at_once(rt, rt.alloc(), &desk);
        report_of(rt, with_applied(rt, alone(rt.alloc(), desk), applied))
    }
}

/// All entries that wait on a lane are applied at once, and then End is taken.
#[test]
fn all_that_wait_at_once(rt: HostRuntime) {
    let report = play(&rt, 2, AtOnce);
    assert!(rt; (report.received, report.held, report.applied) == (9, 9, 3));
}
