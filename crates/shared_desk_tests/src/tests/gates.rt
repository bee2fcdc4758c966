//! Two appliers that meet at their gates, without the lock.
ghost use Rattle.std.specs.Prelude.{◌≡◌, ◌≤◌};
ghost use Rattle.apply_lanes.specs.Names.{id_of, AreBlank, IsUnused};

use crate::tests::desks::{alone, applier_at, desk_among, report_of, with_applied};
use crate::tests::links::{feed, link};
use apply_lanes::laws::taken_in;
use apply_lanes::{Applied, Applier, Blanks, DeskNames, Gate, Intake, Report, SharedDesk};
use rights_types::SiteId;
use site_core::Desk;
use std::alloc::Global;
use std::marker::Brand;
use std::process::Abort;
use std::sync::atomic::{AtomicU64, Ordering};
use std::sync::{Arc, Wait};
use std::thread;
use std::thread::Threads;
use std::time::{Clock, Duration};

/// A gate that waits for another one, and records that it waited too long.
#[derive(Drop)]
struct Meeting {
    come: Arc<AtomicU64>,
    late: Arc<AtomicU64>,
}

impl Gate for Meeting {
    ghost passes = { λ _ _ _. Unit {0} };

    fn before_apply<R: Wait + Clock>(&mut self, rt: &R, _origin: SiteId) {
        self.come.fetch_add(1, Ordering::SeqCst);
        for _ in 0..10_000 {
            if self.come.load(Ordering::SeqCst) >= 2 {
                return;
            }
            thread::sleep(rt, Duration::from_millis(1));
        }
        self.late.fetch_add(1, Ordering::SeqCst);
    }
}

// A counter that starts at 0.
fn counter<R: Abort>(rt: &R, alloc: Global) -> Arc<AtomicU64> {
    Arc::new(alloc, AtomicU64::new(0)).ok().expect(rt, "memory")
}

fn same<R: Abort>(rt: &R, counter: &Arc<AtomicU64>) -> Arc<AtomicU64> {
    Arc::try_clone(counter).ok().expect(rt, "memory")
}

// A gate that waits for the other one that has these counters.
fn gate<R: Abort>(rt: &R, come: &Arc<AtomicU64>, late: &Arc<AtomicU64>) -> Meeting {
    Meeting {
        come: same(rt, come),
        late: same(rt, late),
    }
}

// The applier of that origin's log, and its intake: with the entry of that line, and then End.
fn fed_applier<D: DeskNames, R: Wait + Abort>(
    rt: &R,
    alloc: Global,
    desk: &SharedDesk<D>,
    origin: u64,
    line: &str,
    gate: Meeting,
) -> (Intake, Applier<D, Meeting>)
    requires { (2 ≤ origin) × (origin ≤ 3) }
    ensures { result.1.outlet.lane ≡ result.0.inlet.lane }
{
    let (intake, outlet) = link(rt, alloc, origin, 3);
    let intake = feed(rt, intake, line);
    (intake, applier_at(rt, desk, origin, outlet, gate))
}

// The applier, once it has applied one entry.
fn apply_one<D: DeskNames, G: Gate, R: Wait + Clock + Abort>(
    rt: &R,
    desk: &SharedDesk<D>,
    mut applier: Applier<D, G>,
) -> Applier<D, G>
    ensures { result.outlet.lane ≡ applier.outlet.lane }
{
    assert!(rt; applier.run(rt, desk) == Ok(1));
    applier
}

// Both, once each has applied one entry on a thread of its own.
fn apply_both<D: DeskNames + Send + Sync, R: Threads + Wait + Clock + Abort + Sync>(
    rt: &R,
    desk: &SharedDesk<D>,
    one: Applier<D, Meeting>,
    other: Applier<D, Meeting>,
) -> (Applier<D, Meeting>, Applier<D, Meeting>)
    ensures one { result.0.outlet.lane ≡ one.outlet.lane }
    ensures other { result.1.outlet.lane ≡ other.outlet.lane }
{
    thread::join(
        rt,
        move || apply_one(rt, desk, one),
        move || apply_one(rt, desk, other),
    )
}

// What both report, once they have met at their gates.
fn applied_at<D: DeskNames + Send + Sync, R: Threads + Wait + Clock + Abort + Sync>(
    rt: &R,
    alloc: Global,
    desk: &SharedDesk<D>,
    gate: Meeting,
    other_gate: Meeting,
) -> (Applied<D>, Applied<D>) {
    let (intake, one) = fed_applier(rt, alloc, desk, 2, "E 2 0 2 I:5 R:1:5\n", gate);
    let (other_intake, other) = fed_applier(rt, alloc, desk, 3, "E 3 0 2 I:7 R:1:7\n", other_gate);
    let (one, other) = apply_both(rt, desk, one, other);
    (
        taken_in(intake, one).done(),
        taken_in(other_intake, other).done(),
    )
}

// The same with gates that wait for each other.
fn met_at<D: DeskNames + Send + Sync, R: Threads + Wait + Clock + Abort + Sync>(
    rt: &R,
    alloc: Global,
    desk: &SharedDesk<D>,
) -> (Applied<D>, Applied<D>) {
    let (come, late) = (counter(rt, alloc), counter(rt, alloc));
    let (one, other) = (gate(rt, &come, &late), gate(rt, &come, &late));
    let applied = applied_at(rt, alloc, desk, one, other);
    assert!(rt;
        come.load(Ordering::SeqCst) == 2,
        "a gate was not passed once"
    );
    assert!(rt; late.load(Ordering::SeqCst) == 0, "a gate waited too long");
    applied
}

fn two_appliers<D: DeskNames + Send + Sync, R: Threads + Wait + Clock + Abort + Sync>(
    rt: &R,
    alloc: Global,
    desk: Desk,
    blanks: Blanks,
) -> Report
    requires id { D.id ≡ id_of desk blanks }
    requires blanks { AreBlank blanks }
    requires unused { IsUnused desk }
{
    let desk = SharedDesk::<D>::new(desk, blanks);
    let (one, other) = met_at(rt, alloc, &desk);
    let parts = with_applied(rt, alone(alloc, desk), one);
    report_of(rt, with_applied(rt, parts, other))
}

// Whether the desk received 5 and 7, and nothing else happened.
fn is_of_both(report: &Report) -> bool {
    let all = report.received == 12 && report.held == 12 && report.applied == 4;
    all && report.issued == 0 && report.spent == 0 && report.given == 0 && report.back == 0
}

/// Each of two appliers reaches its gate before either has passed: neither holds the lock there.
#[test]
fn two_appliers_meet(rt: HostRuntime) {
    let desk = desk_among(&rt, rt.alloc(), 3);
    let report = two_appliers::<Brand, HostRuntime>(&rt, rt.alloc(), desk, Blanks::new());
    assert!(rt; is_of_both(&report));
}
