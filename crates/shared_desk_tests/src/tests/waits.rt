//! The ends of a lane that wait for each other. No contract speaks of that, so it is tested: a wake that is lost leaves
//! a test waiting for good.
ghost use Rattle.std.specs.Prelude.{◌≡◌, [], true};
ghost use Rattle.rights_types.specs.Entries.{EntryValue};
ghost use Rattle.thread_parts.specs.Items.{Continues, IsOpen, MayBeFirst};

use crate::tests::lanes::{lane_of, one};
use apply_lanes::{Inlet, Item, Outlet};
use std::alloc::Global;
use std::process::Abort;
use std::sync::Wait;
use std::thread;
use std::time::{Clock, Duration};

/// Time enough for the other thread to fall asleep.
pub(crate) fn rest<R: Wait + Clock>(rt: &R) {
    thread::sleep(rt, Duration::from_millis(20));
}

/// Puts the first entry, and returns whether it was put.
fn put_first<R: Wait + Abort>(rt: &R, alloc: Global, inlet: &mut Inlet) -> bool
    requires { (e : EntryValue) → MayBeFirst e → Continues inlet.old.put e }
    ensures { result ≡ true → IsOpen inlet.new.put }
{
    let entry = one(alloc, 0).expect(rt, "an entry");
    inlet.put(rt, entry).is_ok()
}

/// An outlet sleeps until an entry is put.
#[test]
fn an_entry_wakes_the_outlet(rt: HostRuntime) {
    let alloc = rt.alloc();
    let (inlet, outlet) = lane_of(&rt, alloc, 2);
    let (is_put, is_taken) = thread::join(
        &rt,
        || -> bool
            requires { (e : EntryValue) → MayBeFirst e → Continues inlet.put e }
        {
            let mut inlet = inlet;
            rest(&rt);
            put_first(&rt, alloc, &mut inlet)
        },
        || -> bool
            requires { outlet.taken ≡ [] }
        {
            let mut outlet = outlet;
            matches!(outlet.take(&rt), Ok(Item::Entry(_)))
        },
    );
    assert!(rt; is_put && is_taken);
}

/// An outlet sleeps until the inlet is gone.
#[test]
fn an_inlet_that_goes_wakes_the_outlet(rt: HostRuntime) {
    let (inlet, outlet) = lane_of(&rt, rt.alloc(), 2);
    let ((), is_closed) = thread::join(
        &rt,
        || {
            rest(&rt);
            drop(inlet);
        },
        || -> bool
            requires { outlet.taken ≡ [] }
        {
            let mut outlet = outlet;
            outlet.take(&rt).is_err()
        },
    );
    assert!(rt; is_closed);
}

/// An inlet whose lane is full sleeps until an entry is taken.
#[test]
fn space_wakes_the_inlet(rt: HostRuntime) {
    let alloc = rt.alloc();
    let (inlet, outlet) = lane_of(&rt, alloc, 1);
    let (is_put, (_outlet, is_taken)) = thread::join(
        &rt,
        || -> bool
            requires { (e : EntryValue) → MayBeFirst e → Continues inlet.put e }
        {
            let mut inlet = inlet;
            put_first(&rt, alloc, &mut inlet) && inlet.end(&rt).is_ok()
        },
        || -> (Outlet, bool)
            requires { outlet.taken ≡ [] }
        {
            let mut outlet = outlet;
            rest(&rt);
            let is_entry = matches!(outlet.take(&rt), Ok(Item::Entry(_)));
            (outlet, is_entry)
        },
    );
    assert!(rt; is_put && is_taken);
}

/// An inlet whose lane is full sleeps until the outlet is gone.
#[test]
fn an_outlet_that_goes_wakes_the_inlet(rt: HostRuntime) {
    let alloc = rt.alloc();
    let (inlet, outlet) = lane_of(&rt, alloc, 1);
    let (is_closed, ()) = thread::join(
        &rt,
        || -> bool
            requires { (e : EntryValue) → MayBeFirst e → Continues inlet.put e }
        {
            let mut inlet = inlet;
            // On a slow machine the outlet may have gone before.
            !put_first(&rt, alloc, &mut inlet) || inlet.end(&rt).is_err()
        },
        || {
            rest(&rt);
            drop(outlet);
        },
    );
    assert!(rt; is_closed);
}
