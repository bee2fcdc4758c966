//! Lanes whose ends go at any moment, while the other end puts, takes, looks or sleeps. No contract speaks of that, so it
//! is tested: a wake that is lost leaves the test waiting for good, and an end that is told too early that the other one
//! is gone leaves an item.
ghost use Rattle.std.specs.Prelude.{◌≡◌, []};

use crate::tests::lanes::{lane_of, one};
use apply_lanes::{Inlet, Item, Outlet};
use std::alloc::Global;
use std::process::Abort;
use std::sync::Wait;
use std::thread::Threads;
use std::time::{Clock, Duration, Instant};
use std::{hint, thread};
use test_kit::Dice;

// The number of batches, and of the lanes of each.
const BATCHES: u64 = 200;

const LANES: u64 = 500;

// No batch begins after so many seconds, however slow the machine is.
const LONGEST: u64 = 15;

// An end pauses for less than this many turns: an end that waits looks for 64 turns before it sleeps.
const TURNS: u64 = 130;

/// The inlet of a new lane.
#[derive(Drop)]
struct NewInlet {
    inlet: Inlet,
    ghost unused: { inlet.put ≡ [] },
}

/// The outlet of a new lane.
#[derive(Drop)]
struct NewOutlet {
    outlet: Outlet,
    ghost unused: { outlet.taken ≡ [] },
}

fn new_lane<R: Abort>(rt: &R, alloc: Global) -> (NewInlet, NewOutlet) {
    let (inlet, outlet) = lane_of(rt, alloc, 1);
    (NewInlet { inlet }, NewOutlet { outlet })
}

fn pause(dice: &mut Dice) {
    for _ in 0..dice.roll(TURNS) {
        hint::spin_loop();
    }
}

/// Puts this many entries, unless the outlet goes before that, and goes. Returns how many were put.
fn put_some<R: Wait + Abort>(
    rt: &R,
    alloc: Global,
    mut inlet: Inlet,
    count: u64,
    dice: &mut Dice,
) -> u64
    requires { inlet.put ≡ [] }
{
    for number in 0..count {
        let entry = one(alloc, number).expect(rt, "an entry");
        if inlet.put(rt, entry).is_err() {
            return number;
        }
    }
    pause(dice);
    count
}

/// Takes this many entries, unless the inlet goes before that, and goes. Returns how many were taken, and whether the
/// inlet was gone.
fn take_some<R: Wait>(rt: &R, mut outlet: Outlet, count: u64, dice: &mut Dice) -> (u64, bool)
    requires { outlet.taken ≡ [] }
{
    for number in 0..count {
        match outlet.take(rt) {
            Ok(Item::Entry(_)) => {}
            _ => return (number, true),
        }
    }
    pause(dice);
    (count, false)
}

// How many entries the inlet of each lane put.
fn put_at_each<R: Wait + Abort>(
    rt: &R,
    alloc: Global,
    inlets: Vec<NewInlet>,
    seed: u64,
) -> Vec<u64> {
    let mut dice = Dice::new(seed);
    let mut counts = Vec::new(alloc);
    for end in inlets {
        let NewInlet { inlet } = end;
        let count = dice.roll(4);
        let put = put_some(rt, alloc, inlet, count, &mut dice);
        counts.push(put).ok().expect(rt, "memory");
    }
    counts
}

// How many entries the outlet of each lane took, and whether it then found the inlet gone.
fn take_at_each<R: Wait + Abort>(
    rt: &R,
    alloc: Global,
    outlets: Vec<NewOutlet>,
    seed: u64,
) -> Vec<(u64, bool)> {
    let mut dice = Dice::new(seed);
    let mut counts = Vec::new(alloc);
    for end in outlets {
        let NewOutlet { outlet } = end;
        let count = dice.roll(5);
        let taken = take_some(rt, outlet, count, &mut dice);
        counts.push(taken).ok().expect(rt, "memory");
    }
    counts
}

type Ends = (Vec<NewInlet>, Vec<NewOutlet>);

fn new_lanes<R: Abort>(rt: &R, alloc: Global) -> Ends {
    let mut inlets = Vec::new(alloc);
    let mut outlets = Vec::new(alloc);
    for _ in 0..LANES {
        let (inlet, outlet) = new_lane(rt, alloc);
        inlets.push(inlet).ok().expect(rt, "memory");
        outlets.push(outlet).ok().expect(rt, "memory");
    }
    (inlets, outlets)
}

// An outlet that found its inlet gone took all that was put; another one left at most what the lane holds.
fn agrees(put: u64, taken: u64, was_gone: bool) -> bool {
    let left = put.wrapping_sub(taken);
    left == 0 || left == 1 && !was_gone
}

fn all_agree(put: &[u64], taken: &[(u64, bool)]) -> bool {
    let mut agree = put.len() == taken.len();
    for (put, (taken, was_gone)) in put.iter().zip(taken) {
        agree = agree && agrees(*put, *taken, *was_gone);
    }
    agree
}

// Whether the ends of each lane of a batch agree, used by two threads.
fn is_played<R: Threads + Wait + Abort + Sync>(rt: &R, alloc: Global, seed: u64) -> bool {
    let (inlets, outlets) = new_lanes(rt, alloc);
    let (put, taken) = thread::join(
        rt,
        move || put_at_each(rt, alloc, inlets, seed),
        move || take_at_each(rt, alloc, outlets, seed.wrapping_add(BATCHES)),
    );
    all_agree(put.as_slice(), taken.as_slice())
}

/// The ends of 100,000 lanes of capacity one go at any moment: each other end is woken and finds that, and then nothing
/// is left that it could take. On a slow machine there are fewer lanes.
#[test]
fn ends_that_go_at_any_moment(rt: HostRuntime) {
    let longest = Duration::from_secs(LONGEST);
    let start = Instant::now(&rt).ok().expect(&rt, "a clock");
    for batch in 0..BATCHES {
        assert!(rt; is_played(&rt, rt.alloc(), batch));
        if start.elapsed(&rt).ok().expect(&rt, "a clock") > longest {
            break;
        }
    }
}
