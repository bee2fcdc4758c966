//! How many entries pass through a lane between two threads per second, compared with the plain channel.
ghost use Rattle.std.specs.Prelude.{◌≡◌, ◌+◌, [], false, IfSome};
ghost use Rattle.rights_types.specs.Entries.{IsEntry, own, closes};

use crate::rate::per_second;
use apply_lanes::{Inlet, Item, Outlet, lane};
use crossbeam_channel::{Receiver, Sender, bounded};
use rights_types::{Amount, Entry, Move, SiteId};
use std::alloc::Global;
use std::rt::Clock;
use std::sync::Wait;
use std::thread;
use std::thread::Threads;
use std::time::Instant;

// The number of entries of one run.
const ENTRIES: u64 = 200_000;

const CAPACITY: usize = 32;

// The number of runs, of which the best is reported.
const RUNS: u64 = 5;

// An entry of site 1 that issues one right.
fn one(alloc: Global, prev: u64) -> Option<Entry>
    ensures { IfSome result (λ e. IsEntry e × (e.origin ≡ 1) × (e.prev ≡ prev) × (closes e ≡ false)
        × (own e ≡ prev + 1)) }
{
    let mut moves = Vec::with_capacity(alloc, 1).ok()?;
    moves.push(Move::Issue(Amount::known(1))).ok()?;
    Entry::new(SiteId::known(1), prev, moves).ok()
}

fn put_all<R: Wait>(rt: &R, alloc: Global, mut inlet: Inlet) -> Option<()>
    requires { inlet.put ≡ [] }
{
    for number in 0..ENTRIES {
        let entry = one(alloc, number)?;
        inlet.put(rt, entry).ok()?;
    }
    inlet.end(rt).ok()
}

fn take_all<R: Wait>(rt: &R, mut outlet: Outlet) -> u64
    requires { outlet.taken ≡ [] }
{
    let mut count = 0u64;
    for _ in rt.forever() {
        match outlet.take(rt) {
            Ok(Item::Entry(_)) => count = count.wrapping_add(1),
            Ok(Item::End) => break,
            Err(_) => break,
        }
    }
    count
}

fn send_all<R: Wait>(rt: &R, alloc: Global, sender: Sender<Entry>) -> Option<()> {
    for number in 0..ENTRIES {
        let entry = one(alloc, number)?;
        sender.send(rt, entry).ok()?;
    }
    Some(())
}

fn receive_all<R: Wait>(rt: &R, receiver: Receiver<Entry>) -> u64 {
    let mut count = 0u64;
    for _ in rt.forever() {
        if receiver.recv(rt).is_err() {
            break;
        }
        count = count.wrapping_add(1);
    }
    count
}

// The nanoseconds that all entries take to pass through a lane.
fn lane_time<R: Clock + Threads + Wait + Sync + AllocGlobal>(rt: &R) -> Option<u128> {
    let alloc = rt.alloc();
    let (inlet, outlet) = lane(alloc, CAPACITY).ok()?;
    let start = Instant::now(rt).ok()?;
    let (put, count) = thread::join(
        rt,
        || -> Option<()>
            requires { inlet.put ≡ [] }
        { put_all(rt, alloc, inlet) },
        || -> u64
            requires { outlet.taken ≡ [] }
        { take_all(rt, outlet) },
    );
    let took = start.elapsed(rt).ok()?.as_nanos();
    if put.is_none() || count != ENTRIES {
        return None;
    }
    Some(took)
}

// The same through the toolchain's bounded channel, with no rule.
fn channel_time<R: Clock + Threads + Wait + Sync + AllocGlobal>(rt: &R) -> Option<u128> {
    let alloc = rt.alloc();
    let (sender, receiver) = bounded(alloc, CAPACITY).ok()?;
    let start = Instant::now(rt).ok()?;
    let (sent, count) = thread::join(
        rt,
        || send_all(rt, alloc, sender),
        || receive_all(rt, receiver),
    );
    let took = start.elapsed(rt).ok()?.as_nanos();
    if sent.is_none() || count != ENTRIES {
        return None;
    }
    Some(took)
}

fn print_rate<R: Print>(rt: &R, name: &str, nanos: u128) -> Option<()> {
    let rate = per_second(ENTRIES, nanos);
    println!(rt; "{name} of {CAPACITY}: {rate} entries/s ({ENTRIES} entries)").ok()
}

/// Prints the rate of a lane, and that of a plain channel.
pub(crate) fn measure_all<R: Clock + Print + Threads + Wait + Sync + AllocGlobal>(
    rt: &R,
) -> Option<()> {
    let mut of_lane = u128::MAX;
    let mut of_channel = u128::MAX;
    for _ in 0..RUNS {
        of_lane = of_lane.min(lane_time(rt)?);
        of_channel = of_channel.min(channel_time(rt)?);
    }
    print_rate(rt, "lane", of_lane)?;
    print_rate(rt, "plain channel", of_channel)
}
