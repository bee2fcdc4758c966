//! How fast seats spend under one lock: one alone, and several on threads of their own besides an applier.
ghost use Rattle.std.specs.Prelude.{◌≡◌, [], false, IfOk, IfSome};
ghost use Rattle.apply_lanes.specs.Names.{id_of, AreBlank, IsUnused};

use crate::desk::RUNS;
use crate::rate::per_second;
use apply_lanes::{Applier, Blanks, DeskNames, Free, Intake, Outlet, Seat, SharedDesk, lane};
use inbound::Inbound;
use rights_types::{MAX_AMOUNT, OutOfMemory, SiteId};
use site_core::{Desk, Spending};
use std::alloc::Global;
use std::marker::Brand;
use std::rt::Clock;
use std::sync::Wait;
use std::thread;
use std::thread::Threads;
use std::time::Instant;

// The number of spends of all seats together.
const SPENDS: u64 = 1_000_000;

// The number of entries that arrive meanwhile.
const ENTRIES: u64 = 100_000;

fn unused(alloc: Global) -> Result<Desk, OutOfMemory>
    ensures { IfOk result (λ d. IsUnused d) }
{
    Desk::new(alloc, SiteId::known(1), 2)
}

/// The input from the other site.
#[derive(Drop)]
struct Feeder {
    intake: Intake,
    ghost open: { intake.finished ≡ false },
}

impl Feeder {
    // Whether all lines were taken in.
    fn feed<R: Wait>(self, rt: &R, lines: &[String]) -> bool {
        let Feeder { intake } = self;
        feed(rt, intake, lines)
    }
}

fn link(alloc: Global) -> Option<(Feeder, Outlet)>
    ensures { IfSome result (λ r. r.1.taken ≡ []) }
{
    let inbound = Inbound::new(alloc, SiteId::known(1), SiteId::known(2), 2).ok()?;
    let (inlet, outlet) = lane(alloc, 32).ok()?;
    let intake = Intake::new(inbound, inlet);
    Some((Feeder { intake }, outlet))
}

// The lines of this number of entries, each of which gives the desk one right.
fn lines(alloc: Global) -> Option<Vec<String>> {
    let mut lines = Vec::new(alloc);
    for number in 0..ENTRIES {
        let own = number.wrapping_add(1);
        let line = format!(in alloc; "E 2 {number} {own} R:1:1\n").ok()?;
        lines.push(line).ok()?;
    }
    Some(lines)
}

// The nanoseconds that the seat takes to spend this number of rights, one at a time.
fn spend_all<D: DeskNames, R: Wait + Clock>(
    rt: &R,
    desk: &SharedDesk<D>,
    mut seat: Seat<D>,
    count: u64,
) -> Option<u128> {
    let start = Instant::now(rt).ok()?;
    for _ in 0..count {
        let Ok(Spending::Spent(_)) = desk.lock(rt).spend(&mut seat, 1, 0) else {
            return None;
        };
    }
    Some(start.elapsed(rt).ok()?.as_nanos())
}

fn feed<R: Wait>(rt: &R, mut intake: Intake, lines: &[String]) -> bool
    requires { intake.finished ≡ false }
{
    for line in lines {
        if intake.on_line(rt, line.as_bytes()).is_err() {
            return false;
        }
    }
    intake.finish(rt).is_ok()
}

fn apply_all<D: DeskNames, R: Wait + Clock>(
    rt: &R,
    desk: &SharedDesk<D>,
    mut applier: Applier<D, Free>,
) -> Option<u128> {
    let start = Instant::now(rt).ok()?;
    if applier.run_ready(rt, desk).is_err() {
        return None;
    }
    let took = start.elapsed(rt).ok()?.as_nanos();
    if applier.done().number() != ENTRIES {
        return None;
    }
    Some(took)
}

fn seats<D: DeskNames, R: Wait>(
    rt: &R,
    alloc: Global,
    desk: &SharedDesk<D>,
    count: u64,
) -> Option<Vec<Seat<D>>> {
    let mut seats = Vec::new(alloc);
    for place in 0..count {
        let mut seat = desk.seat(rt).ok()?;
        if place == 0 && desk.lock(rt).issue(&mut seat, MAX_AMOUNT).is_err() {
            return None;
        }
        seats.push(seat).ok()?;
    }
    Some(seats)
}

// The longest of these times. `None` if one failed.
fn longest(times: &[Option<u128>]) -> Option<u128> {
    let mut longest = 0u128;
    for time in times {
        longest = longest.max((*time)?);
    }
    Some(longest)
}

// The nanoseconds of all seats, each on a thread of its own.
fn spend_each<D: DeskNames + Send + Sync, R: Threads + Wait + Clock + Sync>(
    rt: &R,
    desk: &SharedDesk<D>,
    seats: Vec<Seat<D>>,
    each: u64,
) -> Option<u128> {
    let times = thread::map_vec(rt, seats, &|seat: Seat<D>| spend_all(rt, desk, seat, each));
    match times {
        Ok(times) => longest(times.as_slice()),
        Err(_) => None,
    }
}

// The nanoseconds of the applier, if all lines were taken in on another thread.
fn feed_and_apply<D: DeskNames + Send + Sync, R: Threads + Wait + Clock + Sync>(
    rt: &R,
    desk: &SharedDesk<D>,
    feeder: Feeder,
    applier: Applier<D, Free>,
    lines: &[String],
) -> Option<u128> {
    let (fed, applied) = thread::join(
        rt,
        move || feeder.feed(rt, lines),
        move || apply_all(rt, desk, applier),
    );
    if fed { applied } else { None }
}

// The input from the other site, and its applier.
fn applier_of<D: DeskNames, R: Wait>(
    rt: &R,
    alloc: Global,
    desk: &SharedDesk<D>,
) -> Option<(Feeder, Applier<D, Free>)> {
    let (feeder, outlet) = link(alloc)?;
    match desk.applier(rt, SiteId::known(2), outlet, Free) {
        Ok(applier) => Some((feeder, applier)),
        Err(_) => None,
    }
}

// The nanoseconds of this number of seats on as many threads, and of the applier that runs besides.
fn game<D: DeskNames + Send + Sync, R: Threads + Wait + Clock + Sync>(
    rt: &R,
    alloc: Global,
    count: u64,
    lines: &[String],
    desk: Desk,
    blanks: Blanks,
) -> Option<(u128, u128)>
    requires id { D.id ≡ id_of desk blanks }
    requires blanks { AreBlank blanks }
    requires unused { IsUnused desk }
{
    let desk = SharedDesk::<D>::new(desk, blanks);
    let seats = seats(rt, alloc, &desk, count)?;
    let (feeder, applier) = applier_of(rt, alloc, &desk)?;
    let each = SPENDS.checked_div(count).unwrap_or(0);
    let shared = &desk;
    let (spent, applied) = thread::join(
        rt,
        move || spend_each(rt, shared, seats, each),
        move || feed_and_apply(rt, shared, feeder, applier, lines),
    );
    Some((spent?, applied?))
}

// The nanoseconds of one seat, with no other thread at the desk.
fn alone<D: DeskNames, R: Wait + Clock>(
    rt: &R,
    alloc: Global,
    desk: Desk,
    blanks: Blanks,
) -> Option<u128>
    requires id { D.id ≡ id_of desk blanks }
    requires blanks { AreBlank blanks }
    requires unused { IsUnused desk }
{
    let desk = SharedDesk::<D>::new(desk, blanks);
    let seat = seats(rt, alloc, &desk, 1)?.pop()?;
    spend_all(rt, &desk, seat, SPENDS)
}

fn alone_time<R: Wait + Clock>(rt: &R, alloc: Global) -> Option<u128> {
    let desk = unused(alloc).ok()?;
    alone::<Brand, R>(rt, alloc, desk, Blanks::new())
}

fn game_time<R: Threads + Wait + Clock + Sync>(
    rt: &R,
    alloc: Global,
    count: u64,
    lines: &[String],
) -> Option<(u128, u128)> {
    let desk = unused(alloc).ok()?;
    game::<Brand, R>(rt, alloc, count, lines, desk, Blanks::new())
}

// Prints the rate of one seat alone.
fn measure_alone<R: Clock + Print + Wait>(rt: &R, alloc: Global) -> Option<()> {
    let mut spends = u128::MAX;
    for _ in 0..RUNS {
        spends = spends.min(alone_time(rt, alloc)?);
    }
    let spends = per_second(SPENDS, spends);
    println!(rt; "shared desk, a seat alone: {spends} spends/s under the lock").ok()
}

// Prints the rates of this number of seats besides an applier.
fn measure_game<R: Clock + Print + Threads + Wait + Sync>(
    rt: &R,
    alloc: Global,
    count: u64,
    lines: &[String],
) -> Option<()> {
    let (mut spends, mut applied) = (u128::MAX, u128::MAX);
    for _ in 0..RUNS {
        let (spending, applying) = game_time(rt, alloc, count, lines)?;
        spends = spends.min(spending);
        applied = applied.min(applying);
    }
    let spends = per_second(SPENDS, spends);
    let applied = per_second(ENTRIES, applied);
    println!(rt;
        "shared desk, {count} seats: {spends} spends/s under the lock, {applied} entries/s applied beside them"
    ).ok()
}

/// Prints the rates of one seat alone, and of 1, 2 and 4 seats besides an applier.
pub(crate) fn measure_seats<R: Clock + Print + Threads + Wait + Sync + AllocGlobal>(
    rt: &R,
) -> Option<()> {
    let alloc = rt.alloc();
    measure_alone(rt, alloc)?;
    let lines = lines(alloc)?;
    for count in [1u64, 2, 4] {
        measure_game(rt, alloc, count, lines.as_slice())?;
    }
    Some(())
}
