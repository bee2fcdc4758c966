//! Many concurrent calls: eight seats and three appliers at one desk, in a random order.
ghost use Rattle.std.specs.Prelude.{◌≡◌, ◌≤◌, false};
ghost use Rattle.apply_lanes.specs.Names.{id_of, AreBlank, IsUnused};

use crate::tests::desks::{applier_at, desk_among, report_of, seat_at};
use crate::tests::links::link;
use apply_lanes::{
    Applied, Applier, Blanks, DeskNames, Free, Intake, Kept, Parts, Report, Seat, SharedDesk,
};
use request_queue::Status;
use rights_types::SiteId;
use site_core::{Desk, Spending};
use std::alloc::Global;
use std::marker::Brand;
use std::process::Abort;
use std::sync::Wait;
use std::thread;
use std::thread::Threads;
use std::time::Clock;
use test_kit::Dice;

// The number of calls of each of eight seats.
const CALLS: u64 = 12_500;

// The number of entries of each of three origins. Each gives two rights to the desk's site.
const ENTRIES: u64 = 1_000;

/// The rights that were reported to the holder of a seat.
#[derive(Clone, Copy)]
struct Confirmed {
    issued: u64,
    spent: u64,
    served: u64,
    given: u64,
}

const NOTHING: Confirmed = Confirmed {
    issued: 0,
    spent: 0,
    served: 0,
    given: 0,
};

/// A seat, and what was reported to its holder.
#[derive(Drop)]
struct Player<D: DeskNames> {
    seat: Seat<D>,
    seed: u64,
    confirmed: Confirmed,
}

// Calls under the lock, and what they reported: in functions of their own, as a check of many together takes long.

fn issued<D: DeskNames>(kept: &mut Kept<D>, seat: &mut Seat<D>, amount: u64) -> u64 {
    match kept.issue(seat, amount) {
        Ok(_) => amount,
        Err(_) => 0,
    }
}

fn spent<D: DeskNames>(kept: &mut Kept<D>, seat: &mut Seat<D>, amount: u64) -> u64 {
    match kept.spend(seat, amount, 0) {
        Ok(Spending::Spent(_)) => amount,
        _ => 0,
    }
}

fn served<D: DeskNames>(kept: &mut Kept<D>, seat: &mut Seat<D>) -> u64 {
    match kept.serve(seat) {
        Ok(Some((ticket, number, amount))) => {
            // Its slot is free again once its outcome is read.
            let outcome = kept.status(ticket);
            if outcome == Status::Spent(number) {
                amount
            } else {
                0
            }
        }
        _ => 0,
    }
}

fn given<D: DeskNames>(kept: &mut Kept<D>, amount: u64) -> u64 {
    match kept.give_back(SiteId::known(2), amount) {
        Ok(_) => amount,
        Err(_) => 0,
    }
}

impl<D: DeskNames> Player<D> {
    fn call<R: Wait>(&mut self, rt: &R, desk: &SharedDesk<D>, dice: &mut Dice) {
        let amount = dice.roll(9).wrapping_add(1);
        let kind = dice.roll(10);
        let mut kept = desk.lock(rt);
        let kept = &mut *kept;
        let confirmed = &mut self.confirmed;
        match kind {
            0..=2 => confirmed.issued = confirmed
                .issued
                .wrapping_add(issued(kept, &mut self.seat, amount)),
            3..=5 => confirmed.spent = confirmed
                .spent
                .wrapping_add(spent(kept, &mut self.seat, amount)),
            6..=8 => confirmed.served = confirmed.served.wrapping_add(served(kept, &mut self.seat)),
            _ => confirmed.given = confirmed.given.wrapping_add(given(kept, amount)),
        }
    }

    fn play<R: Wait>(mut self, rt: &R, desk: &SharedDesk<D>) -> Player<D> {
        let mut dice = Dice::new(self.seed);
        for _ in 0..CALLS {
            self.call(rt, desk, &mut dice);
        }
        self
    }
}

/// The input from an origin.
#[derive(Drop)]
struct Feeder {
    intake: Intake,
    origin: u64,
    ghost open: { intake.finished ≡ false },
}

fn make_feeder(intake: Intake, origin: u64) -> Feeder
    requires { intake.finished ≡ false }
{
    Feeder { intake, origin }
}

// The line of the origin's entry after that number.
fn line_of<R: Abort>(rt: &R, alloc: Global, origin: u64, number: u64) -> String {
    let own = number.wrapping_add(1);
    format!(in alloc; "E {origin} {number} {own} R:1:2\n").expect(rt, "memory")
}

// The intake takes each line in, and End goes to the lane.
fn feed<R: Wait + Abort>(rt: &R, alloc: Global, mut intake: Intake, origin: u64)
    requires { intake.finished ≡ false }
{
    for number in 0..ENTRIES {
        let line = line_of(rt, alloc, origin, number);
        assert!(rt; intake.on_line(rt, line.as_bytes()).is_ok());
    }
    intake.finish(rt).ok().expect(rt, "End is put");
}

impl Feeder {
    fn feed<R: Wait + Abort>(self, rt: &R, alloc: Global) {
        let Feeder { intake, origin } = self;
        feed(rt, alloc, intake, origin);
    }
}

// What the applier reports, once it has applied its log.
fn apply_all<D: DeskNames, R: Wait + Clock + Abort>(
    rt: &R,
    desk: &SharedDesk<D>,
    mut applier: Applier<D, Free>,
) -> Applied<D> {
    assert!(rt; applier.run_ready(rt, desk) == Ok(()));
    applier.done()
}

fn players_at<D: DeskNames, R: Wait + Abort>(
    rt: &R,
    alloc: Global,
    desk: &SharedDesk<D>,
) -> Vec<Player<D>> {
    let mut players = Vec::new(alloc);
    for seed in 0..8u64 {
        let player = Player {
            seat: seat_at(rt, desk),
            seed,
            confirmed: NOTHING,
        };
        players.push(player).ok().expect(rt, "memory");
    }
    players
}

type Links<D> = (Vec<Feeder>, Vec<Applier<D, Free>>);

// The input from that origin, and its applier.
fn link_of<D: DeskNames, R: Wait + Abort>(
    rt: &R,
    alloc: Global,
    desk: &SharedDesk<D>,
    origin: u64,
) -> (Feeder, Applier<D, Free>)
    requires { (2 ≤ origin) × (origin ≤ 4) }
{
    let (intake, outlet) = link(rt, alloc, origin, 4);
    let feeder = make_feeder(intake, origin);
    (feeder, applier_at(rt, desk, origin, outlet, Free))
}

// The input from each of three origins, and their appliers.
fn links_of<D: DeskNames, R: Wait + Abort>(
    rt: &R,
    alloc: Global,
    desk: &SharedDesk<D>,
) -> Links<D> {
    let mut feeders = Vec::new(alloc);
    let mut appliers = Vec::new(alloc);
    for origin in 2..5u64 {
        let (feeder, applier) = link_of(rt, alloc, desk, origin);
        feeders.push(feeder).ok().expect(rt, "memory");
        appliers.push(applier).ok().expect(rt, "memory");
    }
    (feeders, appliers)
}

// Their seats, and what was reported to all of them.
fn seats_of<D: DeskNames, R: Abort>(
    rt: &R,
    alloc: Global,
    players: Vec<Player<D>>,
) -> (Vec<Seat<D>>, Confirmed) {
    let mut seats = Vec::new(alloc);
    let mut sum = NOTHING;
    for player in players {
        let Player {
            seat,
            seed: _,
            confirmed,
        } = player;
        seats.push(seat).ok().expect(rt, "memory");
        sum.issued = sum.issued.wrapping_add(confirmed.issued);
        sum.spent = sum.spent.wrapping_add(confirmed.spent);
        sum.served = sum.served.wrapping_add(confirmed.served);
        sum.given = sum.given.wrapping_add(confirmed.given);
    }
    (seats, sum)
}

// All players, once each has made its calls on a thread of its own.
fn played<D: DeskNames + Send + Sync, R: Threads + Wait + Abort + Sync>(
    rt: &R,
    desk: &SharedDesk<D>,
    players: Vec<Player<D>>,
) -> Vec<Player<D>> {
    thread::map_vec(rt, players, &|player: Player<D>| player.play(rt, desk)).expect(rt, "memory")
}

// Each origin's lines are taken in, each on a thread of its own.
fn feed_all<R: Threads + Wait + Abort + Sync>(rt: &R, alloc: Global, feeders: Vec<Feeder>) {
    thread::map_vec(rt, feeders, &|feeder: Feeder| feeder.feed(rt, alloc)).expect(rt, "memory");
}

// What all appliers report, once each has applied its log on a thread of its own.
fn applied<D: DeskNames + Send + Sync, R: Threads + Wait + Clock + Abort + Sync>(
    rt: &R,
    desk: &SharedDesk<D>,
    appliers: Vec<Applier<D, Free>>,
) -> Vec<Applied<D>> {
    thread::map_vec(
        rt,
        appliers,
        &|one: Applier<D, Free>| apply_all(rt, desk, one),
    )
    .expect(rt, "memory")
}

type Played<D> = (Vec<Player<D>>, Vec<Applied<D>>);

// All players and what all appliers report, once all calls are made and all logs applied concurrently.
fn play_all<D: DeskNames + Send + Sync, R: Threads + Wait + Clock + Abort + Sync>(
    rt: &R,
    alloc: Global,
    desk: &SharedDesk<D>,
    players: Vec<Player<D>>,
    links: Links<D>,
) -> Played<D> {
    let (feeders, appliers) = links;
    let (players, (applied, ())) = thread::join(
        rt,
        move || played(rt, desk, players),
        move || {
            thread::join(
                rt,
                move || applied(rt, desk, appliers),
                move || feed_all(rt, alloc, feeders),
            )
        },
    );
    (players, applied)
}

fn a_game<D: DeskNames + Send + Sync, R: Threads + Wait + Clock + Abort + Sync>(
    rt: &R,
    alloc: Global,
    desk: Desk,
    blanks: Blanks,
) -> (Report, Confirmed)
    requires id { D.id ≡ id_of desk blanks }
    requires blanks { AreBlank blanks }
    requires unused { IsUnused desk }
{
    let desk = SharedDesk::<D>::new(desk, blanks);
    let players = players_at(rt, alloc, &desk);
    let links = links_of(rt, alloc, &desk);
    let (players, applied) = play_all(rt, alloc, &desk, players, links);
    let (seats, confirmed) = seats_of(rt, alloc, players);
    let parts = Parts {
        desk,
        seats,
        applied,
    };
    (report_of(rt, parts), confirmed)
}

// Whether the report equals what was reported to the holders of the seats.
fn is_confirmed(report: &Report, confirmed: &Confirmed) -> bool {
    report.told_issued == confirmed.issued
        && report.told_spent == confirmed.spent
        && report.told_served == confirmed.served
        && report.issued == confirmed.issued
        && report.given == confirmed.given
        && report.spent == confirmed.spent.wrapping_add(confirmed.served)
}

// Whether all entries were applied, and what was received was spent or given, or is held.
fn is_even(report: &Report) -> bool {
    let out = report
        .held
        .wrapping_add(report.spent)
        .wrapping_add(report.given);
    report.received == 6 * ENTRIES
        && report.applied == 3 * ENTRIES
        && out == report.issued.wrapping_add(report.received)
}

/// A hundred thousand calls of eight seats, besides three appliers: the desk's report is what their calls reported.
#[test]
fn a_hundred_thousand_calls(rt: HostRuntime) {
    let desk = desk_among(&rt, rt.alloc(), 4);
    let (report, confirmed) = a_game::<Brand, HostRuntime>(&rt, rt.alloc(), desk, Blanks::new());
    assert!(rt; is_confirmed(&report, &confirmed));
    assert!(rt; is_even(&report));
    assert!(rt;
        confirmed.issued > 0 && confirmed.spent > 0 && confirmed.served > 0 && confirmed.given > 0
    );
}
