//! Seats on threads of their own, how many a desk gives out, and the one of its site's clock.
ghost use Rattle.std.specs.Prelude.{◌≡◌};
ghost use Rattle.apply_lanes.specs.Names.{id_of, AreBlank, IsUnused};

use crate::tests::desks::{alone, clock_seat_at, desk_among, issue, report_of, seat_at, with_seat};
use crate::tests::parts::without_a_seat;
use crate::tests::scenes::{Host, Scene, play};
use apply_lanes::{Blanks, DeskNames, Report, SEATS, Seat, SharedDesk};
use site_core::{Desk, Spending};
use std::alloc::Global;
use std::marker::Brand;
use std::process::Abort;
use std::sync::Wait;
use std::thread;
use std::thread::Threads;

// Spends one right this number of times, and counts what was spent and what waits.
fn spends<D: DeskNames, R: Wait>(
    rt: &R,
    desk: &SharedDesk<D>,
    mut seat: Seat<D>,
    times: u64,
) -> (Seat<D>, u64, u64) {
    let mut spent = 0u64;
    let mut queued = 0u64;
    for _ in 0..times {
        match desk.lock(rt).spend(&mut seat, 1, 0) {
            Ok(Spending::Spent(_)) => spent = spent.wrapping_add(1),
            Ok(Spending::Queued(_)) => queued = queued.wrapping_add(1),
            Err(_) => {}
        }
    }
    (seat, spent, queued)
}

// Both seats, once each has spent ten times on a thread of its own: ten rights in all, and ten wait.
fn both_spend<D: DeskNames + Send + Sync, R: Threads + Wait + Abort + Sync>(
    rt: &R,
    desk: &SharedDesk<D>,
    one: Seat<D>,
    other: Seat<D>,
) -> (Seat<D>, Seat<D>) {
    let ((one, spent, queued), (other, more_spent, more_queued)) = thread::join(
        rt,
        move || spends(rt, desk, one, 10),
        move || spends(rt, desk, other, 10),
    );
    assert!(rt; one.told_spent() == spent && other.told_spent() == more_spent);
    assert!(rt; spent.wrapping_add(more_spent) == 10 && queued.wrapping_add(more_queued) == 10);
    (one, other)
}

// A seat that issued ten rights, and the two that spent them.
fn three_seats<D: DeskNames + Send + Sync, R: Threads + Wait + Abort + Sync>(
    rt: &R,
    desk: &SharedDesk<D>,
) -> (Seat<D>, Seat<D>, Seat<D>) {
    let mut first = seat_at(rt, desk);
    issue(rt, desk, &mut first, 10);
    let (second, third) = both_spend(rt, desk, seat_at(rt, desk), seat_at(rt, desk));
    (first, second, third)
}

// Whether ten rights wait at the desk, and none are held.
fn is_spent<D: DeskNames, R: Wait>(rt: &R, desk: &SharedDesk<D>) -> bool {
    let view = desk.lock(rt).view();
    (view.queued, view.held) == (10, 0)
}

fn twenty_spends<D: DeskNames + Send + Sync, R: Threads + Wait + Abort + Sync>(
    rt: &R,
    alloc: Global,
    desk: Desk,
    blanks: Blanks,
) -> Report
    requires id { D.id ≡ id_of desk blanks }
    requires blanks { AreBlank blanks }
    requires unused { IsUnused desk }
{
    let desk = SharedDesk::<D>::new(desk, blanks);
    let (first, second, third) = three_seats(rt, &desk);
    assert!(rt; is_spent(rt, &desk));
    let parts = with_seat(rt, alone(alloc, desk), first);
    let parts = with_seat(rt, parts, second);
    report_of(rt, with_seat(rt, parts, third))
}

/// Twenty spends of one right from two threads, with ten rights held: ten are spent, and ten wait.
#[test]
fn twenty_spends_of_ten_rights(rt: HostRuntime) {
    let desk = desk_among(&rt, rt.alloc(), 3);
    let report = twenty_spends::<Brand, HostRuntime>(&rt, rt.alloc(), desk, Blanks::new());
    assert!(rt; report.issued == 10 && report.spent == 10);
    assert!(rt; report.given == 0 && report.held == 0);
    assert!(rt; report.told_issued == 10 && report.told_spent == 10 && report.told_served == 0);
}

// All seats but the clock's: sixty-four, and no more.
fn take_all_seats<D: DeskNames, R: Wait + Abort>(rt: &R, desk: &SharedDesk<D>) {
    for _ in 0..SEATS {
        let _ = seat_at(rt, desk);
    }
    assert!(rt; desk.seat(rt).is_err());
}

// The clock's seat, which is given out once.
fn take_the_clock_seat<D: DeskNames, R: Wait + Abort>(rt: &R, desk: &SharedDesk<D>) {
    let _ = clock_seat_at(rt, desk);
    assert!(rt; desk.clock_seat(rt).is_err());
}

// Whether each seat was given out, the clock's too.
fn has_no_seat<D: DeskNames, R: Wait>(rt: &R, desk: &SharedDesk<D>) -> bool {
    desk.seat(rt).is_err() && desk.clock_seat(rt).is_err()
}

/// All seats are taken, the clock's before or after the others.
#[derive(Clone, Copy)]
struct AllSeats {
    clock_first: bool,
}

impl Scene for AllSeats {
    type Seen = ();

    fn play<D: DeskNames, R: Host>(self, rt: &R, desk: SharedDesk<D>) {
        if self.clock_first {
            take_the_clock_seat(rt, &desk);
        }
        take_all_seats(rt, &desk);
        if !self.clock_first {
            take_the_clock_seat(rt, &desk);
        }
        assert!(rt; has_no_seat(rt, &desk));
    }
}

/// Sixty-four seats are given out, and no more, besides the clock's.
#[test]
fn sixty_four_seats(rt: HostRuntime) {
    play(&rt, 2, AllSeats { clock_first: false });
}

/// The clock's seat is not one of the sixty-four others.
#[test]
fn sixty_four_seats_after_the_clock(rt: HostRuntime) {
    play(&rt, 2, AllSeats { clock_first: true });
}

// A seat whose spend of three waits while it issues ten.
fn a_waiting_spend<D: DeskNames, R: Wait + Abort>(rt: &R, desk: &SharedDesk<D>) -> Seat<D> {
    let mut seat = seat_at(rt, desk);
    let spending = desk.lock(rt).spend(&mut seat, 3, 0);
    assert!(rt; spending == Ok(Spending::Queued(1)));
    issue(rt, desk, &mut seat, 10);
    seat
}

// The clock's seat, which serves that spend.
fn a_serving_clock<D: DeskNames, R: Wait + Abort>(rt: &R, desk: &SharedDesk<D>) -> Seat<D> {
    let mut clock = clock_seat_at(rt, desk);
    let served = desk.lock(rt).serve(&mut clock);
    assert!(rt; served == Ok(Some((1, 2, 3))));
    clock
}

/// A stop without the clock's seat, which served a spend, and one with it.
#[derive(Clone, Copy)]
struct MissingClock;

impl Scene for MissingClock {
    type Seen = Report;

    fn play<D: DeskNames, R: Host>(self, rt: &R, desk: SharedDesk<D>) -> Report {
        let seat = a_waiting_spend(rt, &desk);
        let clock = a_serving_clock(rt, &desk);
        let parts = without_a_seat(rt, with_seat(rt, alone(rt.alloc(), desk), seat));
        report_of(rt, with_seat(rt, parts, clock))
    }
}

/// A desk stops once the clock's seat is back too, and what that seat served counts.
#[test]
fn no_stop_without_the_clock_seat(rt: HostRuntime) {
    let report = play(&rt, 2, MissingClock);
    assert!(rt; report.issued == 10 && report.spent == 3 && report.held == 7);
    assert!(rt; report.told_issued == 10 && report.told_spent == 0 && report.told_served == 3);
}
