//! The end of a shared desk.
ghost use Rattle.std.specs.Prelude.{◌≡◌, ◌+◌, ◌<◌, ◌≤◌, ◌^◌, Some, None, IfOk, IfErr, MatchResult, length};
ghost use Rattle.apply_lanes.specs.Kepts.{KeptValue, IsKept};
ghost use Rattle.apply_lanes.specs.Stops.{all_issued, all_spent, all_served, all_numbers, all_received, Reports};
ghost use Rattle.apply_lanes.specs.Stops.{ReportsDesk, missing_of, missing_by, parts_of};
ghost use Rattle.thread_parts.specs.SplitCounters.{SplitCounterValue};
ghost use Rattle.apply_lanes.specs.declared.names.TheConstants.{SEATS, APPLIERS};

use crate::applier::Applied;
use crate::kept::{Kept, Missing};
use crate::names::{APPLIERS, DeskNames, IssuedBy, NumberOf, ReceivedBy, SEATS, SpentBy};
use crate::seat::Seat;
use crate::shared_desk::SharedDesk;
use site_core::Desk;
use std::alloc::{Allocator, Global};
use std::sync::Mutex;
use thread_parts::SplitCounter;

/// A shared desk, with everything that was given out for it.
#[derive(Drop)]
pub struct Parts<D: DeskNames, A: Allocator = Global> {
    pub desk: SharedDesk<D, A>,
    pub seats: Vec<Seat<D>, A>,
    pub applied: Vec<Applied<D>, A>,
}

/// Why a desk does not stop, in the order in which the causes are checked. All parts are returned.
#[derive(Drop)]
pub enum StopError<D: DeskNames, A: Allocator = Global> {
    /// A seat was given out that is not among the parts.
    SeatMissing(Parts<D, A>),
    /// An applier was given out, and what it applied is not among the parts.
    ApplierMissing(Parts<D, A>),
}

/// What a desk did, and what its seats and appliers reported.
#[derive(Clone, Copy, Debug, PartialEq, Eq)]
pub struct Report {
    pub issued: u64,
    pub spent: u64,
    pub given: u64,
    pub back: u64,
    pub received: u64,
    pub held: u64,
    pub told_issued: u64,
    pub told_spent: u64,
    pub told_served: u64,
    /// The sum of the numbers applied.
    pub applied: u64,
}

/// Stops a desk whose seats and appliers are all there. An error returns the desk unchanged, under a lock.
pub fn stop<D: DeskNames, A: Allocator + Copy>(
    parts: Parts<D, A>,
) -> Result<Report, StopError<D, A>>
    ensures ok { IfOk result (λ r. Reports parts.seats.items parts.applied.items r) }
    ensures desk { IfOk result (λ r. (kept : KeptValue) × IsKept D.id kept
        × (missing_of kept (length parts.seats.items) (length parts.applied.items) ≡ None) × ReportsDesk kept.desk r) }
    ensures refused { IfErr result (λ e. (kept : KeptValue) × IsKept D.id kept
        × (missing_of kept (length parts.seats.items) (length parts.applied.items) ≡ Some (missing_by e))) }
    ensures err { IfErr result (λ e. ((parts_of e).seats ≡ parts.seats) × ((parts_of e).applied ≡ parts.applied)) }
{
    let Parts {
        desk,
        seats,
        applied,
    } = parts;
    let SharedDesk { lock } = desk;
    // The desk decides. If it refuses, it goes back under a lock unchanged.
    match end(lock.into_inner(), seats, applied) {
        Ok(report) => Ok(report),
        Err(unfinished) => Err(unfinished.again()),
    }
}

// A desk that does not stop, taken out of its lock.
struct Unfinished<D: DeskNames, A: Allocator> {
    missing: Missing,
    kept: Kept<D, A>,
    seats: Vec<Seat<D>, A>,
    applied: Vec<Applied<D>, A>,
}

impl<D: DeskNames, A: Allocator + Copy> Unfinished<D, A> {
    // The refusal, with the desk back under a lock.
    fn again(self) -> StopError<D, A>
        ensures missing { missing_by result ≡ self.missing }
        ensures parts { ((parts_of result).seats ≡ self.seats) × ((parts_of result).applied ≡ self.applied) }
    {
        let Unfinished {
            missing,
            kept,
            seats,
            applied,
        } = self;
        let parts = Parts {
            desk: SharedDesk {
                lock: Mutex::new(kept),
            },
            seats,
            applied,
        };
        match missing {
            Missing::Seat => StopError::SeatMissing(parts),
            Missing::Applier => StopError::ApplierMissing(parts),
        }
    }
}

// What the desk did, and what all seats and appliers reported. If one of them is missing, the desk is returned
// unchanged.
fn end<D: DeskNames, A: Allocator + Copy>(
    kept: Kept<D, A>,
    seats: Vec<Seat<D>, A>,
    applied: Vec<Applied<D>, A>,
) -> Result<Report, Unfinished<D, A>>
    ensures refused { MatchResult result (λ _. missing_of kept (length seats.items) (length applied.items) ≡ None)
        (λ e. missing_of kept (length seats.items) (length applied.items) ≡ Some e.missing) }
    ensures ok { IfOk result (λ r. Reports seats.items applied.items r × ReportsDesk kept.desk r) }
    ensures err { IfErr result (λ e. (e.kept ≡ kept) × (e.seats ≡ seats) × (e.applied ≡ applied)) }
    ensures kept { IsKept D.id kept }
{
    match kept.missing(seats.len(), applied.len()) {
        Some(missing) => Err(Unfinished {
            missing,
            kept,
            seats,
            applied,
        }),
        None => Ok(reconcile(kept, seats, applied)),
    }
}

// What the desk did, and what all seats and appliers reported.
fn reconcile<D: DeskNames, A: Allocator + Copy>(
    kept: Kept<D, A>,
    seats: Vec<Seat<D>, A>,
    applied: Vec<Applied<D>, A>,
) -> Report
    requires seats { kept.issued.left + length seats.items ≡ SEATS + 1 }
    requires applied { kept.number.left + length applied.items ≡ APPLIERS }
    ensures all { Reports seats.items applied.items result }
    ensures desk { ReportsDesk kept.desk result }
{
    let Kept {
        desk,
        issued,
        spent,
        number,
        received,
        admitted: _,
        clock_given: _,
        records: _,
        keys: _,
    } = kept;
    let (told_issued, told_spent, told_served) = reconcile_seats(issued, spent, seats);
    let applied = reconcile_applied(number, received, applied);
    Report {
        issued: desk.issued(),
        spent: desk.spent(),
        given: desk.given(),
        back: desk.taken_back(),
        received: desk.received(),
        held: desk.held(),
        told_issued,
        told_spent,
        told_served,
        applied,
    }
}

// If all seats are there, the sums are what they reported: issued, spent and served.
fn reconcile_seats<D: DeskNames, A: Allocator>(
    mut issued: SplitCounter<IssuedBy<D>>,
    mut spent: SplitCounter<SpentBy<D>>,
    seats: Vec<Seat<D>, A>,
) -> (u64, u64, u64)
    requires room { (issued.left + length seats.items ≡ SEATS + 1) × (spent.left + length seats.items ≡ SEATS + 1) }
    requires none { (issued.returned ≡ 0) × (spent.returned ≡ 0) }
    requires fits { (issued.sum < 2 ^ 64) × (spent.sum < 2 ^ 64) }
    ensures told { (result.0 ≡ all_issued seats.items) × (result.1 ≡ all_spent seats.items)
        × (result.2 ≡ all_served seats.items) }
    ensures sums { (issued.sum ≡ all_issued seats.items)
        × (spent.sum ≡ all_spent seats.items + all_served seats.items) }
{
    let told = collect_seats(&mut issued, &mut spent, seats);
    issued.reconcile();
    spent.reconcile();
    told
}

// If all appliers are there, the sums are what they reported. Returns the sum of the numbers.
fn reconcile_applied<D: DeskNames, A: Allocator>(
    mut number: SplitCounter<NumberOf<D>>,
    mut received: SplitCounter<ReceivedBy<D>>,
    applied: Vec<Applied<D>, A>,
) -> u64
    requires room { (number.left + length applied.items ≡ APPLIERS)
        × (received.left + length applied.items ≡ APPLIERS) }
    requires none { (number.returned ≡ 0) × (received.returned ≡ 0) }
    ensures told { result ≡ all_numbers applied.items }
    ensures sums { received.sum ≡ all_received applied.items }
{
    collect_applied(&mut number, &mut received, applied);
    number.reconcile();
    received.reconcile();
    number.sum()
}

// Takes back the shards of all seats, and returns what they reported: issued, spent and served.
fn collect_seats<D: DeskNames, A: Allocator>(
    issued: &mut SplitCounter<IssuedBy<D>>,
    spent: &mut SplitCounter<SpentBy<D>>,
    seats: Vec<Seat<D>, A>,
) -> (u64, u64, u64)
    requires room { (issued.old.left + length seats.items ≡ SEATS + 1)
        × (spent.old.left + length seats.items ≡ SEATS + 1) }
    requires none { (issued.old.returned ≡ 0) × (spent.old.returned ≡ 0) }
    requires fits { (issued.old.sum < 2 ^ 64) × (spent.old.sum < 2 ^ 64) }
    ensures told { (result.0 ≡ all_issued seats.items) × (result.1 ≡ all_spent seats.items)
        × (result.2 ≡ all_served seats.items) }
    ensures issued { issued.new ≡ record issued.old { left = SEATS + 1; returned = all_issued seats.items } }
    ensures spent { spent.new
        ≡ record spent.old { left = SEATS + 1; returned = all_spent seats.items + all_served seats.items } }
{
    let (mut told_issued, mut told_spent, mut told_served) = (0u64, 0u64, 0u64);
    for seat in seats {
        let Seat {
            issued: issued_by,
            used,
            spent: spent_by,
            served,
        } = seat;
        told_issued += issued.collect(issued_by);
        spent.collect(used);
        told_spent += spent_by;
        told_served += served;
    }
    (told_issued, told_spent, told_served)
}

// Takes back the shards of all appliers.
fn collect_applied<D: DeskNames, A: Allocator>(
    number: &mut SplitCounter<NumberOf<D>>,
    received: &mut SplitCounter<ReceivedBy<D>>,
    applied: Vec<Applied<D>, A>,
)
    requires room { (number.old.left + length applied.items ≡ APPLIERS)
        × (received.old.left + length applied.items ≡ APPLIERS) }
    requires none { (number.old.returned ≡ 0) × (received.old.returned ≡ 0) }
    ensures number { number.new ≡ record number.old { left = APPLIERS; returned = all_numbers applied.items } }
    ensures received { received.new ≡ record received.old { left = APPLIERS; returned = all_received applied.items } }
{
    for one in applied {
        let (of_number, of_received) = one.into_shards();
        number.collect(of_number);
        received.collect(of_received);
    }
}
