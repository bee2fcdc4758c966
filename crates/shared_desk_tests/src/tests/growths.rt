//! Calls of a shared desk with each memory request refused.
ghost use Rattle.std.specs.Prelude.{◌≡◌};
ghost use Rattle.apply_lanes.specs.Names.{id_of, AreBlank, IsUnused};

use crate::tests::desks::{applier_at, new_desk, seat_at};
use crate::tests::links::{feed, link};
use apply_lanes::{
    Applier, Blanks, DeskNames, DeskView, Free, Intake, Kept, Seat, SharedDesk, StepError,
};
use origin_log::ReadError;
use refusing_allocator::Refusing;
use rights_types::{Amount, Ask, AskNumber, OutOfMemory, Query, SiteId};
use site_core::{Desk, DeskError};
use std::alloc::Global;
use std::marker::Brand;
use std::process::Abort;
use std::sync::Wait;
use std::time::Clock;
use test_kit::requests_of;

/// A call of a desk of site 1 of two, with 2 as the peer.
#[derive(Clone, Copy)]
enum Call {
    Issue(u64),
    Spend(u64),
    Serve,
    Give(u64),
    Plan,
    AskLine,
    Publish,
    Beat,
    /// The peer queries the first entry.
    Query,
    /// The peer asks for this number of rights, with the ask of that number.
    Asked(u64, u64),
    /// The next entry of the peer is applied.
    Apply,
    Close,
}

/// The result of a call.
#[derive(Clone, Copy, PartialEq, Eq)]
enum Outcome {
    Done,
    NoMemory,
    Refused,
}

fn of_desk<T: Drop>(answer: Result<T, DeskError>) -> Outcome {
    match answer {
        Ok(_) => Outcome::Done,
        Err(DeskError::OutOfMemory) => Outcome::NoMemory,
        Err(_) => Outcome::Refused,
    }
}

fn of_line<T: Drop>(answer: Result<T, OutOfMemory>) -> Outcome {
    match answer {
        Ok(_) => Outcome::Done,
        Err(OutOfMemory) => Outcome::NoMemory,
    }
}

type Refused<'a> = &'a Refusing<Global>;

fn issue<D: DeskNames>(kept: &mut Kept<D, Refused>, seat: &mut Seat<D>, amount: u64) -> Outcome {
    of_desk(kept.issue(seat, amount))
}

fn spend<D: DeskNames>(kept: &mut Kept<D, Refused>, seat: &mut Seat<D>, amount: u64) -> Outcome {
    of_desk(kept.spend(seat, amount, 0))
}

fn serve<D: DeskNames>(kept: &mut Kept<D, Refused>, seat: &mut Seat<D>) -> Outcome {
    of_desk(kept.serve(seat))
}

fn give<D: DeskNames>(kept: &mut Kept<D, Refused>, amount: u64) -> Outcome {
    of_desk(kept.give_back(SiteId::known(2), amount))
}

fn plan<D: DeskNames>(kept: &mut Kept<D, Refused>) -> Outcome {
    match kept.plan() {
        1 => Outcome::Done,
        _ => Outcome::Refused,
    }
}

fn ask_line<D: DeskNames>(kept: &Kept<D, Refused>) -> Outcome {
    of_line(kept.ask_line(SiteId::known(2)))
}

fn publish<D: DeskNames>(kept: &mut Kept<D, Refused>) -> Outcome {
    of_line(kept.publish(SiteId::known(2)))
}

fn beat<D: DeskNames>(kept: &Kept<D, Refused>) -> Outcome {
    of_line(kept.beat_line(SiteId::known(2)))
}

fn query<D: DeskNames>(kept: &Kept<D, Refused>) -> Outcome {
    let Ok(query) = Query::new(SiteId::known(2), SiteId::known(1), 1, 1) else {
        return Outcome::Refused;
    };
    match kept.on_query(&query) {
        Ok(_) => Outcome::Done,
        Err(ReadError::OutOfMemory) => Outcome::NoMemory,
        Err(_) => Outcome::Refused,
    }
}

// The ask of the peer, with that number and amount.
fn an_ask(number: u64, amount: u64) -> Option<Ask> {
    let number = AskNumber::new(number).ok()?;
    let amount = Amount::new(amount).ok()?;
    Ask::new(SiteId::known(2), SiteId::known(1), number, amount).ok()
}

fn asked<D: DeskNames>(kept: &mut Kept<D, Refused>, number: u64, amount: u64) -> Outcome {
    let Some(ask) = an_ask(number, amount) else {
        return Outcome::Refused;
    };
    if ask.asker().number() > kept.desk().sites() || ask.asked() != kept.desk().site() {
        return Outcome::Refused;
    }
    of_line(kept.on_ask(&ask))
}

fn close<D: DeskNames>(kept: &mut Kept<D, Refused>) -> Outcome {
    of_desk(kept.close(None))
}

fn apply<D: DeskNames, R: Wait + Clock>(
    rt: &R,
    desk: &SharedDesk<D, Refused>,
    applier: &mut Applier<D, Free>,
) -> Outcome {
    match applier.step(rt, desk) {
        Ok(true) => Outcome::Done,
        Err(StepError::OutOfMemory) => Outcome::NoMemory,
        Ok(false) | Err(_) => Outcome::Refused,
    }
}

fn made_in<D: DeskNames>(kept: &mut Kept<D, Refused>, seat: &mut Seat<D>, call: Call) -> Outcome {
    match call {
        Call::Issue(amount) => issue(kept, seat, amount),
        Call::Spend(amount) => spend(kept, seat, amount),
        Call::Serve => serve(kept, seat),
        Call::Give(amount) => give(kept, amount),
        Call::Plan => plan(kept),
        Call::AskLine => ask_line(kept),
        Call::Publish => publish(kept),
        Call::Beat => beat(kept),
        Call::Query => query(kept),
        Call::Asked(number, amount) => asked(kept, number, amount),
        Call::Apply => Outcome::Refused,
        Call::Close => close(kept),
    }
}

fn made<D: DeskNames, R: Wait + Clock>(
    rt: &R,
    desk: &SharedDesk<D, Refused>,
    seat: &mut Seat<D>,
    applier: &mut Applier<D, Free>,
    call: Call,
) -> Outcome {
    match call {
        Call::Apply => apply(rt, desk, applier),
        _ => {
            let mut kept = desk.lock(rt);
            made_in(&mut kept, seat, call)
        }
    }
}

// The state of the desk, and what the seat's calls reported.
fn seen<D: DeskNames, R: Wait>(
    rt: &R,
    desk: &SharedDesk<D, Refused>,
    seat: &Seat<D>,
) -> (DeskView, [u64; 3]) {
    let told = [seat.told_issued(), seat.told_spent(), seat.told_served()];
    (desk.lock(rt).view(), told)
}

// Makes the call. If it runs out of memory it has changed nothing, and succeeds when it is made again.
fn is_made<D: DeskNames, R: Wait + Clock>(
    rt: &R,
    desk: &SharedDesk<D, Refused>,
    seat: &mut Seat<D>,
    applier: &mut Applier<D, Free>,
    call: Call,
) -> bool {
    let before = seen(rt, desk, seat);
    match made(rt, desk, seat, applier, call) {
        Outcome::Done => true,
        Outcome::NoMemory => {
            seen(rt, desk, seat) == before && made(rt, desk, seat, applier, call) == Outcome::Done
        }
        Outcome::Refused => false,
    }
}

const CALLS: [Call; 18] = [
    Call::Issue(10),
    Call::Give(3),
    Call::Apply,
    Call::Publish,
    Call::Beat,
    Call::Query,
    Call::Asked(1, 2),
    Call::Spend(1),
    Call::Spend(20),
    Call::Plan,
    Call::AskLine,
    Call::Asked(2, 9),
    Call::Issue(30),
    Call::Serve,
    Call::Apply,
    Call::Publish,
    Call::Close,
    Call::Publish,
];

// Makes all calls, whose effect on the desk and the seat is known.
fn make_all<D: DeskNames, R: Wait + Clock + Abort>(
    rt: &R,
    desk: &SharedDesk<D, Refused>,
    seat: &mut Seat<D>,
    applier: &mut Applier<D, Free>,
) {
    for call in &CALLS {
        assert!(rt; is_made(rt, desk, seat, applier, *call));
    }
    let (view, told) = seen(rt, desk, seat);
    assert!(rt; told == [40, 1, 20] && is_final(&view));
}

// The intake for the peer, and its applier.
fn fed_applier<D: DeskNames, R: Wait + Abort>(
    rt: &R,
    alloc: Global,
    desk: &SharedDesk<D, Refused>,
) -> (Intake, Applier<D, Free>) {
    let (intake, outlet) = link(rt, alloc, 2, 2);
    let intake = feed(rt, intake, "A 2 1;E 2 0 1 I:20;E 2 1 2 K:0:0\n");
    (intake, applier_at(rt, desk, 2, outlet, Free))
}

// Each call does what it should, or changes nothing for lack of memory and then does it.
fn make_each_call<D: DeskNames, R: Wait + Clock + Abort>(
    rt: &R,
    alloc: Global,
    desk: Desk<Refused>,
    blanks: Blanks,
)
    requires id { D.id ≡ id_of desk blanks }
    requires blanks { AreBlank blanks }
    requires unused { IsUnused desk }
{
    let desk = SharedDesk::<D, Refused>::new(desk, blanks);
    let mut seat = seat_at(rt, &desk);
    let (_intake, mut applier) = fed_applier(rt, alloc, &desk);
    make_all(rt, &desk, &mut seat, &mut applier);
}

fn is_final(view: &DeskView) -> bool {
    view.closed
        && (view.issued, view.spent, view.given) == (40, 21, 5)
        && (view.back, view.received, view.held) == (5, 0, 19)
}

fn tried<R: Wait + Clock + Abort>(rt: &R, alloc: Global, memory: Refused) -> bool {
    match new_desk(memory, 1, 2) {
        Ok(desk) => {
            make_each_call::<Brand, R>(rt, alloc, desk, Blanks::new());
            true
        }
        Err(OutOfMemory) => memory.refused(),
    }
}

/// A call that runs out of memory leaves the desk, and what its seat's calls reported, unchanged, and may be made
/// again.
#[test]
fn each_growth_refused(rt: HostRuntime) {
    let requests = requests_of(rt.alloc(), |memory| tried(&rt, rt.alloc(), memory));
    assert!(rt; requests.is_some_and(|count| count > 20));
}
