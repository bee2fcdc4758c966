//! The commands that are one call of the desk.
ghost use Rattle.std.specs.Prelude.{◌≡◌, ℕ, Option, true};
ghost use Rattle.apply_lanes.specs.Kepts.{SeatValue};
ghost use Rattle.site_node.specs.Acting.{Acts, ActsIssue, ActsGive, ActsSpend, ActsTake, ActsOutcome};
ghost use Rattle.site_node.specs.Acting.{ActsCancel, ActsClose, is_too_far};

use crate::reply::Reply;
use apply_lanes::{DeskNames, Kept, Seat};
use rights_types::{Amount, SiteId};
use site_core::{DeskError, Spending};
use site_words::DeskCommand;

/// Carries out a command at the desk, for this seat, and returns the reply.
#[inline(always)]
pub fn act<D: DeskNames>(kept: &mut Kept<D>, seat: &mut Seat<D>, command: DeskCommand) -> Reply
    ensures { Acts kept.old seat.old command result kept.new seat.new }
{
    match command {
        DeskCommand::Issue(amount) => issue(kept, seat, amount),
        DeskCommand::Give(peer, amount) => give(kept, peer, amount),
        DeskCommand::Spend(amount, deadline, latest) => {
            spend(kept, seat, amount, deadline, latest)
        }
        DeskCommand::Take(amount) => take(kept, seat, amount),
        DeskCommand::Outcome(ticket) => outcome(kept, ticket),
        DeskCommand::Cancel(ticket) => cancel(kept, ticket),
        DeskCommand::Close(heir) => close(kept, heir),
    }
}

#[inline(always)]
fn issue<D: DeskNames>(kept: &mut Kept<D>, seat: &mut Seat<D>, amount: u64) -> Reply
    ensures { ActsIssue kept.old seat.old amount result kept.new seat.new }
{
    match kept.issue(seat, amount) {
        Ok(number) => Reply::Number(number),
        Err(cause) => Reply::Refused(cause),
    }
}

fn give<D: DeskNames>(kept: &mut Kept<D>, peer: SiteId, amount: u64) -> Reply
    ensures { (seat : SeatValue) → ActsGive kept.old seat peer amount result kept.new seat }
{
    match kept.give_back(peer, amount) {
        Ok(number) => Reply::Number(number),
        Err(cause) => Reply::Refused(cause),
    }
}

#[inline(always)]
fn spend<D: DeskNames>(
    kept: &mut Kept<D>,
    seat: &mut Seat<D>,
    amount: u64,
    deadline: u64,
    latest: Option<u64>,
) -> Reply
    ensures { ActsSpend kept.old seat.old amount deadline latest result kept.new seat.new }
{
    if is_too_far(deadline, latest) {
        return refuse_far(kept, amount);
    }
    match kept.spend(seat, amount, deadline) {
        Ok(spending) => Reply::Spending(spending),
        Err(cause) => Reply::Refused(cause),
    }
}

/// Whether a deadline is later than the latest one, if there is one.
fn is_too_far(deadline: u64, latest: Option<u64>) -> bool
    ensures { result ≡ is_too_far deadline latest }
{
    match latest {
        Some(latest) => deadline > latest,
        None => false,
    }
}

/// The refusal of a spend whose deadline is too far ahead: for that, unless another cause comes before.
fn refuse_far<D: DeskNames>(kept: &Kept<D>, amount: u64) -> Reply
    ensures { (seat : SeatValue) (deadline : ℕ) (latest : Option ℕ) → is_too_far deadline latest ≡ true
        → ActsSpend kept.now seat amount deadline latest result kept.now seat }
{
    if kept.desk().log().closed() {
        return Reply::Refused(DeskError::Closed);
    }
    match Amount::new(amount) {
        Ok(_) => Reply::BadDeadline,
        Err(_) => Reply::Refused(DeskError::BadAmount),
    }
}

#[inline(always)]
fn take<D: DeskNames>(kept: &mut Kept<D>, seat: &mut Seat<D>, amount: u64) -> Reply
    ensures { ActsTake kept.old seat.old amount result kept.new seat.new }
{
    match kept.take(seat, amount) {
        Ok(number) => Reply::Spending(Spending::Spent(number)),
        Err(cause) => Reply::Refused(cause),
    }
}

fn cancel<D: DeskNames>(kept: &mut Kept<D>, ticket: u64) -> Reply
    ensures { (seat : SeatValue) → ActsCancel kept.old seat ticket result kept.new seat }
{
    Reply::Outcome(kept.cancel(ticket))
}

fn outcome<D: DeskNames>(kept: &mut Kept<D>, ticket: u64) -> Reply
    ensures { (seat : SeatValue) → ActsOutcome kept.old seat ticket result kept.new seat }
{
    Reply::Outcome(kept.status(ticket))
}

fn close<D: DeskNames>(kept: &mut Kept<D>, heir: Option<SiteId>) -> Reply
    ensures { (seat : SeatValue) → ActsClose kept.old seat heir result kept.new seat }
{
    match kept.close(heir) {
        Ok(number) => Reply::Number(number),
        Err(cause) => Reply::Refused(cause),
    }
}
