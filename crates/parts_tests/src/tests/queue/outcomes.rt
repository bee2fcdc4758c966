//! Requests from their tickets to their outcomes.
use request_queue::{LAST_TICKET, QueueError, RequestQueue, SLOTS, Status};
use rights_types::{MAX_AMOUNT, OutOfMemory};
use std::alloc::Global;
use std::process::Abort;

/// A call of a queue, and its result.
#[derive(Clone, Copy)]
enum Call {
    /// Amount and deadline of a request.
    Put(u64, u64, Result<u64, QueueError>),
    Total(u64),
    Waiting(usize),
    /// The time.
    Expire(u64, Option<u64>),
    /// The number of the entry that serves the front.
    Serve(u64),
    /// A ticket, and whether its request waited.
    Cancel(u64, bool),
    /// How many outcomes nobody read.
    Unread(usize),
    /// Ticket, amount and deadline of the request at this place, from 0.
    At(usize, u64, u64, u64),
    /// A ticket.
    Status(u64, Status),
    /// Ticket, amount and deadline of the front.
    Front(u64, u64, u64),
    NoFront,
    /// The last ticket that is not given out any more.
    Skip(u64),
}

// Whether the request with that ticket, for this number of rights until that deadline, is at the front.
fn is_at_front(queue: &RequestQueue, ticket: u64, amount: u64, deadline: u64) -> bool {
    match queue.front() {
        Some(front) => front.0 == ticket && front.1.value() == amount && front.2 == deadline,
        None => false,
    }
}

// Whether the request with that ticket, for this number of rights until that deadline, is at this place.
fn is_at(queue: &RequestQueue, place: usize, ticket: u64, amount: u64, deadline: u64) -> bool {
    match queue.requests().get(place) {
        Some(at) => at.ticket == ticket && at.amount.value() == amount && at.deadline == deadline,
        None => false,
    }
}

fn serves(queue: &mut RequestQueue, number: u64) -> bool {
    if queue.waiting() == 0 {
        return false;
    }
    queue.serve_front(number);
    true
}

fn skips(queue: &mut RequestQueue, last: u64) -> bool {
    let waiting = queue.waiting();
    queue.skip_tickets(last);
    queue.waiting() == waiting
}

fn answers(queue: &mut RequestQueue, call: Call) -> bool {
    match call {
        Call::Put(amount, deadline, ticket) => queue.put(amount, deadline) == ticket,
        Call::Total(total) => queue.total() == total,
        Call::Waiting(count) => queue.waiting() == count,
        Call::Expire(time, ticket) => queue.expire_one(time) == ticket,
        Call::Serve(number) => serves(queue, number),
        Call::Cancel(ticket, waited) => queue.cancel(ticket) == waited,
        Call::Unread(count) => queue.unread() == count,
        Call::At(place, ticket, amount, deadline) => is_at(queue, place, ticket, amount, deadline),
        Call::Status(ticket, status) => queue.status(ticket) == status,
        Call::Front(ticket, amount, deadline) => is_at_front(queue, ticket, amount, deadline),
        Call::NoFront => queue.front().is_none(),
        Call::Skip(last) => skips(queue, last),
    }
}

fn answers_all(rt: &impl Abort, queue: &mut RequestQueue, calls: &[Call]) {
    for (place, call) in calls.iter().enumerate() {
        assert!(rt; answers(queue, *call), "call {place}");
    }
}

// The same for a new queue.
fn a_new_queue_answers(rt: &impl Abort, alloc: Global, calls: &[Call]) -> Result<(), OutOfMemory> {
    answers_all(rt, &mut RequestQueue::new(alloc)?, calls);
    Ok(())
}

// The same for a queue of 32 requests of this amount, with the deadline 0 and the tickets 1 to 32.
fn a_full_queue_answers(
    rt: &impl Abort,
    alloc: Global,
    amount: u64,
    calls: &[Call],
) -> Result<(), OutOfMemory> {
    let mut queue = RequestQueue::new(alloc)?;
    for ticket in 1..=SLOTS as u64 {
        assert!(rt; queue.put(amount, 0) == Ok(ticket));
    }
    answers_all(rt, &mut queue, calls);
    Ok(())
}

const FIRST_SERVED: [Call; 11] = [
    Call::Put(0, 9, Err(QueueError::BadAmount)),
    Call::Put(6, 9, Ok(1)),
    Call::Put(1, 3, Ok(2)),
    Call::Total(7),
    Call::Expire(4, Some(2)),
    Call::Expire(4, None),
    Call::Status(2, Status::Expired),
    Call::Status(2, Status::Unknown),
    Call::Serve(5),
    Call::Status(1, Status::Spent(5)),
    Call::Status(1, Status::Unknown),
];

/// Of two requests the second expires, and the first is served. Each outcome is reported once.
#[test]
fn requests_expire_or_are_served(rt: HostRuntime) -> Result<(), OutOfMemory> {
    a_new_queue_answers(&rt, rt.alloc(), &FIRST_SERVED)
}

const TICKETS_SKIPPED: [Call; 13] = [
    Call::Put(4, 9, Ok(1)),
    Call::Skip(0),
    Call::Put(4, 9, Ok(2)),
    Call::Skip(1000),
    Call::Put(4, 9, Ok(1001)),
    Call::Skip(7),
    Call::Put(4, 9, Ok(1002)),
    Call::Status(1, Status::Waiting),
    Call::Status(1000, Status::Unknown),
    Call::Skip(LAST_TICKET - 1),
    Call::Put(4, 9, Ok(LAST_TICKET)),
    Call::Skip(u64::MAX),
    Call::Put(4, 9, Err(QueueError::QueueFull)),
];

/// Tickets up to one that was skipped are not given out; those that were stand, and the next ticket never goes back.
#[test]
fn skipped_tickets_are_not_given_out(rt: HostRuntime) -> Result<(), OutOfMemory> {
    a_new_queue_answers(&rt, rt.alloc(), &TICKETS_SKIPPED)
}

const OUTCOME_READ: [Call; 5] = [
    Call::Put(1, 0, Err(QueueError::QueueFull)),
    Call::Expire(1, Some(1)),
    Call::Put(1, 0, Err(QueueError::QueueFull)),
    Call::Status(1, Status::Expired),
    Call::Put(1, 0, Ok(33)),
];

/// A slot is free only once the outcome that took it was read.
#[test]
fn an_outcome_keeps_its_slot(rt: HostRuntime) -> Result<(), OutOfMemory> {
    a_full_queue_answers(&rt, rt.alloc(), 1, &OUTCOME_READ)
}

const SERVED_READ: [Call; 7] = [
    Call::Total(32 * MAX_AMOUNT),
    Call::Put(MAX_AMOUNT + 1, 0, Err(QueueError::BadAmount)),
    Call::Serve(7),
    Call::Waiting(31),
    Call::Put(1, 0, Err(QueueError::QueueFull)),
    Call::Status(1, Status::Spent(7)),
    Call::Put(1, 0, Ok(33)),
];

/// A served request keeps its slot too, and an amount is checked before the slots are.
#[test]
fn a_served_request_keeps_its_slot(rt: HostRuntime) -> Result<(), OutOfMemory> {
    a_full_queue_answers(&rt, rt.alloc(), MAX_AMOUNT, &SERVED_READ)
}

const EQUAL_DEADLINE: [Call; 6] = [
    Call::Put(1, 9, Ok(1)),
    Call::Expire(9, None),
    Call::Status(1, Status::Waiting),
    Call::Expire(10, Some(1)),
    Call::Status(1, Status::Expired),
    Call::Status(1, Status::Unknown),
];

/// A deadline equal to the time has not passed.
#[test]
fn an_equal_deadline_waits(rt: HostRuntime) -> Result<(), OutOfMemory> {
    a_new_queue_answers(&rt, rt.alloc(), &EQUAL_DEADLINE)
}

const OLDEST_FIRST: [Call; 9] = [
    Call::NoFront,
    Call::Put(6, u64::MAX, Ok(1)),
    Call::Put(5, 0, Ok(2)),
    Call::Status(1, Status::Waiting),
    Call::Front(1, 6, u64::MAX),
    Call::Serve(2),
    Call::Front(2, 5, 0),
    Call::Total(5),
    Call::Expire(0, None),
];

/// The front is the oldest request, whatever the deadlines. No status changes it.
#[test]
fn the_front_is_the_oldest(rt: HostRuntime) -> Result<(), OutOfMemory> {
    a_new_queue_answers(&rt, rt.alloc(), &OLDEST_FIRST)
}

const LATE_IN_ORDER: [Call; 8] = [
    Call::Put(1, 5, Ok(1)),
    Call::Put(2, 3, Ok(2)),
    Call::Put(3, 2, Ok(3)),
    Call::Expire(4, Some(2)),
    Call::Expire(4, Some(3)),
    Call::Expire(4, None),
    Call::Front(1, 1, 5),
    Call::Total(1),
];

/// Of several late requests the oldest expires first, and none expires that is not late.
#[test]
fn late_requests_expire_in_order(rt: HostRuntime) -> Result<(), OutOfMemory> {
    a_new_queue_answers(&rt, rt.alloc(), &LATE_IN_ORDER)
}

const WAITS_TILL_SERVED: [Call; 9] = [
    Call::Put(6, 0, Ok(1)),
    Call::Total(6),
    Call::Expire(0, None),
    Call::Status(1, Status::Waiting),
    Call::Serve(1),
    Call::Total(0),
    Call::NoFront,
    Call::Status(1, Status::Spent(1)),
    Call::Status(1, Status::Unknown),
];

/// A request waits, whatever the time, until its deadline has passed or it is served.
#[test]
fn a_request_waits_until_it_is_served(rt: HostRuntime) -> Result<(), OutOfMemory> {
    a_new_queue_answers(&rt, rt.alloc(), &WAITS_TILL_SERVED)
}

const MIDDLE_CANCELLED: [Call; 15] = [
    Call::Put(2, 9, Ok(1)),
    Call::Put(5, 8, Ok(2)),
    Call::Put(4, 7, Ok(3)),
    Call::Cancel(4, false),
    Call::Cancel(2, true),
    Call::Total(6),
    Call::Unread(1),
    Call::At(0, 1, 2, 9),
    Call::At(1, 3, 4, 7),
    Call::Cancel(2, false),
    Call::Unread(1),
    Call::Status(2, Status::Expired),
    Call::Status(2, Status::Unknown),
    Call::Serve(6),
    Call::Front(3, 4, 7),
];

/// A cancelled request expires, wherever it waits; the others keep their places, and it cannot be cancelled twice.
#[test]
fn a_request_is_cancelled(rt: HostRuntime) -> Result<(), OutOfMemory> {
    a_new_queue_answers(&rt, rt.alloc(), &MIDDLE_CANCELLED)
}

const CANCELLED_AND_SERVED: [Call; 6] = [
    Call::Cancel(32, true),
    Call::Serve(7),
    Call::Cancel(1, false),
    Call::Put(1, 0, Err(QueueError::QueueFull)),
    Call::Status(1, Status::Spent(7)),
    Call::Put(1, 0, Ok(33)),
];

/// A cancelled request keeps its slot until its outcome is read. One that was served cannot be cancelled.
#[test]
fn a_cancelled_request_keeps_its_slot(rt: HostRuntime) -> Result<(), OutOfMemory> {
    a_full_queue_answers(&rt, rt.alloc(), 1, &CANCELLED_AND_SERVED)
}
