//! The texts of replies, without the line feed at their end.
ghost use Rattle.std.specs.Prelude.{◌≡◌, ◌<◌, ◌≤◌, ◌++◌, length, decimal, OnOk, IsOk};
ghost use Rattle.site_node.specs.Texts.{reply_text, reply_answered, ticked_text, tick_text, tick_answered};

use crate::reply::Reply;
use crate::tick::Ticked;
use line_streams::{MAX_DIGITS, Replies};
use refusals::{Answered, Refusal};
use reply_texts::{
    REPLY_ROOM, desk_error_name, put_bad_deadline, put_error, put_number, put_refusal,
    put_spending, put_status, refusal_of,
};
use request_queue::Status;
use rights_types::OutOfMemory;
use site_core::{DeskError, Spending};
use std::alloc::Allocator;

/// The longest reply to a tick, with the line feed after it, in bytes.
pub const TICK_ROOM: usize = 128;

/// Appends the text of a reply to a command.
#[inline(always)]
pub(crate) fn put_reply<A: Allocator>(
    replies: &mut Replies<A>,
    reply: Reply,
) -> Result<(), OutOfMemory>
    ensures ok { OnOk result (replies.new.part ≡ replies.old.part ++ reply_text reply) }
    ensures kept { replies.new.whole ≡ replies.old.whole }
    ensures room { REPLY_ROOM ≤ replies.old.room → IsOk result × (1 ≤ replies.new.room) }
{
    match reply {
        Reply::Number(number) => put_number(replies, number),
        Reply::Spending(spending) => put_spending(replies, spending),
        Reply::Outcome(status) => put_status(replies, status),
        Reply::Refused(cause) => put_error(replies, cause),
        Reply::BadDeadline => put_bad_deadline(replies),
        Reply::KeyRefused => put_refusal(replies, Refusal::KeyRefused),
        Reply::KeyReused => put_refusal(replies, Refusal::KeyReused),
    }
}

/// How a command with this reply is answered.
pub(crate) fn reply_answered(reply: Reply) -> Answered
    ensures { result ≡ reply_answered reply }
{
    match reply {
        Reply::Number(_) | Reply::Spending(_) | Reply::Outcome(_) => Answered::Done,
        Reply::Refused(cause) => Answered::Refused(refusal_of(cause)),
        Reply::BadDeadline => Answered::Refused(Refusal::BadDeadline),
        Reply::KeyRefused => Answered::Refused(Refusal::KeyRefused),
        Reply::KeyReused => Answered::Refused(Refusal::KeyReused),
    }
}

/// How such a tick is answered.
pub(crate) fn tick_answered(outcome: Result<(Ticked, u64), DeskError>) -> Answered
    ensures { result ≡ tick_answered outcome }
{
    match outcome {
        Ok(_) => Answered::Done,
        Err(cause) => Answered::Refused(refusal_of(cause)),
    }
}

/// Appends what a tick did, and how many lines found space in outboxes.
pub(crate) fn put_ticked<A: Allocator>(
    replies: &mut Replies<A>,
    ticked: Ticked,
    sent: u64,
) -> Result<(), OutOfMemory>
    ensures ok { OnOk result (replies.new.part ≡ replies.old.part ++ ticked_text ticked sent) }
    ensures kept { replies.new.whole ≡ replies.old.whole }
    ensures room { TICK_ROOM ≤ replies.old.room → IsOk result × (1 ≤ replies.new.room) }
{
    replies.put_field(b"tick expired ", ticked.expired)?;
    replies.put_field(b" served ", ticked.served)?;
    replies.put_field(b" asks ", ticked.asks)?;
    replies.put_field(b" sent ", sent)
}

/// For the proof: no number has more digits.
fn digits_fit(number: u64)
    ensures { length (decimal number) ≤ MAX_DIGITS }
{}

/// For the proof: a reply to a command fits the memory that is reserved for it.
pub(crate) fn reply_fits(reply: Reply)
    ensures { length (reply_text reply) < REPLY_ROOM }
{
    match reply {
        Reply::Number(number) => digits_fit(number),
        Reply::Spending(Spending::Spent(number)) => digits_fit(number),
        Reply::Spending(Spending::Queued(ticket)) => digits_fit(ticket),
        Reply::Outcome(Status::Spent(number)) => digits_fit(number),
        Reply::Outcome(Status::Waiting | Status::Expired | Status::Unknown) => {}
        Reply::BadDeadline | Reply::KeyRefused | Reply::KeyReused => {}
        Reply::Refused(cause) => {
            let _ = desk_error_name(cause);
        }
    }
}

/// For the proof: so does the reply to a tick.
pub(crate) fn tick_fits(outcome: Result<(Ticked, u64), DeskError>)
    ensures { length (tick_text outcome) < TICK_ROOM }
{
    match outcome {
        Ok((ticked, sent)) => {
            digits_fit(ticked.expired);
            digits_fit(ticked.served);
            digits_fit(ticked.asks);
            digits_fit(sent);
        }
        Err(cause) => {
            let _ = desk_error_name(cause);
        }
    }
}
