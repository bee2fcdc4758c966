//! One function for each kind of reply, which appends its text to the current reply. On `Err` the current reply may
//! have a part of it, and the whole replies are unchanged.
ghost use Rattle.std.specs.Prelude.{◌≡◌, ◌≤◌, ◌++◌, length, OnOk, IsOk};
ghost use Rattle.refusals.specs.Refusals.{refusal_text};
ghost use Rattle.reply_texts.specs.Texts.{number_text, spending_text, status_text, desk_error_name, error_text};
ghost use Rattle.reply_texts.specs.Texts.{refusal_of, bad_command, bad_deadline};

use line_streams::Replies;
use refusals::Refusal;
use request_queue::Status;
use rights_types::OutOfMemory;
use site_core::{DeskError, Spending};
use std::alloc::Allocator;

/// The longest text of this crate, with the line feed after it, in bytes.
pub const REPLY_ROOM: usize = 32;

/// Appends the number of a new entry.
#[inline(always)]
pub fn put_number<A: Allocator>(replies: &mut Replies<A>, number: u64) -> Result<(), OutOfMemory>
    ensures ok { OnOk result (replies.new.part ≡ replies.old.part ++ number_text number) }
    ensures kept { replies.new.whole ≡ replies.old.whole }
    ensures room { REPLY_ROOM ≤ replies.old.room → IsOk result × (1 ≤ replies.new.room) }
{
    replies.put_field(b"number ", number)
}

/// Appends whether a spend was served at once or waits, with its number.
#[inline(always)]
pub fn put_spending<A: Allocator>(
    replies: &mut Replies<A>,
    spending: Spending,
) -> Result<(), OutOfMemory>
    ensures ok { OnOk result (replies.new.part ≡ replies.old.part ++ spending_text spending) }
    ensures kept { replies.new.whole ≡ replies.old.whole }
    ensures room { REPLY_ROOM ≤ replies.old.room → IsOk result × (1 ≤ replies.new.room) }
{
    match spending {
        Spending::Spent(number) => replies.put_field(b"spent ", number),
        Spending::Queued(ticket) => replies.put_field(b"queued ", ticket),
    }
}

/// Appends the state of a spend that waited.
#[inline(always)]
pub fn put_status<A: Allocator>(replies: &mut Replies<A>, status: Status) -> Result<(), OutOfMemory>
    ensures ok { OnOk result (replies.new.part ≡ replies.old.part ++ status_text status) }
    ensures kept { replies.new.whole ≡ replies.old.whole }
    ensures room { REPLY_ROOM ≤ replies.old.room → IsOk result × (1 ≤ replies.new.room) }
{
    match status {
        Status::Waiting => replies.put(b"waiting"),
        Status::Spent(number) => replies.put_field(b"spent ", number),
        Status::Expired => replies.put(b"expired"),
        Status::Unknown => replies.put(b"unknown"),
    }
}

/// Appends that a line was refused, and why.
pub fn put_refusal<A: Allocator>(replies: &mut Replies<A>, why: Refusal) -> Result<(), OutOfMemory>
    ensures ok { OnOk result (replies.new.part ≡ replies.old.part ++ refusal_text why) }
    ensures kept { replies.new.whole ≡ replies.old.whole }
    ensures room { REPLY_ROOM ≤ replies.old.room → IsOk result × (1 ≤ replies.new.room) }
{
    replies.put(b"error ")?;
    replies.put(why.name())
}

/// Appends the refusal of a desk.
pub fn put_error<A: Allocator>(
    replies: &mut Replies<A>,
    error: DeskError,
) -> Result<(), OutOfMemory>
    ensures ok { OnOk result (replies.new.part ≡ replies.old.part ++ error_text error) }
    ensures kept { replies.new.whole ≡ replies.old.whole }
    ensures room { REPLY_ROOM ≤ replies.old.room → IsOk result × (1 ≤ replies.new.room) }
{
    put_refusal(replies, refusal_of(error))
}

/// Appends that a line spells no command.
pub fn put_bad_command<A: Allocator>(replies: &mut Replies<A>) -> Result<(), OutOfMemory>
    ensures ok { OnOk result (replies.new.part ≡ replies.old.part ++ bad_command) }
    ensures kept { replies.new.whole ≡ replies.old.whole }
    ensures room { REPLY_ROOM ≤ replies.old.room → IsOk result × (1 ≤ replies.new.room) }
{
    put_refusal(replies, Refusal::BadCommand)
}

/// Appends that the deadline of a spend is too far ahead.
pub fn put_bad_deadline<A: Allocator>(replies: &mut Replies<A>) -> Result<(), OutOfMemory>
    ensures ok { OnOk result (replies.new.part ≡ replies.old.part ++ bad_deadline) }
    ensures kept { replies.new.whole ≡ replies.old.whole }
    ensures room { REPLY_ROOM ≤ replies.old.room → IsOk result × (1 ≤ replies.new.room) }
{
    put_refusal(replies, Refusal::BadDeadline)
}

/// What a client is told of a refusal of the desk.
pub fn refusal_of(error: DeskError) -> Refusal
    ensures { result ≡ refusal_of error }
{
    match error {
        DeskError::Closed => Refusal::Closed,
        DeskError::BadCount => Refusal::BadCount,
        DeskError::BadMove => Refusal::BadMove,
        DeskError::BadAmount => Refusal::BadAmount,
        DeskError::NoSuchSite => Refusal::NoSuchSite,
        DeskError::SameSite => Refusal::SameSite,
        DeskError::PeerClosed => Refusal::PeerClosed,
        DeskError::LogFull => Refusal::LogFull,
        DeskError::Short => Refusal::Short,
        DeskError::OutOfMemory => Refusal::OutOfMemory,
        DeskError::QueueFull => Refusal::QueueFull,
        DeskError::QueueBusy => Refusal::QueueBusy,
        DeskError::HeldTooMuch => Refusal::HeldTooMuch,
        DeskError::TimeWentBack => Refusal::TimeWentBack,
    }
}

/// The name of a refusal, at most 16 bytes.
pub fn desk_error_name(error: DeskError) -> &'static [u8]
    ensures name { result.now ≡ desk_error_name error }
    ensures short { length result.now ≤ 16 }
{
    refusal_of(error).name()
}
