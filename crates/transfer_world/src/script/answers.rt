//! The effect of a command, and its reply.
ghost use Rattle.std.specs.Prelude.{◌≡◌, ◌<◌, ℕ, List, [], ◌∷◌, ◌++◌, Some, None, length, OnOk, OnErr};
ghost use Rattle.std.specs.Option.{option_copied};
ghost use Rattle.line_streams.specs.Waiting.{AddsReply};
ghost use Rattle.line_streams.specs.Handling.{IsGiven};
ghost use Rattle.transfer_world.specs.Replies.{error_name, verdict_text, verdicts_text, unended, packet_reply};
ghost use Rattle.transfer_world.specs.Replies.{reply_text, outcome_text};
ghost use Rattle.transfer_world.specs.Script.{CommandGets, LineGets};

use crate::script::commands::{ScriptCommand, read_command};
use crate::script::report::put_report;
use line_streams::Replies;
use reply_texts::{desk_error_name, put_bad_command, put_number, put_spending, put_status};
use rights_types::OutOfMemory;
use site_core::Spending;
use std::alloc::Allocator;
use world_core::{EntryVerdict, Event, ForReplies, Reply, World, WorldError};

fn error_name(error: WorldError) -> &'static [u8]
    ensures { result.now ≡ error_name error }
{
    match error {
        WorldError::Ended => b"Ended",
        WorldError::NoSuchSite => b"NoSuchSite",
        WorldError::NoPacket => b"NoPacket",
        WorldError::NotForSite => b"NotForSite",
        WorldError::Forged => b"Forged",
        WorldError::Desk(error) => desk_error_name(error),
        WorldError::OutOfMemory => b"OutOfMemory",
    }
}

#[inline(always)]
fn put_verdict<A: Allocator>(
    replies: &mut Replies<A>,
    verdict: EntryVerdict,
) -> Result<(), OutOfMemory>
    ensures ok { OnOk result (replies.new.part ≡ replies.old.part ++ verdict_text verdict) }
    ensures kept { replies.new.whole ≡ replies.old.whole }
{
    match verdict {
        EntryVerdict::Ready(number) => replies.put_field(b"ready ", number),
        EntryVerdict::Held => replies.put(b"held"),
        EntryVerdict::Repeat => replies.put(b"repeat"),
        EntryVerdict::AfterClose => replies.put(b"afterclose"),
        EntryVerdict::Full => replies.put(b"full"),
    }
}

fn put_verdicts<A: Allocator>(
    replies: &mut Replies<A>,
    verdicts: &[EntryVerdict],
) -> Result<(), OutOfMemory>
    ensures ok { OnOk result (replies.new.part ≡ replies.old.part ++ verdicts_text verdicts.now) }
    ensures kept { replies.new.whole ≡ replies.old.whole }
{
    match verdicts {
        [] => replies.put(b"empty"),
        [first, others @ ..] => {
            put_verdict(replies, *first)?;
            for verdict in others {
                replies.put(b" ")?;
                put_verdict(replies, *verdict)?;
            }
            Ok(())
        }
    }
}

fn put_reply<A: Allocator + Copy, B: Allocator>(
    replies: &mut Replies<B>,
    world: &World<A, ForReplies>,
    reply: Reply<A>,
) -> Result<(), OutOfMemory>
    ensures ok { OnOk result (replies.new.part ≡ replies.old.part ++ reply_text world.now reply) }
    ensures kept { replies.new.whole ≡ replies.old.whole }
{
    match reply {
        Reply::Number(number) => put_number(replies, number),
        Reply::Spent(number) => put_spending(replies, Spending::Spent(number)),
        Reply::Queued(ticket) => put_spending(replies, Spending::Queued(ticket)),
        Reply::Served(ticket, number) => {
            replies.put_field(b"served ", ticket)?;
            replies.put_field(b" ", number)
        }
        Reply::Expired(count) => replies.put_field(b"expired ", count),
        Reply::Tells(status) => put_status(replies, status),
        Reply::Asks(count) => replies.put_field(b"asks ", count),
        Reply::Packet(number) => put_packet(replies, world, number),
        Reply::Verdicts(verdicts) => put_verdicts(replies, verdicts.as_slice()),
        Reply::HeardBeat => replies.put(b"beat"),
        Reply::Granted(number) => replies.put_field(b"granted ", number),
        Reply::Denied(number) => {
            replies.put(b"denied ")?;
            put_packet(replies, world, number)
        }
        Reply::GrantedBefore => replies.put(b"repeated"),
        Reply::Old => replies.put(b"old"),
        Reply::Noted => replies.put(b"noted"),
        Reply::Refused(cause) => replies.put_field(b"refused ", cause),
        Reply::Taken(number) => replies.put_field(b"taken ", number),
        Reply::TakenBack(number, back) => {
            replies.put_field(b"taken ", number)?;
            replies.put_field(b" back ", back)
        }
        Reply::Nothing => replies.put(b"nothing"),
    }
}

/// A packet's number, and its line without the line feed.
#[inline(always)]
fn put_packet<A: Allocator + Copy, B: Allocator>(
    replies: &mut Replies<B>,
    world: &World<A, ForReplies>,
    number: u64,
) -> Result<(), OutOfMemory>
    ensures ok { OnOk result (replies.new.part ≡ replies.old.part ++ packet_reply world.now number) }
    ensures kept { replies.new.whole ≡ replies.old.whole }
{
    replies.put_field(b"packet ", number)?;
    replies.put(b" ")?;
    put_line(replies, world.packet(number))
}

fn put_line<A: Allocator>(replies: &mut Replies<A>, line: Option<&[u8]>) -> Result<(), OutOfMemory>
    ensures ok { OnOk result (replies.new.part ≡ replies.old.part ++ unended (option_copied line.entry)) }
    ensures kept { replies.new.whole ≡ replies.old.whole }
{
    match line {
        Some([text @ .., _end]) => replies.put(text),
        _ => Ok(()),
    }
}

fn put_outcome<A: Allocator + Copy, B: Allocator>(
    replies: &mut Replies<B>,
    world: &World<A, ForReplies>,
    outcome: Result<Reply<A>, WorldError>,
) -> Result<(), OutOfMemory>
    ensures ok { OnOk result (replies.new.part ≡ replies.old.part ++ outcome_text world.now outcome) }
    ensures kept { replies.new.whole ≡ replies.old.whole }
{
    match outcome {
        Ok(reply) => put_reply(replies, world, reply),
        Err(error) => {
            replies.put(b"error ")?;
            replies.put(error_name(error))
        }
    }
}

/// Answers a command before there is a world, without the end of the reply.
fn answer_first<A: Allocator + Copy, B: Allocator>(
    alloc: A,
    world: &mut Option<World<A, ForReplies>>,
    replies: &mut Replies<B>,
    command: ScriptCommand<A>,
) -> Result<(), OutOfMemory>
    requires { world.old ≡ None }
    ensures ok { OnOk result ((text : List ℕ) × CommandGets None (Some command) text world.new
        × (replies.new.part ≡ replies.old.part ++ text)) }
    ensures kept { replies.new.whole ≡ replies.old.whole }
{
    let ScriptCommand::Sites(count) = command else {
        return replies.put(b"error NoWorld");
    };
    *world = Some(World::for_replies(alloc, count.number())?);
    replies.put(b"ok")
}

/// Answers a command in a world, without the end of the reply.
#[inline(always)]
fn answer_in<A: Allocator + Copy, B: Allocator>(
    world: &mut World<A, ForReplies>,
    replies: &mut Replies<B>,
    command: ScriptCommand<A>,
) -> Result<(), OutOfMemory>
    ensures ok { OnOk result ((text : List ℕ) × CommandGets (Some world.old) (Some command) text (Some world.new)
        × (replies.new.part ≡ replies.old.part ++ text)) }
    ensures kept { replies.new.whole ≡ replies.old.whole }
{
    match command {
        ScriptCommand::Sites(_) => put_bad_command(replies),
        ScriptCommand::Act(event) => {
            let outcome = world.step(event);
            put_outcome(replies, world, outcome)
        }
        ScriptCommand::Report => put_report(replies, world),
    }
}

/// Answers a command, without the end of the reply.
#[inline(always)]
fn answer<A: Allocator + Copy, B: Allocator>(
    alloc: A,
    world: &mut Option<World<A, ForReplies>>,
    replies: &mut Replies<B>,
    command: Option<ScriptCommand<A>>,
) -> Result<(), OutOfMemory>
    ensures ok { OnOk result ((text : List ℕ) × CommandGets world.old command text world.new
        × (replies.new.part ≡ replies.old.part ++ text)) }
    ensures kept { replies.new.whole ≡ replies.old.whole }
{
    let Some(command) = command else {
        return put_bad_command(replies);
    };
    match world {
        None => answer_first(alloc, world, replies, command),
        Some(world) => answer_in(world, replies, command),
    }
}

/// Answers a line, given without its line feed.
pub(crate) fn answer_line<A: Allocator + Copy, B: Allocator>(
    alloc: A,
    world: &mut Option<World<A, ForReplies>>,
    replies: &mut Replies<B>,
    text: Option<&[u8]>,
) -> Result<(), OutOfMemory>
    requires ready { replies.old.part ≡ [] }
    ensures ok { OnOk result ((line : List ℕ) → IsGiven line text.entry
        → (reply : List ℕ) × LineGets A world.old line reply world.new × AddsReply replies.old replies.new reply) }
    ensures ready { OnOk result (replies.new.part ≡ []) }
    ensures kept { OnErr result (replies.new.whole ≡ replies.old.whole) }
{
    let command = read_command(alloc, text)?;
    answer(alloc, world, replies, command)?;
    replies.finish()
}
