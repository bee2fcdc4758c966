//! Replies. Memory for a reply is reserved before the command is carried out, so no command is carried out whose reply
//! finds no memory.
ghost use Rattle.std.specs.Prelude.{◌≡◌, ◌+◌, ◌≤◌, [], length};
ghost use Rattle.line_streams.specs.Waiting.{AddsReply};
ghost use Rattle.site_node.specs.Texts.{reply_text, reply_answered, tick_text, tick_answered};

use crate::reply::Reply;
use crate::texts::{
    TICK_ROOM, put_reply, put_ticked, reply_answered, reply_fits, tick_answered, tick_fits,
};
use crate::tick::Ticked;
use line_streams::Replies;
use refusals::Answered;
use reply_texts::{REPLY_ROOM, put_error};
use site_core::DeskError;
use std::alloc::Allocator;

/// Appends the reply to a command, and returns how that is answered. Its memory was reserved before the command was
/// carried out.
#[inline(always)]
pub fn answer_reply<A: Allocator>(replies: &mut Replies<A>, reply: Reply) -> Answered
    requires room { REPLY_ROOM ≤ replies.old.room }
    requires fresh { replies.old.part ≡ [] }
    ensures added { AddsReply replies.old replies.new (reply_text reply) }
    ensures how { result ≡ reply_answered reply }
    ensures short { length replies.new.whole ≤ length replies.old.whole + REPLY_ROOM }
{
    reply_fits(reply);
    put_reply(replies, reply).unwrap();
    replies.finish().unwrap();
    reply_answered(reply)
}

/// Appends the reply to a tick, and returns how that is answered: what the tick did and how many lines found space, or
/// why a part of it was refused. Its memory was reserved before the tick.
pub fn answer_tick<A: Allocator>(
    replies: &mut Replies<A>,
    outcome: Result<(Ticked, u64), DeskError>,
) -> Answered
    requires room { TICK_ROOM ≤ replies.old.room }
    requires fresh { replies.old.part ≡ [] }
    ensures added { AddsReply replies.old replies.new (tick_text outcome) }
    ensures how { result ≡ tick_answered outcome }
    ensures short { length replies.new.whole ≤ length replies.old.whole + TICK_ROOM }
{
    tick_fits(outcome);
    match outcome {
        Ok((ticked, sent)) => put_ticked(replies, ticked, sent).unwrap(),
        Err(cause) => put_error(replies, cause).unwrap(),
    }
    replies.finish().unwrap();
    tick_answered(outcome)
}
