//! The replies to the lines of a body. No command is carried out whose reply finds no memory.
ghost use Rattle.std.specs.Prelude.{◌≡◌, ◌≢◌, ℕ, ◌+◌, ◌<◌, ◌≤◌, false, List, [], ◌∷◌, ◌++◌, length, nat_le, IsOk, IfOk};
ghost use Rattle.std.specs.Prelude.{Option, Some, None, OnOk, OnErr};
ghost use Rattle.line_streams.specs.Talk.{lines_of};
ghost use Rattle.refusals.specs.Refusals.{LineAnswer, refusal_text};
ghost use Rattle.site_http.specs.Replying.{bad_command, bad_key, no_memory, status_of, text_of, AnswersEach};
ghost use Rattle.site_http.specs.Replying.{AnswersSome, RepliesTo, RepliesToBody, RepliesToOne, IsPut, KeepsRoom, WithinLimit};

use crate::backend::{Backend, LONGEST_REPLY};
use crate::lines::{only_line, split_line, within_limit};
use crate::request_key::RequestKey;
use bytes::BufMut;
use command_keys::Key;
use http::StatusCode;
use http_server::Rope;
use line_streams::Replies;
use refusals::{Answered, Refusal};
use rights_types::OutOfMemory;
use std::alloc::Global;

/// The longest reply of this crate's own, such as that for lack of memory, with its line feed, in bytes.
pub(crate) const LAST_ROOM: usize = 18;

/// Once the replies to a body have this many bytes, the rest of it is not carried out, as if there were no memory. So a
/// response has at most one reply more, and what says that it ends there. The longest body of any lines but `status`
/// has fewer.
pub const MAX_REPLIES: usize = 20_000_000;

/// Answers the lines of a body, and returns the status of the response. With a key, or if the client waits for the
/// outcome, the body must have exactly one line.
pub(crate) fn answer_body<C: Backend>(
    client: &mut C,
    key: RequestKey,
    waits: bool,
    body: &[u8],
    replies: &mut Replies<Global>,
    out: &mut Rope,
) -> StatusCode
    requires fresh { out.old.items ≡ [] }
    requires room { LAST_ROOM ≤ out.old.spare }
    ensures { (told : List LineAnswer)
        × RepliesToBody C.answers key waits client.old (lines_of body.now) result told client.new
        × (out.new.items ≡ text_of told) }
{
    match key {
        RequestKey::Absent => answer_unkeyed(client, waits, body, replies, out),
        RequestKey::Bad => refuse(out, Refusal::BadKey),
        RequestKey::Given(key) => answer_keyed(client, key, waits, body, replies, out),
    }
}

/// Answers the lines of a body that has no key.
fn answer_unkeyed<C: Backend>(
    client: &mut C,
    waits: bool,
    body: &[u8],
    replies: &mut Replies<Global>,
    out: &mut Rope,
) -> StatusCode
    requires fresh { out.old.items ≡ [] }
    requires room { LAST_ROOM ≤ out.old.spare }
    ensures { (told : List LineAnswer)
        × RepliesToBody C.answers RequestKey.Absent waits client.old (lines_of body.now) result told client.new
        × (out.new.items ≡ text_of told) }
{
    client.begin();
    match only_line(body) {
        Some(text) => answer_one(client, None, waits, text, replies, out),
        None => {
            if waits {
                refuse(out, Refusal::BadCommand)
            } else {
                answer_many(client, body, replies, out)
            }
        }
    }
}

/// Answers the line of a body under this key. A body of several lines, or of none, is refused.
fn answer_keyed<C: Backend>(
    client: &mut C,
    key: Key,
    waits: bool,
    body: &[u8],
    replies: &mut Replies<Global>,
    out: &mut Rope,
) -> StatusCode
    requires fresh { out.old.items ≡ [] }
    requires room { LAST_ROOM ≤ out.old.spare }
    ensures { (told : List LineAnswer)
        × RepliesToOne (C.answers (Some key) waits) bad_key client.old (lines_of body.now) result told client.new
        × (out.new.items ≡ text_of told) }
{
    match only_line(body) {
        Some(text) => answer_one(client, Some(key), waits, text, replies, out),
        None => refuse(out, Refusal::BadKey),
    }
}

/// Answers the line of a body that has only one.
fn answer_one<C: Backend>(
    client: &mut C,
    key: Option<Key>,
    waits: bool,
    text: &[u8],
    replies: &mut Replies<Global>,
    out: &mut Rope,
) -> StatusCode
    requires fresh { out.old.items ≡ [] }
    requires room { LAST_ROOM ≤ out.old.spare }
    ensures { (told : List LineAnswer)
        × RepliesTo (C.answers key waits) client.old ((text.now ++ 10 ∷ []) ∷ []) result told client.new
        × (out.new.items ≡ text_of told) }
{
    match answer_line(client, key, waits, text, replies, out) {
        Ok(answered) => status_of(answered),
        Err(OutOfMemory) => stop(out),
    }
}

/// Answers the lines of a body that has several, or none.
fn answer_many<C: Backend>(
    client: &mut C,
    body: &[u8],
    replies: &mut Replies<Global>,
    out: &mut Rope,
) -> StatusCode
    requires fresh { out.old.items ≡ [] }
    requires room { LAST_ROOM ≤ out.old.spare }
    requires other { length (lines_of body.now) ≢ 1 }
    ensures { (told : List LineAnswer) × RepliesTo (C.answers None false) client.old (lines_of body.now) result told client.new
        × (out.new.items ≡ text_of told) }
{
    match answer_lines(client, body, replies, out) {
        Ok(()) => StatusCode::OK,
        Err(OutOfMemory) => stop(out),
    }
}

/// Answers lines until memory runs out, or the replies reach their limit.
fn answer_lines<C: Backend>(
    client: &mut C,
    body: &[u8],
    replies: &mut Replies<Global>,
    out: &mut Rope,
) -> Result<(), OutOfMemory>
    requires fresh { out.old.items ≡ [] }
    requires room { LAST_ROOM ≤ out.old.spare }
    ensures ok { OnOk result ((given : List LineAnswer)
        × AnswersEach (C.answers None false) client.old (lines_of body.now) given client.new × WithinLimit given
        × (out.new.items ≡ text_of given)) }
    ensures err { OnErr result ((given : List LineAnswer)
        × AnswersSome (C.answers None false) client.old (lines_of body.now) given client.new
        × (out.new.items ≡ text_of given)) }
    ensures room { LAST_ROOM ≤ out.new.spare }
{
    let mut lines = body;
    while let Some((text, more)) = split_line(lines) {
        if is_full(out) {
            return Err(OutOfMemory);
        }
        answer_line(client, None, false, text, replies, out)?;
        lines = more;
    }
    Ok(())
}

/// Whether no further line is answered.
fn is_full(out: &Rope) -> bool
    ensures { result ≡ nat_le MAX_REPLIES (length out.now.items) }
{
    out.len() >= MAX_REPLIES
}

/// Answers a line, or does nothing. Afterwards there is memory for one more reply.
fn answer_line<C: Backend>(
    client: &mut C,
    key: Option<Key>,
    waits: bool,
    text: &[u8],
    replies: &mut Replies<Global>,
    out: &mut Rope,
) -> Result<Answered, OutOfMemory>
    ensures ok { IfOk result (λ how. (reply : List ℕ)
        × C.answers key waits client.old (text.now ++ 10 ∷ []) (record { text = reply; how = how }) client.new
        × IsPut reply replies.new out.old out.new) }
    ensures err { OnErr result ((client.new ≡ client.old) × KeepsRoom out.old out.new) }
{
    if !client.has_room(out.len()) {
        return Err(OutOfMemory);
    }
    replies.clear();
    out.reserve(LONGEST_REPLY + LAST_ROOM)?;
    let answered = client.reply(key, waits, within_limit(text), replies)?;
    put_reply(replies, out)?;
    Ok(answered)
}

/// Appends a reply, after which there is memory for one more.
fn put_reply(replies: &Replies<Global>, out: &mut Rope) -> Result<(), OutOfMemory>
    ensures ok { OnOk result ((out.new.items ≡ out.old.items ++ replies.now.whole) × (LAST_ROOM ≤ out.new.spare)) }
    ensures err { OnErr result (KeepsRoom out.old out.new) }
    ensures memory { length replies.now.whole + LAST_ROOM ≤ out.old.spare → IsOk result }
{
    let reply = replies.whole();
    out.reserve(reply.len() + LAST_ROOM)?;
    out.put_slice(reply)?;
    Ok(())
}

/// The status of a response to one line that was answered so.
fn status_of(answered: Answered) -> StatusCode
    ensures { result ≡ status_of answered }
{
    match answered {
        Answered::Done => StatusCode::OK,
        Answered::Refused(Refusal::BadCommand) => StatusCode::BAD_REQUEST,
        Answered::Refused(Refusal::BadKey) => StatusCode::BAD_REQUEST,
        Answered::Refused(Refusal::OutOfMemory) => StatusCode::SERVICE_UNAVAILABLE,
        Answered::Refused(_) => StatusCode::CONFLICT,
    }
}

/// Replies that memory ran out.
fn stop(out: &mut Rope) -> StatusCode
    requires { LAST_ROOM ≤ out.old.spare }
    ensures text { out.new.items ≡ out.old.items ++ (no_memory.text ++ 10 ∷ []) }
    ensures status { result ≡ 503 }
{
    put_refusal(out, Refusal::OutOfMemory);
    StatusCode::SERVICE_UNAVAILABLE
}

/// Replies that a body is not carried out.
fn refuse(out: &mut Rope, why: Refusal) -> StatusCode
    requires { length (refusal_text why) < out.old.spare }
    ensures text { out.new.items ≡ out.old.items ++ (refusal_text why ++ 10 ∷ []) }
    ensures status { result ≡ 400 }
{
    put_refusal(out, why);
    StatusCode::BAD_REQUEST
}

/// Appends a refusal, for which memory was reserved.
fn put_refusal(out: &mut Rope, why: Refusal)
    requires { length (refusal_text why) < out.old.spare }
    ensures { out.new.items ≡ out.old.items ++ (refusal_text why ++ 10 ∷ []) }
{
    out.put_slice(b"error ").unwrap();
    out.put_slice(why.name()).unwrap();
    out.put_slice(b"\n").unwrap();
}
