//! A client that counts the lines that it carries out.
ghost use Rattle.std.specs.Prelude.{◌≡◌, ◌+◌, ◌++◌, ◌≤◌, ◌⊎◌, ⊤, ℕ, List, length, OnOk, OnErr};
ghost use Rattle.line_streams.specs.Waiting.{IsEmpty, AddsReply};
ghost use Rattle.site_http.specs.declared.backend.TheConstants.{LONGEST_REPLY};

use command_keys::Key;
use line_streams::Replies;
use refusals::{Answered, Refusal};
use rights_types::OutOfMemory;
use site_http::Backend;
use std::alloc::Global;

/// Carries out each line, and replies how many it had carried out before, and which key the line has. It refuses a line
/// that is too long, or that begins with `error`, tells a long text for the line `tell`, and for the line `lie` the text
/// of a refusal.
#[derive(Drop)]
pub struct Counter {
    pub count: u8,
    /// The count at which it runs out of memory.
    pub last: u8,
    pub closed: bool,
    /// How many bytes a response may have before its last line.
    pub room: usize,
}

impl Counter {
    pub fn new(last: u8) -> Counter {
        Counter {
            count: 0,
            last,
            closed: false,
            room: usize::MAX,
        }
    }

    fn answer(
        &mut self,
        key: Option<Key>,
        text: Option<&[u8]>,
        word: &[u8],
        replies: &mut Replies<Global>,
    ) -> Result<Answered, OutOfMemory>
        requires empty { IsEmpty replies.old }
        requires short { length word.now ≤ 20 }
        ensures ok { OnOk result ((reply : List ℕ) × AddsReply replies.old replies.new reply) }
        ensures short { OnOk result ((length replies.new.whole ≤ LONGEST_REPLY) ⊎ (self.new ≡ self.old)) }
        ensures err { OnErr result (self.new ≡ self.old) }
    {
        if self.count >= self.last {
            return Err(OutOfMemory);
        }
        let Some(text) = text else {
            return say(
                replies,
                b"error BadCommand",
                Answered::Refused(Refusal::BadCommand),
            );
        };
        if text.starts_with(b"error ") {
            return say(replies, text, Answered::Refused(refusal_in(text)));
        }
        if text == b"lie".as_slice() {
            return say(replies, b"error Short", Answered::Done);
        }
        if text == b"tell".as_slice() {
            return say(replies, LONG.as_bytes(), Answered::Done);
        }
        put_counted(replies, word, self.count, key)?;
        self.count += 1;
        Ok(Answered::Done)
    }
}

/// The reply to `tell`, which has a hundred bytes with its line feed.
pub const LONG: &str =
    "A reply of a hundred bytes, with its line feed: so that a body of many lines reaches its limit here";

/// The refusal that a line asks for.
fn refusal_in(text: &[u8]) -> Refusal {
    if text == b"error BadCommand".as_slice() {
        Refusal::BadCommand
    } else if text == b"error BadKey".as_slice() {
        Refusal::BadKey
    } else if text == b"error OutOfMemory".as_slice() {
        Refusal::OutOfMemory
    } else {
        Refusal::Short
    }
}

fn say(
    replies: &mut Replies<Global>,
    text: &[u8],
    answered: Answered,
) -> Result<Answered, OutOfMemory>
    requires { IsEmpty replies.old }
    ensures { OnOk result (AddsReply replies.old replies.new text.now) }
{
    put_line(replies, text)?;
    Ok(answered)
}

fn put_line(replies: &mut Replies<Global>, text: &[u8]) -> Result<(), OutOfMemory>
    requires { IsEmpty replies.old }
    ensures { OnOk result (AddsReply replies.old replies.new text.now) }
{
    replies.put(text)?;
    replies.finish()
}

fn put_counted(
    replies: &mut Replies<Global>,
    word: &[u8],
    count: u8,
    key: Option<Key>,
) -> Result<(), OutOfMemory>
    requires { IsEmpty replies.old }
    ensures ok { OnOk result ((reply : List ℕ) × AddsReply replies.old replies.new reply) }
    ensures short { OnOk result (length replies.new.whole ≤ length word.now + 73) }
{
    replies.put(word)?;
    replies.put(&[b'0' + count % 10])?;
    put_key(replies, key)?;
    replies.finish()
}

/// Adds the key to the current reply, if there is one.
fn put_key(replies: &mut Replies<Global>, key: Option<Key>) -> Result<(), OutOfMemory>
    ensures whole { OnOk result (replies.new.whole ≡ replies.old.whole) }
    ensures short { OnOk result (length replies.new.part ≤ length replies.old.part + 71) }
{
    let Some(key) = key else {
        return Ok(());
    };
    replies.put(b" under ")?;
    replies.put(key.bytes())
}

/// Adds the number from which the log is asked for.
fn put_first(replies: &mut Replies<Global>, first: u64) -> Result<(), OutOfMemory>
    requires { IsEmpty replies.old }
    ensures { OnOk result ((text : List ℕ) × (replies.new.whole ≡ replies.old.whole ++ text)) }
{
    replies.put_field(b"from ", first)?;
    replies.finish()
}

impl Backend for Counter {
    ghost answers = { λ key waits old line answer new. ⊤ };

    ghost status = { λ client text. ⊤ };

    ghost queue = { λ client text. ⊤ };

    ghost known = { λ client text. ⊤ };

    ghost listed = { λ client first text. ⊤ };

    ghost metrics = { λ client text. ⊤ };

    ghost closed = { λ client is_closed. ⊤ };

    fn begin(&self) {}

    fn reply(
        &mut self,
        key: Option<Key>,
        waits: bool,
        text: Option<&[u8]>,
        replies: &mut Replies<Global>,
    ) -> Result<Answered, OutOfMemory> {
        if waits {
            self.answer(key, text, b"spent ", replies)
        } else {
            self.answer(key, text, b"number ", replies)
        }
    }

    fn has_room(&self, len: usize) -> bool {
        len < self.room
    }

    fn put_status(&self, replies: &mut Replies<Global>) -> Result<(), OutOfMemory> {
        put_line(replies, b"{\"held\":0}")
    }

    fn put_queue(&self, replies: &mut Replies<Global>) -> Result<(), OutOfMemory> {
        put_line(replies, b"{\"requests\":[],\"unread\":0}")
    }

    fn put_peers(&self, replies: &mut Replies<Global>) -> Result<(), OutOfMemory> {
        put_line(replies, b"{\"peers\":[],\"site\":1}")
    }

    fn put_log(&self, first: u64, replies: &mut Replies<Global>) -> Result<(), OutOfMemory> {
        put_first(replies, first)
    }

    fn put_metrics(&self, replies: &mut Replies<Global>) -> Result<(), OutOfMemory> {
        put_line(replies, b"rights_held 0")
    }

    fn is_closed(&self) -> bool {
        self.closed
    }
}
