//! A conversation in lines, from its first read to its last write.
ghost use Rattle.std.specs.Prelude.{◌≡◌, ℕ, ◌+◌, ◌<◌, ◌≤◌, ◌↔◌, List, [], ◌∷◌, ◌++◌, Option, Ok, length, take, IsTrue};
ghost use Rattle.std.specs.Prelude.{OnOk, OnErr, IfOk, IfErr, IsErrOf};
ghost use Rattle.std.specs.Io.KnownBytes.{Consumes, IsAtEnd};
ghost use Rattle.entry_codec.specs.Pieces.{pieces};
ghost use Rattle.memchr.specs.Find.{IsFirstByte, is_byte};
ghost use Rattle.line_streams.specs.Counting.{Parted, counts_for, still};
ghost use Rattle.line_streams.specs.Waiting.{IsEmpty};
ghost use Rattle.line_streams.specs.Handling.{IsGiven, LineGets};
ghost use Rattle.line_streams.specs.Talk.{Talk, EndsBy, Leaves};
ghost use Rattle.line_streams.specs.Going.{IsNew, Going, Fails, Fed, Ran};
ghost use Rattle.std.specs.Io.{ReadsAtMost};
ghost use Rattle.std.specs.Io.KnownBytes.{ReadConsumes};

use crate::fault::ConversationError;
use crate::handler::{EndedBy, Goes, LineHandler};
use crate::limit::{LINE_LIMIT, count_line};
use crate::read::read_some;
use crate::replies::{BLOCK, Replies};
use memchr::memchr;
use rights_types::{MAX_LINE, OutOfMemory};
use std::alloc::Allocator;
use std::io::{Read, Write};
use std::simd::prelude::*;

/// Bytes that are read at a time.
const READ_SIZE: usize = 65536;

/// Most lines end within so many bytes.
const NEAR: usize = 32;

/// A conversation in progress.
#[derive(Drop)]
struct Conversation<A: Allocator> {
    replies: Replies<A>,
    /// The beginning of an unfinished line; bytes beyond the longest line are dropped.
    carry: Vec<u8, A>,
    /// Lines, and reads that ended no line, so far.
    count: u64,
}

/// Appends to an unfinished line.
fn keep<A: Allocator>(carry: &mut Vec<u8, A>, bytes: &[u8]) -> Result<(), OutOfMemory>
    requires { length carry.old.items ≤ MAX_LINE }
    ensures { OnOk result (carry.new.items ≡ take MAX_LINE (carry.old.items ++ bytes.now)) }
{
    let room = MAX_LINE - carry.len();
    if bytes.len() > room {
        carry.extend_from_slice(&bytes[..room])?;
    } else {
        carry.extend_from_slice(bytes)?;
    }
    Ok(())
}

/// The length of the first line, without its line feed, if the text has a line feed. Lines are short, so the next
/// `NEAR` bytes come first, all at once.
#[inline(always)]
fn line_length(text: &[u8]) -> Option<usize>
    ensures { IsFirstByte (is_byte 10) text.now result }
{
    if text.len() >= NEAR {
        let ends = u8x32::from_slice(text)
            .simd_eq(u8x32::splat(b'\n'))
            .to_bitmask();
        if ends != 0 {
            return Some(ends.trailing_zeros() as usize);
        }
    }
    memchr(b'\n', text)
}

/// The text of a line as a handler gets it, or None if the line is too long. `text` has at least its first `MAX_LINE`
/// bytes.
fn within_limit(text: &[u8]) -> Option<&[u8]>
    ensures { (whole : List ℕ) → take MAX_LINE whole ≡ take MAX_LINE text.now → IsGiven (whole ++ 10 ∷ []) result }
{
    if text.len() < MAX_LINE {
        Some(text)
    } else {
        None
    }
}

impl<A: Allocator> Conversation<A> {
    /// Answers the line that this text completes.
    fn end_line<H: LineHandler>(
        &mut self,
        handler: &mut H,
        text: &[u8],
    ) -> Result<Goes, OutOfMemory>
        requires ready { self.old.replies.part ≡ [] }
        requires room { length self.old.replies.whole < BLOCK }
        requires short { length self.old.carry.items ≤ MAX_LINE }
        ensures line { IfOk result (λ goes. (front : List ℕ) → self.old.carry.items ≡ take MAX_LINE front
            → LineGets H.answers goes handler.old ((front ++ text.now) ++ 10 ∷ []) handler.new self.old.replies
            self.new.replies) }
        ensures ended { OnOk result (self.new.carry.items ≡ []) }
        ensures ready { OnOk result (self.new.replies.part ≡ []) }
        ensures kept { OnErr result (self.new.replies.whole ≡ self.old.replies.whole) }
        ensures err { OnErr result (Fails H.fails handler.new handler.old) }
        ensures count { self.new.count ≡ self.old.count }
    {
        if self.carry.is_empty() {
            return handler.answer(within_limit(text), &mut self.replies);
        }
        keep(&mut self.carry, text)?;
        let goes = handler.answer(within_limit(self.carry.as_slice()), &mut self.replies)?;
        self.carry.clear();
        Ok(goes)
    }

    /// Takes the bytes of a read, and answers each line that ends in them. Afterwards less than a block of replies
    /// waits.
    fn feed<H: LineHandler, W: Write>(
        &mut self,
        handler: &mut H,
        writer: &mut W,
        bytes: &[u8],
    ) -> Result<Goes, ConversationError>
        requires written { IsEmpty self.old.replies }
        requires short { length self.old.carry.items ≤ MAX_LINE }
        requires few { self.old.count < LINE_LIMIT }
        ensures short { OnOk result (length self.new.carry.items ≤ MAX_LINE) }
        ensures few { OnOk result (self.new.count < LINE_LIMIT) }
        ensures counts { result ≡ Ok Goes.On → 0 < length bytes.now
            → self.new.count ≡ self.old.count + counts_for bytes.now }
        ensures many { IsErrOf result ConversationError.TooManyLines
            → LINE_LIMIT ≤ self.old.count + counts_for bytes.now }
        ensures fed { (start : H) (input : List ℕ) (held : Option (List ℕ))
            → Going H.answers start input handler.old held (W.contents writer.old) self.old.replies self.old.carry.items
            → Fed H.answers H.fails start (input ++ bytes.now) held (W.contents writer.new) result handler.new
            self.new.replies self.new.carry.items }
    {
        let mut at = 0;
        while let Some(length) = line_length(&bytes[at..]) {
            if let Goes::Ends = self.end_line(handler, &bytes[at..at + length])? {
                return Ok(Goes::Ends);
            }
            at += length + 1;
            count_line(&mut self.count)?;
            self.replies.pass_on(writer)?;
        }
        keep(&mut self.carry, &bytes[at..])?;
        if at == 0 && !bytes.is_empty() {
            count_line(&mut self.count)?;
        }
        Ok(Goes::On)
    }

    /// Reads once. The read may block, so no reply may be waiting.
    fn read<R: Read>(&self, reader: &mut R, buffer: &mut [u8]) -> Result<usize, ConversationError>
        requires written { IsEmpty self.now.replies }
        ensures bound { ReadsAtMost result buffer.new }
        ensures bytes { ReadConsumes (R.remaining reader.old) (R.remaining reader.new) result buffer.new }
        ensures failed { IfErr result (λ fault. fault ≡ ConversationError.ReadFailed) }
    {
        Ok(read_some(reader, buffer)?)
    }

    /// Answers each line, to the end of the input or to a line that ends the conversation.
    fn run<H: LineHandler, R: Read, W: Write>(
        &mut self,
        handler: &mut H,
        reader: &mut R,
        writer: &mut W,
        buffer: &mut [u8],
    ) -> Result<EndedBy, ConversationError>
        requires room { 0 < length buffer.old }
        requires fresh { IsNew self.old.replies self.old.carry.items self.old.count }
        ensures ran { (chunks : List (List ℕ)) × (input : List ℕ)
            × Consumes (R.remaining reader.old) (R.remaining reader.new) input
            × Parted chunks input × Ran H.answers H.fails handler.old chunks input (W.contents writer.old)
            (W.contents writer.new) result handler.new self.new.replies.whole }
        ensures all { result ≡ Ok EndedBy.Input → IsAtEnd (R.remaining reader.new) }
    {
        'reads: loop {
            if !handler.can_go_on() {
                return Err(ConversationError::OutOfMemory);
            }
            let length = self.read(reader, buffer)?;
            if length == 0 {
                break;
            }
            if let Goes::Ends = self.feed(handler, writer, &buffer[..length])? {
                return Ok(EndedBy::Handler);
            }
            self.replies.write_to(writer)?;
        }
        self.end_input(handler, writer)
    }

    /// Answers an unfinished last line.
    fn end_input<H: LineHandler, W: Write>(
        &mut self,
        handler: &mut H,
        writer: &mut W,
    ) -> Result<EndedBy, ConversationError>
        requires written { IsEmpty self.old.replies }
        requires short { length self.old.carry.items ≤ MAX_LINE }
        requires few { self.old.count < LINE_LIMIT }
        ensures { (start : H) (chunks : List (List ℕ)) (input : List ℕ) (held : Option (List ℕ))
            → self.old.count ≡ length (pieces input) + still chunks
            → Going H.answers start input handler.old held (W.contents writer.old) self.old.replies self.old.carry.items
            → Ran H.answers H.fails start chunks input held (W.contents writer.new) result handler.new
            self.new.replies.whole }
    {
        if self.carry.is_empty() {
            return Ok(EndedBy::Input);
        }
        match self.feed(handler, writer, b"\n")? {
            Goes::On => Ok(EndedBy::Input),
            Goes::Ends => Ok(EndedBy::Handler),
        }
    }

    /// Answers all lines that the reader gives, and writes the replies, even if a fault ends it.
    fn run_whole<H: LineHandler, R: Read, W: Write>(
        &mut self,
        handler: &mut H,
        reader: &mut R,
        writer: &mut W,
        buffer: &mut [u8],
    ) -> Result<EndedBy, ConversationError>
        requires fresh { IsNew self.old.replies self.old.carry.items self.old.count }
        requires room { 0 < length buffer.old }
        ensures ends { (talk : Talk H.answers handler.old (R.remaining reader.old) (R.remaining reader.new)
            (W.contents writer.old) (W.contents writer.new))
            × EndsBy result talk × Leaves H.fails result talk handler.new }
        ensures all { result ≡ Ok EndedBy.Input → IsAtEnd (R.remaining reader.new) }
    {
        let result = self.run(handler, reader, writer, buffer);
        if is_write_failure(result) {
            return result;
        }
        self.replies.write_to(writer)?;
        result
    }
}

/// The buffer for reads.
fn read_room<A: Allocator>(alloc: A) -> Result<Vec<u8, A>, OutOfMemory>
    ensures { IfOk result (λ room. 0 < length room.items) }
{
    Ok(vec![in alloc; 0; READ_SIZE]?)
}

fn is_write_failure(ended: Result<EndedBy, ConversationError>) -> bool
    ensures { IsTrue result ↔ IsErrOf ended ConversationError.WriteFailed }
{
    match ended {
        Err(ConversationError::WriteFailed) => true,
        _ => false,
    }
}

fn begin<A: Allocator + Copy>(alloc: A) -> Result<Conversation<A>, OutOfMemory>
    ensures { IfOk result (λ c. IsNew c.replies c.carry.items c.count) }
{
    Ok(Conversation {
        replies: Replies::new(alloc),
        carry: Vec::with_capacity(alloc, MAX_LINE)?,
        count: 0,
    })
}

/// Answers the lines of a reader, to the end of the input or to a line that ends the conversation, and writes all
/// replies before the next read. An unfinished last line counts as a line. After a fault, replies to earlier lines are
/// still written. Errors: see `ConversationError`.
pub fn answer_lines<A: Allocator + Copy, H: LineHandler, R: Read, W: Write>(
    alloc: A,
    handler: &mut H,
    reader: &mut R,
    writer: &mut W,
) -> Result<EndedBy, ConversationError>
    ensures ends { (talk : Talk H.answers handler.old (R.remaining reader.old) (R.remaining reader.new)
        (W.contents writer.old) (W.contents writer.new))
        × EndsBy result talk × Leaves H.fails result talk handler.new }
    ensures all { result ≡ Ok EndedBy.Input → IsAtEnd (R.remaining reader.new) }
{
    let mut buffer = read_room(alloc)?;
    let mut conversation = begin(alloc)?;
    conversation.run_whole(handler, reader, writer, &mut buffer)
}
