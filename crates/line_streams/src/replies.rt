//! Replies that wait to be written.
ghost use Rattle.std.specs.Prelude.{◌≡◌, ℕ, List, [], ◌++◌, ◌<◌, ◌≤◌, ◌+◌, length, decimal, OnOk, OnErr, IsOk};
ghost use Rattle.std.specs.Io.KnownBytes.{Appends};
ghost use Rattle.line_streams.specs.Fronts.{FallsShort};
ghost use Rattle.line_streams.specs.Waiting.{IsEmpty, AddsReply};

use crate::put::{MAX_DIGITS, make_room, put_field, put_text};
use crate::write::{OutputError, write_whole};
use rights_types::OutOfMemory;
use std::alloc::Allocator;
use std::io::Write;
use std::marker::Model;

/// Whole replies are written once they have this many bytes, before the next line is answered.
pub const BLOCK: usize = 65536;

/// Replies that wait to be written: whole ones, and then the beginning of the next one. If memory runs out, an
/// unfinished reply is not among the whole ones.
#[derive(Drop)]
pub struct Replies<A: Allocator> {
    /// The replies, up to `end`. The bytes after it are free space, so one comparison tells whether a word and its
    /// number fit.
    bytes: Vec<u8, A>,
    end: usize,
    whole: usize,
}

impl<A: Allocator> Model for Replies<A> {
    ghost use Rattle.std.specs.Prelude.{◌≤◌, ◌-◌, take, drop, vec_len};
    ghost use Rattle.line_streams.specs.Waiting.{Waiting};

    ghost Value = { Waiting };

    ghost view = { λ r. record {
      whole = take r.whole r.bytes.items;
      part = drop r.whole (take r.end r.bytes.items);
      room = vec_len r.bytes - r.end;
    } };

    ghost invariant = { λ r. (r.whole ≤ r.end) × (r.end ≤ vec_len r.bytes) };
}

impl<A: Allocator> Replies<A> {
    pub fn new(alloc: A) -> Replies<A>
        ensures { IsEmpty result }
    {
        Replies {
            bytes: Vec::new(alloc),
            end: 0,
            whole: 0,
        }
    }

    /// Makes sure that the current reply can grow by this many bytes without a memory request.
    pub fn reserve(&mut self, count: usize) -> Result<(), OutOfMemory>
        ensures ok { OnOk result (count ≤ self.new.room) }
        ensures memory { count ≤ self.old.room → IsOk result }
        ensures whole { self.new.whole ≡ self.old.whole }
        ensures part { self.new.part ≡ self.old.part }
        ensures room { self.old.room ≤ self.new.room }
    {
        make_room(&mut self.bytes, self.end, count)
    }

    /// Appends to the current reply. Call sites know their words at compile time, so an inlined call copies them by a
    /// store or two.
    #[inline(always)]
    pub fn put(&mut self, text: &[u8]) -> Result<(), OutOfMemory>
        ensures ok { OnOk result (self.new.part ≡ self.old.part ++ text.now) }
        ensures kept { self.new.whole ≡ self.old.whole }
        ensures room { length text.now ≤ self.old.room → IsOk result }
        ensures left { self.old.room ≤ self.new.room + length text.now }
    {
        make_room(&mut self.bytes, self.end, text.len())?;
        self.end = put_text(self.bytes.as_mut_slice(), self.end, text);
        Ok(())
    }

    /// Appends a word and a number.
    #[inline(always)]
    pub fn put_field<const N: usize>(
        &mut self,
        word: &[u8; N],
        number: u64,
    ) -> Result<(), OutOfMemory>
        ensures ok { OnOk result (self.new.part ≡ self.old.part ++ word.now ++ decimal number) }
        ensures kept { self.new.whole ≡ self.old.whole }
        ensures room { N + MAX_DIGITS ≤ self.old.room → IsOk result }
        ensures left { self.old.room ≤ self.new.room + (N + MAX_DIGITS) }
    {
        make_room(&mut self.bytes, self.end, N + MAX_DIGITS)?;
        self.end = put_field(self.bytes.as_mut_slice(), self.end, word, number);
        Ok(())
    }

    /// Ends the current reply with a line feed.
    pub fn finish(&mut self) -> Result<(), OutOfMemory>
        ensures ok { OnOk result (AddsReply self.old self.new self.old.part) }
        ensures kept { OnErr result (self.new.whole ≡ self.old.whole) }
        ensures room { 1 ≤ self.old.room → IsOk result }
        ensures left { self.old.room ≤ self.new.room + 1 }
    {
        self.put(b"\n")?;
        self.whole = self.end;
        Ok(())
    }

    /// The whole replies.
    pub fn whole(&self) -> &[u8]
        ensures { result.now ≡ self.now.whole }
    {
        &self.bytes[..self.whole]
    }

    /// Drops all replies, and keeps the memory.
    pub fn clear(&mut self)
        ensures { IsEmpty self.new }
    {
        self.end = 0;
        self.whole = 0;
    }

    /// Writes the whole replies, and drops everything. On `Err` the writer has taken a proper prefix of them.
    pub fn write_to<W: Write>(&mut self, writer: &mut W) -> Result<(), OutputError>
        ensures whole { OnOk result (Appends (W.contents writer.old) (W.contents writer.new) self.old.whole) }
        ensures empty { OnOk result (IsEmpty self.new) }
        ensures front { OnErr result (FallsShort (W.contents writer.old) (W.contents writer.new) self.old.whole) }
    {
        write_whole(writer, &self.bytes[..self.whole])?;
        self.end = 0;
        self.whole = 0;
        Ok(())
    }

    /// Writes the whole replies if they fill a block. On `Err` the writer has taken a proper prefix of them.
    pub fn pass_on<W: Write>(&mut self, writer: &mut W) -> Result<(), OutputError>
        requires { self.old.part ≡ [] }
        ensures whole { OnOk result ((text : List ℕ) × Appends (W.contents writer.old) (W.contents writer.new) text
            × (self.old.whole ≡ text ++ self.new.whole)) }
        ensures ready { OnOk result (self.new.part ≡ []) }
        ensures room { OnOk result (length self.new.whole < BLOCK) }
        ensures front { OnErr result (FallsShort (W.contents writer.old) (W.contents writer.new) self.old.whole) }
    {
        if self.whole < BLOCK {
            return Ok(());
        }
        self.write_to(writer)
    }
}
