//! Splits a stream into its pieces, each of which ends in its first line feed.
ghost use Rattle.std.specs.Prelude.{◌≡◌, ℕ, ◌<◌, ◌≤◌, ◌↔◌, false, List, [], ◌++◌, length, take, IsTrue, IfOk, OnErr};
ghost use Rattle.std.specs.Prelude.{IfSome, IfNone, if◌then◌else◌};
ghost use Rattle.std.specs.Io.BufRead.{take_through};
ghost use Rattle.entry_codec.specs.Pieces.{unfinished};
ghost use Rattle.entry_codec.specs.Cutter.{Holds, view_of, IsFed};
ghost use Rattle.entry_codec.specs.Cuts.{IsCut, IsGiven};

use crate::format::LINE_END;
use crate::parts::far_position;
use rights_types::{MAX_LINE, OutOfMemory};
use std::alloc::{Allocator, Global};
use std::marker::Model;

/// A piece of a stream.
#[derive(Drop)]
pub enum Cut<A: Allocator = Global> {
    /// A whole line.
    Line(Vec<u8, A>),
    /// A line with too many bytes, which were dropped.
    Long,
}

/// Takes the bytes of a stream, and returns its pieces.
#[derive(Drop)]
pub struct LineCutter<A: Allocator = Global> {
    room: Vec<u8, A>,
    is_long: bool,
    is_finished: bool,
}

impl<A: Allocator> Model for LineCutter<A> {
    ghost use Rattle.std.specs.Prelude.{◌≤◌, vec_len, vec_capacity};
    ghost use Rattle.rights_types.specs.declared.limits.TheConstants.{MAX_LINE};
    ghost use Rattle.entry_codec.specs.Cutter.{CutterView};

    ghost Value = { CutterView };

    ghost view = { λ c. record {
      kept = c.room.items;
      is_long = c.is_long;
      is_finished = c.is_finished;
    } };

    ghost invariant = { λ c. (vec_len c.room ≤ MAX_LINE) × (MAX_LINE ≤ vec_capacity c.room) };
}

// The number of bytes up to and including the first line feed; all of them, if there is none.
fn count_through(bytes: &[u8]) -> usize
    ensures count { result ≡ length (take_through LINE_END bytes.now) }
    ensures within { result ≤ length bytes.now }
{
    match far_position(bytes, LINE_END) {
        Some(index) => index + 1,
        None => bytes.len(),
    }
}

impl<A: Allocator + Copy> LineCutter<A> {
    /// A cutter that has taken nothing. It allocates its buffer, once. `OutOfMemory` if that is refused.
    pub fn new(alloc: A) -> Result<LineCutter<A>, OutOfMemory>
        ensures empty { IfOk result (λ cutter. cutter ≡ view_of []) }
        ensures fed { IfOk result (λ cutter. IsFed cutter [] []) }
    {
        Ok(LineCutter {
            room: Vec::with_capacity(alloc, MAX_LINE)?,
            is_long: false,
            is_finished: false,
        })
    }

    /// Takes bytes up to and including the first line feed, and none if a finished line waits. Returns how many it
    /// took.
    pub fn push(&mut self, bytes: &[u8]) -> usize
        ensures count { result
            ≡ (if self.old.is_finished then 0 else length (take_through LINE_END bytes.now)) }
        ensures within { result ≤ length bytes.now }
        ensures taken { (piece : List ℕ) → Holds self.old piece
            → Holds self.new (piece ++ take result bytes.now) }
        ensures fed { (stream : List ℕ) (given : List (List ℕ))
            → IsFed self.old stream given
            → IsFed self.new (stream ++ take result bytes.now) given }
    {
        if self.is_finished {
            return 0;
        }
        let count = count_through(bytes);
        if count == 0 {
            return 0;
        }
        let taken = &bytes[..count];
        if !self.is_long {
            if count <= MAX_LINE - self.room.len() {
                self.room.extend_from_slice(taken).unwrap();
            } else {
                self.room.clear();
                self.is_long = true;
            }
        }
        self.is_finished = taken[count - 1] == LINE_END;
        count
    }

    /// Whether any bytes came after the last line feed, even if they were too many to keep.
    pub fn unfinished(&self) -> bool
        ensures piece { (piece : List ℕ) → Holds self.now piece → self.now.is_finished ≡ false
            → (IsTrue result ↔ (0 < length piece)) }
        ensures whole { IsTrue self.now.is_finished → result ≡ false }
        ensures stream { (stream : List ℕ) (given : List (List ℕ)) → IsFed self.now stream given
            → (IsTrue result ↔ (0 < length (unfinished stream))) }
    {
        !self.is_finished && (self.is_long || !self.room.is_empty())
    }

    /// Returns the piece that waits, if there is one. On `OutOfMemory` it still waits.
    pub fn next_line(&mut self) -> Result<Option<Cut<A>>, OutOfMemory>
        ensures cut { IfOk result (λ cut. IfSome cut (λ cut.
            IsTrue self.old.is_finished × (self.new ≡ view_of [])
            × ((piece : List ℕ) → Holds self.old piece → IsCut piece cut))) }
        ensures given { IfOk result (λ cut. IfSome cut (λ cut.
            (stream : List ℕ) (given : List (List ℕ))
            → IsFed self.old stream given → IsGiven cut self.new stream given)) }
        ensures none { IfOk result (λ cut. IfNone cut (
            (self.old.is_finished ≡ false) × (self.new ≡ self.old))) }
        ensures waits { OnErr result (
            IsTrue self.old.is_finished × (self.old.is_long ≡ false) × (self.new ≡ self.old)) }
    {
        if !self.is_finished {
            return Ok(None);
        }
        if self.is_long {
            self.room.clear();
            self.is_long = false;
            self.is_finished = false;
            return Ok(Some(Cut::Long));
        }
        let line = Vec::from_slice(*self.room.allocator(), self.room.as_slice())?;
        self.room.clear();
        self.is_finished = false;
        Ok(Some(Cut::Line(line)))
    }
}
