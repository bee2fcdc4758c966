//! The lines that wait.
ghost use Rattle.std.specs.Prelude.{◌≡◌, ◌≤◌, ◌==◌, [], ◌∷◌, length, IfOk, IfSome, IfNone};
ghost use Rattle.std.specs.Io.KnownBytes.{Appends};
ghost use Rattle.std.specs.String.{string_bytes};
ghost use Rattle.log_lines.specs.Backlogs.{Puts, Drops, joined};

use circular_buffer::HeapCircularBuffer;
use line_streams::write_whole;
use rights_types::OutOfMemory;
use std::alloc::Global;
use std::io::Write;
use std::marker::Model;
use std::mem;

/// The greatest number of log lines that wait to be written.
pub const LOG_LINES: usize = 1024;

/// Lines that wait to be written, the oldest first, and how many were dropped since that was last reported.
#[derive(Drop)]
pub(crate) struct Backlog {
    lines: HeapCircularBuffer<String>,
    dropped: u64,
}

impl Model for Backlog {
    ghost use Rattle.std.specs.Prelude.{◌≡◌, ◌≤◌, map, length};
    ghost use Rattle.std.specs.String.{string_bytes};
    ghost use Rattle.log_lines.specs.declared.backlog.TheConstants.{LOG_LINES};
    ghost use Rattle.log_lines.specs.Backlogs.{BacklogValue};

    ghost Value = { BacklogValue };

    ghost view = { λ b. record { lines = map string_bytes b.lines.items; dropped = b.dropped } };

    ghost invariant = { λ b. (b.lines.capacity ≡ LOG_LINES) × (length b.lines.items ≤ LOG_LINES) };
}

impl Backlog {
    /// An empty one, with all the memory that it needs besides that of the lines.
    pub(crate) fn new(alloc: Global) -> Result<Backlog, OutOfMemory>
        ensures { IfOk result (λ b. b ≡ record { lines = []; dropped = 0 }) }
    {
        Ok(Backlog {
            lines: HeapCircularBuffer::with_capacity(alloc, LOG_LINES)?,
            dropped: 0,
        })
    }

    pub(crate) fn is_empty(&self) -> bool
        ensures { result ≡ (length self.now.lines == 0) }
    {
        self.lines.is_empty()
    }

    /// Puts a line after the others. If `LOG_LINES` wait, it is dropped. Returns whether it was put.
    pub(crate) fn put(&mut self, line: String) -> bool
        ensures { Puts self.old (string_bytes line) result self.new }
    {
        if self.lines.try_push_back(line).is_err() {
            self.count_dropped(1);
            return false;
        }
        true
    }

    /// Counts lines that were dropped.
    pub(crate) fn count_dropped(&mut self, count: u64)
        ensures { Drops self.old count self.new }
    {
        self.dropped = self.dropped.saturating_add(count);
    }

    /// Exchanges what waits with what waits there.
    pub(crate) fn swap(&mut self, other: &mut Backlog)
        ensures this { self.new ≡ other.old }
        ensures other { other.new ≡ self.old }
    {
        mem::swap(self, other);
    }

    /// How many lines were dropped. After this call none count as dropped.
    pub(crate) fn take_dropped(&mut self) -> u64
        ensures count { result ≡ self.old.dropped }
        ensures none { self.new ≡ record self.old { dropped = 0 } }
    {
        mem::replace(&mut self.dropped, 0)
    }

    /// Takes the oldest line.
    fn take(&mut self) -> Option<String>
        ensures some { IfSome result (λ line.
            self.old ≡ record self.new { lines = string_bytes line ∷ self.new.lines }) }
        ensures none { IfNone result ((self.old.lines ≡ []) × (self.new ≡ self.old)) }
    {
        self.lines.pop_front()
    }

    /// Drops the lines that wait.
    fn clear(&mut self)
        ensures { self.new ≡ record self.old { lines = [] } }
    {
        self.lines.clear();
    }

    /// How many lines wait.
    fn len(&self) -> usize
        ensures value { result ≡ length self.now.lines }
        ensures few { result ≤ LOG_LINES }
    {
        self.lines.len()
    }

    /// Takes all lines, and writes them in order until a write fails. Returns how many were not written whole.
    pub(crate) fn write_to<W: Write>(&mut self, out: &mut W) -> usize
        ensures taken { self.new ≡ record self.old { lines = [] } }
        ensures few { result ≤ length self.old.lines }
        ensures written { result ≡ 0
            → Appends (W.contents out.old) (W.contents out.new) (joined self.old.lines) }
    {
        'lines: while let Some(line) = self.take() {
            if write_whole(out, line.as_bytes()).is_err() {
                let lost = self.len() + 1;
                self.clear();
                return lost;
            }
        }
        0
    }
}
