//! An exit of a site: a writer whose bytes leave the process.
ghost use Rattle.std.specs.Prelude.{◌≡◌, [], IsSome, IsNone, IsTrue};
ghost use Rattle.std.specs.Io.{WritesAtMost};
ghost use Rattle.std.specs.Io.KnownBytes.{WriteAppends};
ghost use Rattle.durability.specs.Holds.{Waited, WaitsFirst};

use crate::{Durability, Held};
use histories::History;
use std::io;
use std::io::{ErrorKind, Write};
use std::sync::Wait;

/// A writer at an exit. With a journal each write first waits until all records are durable that were made by then, and
/// fails with `BrokenPipe`, and writes nothing, if they will not be. Without one it is the writer.
#[derive(Drop)]
pub struct ExitWriter<'a, R, W> {
    rt: &'a R,
    /// `None` without a journal.
    durability: Option<&'a Durability>,
    inner: W,
    /// For clauses: the counts when each wait began, and when it ended.
    waits: History<Held<'a>>,
}

impl<'a, R: Wait, W: Write> ExitWriter<'a, R, W> {
    pub fn new(rt: &'a R, durability: Option<&'a Durability>, inner: W) -> ExitWriter<'a, R, W>
        ensures durability { result.durability ≡ durability.entry }
        ensures inner { result.inner ≡ inner }
        ensures waits { result.waits.items ≡ [] }
    {
        ExitWriter {
            rt,
            durability,
            inner,
            waits: History::new(),
        }
    }

    /// Waits, and then writes.
    fn write_durable(&mut self, buf: &[u8]) -> io::Result<usize>
        ensures bound { WritesAtMost result buf.now }
        ensures bytes { WriteAppends (W.contents self.old.inner) (W.contents self.new.inner) result buf.now }
        ensures waits { IsSome self.old.durability
            → WaitsFirst self.old.waits.items self.old.inner result self.new.inner self.new.waits.items }
        ensures free { IsNone self.old.durability → self.new.waits.items ≡ self.old.waits.items }
        ensures same { self.new.durability ≡ self.old.durability }
    {
        if !self.may_write() {
            return Err(io::Error::from(ErrorKind::BrokenPipe));
        }
        self.inner.write(buf)
    }

    /// Waits. `false` if nothing may be written.
    fn may_write(&mut self) -> bool
        ensures waits { IsSome self.old.durability → Waited self.old.waits.items result self.new.waits.items }
        ensures free { IsNone self.old.durability → IsTrue result × (self.new.waits.items ≡ self.old.waits.items) }
        ensures same { (self.new.durability ≡ self.old.durability) × (self.new.inner ≡ self.old.inner) }
    {
        match self.durability {
            Some(durability) => durability.pass(self.rt, &mut self.waits),
            None => true,
        }
    }
}

impl<R: Wait, W: Write> Write for ExitWriter<'_, R, W> {
    ghost contents = { λ exit. W.contents exit.inner };

    fn write(&mut self, buf: &[u8]) -> io::Result<usize> {
        self.write_durable(buf)
    }

    fn flush(&mut self) -> io::Result<()> {
        self.inner.flush()
    }
}
