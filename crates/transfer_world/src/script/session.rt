//! A script from its first read to its last write.
ghost use Rattle.std.specs.Prelude.{◌≡◌, None, Option, OnOk};
ghost use Rattle.std.specs.Io.KnownBytes.{IsAtEnd};
ghost use Rattle.transfer_world.specs.Talk.{Talk, EndsBy};

use crate::script::ScriptFault;
use crate::script::answers::answer_line;
use line_streams::{Goes, LineHandler, Replies, answer_lines};
use rights_types::OutOfMemory;
use std::alloc::Allocator;
use std::io::{Read, Write};
use std::marker::Model;
use std::mem;
use world_core::{ForReplies, World};

/// A script in progress.
#[derive(Drop)]
struct Session<A: Allocator> {
    alloc: A,
    /// None before `sites`.
    world: Option<World<A, ForReplies>>,
}

impl<A: Allocator> Model for Session<A> {
    ghost use Rattle.std.specs.Prelude.{Option};
    ghost use Rattle.world_core.specs.Values.{WorldValue};

    ghost Value = { Option WorldValue };

    ghost view = { λ s. s.world };
}

impl<A: Allocator + Copy> LineHandler for Session<A> {
    ghost use Rattle.std.specs.Prelude.{⊤};
    ghost use Rattle.transfer_world.specs.Talk.{ScriptAnswers};

    ghost answers = { ScriptAnswers A };

    ghost fails = { λ before after. ⊤ };

    fn can_go_on(&self) -> bool {
        true
    }

    fn answer<B: Allocator>(
        &mut self,
        text: Option<&[u8]>,
        replies: &mut Replies<B>,
    ) -> Result<Goes, OutOfMemory> {
        answer_line(self.alloc, &mut self.world, replies, text)?;
        Ok(Goes::On)
    }
}

impl<A: Allocator + Copy> Session<A> {
    fn new(alloc: A) -> Session<A>
        ensures { result ≡ None }
    {
        Session { alloc, world: None }
    }

    /// Answers all lines that the reader gives.
    fn run<R: Read, W: Write>(&mut self, reader: &mut R, writer: &mut W) -> Result<(), ScriptFault>
        requires { self.old ≡ None }
        ensures ends { (talk : Talk A (R.remaining reader.old) (R.remaining reader.new) (W.contents writer.old)
            (W.contents writer.new))
            × EndsBy result talk }
        ensures all { OnOk result (IsAtEnd (R.remaining reader.new)) }
    {
        answer_lines(self.alloc, self, reader, writer)?;
        Ok(())
    }
}

/// Answers the commands of a reader to the end of the input, and writes all replies before the next read. After a
/// fault, replies to earlier commands are still written.
pub fn run_script<A: Allocator + Copy, R: Read, W: Write>(
    alloc: A,
    reader: &mut R,
    writer: &mut W,
) -> Result<(), ScriptFault>
    ensures ends { (talk : Talk A (R.remaining reader.old) (R.remaining reader.new) (W.contents writer.old)
        (W.contents writer.new))
        × EndsBy result talk }
    ensures all { OnOk result (IsAtEnd (R.remaining reader.new)) }
{
    Session::new(alloc).run(reader, writer)
}

/// Runs a script as `run_script` does, and leaves the memory of its world to the end of the process. Freeing it block
/// by block takes up to a third of the time of a script that loses many lines.
pub fn run_last_script<A: Allocator + Copy, R: Read, W: Write>(
    alloc: A,
    reader: &mut R,
    writer: &mut W,
) -> Result<(), ScriptFault>
    ensures ends { (talk : Talk A (R.remaining reader.old) (R.remaining reader.new) (W.contents writer.old)
        (W.contents writer.new))
        × EndsBy result talk }
    ensures all { OnOk result (IsAtEnd (R.remaining reader.new)) }
{
    let mut session = Session::new(alloc);
    let result = session.run(reader, writer);
    mem::forget(session);
    result
}
