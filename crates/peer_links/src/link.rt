//! One connection with a peer: its first line, the incoming lines, and the outgoing lines.
ghost use Rattle.std.specs.Prelude.{◌≡◌};
ghost use Rattle.rights_types.specs.Messages.MessageValue.{AQuery};
ghost use Rattle.entry_codec.specs.Pieces.{IsLine};
ghost use Rattle.entry_codec.specs.Spelling.{Spells};
ghost use Rattle.peer_links.specs.Ports.{Heard};
ghost use Rattle.peer_links.specs.Ports.Heard.{AMessage, ALine, AState};
ghost use Rattle.link_intake.specs.declared.desk_message.DeskMessage.{DeskMessage};
ghost use Rattle.peer_links.specs.declared.link.LinkFault.TheVariants.{ReadFailed, OutOfMemory as NoMemory};
ghost use Rattle.peer_links.specs.declared.link.LinkFault.TheVariants.{TooManyLines as TooMany};

mod hello;
mod reading;
mod writing;

pub use hello::read_hello;
use inbound::InboundError;
use line_streams::{InputError, TooManyLines};
use link_intake::DeskMessage;
pub use reading::read_link;
use rights_types::{Beat, OutOfMemory, Query};
use std::sync::Wait;
use sub_buffer::State;
pub use writing::write_link;

/// Why a connection is given up.
#[derive(Clone, Copy, Debug, PartialEq, Eq)]
pub enum LinkFault {
    /// A read failed.
    ReadFailed,
    /// A write failed, or wrote no byte.
    WriteFailed,
    /// The number of lines, plus the number of reads in which no line ended, reached 1,000,000,000.
    TooManyLines,
    /// The first line does not name the peer's site, or there is no first line.
    NoHello,
    /// No thread applies the peer's entries any more.
    LaneClosed,
    /// A memory request was refused.
    OutOfMemory,
}

impl From<OutOfMemory> for LinkFault {
    ghost from_gives = { λ _ fault. fault ≡ NoMemory };

    fn from(_error: OutOfMemory) -> LinkFault {
        LinkFault::OutOfMemory
    }
}

impl From<InputError> for LinkFault {
    ghost from_gives = { λ _ fault. fault ≡ ReadFailed };

    fn from(_fault: InputError) -> LinkFault {
        LinkFault::ReadFailed
    }
}

impl From<TooManyLines> for LinkFault {
    ghost from_gives = { λ _ fault. fault ≡ TooMany };

    fn from(_error: TooManyLines) -> LinkFault {
        LinkFault::TooManyLines
    }
}

/// Why a line is skipped.
#[derive(Clone, Copy, Debug, PartialEq, Eq)]
pub enum Skipped {
    /// It has more than `MAX_LINE` bytes.
    Long,
    /// The intake refused it.
    Refused(InboundError),
}

/// Handles what comes from a peer, except entries, which go to a lane. The trait names no allocator: the
/// check does not accept an impl of a trait that has one as a parameter.
pub trait Port {
    // The messages that it may receive.
    ghost accepts: { DeskMessage → Type 0 };

    // A port in the first state that receives this may be in the second state afterwards.
    ghost hears: { Self → Heard → Self → Type 0 };

    /// Handles a message for the desk.
    fn message<R: Wait>(&mut self, rt: &R, message: DeskMessage) -> Result<(), OutOfMemory>
        requires { accepts message }
        ensures { hears self.old (AMessage message result) self.new };

    /// Sends the peer a line, which queries the entries that are missing.
    fn line<R: Wait>(&mut self, rt: &R, line: Vec<u8>)
        requires { IsLine line.items }
        ensures { hears self.old (ALine line.items) self.new };

    /// Sends the peer the line of this query. A port that records what is missing does so here.
    fn query<R: Wait>(&mut self, rt: &R, query: Query, line: Vec<u8>)
        requires { Spells (AQuery query) line.items }
        ensures { hears self.old (ALine line.items) self.new }
    {
        let _ = query;
        self.line(rt, line);
    }

    /// Reports, after each line, whether entries are missing, and how many are held until those arrive.
    fn seen<R: Wait>(&mut self, rt: &R, state: State, held: usize)
        ensures { hears self.old (AState state held) self.new };

    /// Reports that a line was skipped. A port can record this only in memory that threads share.
    fn skipped<R: Wait>(&self, _rt: &R, _why: Skipped) {}

    /// Reports a line that was taken in, with the beat if it is one. It can record this in the same way only.
    fn taken<R: Wait>(&self, _rt: &R, _beat: Option<Beat>) {}
}
