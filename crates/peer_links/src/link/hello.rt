//! The first line of a connection.
ghost use Rattle.std.specs.Prelude.{◌≡◌, ◌≤◌, ℕ, [], ◌∷◌, List, length, IfOk, IfErr, IfSome, IfNone, IsErrOf, OnOk};
ghost use Rattle.std.specs.Io.KnownBytes.{Consumes, IsAtEnd};
ghost use Rattle.rights_types.specs.Messages.MessageValue.{AHello};
ghost use Rattle.rights_types.specs.Values.{value_of};
ghost use Rattle.rights_types.specs.declared.limits.TheConstants.{MAX_LINE as LONGEST};
ghost use Rattle.entry_codec.specs.Cutter.{IsFed, view_of};
ghost use Rattle.entry_codec.specs.Pieces.{IsLine};
ghost use Rattle.peer_links.specs.Links.{ReadsHello, HasEnded, HasRead, IsOneLine};
ghost use Rattle.peer_links.specs.declared.link.LinkFault.{LinkFault};

use crate::lines::LINE_END;
use crate::link::LinkFault;
use entry_codec::{Cut, LineCutter, read_line};
use line_streams::read_some;
use rights_types::{MAX_LINE, Message, SiteId};
use std::alloc::Allocator;
use std::io::Read;

/// Reads the first line of a connection, and returns the site that it names. It reads byte by byte, so that the
/// bytes after the line are left in the reader. The cutter must be new. Errors, in this order: `ReadFailed`, or
/// `NoHello` if the stream ends or the line gets too long before a line feed; `OutOfMemory`; `NoHello` if the line
/// names no site.
pub fn read_hello<I: Read, A: Allocator + Copy>(
    reader: &mut I,
    cutter: &mut LineCutter<A>,
) -> Result<SiteId, LinkFault>
    requires { IsFed cutter.old [] [] }
    ensures read { (text : List ℕ) × Consumes (I.remaining reader.old) (I.remaining reader.new) text
        × IsOneLine text × (length text ≤ LONGEST) × ReadsHello text result
        × (IsErrOf result LinkFault.NoHello → HasEnded text (I.remaining reader.new)) }
    // No byte of the line is left in the cutter.
    ensures empty { OnOk result (cutter.new ≡ view_of []) }
{
    read_first(reader, cutter)?;
    match cutter.next_line()? {
        Some(Cut::Line(line)) => speaker(&line),
        Some(Cut::Long) => Err(LinkFault::NoHello),
        None => unreachable!(),
    }
}

/// Reads up to the first line feed, which must be within the first `MAX_LINE` bytes.
fn read_first<I: Read, A: Allocator + Copy>(
    reader: &mut I,
    cutter: &mut LineCutter<A>,
) -> Result<(), LinkFault>
    requires { IsFed cutter.old [] [] }
    ensures read { (text : List ℕ) × Consumes (I.remaining reader.old) (I.remaining reader.new) text
        × (length text ≤ LONGEST) × HasRead text result cutter.new
        × (IsErrOf result LinkFault.NoHello → HasEnded text (I.remaining reader.new)) }
{
    'bytes: for _ in 0..MAX_LINE {
        let Some(byte) = read_byte(reader)? else {
            return Err(LinkFault::NoHello);
        };
        cutter.push(&[byte]);
        if byte == LINE_END {
            return Ok(());
        }
    }
    Err(LinkFault::NoHello)
}

/// Reads one byte. `None` at the end of the stream.
fn read_byte<I: Read>(reader: &mut I) -> Result<Option<u8>, LinkFault>
    ensures some { IfOk result (λ byte. IfSome byte (λ byte.
        Consumes (I.remaining reader.old) (I.remaining reader.new) (byte ∷ []))) }
    ensures none { IfOk result (λ byte. IfNone byte (
        Consumes (I.remaining reader.old) (I.remaining reader.new) [] × IsAtEnd (I.remaining reader.new))) }
    ensures failed { IfErr result (λ fault. (fault ≡ LinkFault.ReadFailed)
        × Consumes (I.remaining reader.old) (I.remaining reader.new) []) }
{
    let mut byte = [0];
    let length = read_some(reader, &mut byte)?;
    if length == 0 {
        Ok(None)
    } else {
        Ok(Some(byte[0]))
    }
}

/// The site that the line names, if it is a first line.
fn speaker<A: Allocator + Copy>(line: &Vec<u8, A>) -> Result<SiteId, LinkFault>
    requires { IsLine line.now.items }
    ensures { ReadsHello line.now.items result }
{
    let Ok(message) = read_line(*line.allocator(), line) else {
        return Err(LinkFault::NoHello);
    };
    match site_of(&message) {
        Some(site) => Ok(site),
        None => Err(LinkFault::NoHello),
    }
}

/// The site that a first line names. `None` for any other message.
fn site_of<A: Allocator>(message: &Message<A>) -> Option<SiteId>
    ensures some { IfSome result (λ site. value_of message.now ≡ AHello site) }
    ensures none { IfNone result ((site : ℕ) → value_of message.now ≡ AHello site → ⊥) }
{
    match message {
        Message::Hello(site) => Some(*site),
        _ => None,
    }
}
