//! The outgoing lines of a peer.
ghost use Rattle.std.specs.Prelude.{◌≡◌, ℕ, ◌+◌, ◌≤◌, List, [], ◌∷◌, length, take, nat_lt, if◌then◌else◌, OnOk};
ghost use Rattle.std.specs.Io.KnownBytes.{Appends};
ghost use Rattle.entry_codec.specs.Pieces.{pieces, IsLine};
ghost use Rattle.peer_links.specs.Sources.{AreLines, SendsLines, WritesLines};

use crate::lines::LINE_END;
use crate::link::LinkFault;
use crate::source::{Batch, LineSource};
use line_streams::write_some;
use memchr::memchr;
use std::io::Write;
use std::sync::Wait;

/// The greatest number of bytes of waiting lines that one write takes.
const ROOM: usize = 32_768;

/// Writes the lines of the source as they come, in order and each once, until the source has ended and no line waits.
/// Lines that wait together go into one write. If a write fails, the line in which that write began is lost or
/// torn, and counts as taken; the lines after it wait for the next connection. It requests no memory. The only error
/// is `WriteFailed`.
pub fn write_link<R: Wait, W: Write, S: LineSource>(
    rt: &R,
    writer: &mut W,
    source: &mut S,
) -> Result<(), LinkFault>
    ensures sends { SendsLines S.takes source.old source.new (W.contents writer.old) (W.contents writer.new) result }
    ensures over { OnOk result (S.is_over source.new) }
{
    let mut room = [0; ROOM];
    'batches: for _ in rt.forever() {
        match source.next_batch(rt, &mut room) {
            Batch::Over => return Ok(()),
            Batch::Copied(length) => write_copied(rt, writer, source, &room[..length])?,
            Batch::Large(line) => write_line(writer, &line)?,
        }
    }
    unreachable!()
}

/// Writes lines that wait at the front of the source, and takes those that were begun.
fn write_copied<R: Wait, W: Write, S: LineSource>(
    rt: &R,
    writer: &mut W,
    source: &mut S,
    text: &[u8],
) -> Result<(), LinkFault>
    requires { (lines : List (List ℕ)) × S.waits source.old lines × AreLines lines text.now }
    ensures { SendsLines S.takes source.old source.new (W.contents writer.old) (W.contents writer.new) result }
{
    let written = write_front(writer, text);
    source.take_front(rt, begun(text, written));
    if written < text.len() {
        return Err(LinkFault::WriteFailed);
    }
    Ok(())
}

/// Writes one line.
fn write_line<W: Write>(writer: &mut W, line: &[u8]) -> Result<(), LinkFault>
    ensures { WritesLines (W.contents writer.old) (W.contents writer.new) (line.now ∷ []) result }
{
    if write_front(writer, line) < line.len() {
        return Err(LinkFault::WriteFailed);
    }
    Ok(())
}

/// Writes the text, in as many writes as needed, and returns how many bytes were written before a write failed or
/// wrote no byte.
fn write_front<W: Write>(writer: &mut W, text: &[u8]) -> usize
    ensures within { result ≤ length text.now }
    ensures bytes { Appends (W.contents writer.old) (W.contents writer.new) (take result text.now) }
{
    let mut done = 0;
    'writes: while done < text.len() {
        let count = write_some(writer, &text[done..]);
        if count == 0 {
            break;
        }
        done += count;
    }
    done
}

/// How many lines of the text were begun, if this number of its bytes was written: those that were
/// written whole, and the one in which the next write would have begun.
fn begun(lines: &[u8], written: usize) -> usize
    requires { written ≤ length lines.now }
    ensures { result ≡ length (pieces (take written lines.now)) + (if nat_lt written (length lines.now) then 1 else 0) }
{
    let whole = count_lines(&lines[..written]);
    if written < lines.len() {
        whole + 1
    } else {
        whole
    }
}

/// How many lines end in the text.
fn count_lines(text: &[u8]) -> usize
    ensures count { result ≡ length (pieces text.now) }
    ensures within { result ≤ length text.now }
{
    let mut count = 0;
    let mut at = 0;
    'lines: while let Some(length) = memchr(LINE_END, &text[at..]) {
        at += length + 1;
        count += 1;
    }
    count
}
