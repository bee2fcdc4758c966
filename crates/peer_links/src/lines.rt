//! The pieces of a stream that is read a block at a time: borrowed if they lie whole in a block, and
//! copied only if they span two blocks.
ghost use Rattle.std.specs.Prelude.{◌≡◌, ℕ, ◌<◌, ◌≤◌, ◌++◌, List, length, take, IfOk, OnErr, IfSome, IfNone};
ghost use Rattle.entry_codec.specs.Cuts.{IsCut};
ghost use Rattle.entry_codec.specs.Pieces.{pieces};
ghost use Rattle.peer_links.specs.Links.{IsFedAll};
ghost use Rattle.peer_links.specs.Lines.{IsPiece, IsGivenFor};
ghost use Rattle.peer_links.specs.Takes.{EndsBegun};

use entry_codec::{Cut, LineCutter};
use memchr::memchr;
use rights_types::{MAX_LINE, OutOfMemory};
use std::alloc::Allocator;

/// The byte that ends a line.
pub(crate) const LINE_END: u8 = b'\n';

/// A piece of a stream.
#[derive(Drop)]
pub enum Piece<'a, A: Allocator> {
    /// A whole line, with its line feed, in the block that was read.
    Borrowed(&'a [u8]),
    /// A whole line, with its line feed, whose first part was in an earlier block.
    Owned(Vec<u8, A>),
    /// A line of more than `MAX_LINE` bytes, its line feed included.
    Long,
}

/// The next piece of the stream that these bytes continue, and how many of them were taken. `None` if no piece
/// ends in them: then all of them were taken.
pub fn next_piece<'a, A: Allocator + Copy>(
    cutter: &mut LineCutter<A>,
    bytes: &'a [u8],
) -> Result<(Option<Piece<'a, A>>, usize), OutOfMemory>
    ensures within { IfOk result (λ r. r.1 ≤ length bytes.now) }
    ensures some { IfOk result (λ r. IfSome r.0 (λ _. 0 < r.1)) }
    ensures none { IfOk result (λ r. IfNone r.0 (r.1 ≡ length bytes.now)) }
    ensures fed { IfOk result (λ r. (stream : List ℕ) → IsFedAll cutter.old stream
        → IsFedAll cutter.new (stream ++ take r.1 bytes.now)) }
    ensures piece { IfOk result (λ r. (stream : List ℕ) → IsFedAll cutter.old stream
        → (ended : List (List ℕ)) × IsGivenFor r.0 ended
        × (pieces (stream ++ take r.1 bytes.now) ≡ pieces stream ++ ended)) }
    ensures memory { OnErr result ((stream : List ℕ) → IsFedAll cutter.old stream → EndsBegun stream bytes.now) }
{
    let Some(length) = memchr(LINE_END, bytes) else {
        cutter.push(bytes);
        return Ok((None, bytes.len()));
    };
    let count = length + 1;
    if cutter.unfinished() {
        cutter.push(bytes);
        let Some(cut) = cutter.next_line()? else {
            // The line feed ended a piece, so this is not reached.
            return Ok((None, bytes.len()));
        };
        return Ok((Some(piece_of(cut)), count));
    }
    if count > MAX_LINE {
        return Ok((Some(Piece::Long), count));
    }
    Ok((Some(Piece::Borrowed(&bytes[..count])), count))
}

// The piece that was copied.
fn piece_of<'a, A: Allocator>(cut: Cut<A>) -> Piece<'a, A>
    ensures { (piece : List ℕ) → IsCut piece cut → IsPiece result piece }
{
    match cut {
        Cut::Line(line) => Piece::Owned(line),
        Cut::Long => Piece::Long,
    }
}
