//! Entries of every length, from an outbox to the outlet of a lane.
ghost use Rattle.std.specs.Prelude.{IfOk, IfSome};
ghost use Rattle.entry_codec.specs.Pieces.{IsLine};

use crate::tests::links::ports::link_in;
use crate::tests::links::reading::{is_told, take_own};
use entry_codec::write_line;
use peer_links::{Outbox, write_link};
use rights_types::{Amount, AskNumber, Entry, Message, Move, OutOfMemory, SiteId};
use std::alloc::Global;
use std::sync::Wait;
use test_kit::Slow;

/// The least number of each count of digits.
const LEAST: [u64; 10] = [
    1,
    10,
    100,
    1_000,
    10_000,
    100_000,
    1_000_000,
    10_000_000,
    100_000_000,
    1_000_000_000,
];

/// A number with this number of digits, 1 to 10.
fn number_of(digits: usize) -> Option<u64> {
    LEAST.get(digits.checked_sub(1)?).copied()
}

/// An issue whose text has this number of bytes, 4 to 13, the space before it included.
fn issue_in(bytes: usize) -> Option<Move> {
    let amount = number_of(bytes.checked_sub(3)?)?;
    Some(Move::Issue(Amount::new(amount).ok()?))
}

/// A grant to site 2 whose text has this number of bytes, 8 to 26, the space before it included.
fn grant_in(bytes: usize) -> Option<Move> {
    let digits = bytes.checked_sub(6)?;
    let amount = number_of(digits / 2)?;
    let ask = number_of(digits - digits / 2)?;
    Some(Move::Grant {
        peer: SiteId::known(2),
        amount: Amount::new(amount).ok()?,
        ask: AskNumber::new(ask).ok()?,
    })
}

/// This number of moves whose texts have this number of bytes in all, the space before each included.
fn moves_in(alloc: Global, bytes: usize, count: usize) -> Option<Vec<Move>> {
    let mut moves = Vec::new(alloc);
    let mut left = bytes;
    for done in 0..count {
        let part = left / (count - done);
        let next = if part <= 13 {
            issue_in(part)
        } else {
            grant_in(part)
        };
        moves.push(next?).ok()?;
        left -= part;
    }
    Some(moves)
}

/// The line of an entry.
fn line_of_entry(alloc: Global, entry: Entry) -> Result<Vec<u8>, OutOfMemory>
    ensures { IfOk result (λ line. IsLine line.items) }
{
    let message: Message<Global> = Message::Push(entry);
    write_line(alloc, &message)
}

/// The line of an entry of site 1 with this number of moves, which have this number of bytes.
fn line_with(alloc: Global, bytes: usize, count: usize) -> Option<Vec<u8>>
    ensures { IfSome result (λ line. IsLine line.items) }
{
    let entry = Entry::new(SiteId::known(1), 0, moves_in(alloc, bytes, count)?).ok()?;
    line_of_entry(alloc, entry).ok()
}

/// The line of an entry of site 1 that has this number of bytes, 20 to 400: with three moves, or with sixteen.
fn line_of(alloc: Global, length: usize) -> Option<Vec<u8>>
    ensures { IfSome result (λ line. IsLine line.items) }
{
    if length < 80 {
        line_with(alloc, length.checked_sub(b"E 1 0 3\n".len())?, 3)
    } else {
        line_with(alloc, length.checked_sub(b"E 1 0 16\n".len())?, 16)
    }
}

/// What is sent over a link whose outbox gets the line. `None` if it has no room.
fn sent<R: Wait>(rt: &R, alloc: Global, line: Vec<u8>) -> Option<Vec<u8>>
    requires { IsLine line.items }
{
    let outbox = Outbox::new(alloc).ok()?;
    outbox.put(rt, line).ok()?;
    outbox.end(rt);
    let mut writer = Slow {
        text: Vec::new(alloc),
        step: 150,
    };
    write_link(rt, &mut writer, &mut &outbox).ok()?;
    Some(writer.text)
}

/// Whether the entry for which this text was read leaves the lane.
fn comes_out<R: Wait>(rt: &R, alloc: Global, text: &[u8]) -> bool {
    let Ok((mut intake, mut outlet)) = link_in(alloc) else {
        return false;
    };
    is_told(rt, alloc, &mut intake, text, 150, b"n0\n") && take_own(rt, &mut outlet).is_some()
}

/// Whether an entry of this number of bytes passes over a link, and leaves the lane.
fn is_carried<R: Wait>(rt: &R, alloc: Global, length: usize) -> bool {
    let Some(line) = line_of(alloc, length) else {
        return false;
    };
    match sent(rt, alloc, line) {
        Some(text) => text.len() == length && comes_out(rt, alloc, &text),
        None => false,
    }
}

#[test]
fn entries_of_every_length_come(rt: HostRuntime) {
    for length in 20..=400 {
        assert!(rt; is_carried(&rt, rt.alloc(), length), "{length} bytes");
    }
}
