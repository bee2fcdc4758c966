//! The incoming lines of a peer.
ghost use Rattle.std.specs.Prelude.{◌≡◌, ℕ, ◌+◌, ◌<◌, ◌≤◌, ◌++◌, [], ◌∷◌, false, List, length, take, OnOk, IfOk, IfErr};
ghost use Rattle.std.specs.Prelude.{IfSome, IsErrOf, MatchResult};
ghost use Rattle.std.specs.Io.KnownBytes.{Consumes, IsAtEnd};
ghost use Rattle.line_streams.specs.Counting.{counts_for, still};
ghost use Rattle.peer_links.specs.Links.{IsFedAll, LinkGave, LinkEnds, IsOfIntake, MayFail};
ghost use Rattle.peer_links.specs.Lines.{IsPiece};
ghost use Rattle.sub_buffer.specs.Buffers.{SamePair};
ghost use Rattle.peer_links.specs.Ports.{Heard, AcceptsPeer};
ghost use Rattle.peer_links.specs.Turns.{InTurn};
ghost use Rattle.peer_links.specs.Takes.{TakesInput, TakesLine, TakesPiece, AsksGap, HearsMessage, message_in};
ghost use Rattle.peer_links.specs.Takes.{beat_in, after_refusal};
ghost use Rattle.peer_links.specs.declared.link.LinkFault.{LinkFault};

use crate::lines::{Piece, next_piece};
use crate::link::{LinkFault, Port, Skipped};
use entry_codec::LineCutter;
use inbound::InboundError;
use line_streams::{LINE_LIMIT, count_line, read_some};
use link_intake::{Arrived, Intake, IntakeError};
use rights_types::{Beat, OutOfMemory};
use std::alloc::Global;
use std::io::Read;
use std::sync::Wait;

/// The greatest number of bytes of one read.
const READ_SIZE: usize = 16_384;

/// Takes in the lines of a connection after the first one, until its end. An unfinished last line is dropped.
/// Requires that the intake is not finished, that no line waits in the cutter, and that the port accepts what the
/// intake's origin may send to its site.
/// Stops at the first error: `ReadFailed`, `TooManyLines`, `LaneClosed` or `OutOfMemory`.
pub fn read_link<R: Wait, I: Read, P: Port>(
    rt: &R,
    reader: &mut I,
    cutter: &mut LineCutter,
    intake: &mut Intake,
    port: &mut P,
) -> Result<(), LinkFault>
    requires cutter { (stream : List ℕ) × IsFedAll cutter.old stream }
    requires unfinished { intake.old.finished ≡ false }
    requires accepts { AcceptsPeer P.accepts intake.old.inbound.buffer }
    ensures gave { (gave : LinkGave (I.remaining reader.old) (I.remaining reader.new)) × LinkEnds gave result
        × TakesInput P.hears (still gave.chunks) cutter.old gave.input
        intake.old port.old result intake.new port.new }
    ensures all { OnOk result (IsAtEnd (I.remaining reader.new)) }
    ensures unfinished { intake.new.finished ≡ false }
    ensures lane { intake.new.inlet.lane ≡ intake.old.inlet.lane }
    ensures pair { SamePair intake.old.inbound.buffer intake.new.inbound.buffer }
{
    let mut room = [0; READ_SIZE];
    let mut count = 0;
    'reads: loop {
        let length = read_some(reader, &mut room)?;
        if length == 0 {
            return Ok(());
        }
        take_block(rt, cutter, &room[..length], &mut count, intake, port)?;
    }
}

/// Takes in the lines that end in the bytes of one read, and counts them. If no line ends in them, the read counts
/// as one.
fn take_block<R: Wait, P: Port>(
    rt: &R,
    cutter: &mut LineCutter,
    bytes: &[u8],
    count: &mut u64,
    intake: &mut Intake,
    port: &mut P,
) -> Result<(), LinkFault>
    requires some { 0 < length bytes.now }
    requires cutter { (stream : List ℕ) × IsFedAll cutter.old stream }
    requires few { count.old < LINE_LIMIT }
    requires unfinished { intake.old.finished ≡ false }
    requires accepts { AcceptsPeer P.accepts intake.old.inbound.buffer }
    ensures fed { OnOk result ((stream : List ℕ) → IsFedAll cutter.old stream
        → IsFedAll cutter.new (stream ++ bytes.now)) }
    ensures few { OnOk result (count.new < LINE_LIMIT) }
    ensures counts { OnOk result (count.new ≡ count.old + counts_for bytes.now) }
    ensures many { IsErrOf result LinkFault.TooManyLines → LINE_LIMIT ≤ count.old + counts_for bytes.now }
    ensures may { IfErr result MayFail }
    ensures takes { TakesInput P.hears (count.old + still (bytes.now ∷ [])) cutter.old bytes.now
        intake.old port.old result intake.new port.new }
    ensures unfinished { intake.new.finished ≡ false }
    ensures lane { intake.new.inlet.lane ≡ intake.old.inlet.lane }
    ensures pair { SamePair intake.old.inbound.buffer intake.new.inbound.buffer }
{
    let mut at = 0;
    'pieces: while at < bytes.len() {
        let (piece, taken) = next_piece(cutter, &bytes[at..])?;
        let Some(piece) = piece else {
            if at == 0 {
                count_line(count)?;
            }
            return Ok(());
        };
        take_piece(rt, piece, intake, port)?;
        count_line(count)?;
        at += taken;
    }
    Ok(())
}

/// Takes a piece in. A line that is too long, or that the intake refuses for a cause other than memory, is skipped.
fn take_piece<R: Wait, P: Port>(
    rt: &R,
    piece: Piece<'_, Global>,
    intake: &mut Intake,
    port: &mut P,
) -> Result<(), LinkFault>
    requires unfinished { intake.old.finished ≡ false }
    requires accepts { AcceptsPeer P.accepts intake.old.inbound.buffer }
    ensures may { IfErr result IsOfIntake }
    ensures takes { (text : List ℕ) → IsPiece piece.entry text → (heard : List Heard)
        × TakesPiece intake.old text result heard intake.new × InTurn P.hears port.old heard port.new }
    ensures unfinished { intake.new.finished ≡ false }
    ensures lane { intake.new.inlet.lane ≡ intake.old.inlet.lane }
    ensures pair { SamePair intake.old.inbound.buffer intake.new.inbound.buffer }
{
    let taken = match piece {
        Piece::Borrowed(line) => take_line(rt, line, intake, port),
        Piece::Owned(line) => take_line(rt, &line, intake, port),
        Piece::Long => {
            port.skipped(rt, Skipped::Long);
            Ok(())
        }
    };
    port.seen(rt, intake.state(), intake.held_count());
    taken
}

/// Takes a line in, hands its message to the desk, and queries the entries that are missing.
fn take_line<R: Wait, P: Port>(
    rt: &R,
    line: &[u8],
    intake: &mut Intake,
    port: &mut P,
) -> Result<(), LinkFault>
    requires unfinished { intake.old.finished ≡ false }
    requires accepts { AcceptsPeer P.accepts intake.old.inbound.buffer }
    ensures may { IfErr result IsOfIntake }
    ensures takes { (heard : List Heard)
        × TakesLine intake.old line.now result heard intake.new × InTurn P.hears port.old heard port.new }
    ensures unfinished { intake.new.finished ≡ false }
    ensures lane { intake.new.inlet.lane ≡ intake.old.inlet.lane }
    ensures pair { SamePair intake.old.inbound.buffer intake.new.inbound.buffer }
{
    let arrived = match intake.on_line(rt, line) {
        Ok(arrived) => arrived,
        Err(fault) => return refused(rt, fault, port),
    };
    let beat = beat_in(&arrived);
    port.taken(rt, beat);
    hand_over(rt, arrived, port)?;
    ask_for_gap(rt, beat.is_some(), intake, port)?;
    Ok(())
}

/// Skips a line that the intake refuses, unless that ends the connection.
fn refused<R: Wait, P: Port>(rt: &R, fault: IntakeError, port: &P) -> Result<(), LinkFault>
    ensures result { result ≡ after_refusal fault }
    ensures may { IfErr result IsOfIntake }
{
    match fault {
        IntakeError::Inbound(InboundError::OutOfMemory) => Err(LinkFault::OutOfMemory),
        IntakeError::Inbound(fault) => {
            port.skipped(rt, Skipped::Refused(fault));
            Ok(())
        }
        IntakeError::LaneClosed => Err(LinkFault::LaneClosed),
    }
}

/// The beat that arrived, after which the gap is queried again.
fn beat_in(arrived: &Arrived) -> Option<Beat>
    ensures { result ≡ beat_in arrived.now }
{
    match arrived {
        Arrived::Beat(beat) => Some(*beat),
        _ => None,
    }
}

/// Hands the line's message to the desk, if it has one.
fn hand_over<R: Wait, P: Port>(rt: &R, arrived: Arrived, port: &mut P) -> Result<(), OutOfMemory>
    requires { IfSome (message_in arrived) P.accepts }
    ensures { HearsMessage P.hears port.old (message_in arrived) result port.new }
{
    match arrived {
        Arrived::Message(message) => port.message(rt, message),
        Arrived::Entries(_) | Arrived::Beat(_) | Arrived::Hello => Ok(()),
    }
}

/// Queries the entries that are missing: with `again` in any case, else only if the gap is not the one that was
/// queried last.
fn ask_for_gap<R: Wait, P: Port>(
    rt: &R,
    again: bool,
    intake: &mut Intake,
    port: &mut P,
) -> Result<(), OutOfMemory>
    ensures { (heard : List Heard)
        × AsksGap intake.old again result heard intake.new × InTurn P.hears port.old heard port.new }
{
    if let Some(given) = intake.query_with_line(again)? {
        let (query, line) = given;
        port.query(rt, query, line);
    }
    Ok(())
}
