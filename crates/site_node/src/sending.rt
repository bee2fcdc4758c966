//! What a tick sends to one peer.
ghost use Rattle.std.specs.Prelude.{◌≡◌, ◌≢◌, ℕ, ◌+◌, ◌≤◌, Bool, List, None, IfOk, OnErr};
ghost use Rattle.rights_types.specs.declared.limits.TheConstants.{MAX_NUMBER};
ghost use Rattle.entry_codec.specs.Pieces.{IsLine};
ghost use Rattle.site_core.specs.Calls.{beat_of};
ghost use Rattle.site_node.specs.Sending.{OffersLine, Offers, OffersIf, OffersEntries, OffersDue, StopsAtEntry};
ghost use Rattle.site_node.specs.Sending.{StopsShort, due_ask};

use apply_lanes::{DeskNames, Kept};
use rights_types::{MAX_NUMBER, OutOfMemory, SiteId};

/// A destination for the lines to one peer, such as its outbox.
pub trait Sink {
    /// `takes before line fits after`: the sink was offered this line, which found space if `fits`, and changed from
    /// `before` to `after`. The contracts here hold for every relation.
    ghost takes: { Self → List ℕ → Bool → Self → Type 0 };

    /// Offers a line. False if it found no space, and is lost.
    fn offer(&mut self, line: Vec<u8>) -> bool
        requires { IsLine line.items }
        ensures { takes self.old line.items result self.new };
}

/// Offers everything that is due to this peer: the line of each entry that was not published to it, of the outstanding
/// ask to it, and of a beat. Returns how many lines found space. From the first entry that finds no space, entries
/// count as published without a line, so this takes no longer than the lines that find space.
pub fn send_due<D: DeskNames, S: Sink>(
    kept: &mut Kept<D>,
    peer: SiteId,
    sink: &mut S,
) -> Result<u64, OutOfMemory>
    ensures ok { IfOk result (λ sent. OffersDue S.takes kept.old peer sink.old sent kept.new sink.new) }
    ensures err { OnErr result (StopsShort S.takes kept.old peer sink.old kept.new sink.new) }
    ensures range { IfOk result (λ sent. sent ≤ MAX_NUMBER + 2) }
{
    let entries = send_entries(kept, peer, sink)?;
    let ask = send_ask(kept, peer, sink)?;
    let beat = send_beat(kept, peer, sink)?;
    Ok(entries + ask + beat)
}

/// Publishes the entries that were not published to the peer, and returns how many of their lines found space.
fn send_entries<D: DeskNames, S: Sink>(
    kept: &mut Kept<D>,
    peer: SiteId,
    sink: &mut S,
) -> Result<u64, OutOfMemory>
    ensures ok { IfOk result (λ sent. OffersEntries S.takes kept.old peer sink.old sent kept.new sink.new) }
    ensures err { OnErr result (StopsAtEntry S.takes kept.old peer sink.old kept.new sink.new) }
    ensures range { IfOk result (λ sent. sent ≤ MAX_NUMBER) }
{
    // For the proof: the length of the log, and the number of its cursors.
    let _ = (kept.desk().log().len(), kept.desk().log().cursor(peer));
    let _ = peer.number();
    let mut sent = 0;
    'entries: while let Some(line) = kept.publish(peer)? {
        if offer(sink, line) == 0 {
            kept.skip_unpublished(peer);
            return Ok(sent);
        }
        sent += 1;
    }
    Ok(sent)
}

/// Offers the line of the outstanding ask, if there is one.
fn send_ask<D: DeskNames, S: Sink>(
    kept: &Kept<D>,
    peer: SiteId,
    sink: &mut S,
) -> Result<u64, OutOfMemory>
    ensures ok { IfOk result (λ sent. OffersIf S.takes (due_ask kept.now.desk peer) sink.old sent sink.new) }
    ensures err { OnErr result ((sink.new ≡ sink.old) × (due_ask kept.now.desk peer ≢ None)) }
    ensures range { IfOk result (λ sent. sent ≤ 1) }
{
    match kept.ask_line(peer)? {
        Some(line) => Ok(offer(sink, line)),
        None => Ok(0),
    }
}

fn send_beat<D: DeskNames, S: Sink>(
    kept: &Kept<D>,
    peer: SiteId,
    sink: &mut S,
) -> Result<u64, OutOfMemory>
    ensures ok { IfOk result (λ sent. Offers S.takes (beat_of kept.now.desk.ledger.log) sink.old sent sink.new) }
    ensures err { OnErr result (sink.new ≡ sink.old) }
    ensures range { IfOk result (λ sent. sent ≤ 1) }
{
    let line = kept.beat_line(peer)?;
    Ok(offer(sink, line))
}

/// Offers a line. 1 if it found space, else 0.
pub(crate) fn offer<S: Sink>(sink: &mut S, line: Vec<u8>) -> u64
    requires { IsLine line.items }
    ensures offered { OffersLine S.takes line.items sink.old result sink.new }
    ensures range { result ≤ 1 }
{
    sink.offer(line) as u64
}
