//! The effect of a peer's messages at the desk, and the answers. Entries, answers to queries and beats are not among
//! them: they go to the peer's buffer.
ghost use Rattle.std.specs.Prelude.{◌≡◌, ◌≤◌, false, None, OnOk, OnErr};
ghost use Rattle.origin_log.specs.Faults.{query_fault};
ghost use Rattle.site_core.specs.Calls.{is_ignored, answer_of};
ghost use Rattle.site_node.specs.Hearing.{AnswersQuery, AnswersAsk, NotesDenial};

use crate::sending::{Sink, offer};
use apply_lanes::{DeskNames, Kept};
use origin_log::ReadError;
use rights_types::{Ask, Deny, OutOfMemory, Query};

/// Offers the line of the answer to a query, to be sent; nothing if the query is refused.
pub fn answer_query<D: DeskNames, S: Sink>(
    kept: &Kept<D>,
    query: &Query,
    sink: &mut S,
) -> Result<(), OutOfMemory>
    ensures ok { OnOk result (AnswersQuery S.takes kept.now.desk query.now sink.old sink.new) }
    ensures err { OnErr result ((query_fault kept.now.desk.ledger.log query.now ≡ None) × (sink.new ≡ sink.old)) }
{
    match kept.on_query(query) {
        Ok(line) => {
            offer(sink, line);
            Ok(())
        }
        Err(ReadError::OutOfMemory) => Err(OutOfMemory),
        Err(ReadError::NotMine | ReadError::BadRange) => Ok(()),
    }
}

/// Answers an ask: by a grant, which is an entry of the log, or by the line of a denial. An ask that was granted
/// before, or is older than the last one answered, gets neither.
pub fn answer_ask<D: DeskNames, S: Sink>(
    kept: &mut Kept<D>,
    ask: &Ask,
    sink: &mut S,
) -> Result<(), OutOfMemory>
    requires asker { ask.now.asker ≤ D.id.sites }
    requires asked { ask.now.asked ≡ D.id.site }
    ensures ok { OnOk result (AnswersAsk S.takes kept.old ask.now sink.old kept.new sink.new) }
    ensures err { OnErr result ((is_ignored (answer_of kept.old.desk ask.now) ≡ false) × (kept.new ≡ kept.old)
        × (sink.new ≡ sink.old)) }
{
    // For the proof: the desk's site, and the number of sites in its system.
    let _ = kept.desk();
    let reply = kept.on_ask(ask)?;
    if let Some(line) = reply.line {
        offer(sink, line.into_bytes());
    }
    Ok(())
}

/// Notes that a peer denied an ask. Only the outstanding ask to that peer ends by this.
pub fn note_denial<D: DeskNames>(kept: &mut Kept<D>, deny: &Deny)
    requires { deny.now.denier ≤ D.id.sites }
    ensures { NotesDenial kept.old deny.now kept.new }
{
    // For the proof: the number of sites in the desk's system.
    let _ = kept.desk();
    kept.on_deny(deny.denier(), deny.ask());
}
