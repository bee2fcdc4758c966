//! Lines that a desk sends, made under its lock.
ghost use Rattle.std.specs.Prelude.{◌≡◌, None, IfOk, IsOk, OnOk, OnErr};
ghost use Rattle.std.specs.Option.{option_map};
ghost use Rattle.rights_types.specs.Messages.MessageValue.{AnAsk, AnAnswer};
ghost use Rattle.entry_codec.specs.Spelling.{Spells};
ghost use Rattle.origin_log.specs.Answering.{answer_to_query};
ghost use Rattle.origin_log.specs.Faults.{query_fault, ReadRefuses};
ghost use Rattle.transfer_manager.specs.Managers.{outstanding_ask};
ghost use Rattle.entry_codec.specs.Spelling.{LineOf};
ghost use Rattle.request_queue.specs.Queues.{without_tickets};
ghost use Rattle.site_core.specs.Calls.{next_push, after_publish, after_skip, beat_of};
ghost use Rattle.rights_protocol.specs.Schedules.LocalChange.{Other};
ghost use Rattle.apply_lanes.specs.Steps.{StepsBy};

use crate::kept::Kept;
use crate::names::DeskNames;
use origin_log::ReadError;
use rights_types::{OutOfMemory, Query, SiteId};
use std::alloc::Allocator;

impl<D: DeskNames, A: Allocator + Copy> Kept<D, A> {
    /// The line of the outstanding ask to that peer. `None` if there is none.
    pub fn ask_line(&self, peer: SiteId) -> Result<Option<Vec<u8, A>>, OutOfMemory>
        ensures line { IfOk result
            (λ line. LineOf (λ l. l.items)
            (option_map (λ ask. AnAsk ask) (outstanding_ask self.now.desk.manager peer)) line) }
        ensures memory { outstanding_ask self.now.desk.manager peer ≡ None → IsOk result }
    {
        self.desk.ask_line(peer)
    }

    /// The line of the next entry for that peer, which then counts as published. `None` if all entries were published.
    pub fn publish(&mut self, peer: SiteId) -> Result<Option<Vec<u8, A>>, OutOfMemory>
        ensures line { IfOk result (λ line. LineOf (λ l. l.items) (next_push self.old.desk.ledger.log peer) line) }
        ensures ok { OnOk result (self.new ≡ record self.old { desk = after_publish self.old.desk peer }) }
        ensures step { OnOk result (StepsBy D.id self.old.desk Other self.new.desk) }
        ensures err { OnErr result (self.new ≡ self.old) }
        ensures memory { next_push self.old.desk.ledger.log peer ≡ None → IsOk result }
    {
        self.desk.publish(peer)
    }

    /// Counts all entries as published to that peer, in a time that does not depend on their number.
    pub fn skip_unpublished(&mut self, peer: SiteId)
        ensures skips { self.new ≡ record self.old { desk = after_skip self.old.desk peer } }
        ensures step { StepsBy D.id self.old.desk Other self.new.desk }
    {
        self.desk.skip_unpublished(peer);
    }

    /// Gives out no ticket up to `last` from now on, as after a restart.
    pub fn skip_tickets(&mut self, last: u64)
        ensures skips { self.new ≡ record self.old { desk = record self.old.desk { queue = without_tickets self.old.desk.queue last } } }
        ensures step { StepsBy D.id self.old.desk Other self.new.desk }
    {
        self.desk.skip_tickets(last);
    }

    /// The line of a beat: the log's end.
    pub fn beat_line(&self, peer: SiteId) -> Result<Vec<u8, A>, OutOfMemory>
        ensures { IfOk result (λ line. Spells (beat_of self.now.desk.ledger.log) line.items) }
    {
        self.desk.beat_line(peer)
    }

    /// The line of the answer to a query. Errors: those of `Desk::on_query`.
    pub fn on_query(&self, query: &Query) -> Result<Vec<u8, A>, ReadError>
        ensures refused { ReadRefuses (query_fault self.now.desk.ledger.log query.now) result }
        ensures ok { IfOk result (λ line. Spells (AnAnswer (answer_to_query query.now self.now.desk.ledger.log))
            line.items) }
    {
        self.desk.on_query(query)
    }
}
