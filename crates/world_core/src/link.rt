//! What a site has of the log of one other site.
ghost use Rattle.std.specs.Prelude.{◌≡◌, ◌≢◌, ◌≤◌, ◌∷◌, [], Ok, None, Some, true, IfOk, IfErr, OnErr, MatchResult};
ghost use Rattle.std.specs.Prelude.{IsSome, List, Option, length};
ghost use Rattle.std.specs.List.{All, Contains, slice_get};
ghost use Rattle.std.specs.Option.{option_copied, option_map};
ghost use Rattle.rights_types.specs.Entries.{EntryValue};
ghost use Rattle.rights_types.specs.Ranges.{IsNumber};
ghost use Rattle.rights_types.specs.Messages.{MessageValue, QueryValue};
ghost use Rattle.rights_types.specs.Messages.MessageValue.{AQuery};
ghost use Rattle.rights_types.specs.Values.{value_of};
ghost use Rattle.rights_types.specs.declared.limits.TheConstants.{MIN_SITES, MAX_SITES, MAX_ANSWER};
ghost use Rattle.entry_codec.specs.Reading.{reading, has_entries};
ghost use Rattle.sub_buffer.specs.Follows.{Follows};
ghost use Rattle.inbound.specs.declared.fault.InboundError.TheVariants.{OutOfMemory as NoMemory};
ghost use Rattle.entry_codec.specs.Spelling.{LineOf};
ghost use Rattle.inbound.specs.Inbounds.{InboundRefuses, QueryOf};
ghost use Rattle.world_core.specs.Values.{LinkValue};
ghost use Rattle.world_core.specs.Worlds.{new_link};
ghost use Rattle.world_core.specs.LinkEvents.{LinkTakesAll, heard, with_applied};

mod incoming;

use crate::keeping::{ForReaders, Keeping};
use crate::reply::EntryVerdicts;
use histories::History;
use inbound::{Inbound, InboundError};
pub(crate) use incoming::Scratch;
use incoming::{Incoming, none_ahead};
use rights_types::{Entry, Message, OutOfMemory, SiteId};
use std::alloc::Allocator;
use std::marker::{Model, PhantomData};

/// The input from an origin's log at a site, and how many of the delivered entries that are still stored were applied.
#[derive(Drop)]
pub(crate) struct Link<A: Allocator, K: Keeping> {
    applied: usize,
    incoming: Incoming<A, K>,
}

impl<A: Allocator, K: Keeping> Model for Link<A, K> {
    ghost use Rattle.world_core.specs.Values.{LinkValue};
    ghost use Rattle.world_core.specs.IncomingLists.{link_of, IsIncoming};

    ghost Value = { LinkValue };

    ghost view = { λ l. link_of K.keeps l.incoming l.applied };

    ghost invariant = { λ l. IsIncoming l.incoming l.applied };
}

impl<A: Allocator + Copy, K: Keeping> Link<A, K> {
    pub(crate) fn new(
        alloc: A,
        me: SiteId,
        origin: SiteId,
        sites: u64,
    ) -> Result<Link<A, K>, OutOfMemory>
        requires sites { (MIN_SITES ≤ sites) × (sites ≤ MAX_SITES) }
        requires me { me ≤ sites }
        requires origin { origin ≤ sites }
        requires other { origin ≢ me }
        ensures { IfOk result (λ l. l ≡ new_link sites me origin) }
    {
        Ok(Link {
            incoming: Incoming {
                of: PhantomData,
                inbound: Inbound::new(alloc, me, origin, sites)?,
                gone: History::new(),
                put: Vec::new(alloc),
                seen: History::new(),
                apart: None,
            },
            applied: 0,
        })
    }

    /// Reads the message of a line.
    pub(crate) fn read(&self, line: &[u8]) -> Result<Message<A>, InboundError>
        ensures refused { InboundRefuses self.now.inbound (reading line.now) result }
        ensures ok { IfOk result (λ m. reading line.now ≡ Ok (value_of m)) }
        ensures memory { IfErr result (λ fault. fault ≡ NoMemory → (m : MessageValue) × (reading line.now ≡ Ok m)
            × (has_entries m ≡ true)) }
    {
        self.incoming.inbound.read(line)
    }

    /// Takes in an entry.
    pub(crate) fn take_entry(
        &mut self,
        entry: Entry<A>,
        scratch: &mut Scratch<A>,
    ) -> Result<EntryVerdicts<A>, OutOfMemory>
        requires origin { entry.origin ≡ self.old.inbound.buffer.origin }
        ensures ok { IfOk result (λ verdicts. (es : List EntryValue) → Contains es entry
            → Follows es self.old.reached self.old.put self.old.inbound.buffer
            → LinkTakesAll A es self.old (entry ∷ []) verdicts self.new) }
        ensures err { OnErr result (self.new ≡ self.old) }
    {
        let in_order = entry.prev() <= self.incoming.inbound.last();
        self.incoming.make_room(1, in_order, scratch)?;
        let copy = self.incoming.copy_of(&entry)?;
        self.incoming.take(entry, copy, scratch);
        Ok(scratch.report())
    }

    /// Takes in the entries of an answer, in order.
    pub(crate) fn take_answer(
        &mut self,
        entries: Vec<Entry<A>, A>,
        scratch: &mut Scratch<A>,
    ) -> Result<EntryVerdicts<A>, OutOfMemory>
        requires origin { All (λ (e : EntryValue). e.origin ≡ self.old.inbound.buffer.origin) entries.items }
        requires few { length entries.items ≤ MAX_ANSWER }
        ensures ok { IfOk result (λ verdicts. (es : List EntryValue) → All (Contains es) entries.items
            → Follows es self.old.reached self.old.put self.old.inbound.buffer
            → LinkTakesAll A es self.old entries.items verdicts self.new) }
        ensures err { OnErr result (self.new ≡ self.old) }
    {
        let in_order = none_ahead(&entries, self.incoming.inbound.last());
        self.incoming.make_room(entries.len(), in_order, scratch)?;
        let mut copies = self.incoming.copies_of(&entries)?.into_iter();
        for entry in entries {
            self.incoming.take(entry, copies.next(), scratch);
        }
        Ok(scratch.report())
    }

    /// Takes in a beat of the origin.
    pub(crate) fn hear(&mut self, number: u64)
        requires { IsNumber number }
        ensures { self.new ≡ heard self.old number }
    {
        self.incoming.inbound.hear(number);
    }

    /// The line of the query for the gap, as by `Inbound::query_line`.
    pub(crate) fn query_line(&mut self, again: bool) -> Result<Option<Vec<u8, A>>, OutOfMemory>
        ensures asks { (q : Option QueryValue) × QueryOf self.old.inbound again q self.new.inbound
            × MatchResult result (λ line. LineOf (λ l. l.items) (option_map (λ x. AQuery x) q) line) (λ _. IsSome q) }
        ensures rest { self.new ≡ record self.old { inbound = self.new.inbound } }
    {
        self.incoming.inbound.query_line(again)
    }

    /// The next delivered entry, which is to be applied.
    pub(crate) fn next(&self) -> Option<&Entry<A>>
        ensures { option_copied result ≡ slice_get self.now.put (length self.now.applied) }
    {
        self.incoming.put.get(self.applied)
    }

    /// Notes that it was applied.
    pub(crate) fn apply_next(&mut self)
        requires { IsSome (slice_get self.old.put (length self.old.applied)) }
        ensures { (e : EntryValue) → slice_get self.old.put (length self.old.applied) ≡ Some e
            → self.new ≡ with_applied self.old e }
    {
        let applied = self.applied + 1;
        if K::keeps() || self.incoming.stays(applied) {
            self.applied = applied;
        } else {
            self.incoming.let_go(applied);
            self.applied = 0;
        }
    }

    /// The own number of the last entry that was delivered.
    pub(crate) fn last(&self) -> u64
        ensures { result ≡ self.now.inbound.buffer.last }
    {
        self.incoming.inbound.last()
    }
}

impl<A: Allocator> Link<A, ForReaders> {
    /// The entries that reached the site, each once, in the order in which they first arrived.
    pub(crate) fn reached(&self) -> &[Entry<A>]
        ensures { result.now ≡ self.now.reached }
    {
        match &self.incoming.apart {
            None => &self.incoming.put,
            Some(apart) => apart,
        }
    }

    /// The entries that were delivered, in order.
    pub(crate) fn put(&self) -> &[Entry<A>]
        ensures { result.now ≡ self.now.put }
    {
        &self.incoming.put
    }

    /// The entries that were applied.
    pub(crate) fn applied(&self) -> &[Entry<A>]
        ensures { result.now ≡ self.now.applied }
    {
        &self.incoming.put[..self.applied]
    }
}
