//! What a site has of the logs of all others. Each call here finds the link of its origin and hands itself on to it;
//! its clauses say what becomes of the whole row, which is the part of a world that an event changes.
ghost use Rattle.std.specs.Prelude.{◌≡◌, ◌≤◌, ◌∷◌, [], Ok, None, Some, true, IfOk, IfErr, OnErr, MatchResult, IsSome};
ghost use Rattle.std.specs.Prelude.{List, Option, length};
ghost use Rattle.std.specs.List.{All, Contains, slice_get};
ghost use Rattle.std.specs.Option.{option_copied, option_map};
ghost use Rattle.rights_types.specs.Entries.{EntryValue};
ghost use Rattle.rights_types.specs.Ranges.{IsNumber};
ghost use Rattle.rights_types.specs.Places.{at_site, set_site};
ghost use Rattle.rights_types.specs.Messages.{MessageValue, QueryValue};
ghost use Rattle.rights_types.specs.Messages.MessageValue.{AQuery};
ghost use Rattle.rights_types.specs.Values.{value_of};
ghost use Rattle.rights_types.specs.declared.limits.TheConstants.{MIN_SITES, MAX_SITES, MAX_ANSWER};
ghost use Rattle.entry_codec.specs.Reading.{reading, has_entries};
ghost use Rattle.sub_buffer.specs.Follows.{Follows};
ghost use Rattle.inbound.specs.declared.fault.InboundError.TheVariants.{OutOfMemory as NoMemory};
ghost use Rattle.entry_codec.specs.Spelling.{LineOf};
ghost use Rattle.inbound.specs.Inbounds.{InboundRefuses, QueryOf};
ghost use Rattle.world_core.specs.Values.{LinkValue};
ghost use Rattle.world_core.specs.Worlds.{new_row, list_of};
ghost use Rattle.world_core.specs.LinkEvents.{LinkTakesAll, heard, with_applied};

use crate::keeping::Keeping;
use crate::link::{Link, Scratch};
use crate::reply::EntryVerdicts;
use inbound::InboundError;
use rights_types::{Entry, Message, OutOfMemory, SiteId};
use std::alloc::Allocator;
use std::marker::Model;

/// The links of a site, by the numbers of the origins; it has no link to itself.
#[derive(Drop)]
pub(crate) struct Links<A: Allocator, K: Keeping> {
    links: Vec<Option<Link<A, K>>, A>,
}

impl<A: Allocator, K: Keeping> Model for Links<A, K> {
    ghost use Rattle.std.specs.Prelude.{List, Option};
    ghost use Rattle.world_core.specs.Values.{LinkValue};

    ghost Value = { List (Option LinkValue) };

    ghost view = { λ l. l.links.items };
}

impl<A: Allocator + Copy, K: Keeping> Links<A, K> {
    /// The links of site `me` in a system of `sites` sites, before anything arrived.
    pub(crate) fn new(alloc: A, me: SiteId, sites: u64) -> Result<Links<A, K>, OutOfMemory>
        requires sites { (MIN_SITES ≤ sites) × (sites ≤ MAX_SITES) }
        requires me { me ≤ sites }
        ensures { IfOk result (λ links. links ≡ new_row sites me) }
    {
        let mut links = Vec::with_capacity(alloc, sites as usize)?;
        for index in 0..sites {
            let origin = SiteId::known(index + 1);
            let link = if origin == me {
                None
            } else {
                Some(Link::new(alloc, me, origin, sites)?)
            };
            links.push(link)?;
        }
        Ok(Links { links })
    }

    /// The link to the origin, if there is one.
    pub(crate) fn get(&self, origin: SiteId) -> Option<&Link<A, K>>
        ensures { option_copied result ≡ at_site self.now origin None }
    {
        self.links.get(origin.index())?.as_ref()
    }

    /// Takes in an entry of the origin.
    pub(crate) fn take_entry(
        &mut self,
        origin: SiteId,
        entry: Entry<A>,
        scratch: &mut Scratch<A>,
    ) -> Result<EntryVerdicts<A>, OutOfMemory>
        requires there { (l : LinkValue) × (at_site self.old origin None ≡ Some l)
            × (entry.origin ≡ l.inbound.buffer.origin) }
        ensures ok { IfOk result (λ verdicts. (before : LinkValue) × (after : LinkValue)
            × (at_site self.old origin None ≡ Some before) × (self.new ≡ set_site self.old origin (Some after))
            × ((es : List EntryValue) → Contains es entry → Follows es before.reached before.put before.inbound.buffer
            → LinkTakesAll A es before (entry ∷ []) verdicts after)) }
        ensures err { OnErr result (self.new ≡ self.old) }
    {
        match &mut self.links[origin.index()] {
            Some(link) => link.take_entry(entry, scratch),
            None => unreachable!(),
        }
    }

    /// Takes in the entries of an answer of the origin, in order.
    pub(crate) fn take_answer(
        &mut self,
        origin: SiteId,
        entries: Vec<Entry<A>, A>,
        scratch: &mut Scratch<A>,
    ) -> Result<EntryVerdicts<A>, OutOfMemory>
        requires there { (l : LinkValue) × (at_site self.old origin None ≡ Some l)
            × All (λ (e : EntryValue). e.origin ≡ l.inbound.buffer.origin) entries.items }
        requires few { length entries.items ≤ MAX_ANSWER }
        ensures ok { IfOk result (λ verdicts. (before : LinkValue) × (after : LinkValue)
            × (at_site self.old origin None ≡ Some before) × (self.new ≡ set_site self.old origin (Some after))
            × ((es : List EntryValue) → All (Contains es) entries.items
            → Follows es before.reached before.put before.inbound.buffer
            → LinkTakesAll A es before entries.items verdicts after)) }
        ensures err { OnErr result (self.new ≡ self.old) }
    {
        match &mut self.links[origin.index()] {
            Some(link) => link.take_answer(entries, scratch),
            None => unreachable!(),
        }
    }

    /// Takes in a beat of the origin.
    pub(crate) fn hear(&mut self, origin: SiteId, number: u64)
        requires there { IsSome (at_site self.old origin None) }
        requires number { IsNumber number }
        ensures { (before : LinkValue) × (at_site self.old origin None ≡ Some before)
            × (self.new ≡ set_site self.old origin (Some (heard before number))) }
    {
        match &mut self.links[origin.index()] {
            Some(link) => link.hear(number),
            None => unreachable!(),
        }
    }

    /// The line of the query for the gap in the origin's log.
    pub(crate) fn query_line(
        &mut self,
        origin: SiteId,
        again: bool,
    ) -> Result<Option<Vec<u8, A>>, OutOfMemory>
        requires there { IsSome (at_site self.old origin None) }
        ensures { (before : LinkValue) × (after : LinkValue) × (q : Option QueryValue)
            × (at_site self.old origin None ≡ Some before) × QueryOf before.inbound again q after.inbound
            × (after ≡ record before { inbound = after.inbound }) × (self.new ≡ set_site self.old origin (Some after))
            × MatchResult result (λ line. LineOf (λ l. l.items) (option_map (λ x. AQuery x) q) line) (λ _. IsSome q) }
    {
        match &mut self.links[origin.index()] {
            Some(link) => link.query_line(again),
            None => unreachable!(),
        }
    }

    /// The origin's next delivered entry, which is to be applied.
    pub(crate) fn next(&self, origin: SiteId) -> Option<&Entry<A>>
        ensures { option_copied result
            ≡ slice_get (list_of (λ l. l.put) (at_site self.now origin None))
            (length (list_of (λ l. l.applied) (at_site self.now origin None))) }
    {
        self.get(origin)?.next()
    }

    /// Notes that it was applied.
    pub(crate) fn apply_next(&mut self, origin: SiteId)
        requires { IsSome
            (slice_get (list_of (λ l. l.put) (at_site self.old origin None))
            (length (list_of (λ l. l.applied) (at_site self.old origin None)))) }
        ensures { (before : LinkValue) × (at_site self.old origin None ≡ Some before)
            × ((e : EntryValue) → slice_get before.put (length before.applied) ≡ Some e
            → self.new ≡ set_site self.old origin (Some (with_applied before e))) }
    {
        match &mut self.links[origin.index()] {
            Some(link) => link.apply_next(),
            None => unreachable!(),
        }
    }
}
