//! The input from one other site.
ghost use Rattle.std.specs.Prelude.{◌≡◌, ◌≢◌, ◌≤◌, ◌<◌, ◌+◌, true, [], ◌∷◌, ◌++◌, vec_capacity, Ok, None, Some, IfOk};
ghost use Rattle.std.specs.Prelude.{IfErr, OnErr, MatchResult, IsSome, List, Option, length, IsTrue, IsFalse, false};
ghost use Rattle.std.specs.Prelude.{◌↔◌};
ghost use Rattle.std.specs.List.{All, list_any};
ghost use Rattle.std.specs.Option.{option_map};
ghost use Rattle.rights_types.specs.Entries.{EntryValue};
ghost use Rattle.rights_types.specs.Messages.{MessageValue, QueryValue};
ghost use Rattle.rights_types.specs.Messages.MessageValue.{AQuery};
ghost use Rattle.rights_types.specs.Values.{value_of};
ghost use Rattle.rights_types.specs.Ranges.{IsNumber};
ghost use Rattle.rights_types.specs.declared.limits.TheConstants.{MIN_SITES, MAX_SITES, MAX_ANSWER};
ghost use Rattle.entry_codec.specs.Reading.{reading, has_entries};
ghost use Rattle.sub_buffer.specs.Gaps.{GapOf, GapIs, StateOf};
ghost use Rattle.sub_buffer.specs.Follows.{Follows};
ghost use Rattle.sub_buffer.specs.Table.{after_beat};
ghost use Rattle.sub_buffer.specs.Arrivals.{all_ready, Arrives as IsArrival, IsContinuedBy};
ghost use Rattle.sub_buffer.specs.declared.verdict.Verdict.{Verdict as AVerdict};
ghost use Rattle.sub_buffer.specs.declared.verdict.Verdict.TheVariants.{Ready};
ghost use Rattle.entry_codec.specs.Spelling.{LineOf};
ghost use Rattle.inbound.specs.declared.fault.InboundError.TheVariants.{OutOfMemory as NoMemory};
ghost use Rattle.inbound.specs.Inbounds.{sender, is_for, entries_of, is_foreign, has_foreign};

use crate::fault::InboundError;
use entry_codec::{LineError, read_line, write_line};
use rights_types::{Ask, Beat, Deny, Entry, Message, Move, OutOfMemory, Query, SiteId};
use std::alloc::{Allocator, Global};
use std::marker::Model;
use sub_buffer::{MAX_VERDICTS, State, SubBuffer, Verdict};

/// The verdicts on the entries of one line, in order, each followed by Ready for each entry that it freed. There are
/// at most 94.
#[derive(Drop)]
pub struct Verdicts<A: Allocator = Global> {
    verdicts: Vec<Verdict<A>, A>,
}

impl<A: Allocator> Model for Verdicts<A> {
    ghost use Rattle.std.specs.Prelude.{List};
    ghost use Rattle.sub_buffer.specs.declared.verdict.Verdict.{Verdict};

    ghost Value = { List (Verdict A) };

    ghost view = { λ v. v.verdicts.items };
}

impl<A: Allocator> Verdicts<A> {
    /// The verdicts, lent.
    pub fn as_slice(&self) -> &[Verdict<A>]
        ensures { result.now ≡ self.now }
    {
        &self.verdicts
    }

    /// The verdicts, with the entries that are ready.
    pub fn into_vec(self) -> Vec<Verdict<A>, A>
        ensures { result.items ≡ self }
    {
        self.verdicts
    }
}

/// The content of a line.
#[derive(Drop)]
pub enum Arrival<A: Allocator = Global> {
    /// Entries: one, or those of an answer.
    Entries { verdicts: Verdicts<A> },
    /// A beat, which the buffer has taken in.
    Beat(Beat),
    /// The origin asks for entries of this site's log.
    Query(Query),
    /// The origin asks for rights.
    Ask(Ask),
    /// The origin denied an ask.
    Deny(Deny),
    /// The first line of a connection.
    Hello,
}

/// The lines that one other site sends, and the buffer that puts its entries in order. It has no access to the desk:
/// its owner passes entries to an applier, and other messages to the desk.
#[derive(Drop)]
pub struct Inbound<A: Allocator = Global> {
    sites: u64,
    buffer: SubBuffer<A>,
    alloc: A,
}

impl<A: Allocator> Model for Inbound<A> {
    ghost use Rattle.inbound.specs.Inbounds.{InboundValue, IsInbound};

    ghost Value = { InboundValue };

    ghost view = { λ i. record { buffer = i.buffer; sites = i.sites } };

    ghost invariant = { λ i. IsInbound (record { buffer = i.buffer; sites = i.sites }) };
}

impl<A: Allocator + Copy> Inbound<A> {
    ghost use Rattle.inbound.specs.Inbounds.{new_inbound, message_fault, InboundRefuses, BringsEntries, Arrives};
    ghost use Rattle.inbound.specs.Inbounds.{QueryOf, IsWritten};

    /// The input of site `me` from the origin, in a system of `sites` sites, 2 to 16. `OutOfMemory` if its memory is
    /// refused.
    pub fn new(alloc: A, me: SiteId, origin: SiteId, sites: u64) -> Result<Inbound<A>, OutOfMemory>
        requires sites { (MIN_SITES ≤ sites) × (sites ≤ MAX_SITES) }
        requires me { me ≤ sites }
        requires origin { origin ≤ sites }
        requires other { origin ≢ me }
        ensures { IfOk result (λ i. i ≡ new_inbound me origin sites) }
    {
        Ok(Inbound {
            buffer: SubBuffer::new(alloc, me, origin)?,
            sites,
            alloc,
        })
    }

    /// Takes a line in. A line that is refused should be skipped: it has changed nothing. Errors: see `InboundError`.
    pub fn on_line(&mut self, line: &[u8]) -> Result<Arrival<A>, InboundError>
        ensures refused { InboundRefuses self.old (reading line.now) result }
        ensures ok { IfOk result (λ arrival. (m : MessageValue) × (reading line.now ≡ Ok m)
            × Arrives self.old m arrival self.new) }
        ensures err { OnErr result (self.new ≡ self.old) }
        // Only entries allocate.
        ensures memory { IfErr result (λ fault. fault ≡ NoMemory → (m : MessageValue) × (reading line.now ≡ Ok m)
            × (has_entries m ≡ true)) }
    {
        let message = self.read(line)?;
        Ok(self.take_in(message)?)
    }

    /// The message of a line, if it is from the origin, for this site, and of this system. It is only read, not taken
    /// in.
    #[inline(always)]
    pub fn read(&self, line: &[u8]) -> Result<Message<A>, InboundError>
        ensures refused { InboundRefuses self.now (reading line.now) result }
        ensures ok { IfOk result (λ m. reading line.now ≡ Ok (value_of m)) }
        // Only entries allocate.
        ensures memory { IfErr result (λ fault. fault ≡ NoMemory → (m : MessageValue) × (reading line.now ≡ Ok m)
            × (has_entries m ≡ true)) }
    {
        let message = match read_line(self.alloc, line) {
            Ok(message) => message,
            Err(LineError::OutOfMemory) => return Err(InboundError::OutOfMemory),
            Err(fault) => return Err(InboundError::Line(fault)),
        };
        self.check(&message)?;
        Ok(message)
    }

    /// Takes in one entry of the origin, and appends its verdict, and those on the entries that it freed, to the
    /// caller's list. The caller reserves the memory: for one verdict, and one for each held entry.
    pub fn arrive(&mut self, entry: Entry<A>, verdicts: &mut Vec<Verdict<A>, A>)
        requires origin { entry.origin ≡ self.old.buffer.origin }
        requires room { length verdicts.old.items + length self.old.buffer.held < vec_capacity verdicts.old }
        ensures arrives { (v : AVerdict A) × (freed : List EntryValue)
            × (verdicts.new.items ≡ verdicts.old.items ++ v ∷ all_ready freed)
            × IsArrival self.old.buffer entry v freed self.new.buffer }
        ensures rest { self.new ≡ record self.old { buffer = self.new.buffer } }
        ensures capacity { vec_capacity verdicts.new ≡ vec_capacity verdicts.old }
    {
        self.buffer.arrive(entry, verdicts);
    }

    /// Takes in one entry of the origin if it is the next one and none is held, as in most arrivals: the verdict is
    /// `Ready`, and nothing is freed. Otherwise nothing changes, and the entry is for `arrive`.
    #[inline(always)]
    pub fn arrive_next(&mut self, entry: &Entry<A>) -> bool
        requires { entry.now.origin ≡ self.old.buffer.origin }
        ensures next { IsTrue result ↔ (entry.now.prev ≡ self.old.buffer.last) × (self.old.buffer.closed ≡ false)
            × (self.old.buffer.held ≡ []) }
        ensures arrives { IsTrue result
            → IsArrival {A = A} self.old.buffer entry.now (Ready entry.now) [] self.new.buffer }
        ensures rest { self.new ≡ record self.old { buffer = self.new.buffer } }
        ensures same { IsFalse result → self.new ≡ self.old }
    {
        self.buffer.arrive_next(entry)
    }

    /// Takes in a beat of the origin.
    pub fn hear(&mut self, number: u64)
        requires { IsNumber number }
        ensures { self.new ≡ record self.old { buffer = after_beat self.old.buffer number } }
    {
        self.buffer.beat(number);
    }

    // The errors of the sender, the addressee and the system.
    #[inline(always)]
    fn check(&self, message: &Message<A>) -> Result<(), InboundError>
        ensures { MatchResult result
            (λ _. message_fault self.now (value_of message.now) ≡ None)
            (λ fault. message_fault self.now (value_of message.now) ≡ Some fault) }
    {
        if sender(message) != self.buffer.origin() {
            return Err(InboundError::WrongOrigin);
        }
        if !is_for(message, self.buffer.me()) || has_foreign(message, self.sites) {
            return Err(InboundError::BadSite);
        }
        Ok(())
    }

    /// Takes in a message that `read` returned. If memory is refused, nothing changes.
    pub fn take_in(&mut self, message: Message<A>) -> Result<Arrival<A>, OutOfMemory>
        requires { message_fault self.old (value_of message) ≡ None }
        ensures ok { IfOk result (λ arrival. Arrives self.old (value_of message) arrival self.new) }
        ensures err { OnErr result (self.new ≡ self.old) }
        ensures memory { OnErr result (has_entries (value_of message) ≡ true) }
    {
        match message {
            Message::Push(entry) => self.take_entry(entry),
            Message::Answer(answer) => self.take_entries(answer.into_entries()),
            Message::Beat(beat) => {
                self.buffer.beat(beat.number());
                Ok(Arrival::Beat(beat))
            }
            Message::Query(query) => Ok(Arrival::Query(query)),
            Message::Ask(ask) => Ok(Arrival::Ask(ask)),
            Message::Deny(deny) => Ok(Arrival::Deny(deny)),
            Message::Hello(_) => Ok(Arrival::Hello),
        }
    }

    fn take_entry(&mut self, entry: Entry<A>) -> Result<Arrival<A>, OutOfMemory>
        requires { entry.origin ≡ self.old.buffer.origin }
        ensures ok { IfOk result (λ arrival. BringsEntries self.old (entry ∷ []) arrival self.new) }
        ensures err { OnErr result (self.new ≡ self.old) }
    {
        let mut verdicts = Vec::with_capacity(self.alloc, self.buffer.held_count() + 1)?;
        self.buffer.arrive(entry, &mut verdicts);
        Ok(Arrival::Entries {
            verdicts: Verdicts { verdicts },
        })
    }

    fn take_entries(&mut self, entries: Vec<Entry<A>, A>) -> Result<Arrival<A>, OutOfMemory>
        requires origin { All (λ (e : EntryValue). e.origin ≡ self.old.buffer.origin) entries.items }
        requires few { length entries.items ≤ MAX_ANSWER }
        ensures ok { IfOk result (λ arrival. BringsEntries self.old entries.items arrival self.new) }
        ensures err { OnErr result (self.new ≡ self.old) }
    {
        if self.buffer.is_continued_by(&entries) {
            self.take_next_entries(entries)
        } else {
            self.take_any_entries(entries)
        }
    }

    // Most answers bring the next entries. These need room for one verdict each: more than a kilobyte would cost a
    // system's allocator much more time.
    fn take_next_entries(&mut self, entries: Vec<Entry<A>, A>) -> Result<Arrival<A>, OutOfMemory>
        requires next { IsContinuedBy self.old.buffer entries.items }
        requires few { length entries.items ≤ MAX_ANSWER }
        ensures ok { IfOk result (λ arrival. BringsEntries self.old entries.items arrival self.new) }
        ensures err { OnErr result (self.new ≡ self.old) }
    {
        let mut verdicts = Vec::with_capacity(self.alloc, entries.len())?;
        self.buffer.arrive_in_order(entries, &mut verdicts);
        Ok(Arrival::Entries {
            verdicts: Verdicts { verdicts },
        })
    }

    fn take_any_entries(&mut self, entries: Vec<Entry<A>, A>) -> Result<Arrival<A>, OutOfMemory>
        requires origin { All (λ (e : EntryValue). e.origin ≡ self.old.buffer.origin) entries.items }
        requires few { length entries.items ≤ MAX_ANSWER }
        ensures ok { IfOk result (λ arrival. BringsEntries self.old entries.items arrival self.new) }
        ensures err { OnErr result (self.new ≡ self.old) }
    {
        let mut verdicts = Vec::with_capacity(self.alloc, MAX_VERDICTS)?;
        self.buffer.arrive_all(entries, &mut verdicts);
        Ok(Arrival::Entries {
            verdicts: Verdicts { verdicts },
        })
    }

    /// The line of the query for the gap, if one is due: with `again` for any gap, else if it is not the gap that was
    /// asked for last. From then on it counts as asked for, even if memory for the line was refused.
    pub fn query_line(&mut self, again: bool) -> Result<Option<Vec<u8, A>>, OutOfMemory>
        ensures { (q : Option QueryValue) × QueryOf self.old again q self.new
            × MatchResult result (λ line. LineOf (λ l. l.items) (option_map (λ x. AQuery x) q) line) (λ _. IsSome q) }
    {
        match self.query_with_line(again)? {
            Some((_, line)) => Ok(Some(line)),
            None => Ok(None),
        }
    }

    /// The query for the gap with its line, where `query_line` returns the line alone.
    pub fn query_with_line(
        &mut self,
        again: bool,
    ) -> Result<Option<(Query, Vec<u8, A>)>, OutOfMemory>
        ensures { (q : Option QueryValue) × QueryOf self.old again q self.new
            × MatchResult result (λ given. IsWritten (λ l. l.items) q given) (λ _. IsSome q) }
    {
        let Some(query) = self.query(again) else {
            return Ok(None);
        };
        let message: Message<A> = Message::Query(query);
        let line = write_line(self.alloc, &message)?;
        Ok(Some((query, line)))
    }

    // The query for the gap, if one is due. From then on the gap counts as asked for.
    fn query(&mut self, again: bool) -> Option<Query>
        ensures { QueryOf self.old again result self.new }
    {
        if again {
            self.buffer.want_again()
        } else {
            self.buffer.want()
        }
    }

    /// `Buffering` if there is a gap.
    pub fn state(&self) -> State
        ensures table { (gap : Option QueryValue) × GapOf self.now.buffer gap × StateOf gap result }
        ensures log { (es set put : List EntryValue) → Follows es set put self.now.buffer
            → (gap : Option QueryValue)
            × GapIs self.now.buffer.me self.now.buffer.origin set put self.now.buffer.told gap × StateOf gap result }
    {
        self.buffer.state()
    }

    /// The own number of the last entry that was delivered, 0 at first.
    pub fn last(&self) -> u64
        ensures { result ≡ self.now.buffer.last }
    {
        self.buffer.last()
    }

    /// How many entries are held, at most 64.
    pub fn held_count(&self) -> usize
        ensures { result ≡ length self.now.buffer.held }
    {
        self.buffer.held_count()
    }
}

// The site that sent the message.
fn sender<A: Allocator>(message: &Message<A>) -> SiteId
    ensures { result ≡ sender (value_of message.now) }
{
    match message {
        Message::Push(entry) => entry.origin(),
        Message::Query(query) => query.asker(),
        Message::Answer(answer) => answer.origin(),
        Message::Beat(beat) => beat.origin(),
        Message::Ask(ask) => ask.asker(),
        Message::Deny(deny) => deny.denier(),
        Message::Hello(site) => *site,
    }
}

// Whether the message is addressed to the site, or to no site in particular.
fn is_for<A: Allocator>(message: &Message<A>, me: SiteId) -> bool
    ensures { result ≡ is_for me (value_of message.now) }
{
    match message {
        Message::Query(query) => query.origin() == me,
        Message::Answer(answer) => answer.asker() == me,
        Message::Ask(ask) => ask.asked() == me,
        Message::Deny(deny) => deny.asker() == me,
        _ => true,
    }
}

// Whether an entry of the message does not fit a system of this many sites.
fn has_foreign<A: Allocator>(message: &Message<A>, sites: u64) -> bool
    ensures { result ≡ has_foreign sites (entries_of (value_of message.now)) }
{
    match message {
        Message::Push(entry) => any_foreign(entry.moves(), sites),
        Message::Answer(answer) => answer
            .entries()
            .iter()
            .any(|entry| any_foreign(entry.moves(), sites)),
        _ => false,
    }
}

fn any_foreign(moves: &[Move], sites: u64) -> bool
    ensures { result ≡ list_any (is_foreign sites) moves.now }
{
    moves.iter().any(|m| is_foreign(m, sites))
}

// Whether the move names a site above the last one, or has a frontier for another number of sites.
fn is_foreign(m: &Move, sites: u64) -> bool
    ensures { result ≡ is_foreign sites m.now }
{
    match m {
        Move::CloseAt(frontier) => frontier.count() as u64 != sites,
        _ => match m.peer() {
            Some(peer) => peer.number() > sites,
            None => false,
        },
    }
}
