//! The buffer, its state and its gap.
ghost use Rattle.std.specs.Prelude.{◌≡◌, ◌≢◌, ℕ, ◌+◌, ◌<◌, ◌≤◌, ◌++◌, ◌∷◌, [], List, IfOk, IfSome, MatchResult, Option};
ghost use Rattle.std.specs.Prelude.{Some, IsTrue, IsFalse, false, ◌↔◌, length, max};
ghost use Rattle.std.specs.List.{Contains};
ghost use Rattle.std.specs.Option.{option_to_list};
ghost use Rattle.rights_types.specs.Ranges.{IsNumber};
ghost use Rattle.rights_types.specs.Entries.{EntryValue, own, IsEntry};
ghost use Rattle.rights_types.specs.Chains.{IsChain, IsLongest};
ghost use Rattle.rights_types.specs.Messages.{QueryValue};
ghost use Rattle.sub_buffer.specs.Places.{IsPlace};

use crate::held::{drop_before, place_for};
use crate::verdict::{BufferError, Verdict};
use rights_types::{Entry, MAX_HELD, OutOfMemory, Query, SiteId};
use std::alloc::{Allocator, Global};
use std::collections::VecDeque;
use std::marker::Model;

/// Whether numbers are known to be missing.
#[derive(Clone, Copy, Debug, PartialEq, Eq)]
pub enum State {
    /// Nothing is missing, as far as the buffer knows.
    Normal,
    /// There is a gap.
    Buffering,
}

/// The buffer of one site for the entries of one other site, the origin. Only `new` allocates.
#[derive(Drop)]
pub struct SubBuffer<A: Allocator = Global> {
    me: SiteId,
    origin: SiteId,
    closed: bool,
    last: u64,
    told: u64,
    held: VecDeque<Entry<A>, A>,
    asked: Option<Query>,
}

impl<A: Allocator> Model for SubBuffer<A> {
    ghost use Rattle.std.specs.Prelude.{◌≤◌};
    ghost use Rattle.std.specs.VecDeque.{deque_capacity};
    ghost use Rattle.rights_types.specs.declared.limits.TheConstants.{MAX_HELD};
    ghost use Rattle.sub_buffer.specs.Buffers.{BufferValue, IsBuffer};

    ghost Value = { BufferValue };

    ghost view = { λ b. record {
      me = b.me;
      origin = b.origin;
      last = b.last;
      told = b.told;
      closed = b.closed;
      held = b.held.items;
      asked = b.asked;
    } };

    ghost invariant = { λ b. IsBuffer
        (record {
          me = b.me;
          origin = b.origin;
          last = b.last;
          told = b.told;
          closed = b.closed;
          held = b.held.items;
          asked = b.asked;
        }) × (MAX_HELD ≤ deque_capacity b.held) };
}

impl<A: Allocator> SubBuffer<A> {
    ghost use Rattle.sub_buffer.specs.Buffers.{IsBuffer, IsSettled, SamePair, new_buffer, told_of, delivered};
    ghost use Rattle.sub_buffer.specs.Buffers.{with_held};
    ghost use Rattle.sub_buffer.specs.Table.{OfferLeaves, PopLeaves, after_beat, more_held};
    ghost use Rattle.sub_buffer.specs.Follows.{HasPut, Follows, put_after, SettledOffer, OfferFollows, PopFollows};
    ghost use Rattle.sub_buffer.specs.Arrivals.{Arrives};
    ghost use Rattle.sub_buffer.specs.declared.verdict.Verdict.TheVariants.{Ready};
    ghost use Rattle.sub_buffer.specs.Gaps.{GapOf, GapIs, StateOf, Wants, asked_for};
    ghost use Rattle.sub_buffer.specs.declared.verdict.BufferError.TheVariants.{WrongOrigin};

    /// The buffer of site `me` for the log of `origin`, before anything came. `OutOfMemory` if its memory is refused.
    pub fn new(alloc: A, me: SiteId, origin: SiteId) -> Result<SubBuffer<A>, OutOfMemory>
        requires { origin ≢ me }
        ensures buffer { IfOk result (λ b. b ≡ new_buffer me origin) }
        ensures chain { IfOk result (λ b. HasPut [] b) }
        ensures follows { IfOk result (λ b. (es : List EntryValue) → IsChain origin es
            → Follows es [] [] b × IsLongest [] es []) }
        ensures settled { IfOk result (λ b. IsSettled b) }
    {
        Ok(SubBuffer {
            held: VecDeque::with_capacity(alloc, MAX_HELD)?,
            me,
            origin,
            last: 0,
            told: 0,
            closed: false,
            asked: None,
        })
    }

    /// Offers an entry. `WrongOrigin` if it is of another origin. After `Ready`, and before the next offer, call
    /// `pop_ready` until it returns `None`: only then are the verdicts those of the log. `arrive` does both.
    pub fn offer(&mut self, entry: Entry<A>) -> Result<Verdict<A>, BufferError>
        ensures refused { MatchResult result (λ v. entry.origin ≡ self.old.origin) (λ fault. (fault ≡ WrongOrigin)
            × (entry.origin ≢ self.old.origin) × (self.new ≡ self.old)) }
        ensures table { IfOk result (λ v. OfferLeaves self.old entry v self.new) }
        ensures pair { SamePair self.old self.new }
        ensures chain { IfOk result (λ v. (put : List EntryValue) → HasPut put self.old
            → HasPut (put_after put v) self.new) }
        ensures count { IfOk result (λ v. length self.new.held ≤ length self.old.held + more_held v) }

        // For an entry of the log es. The second part is for a put that is the longest prefix of what reached the
        // buffer.
        ensures follows { (es set put : List EntryValue) → Contains es entry → Follows es set put self.old
            → OfferFollows es set put entry result self.new × (self.new.told ≡ max self.old.told (own entry)) }
        ensures settled { (es set put : List EntryValue) → Contains es entry → Follows es set put self.old
            → IsLongest set es put → SettledOffer es set put entry result self.new }
    {
        if entry.origin() != self.origin {
            return Err(BufferError::WrongOrigin);
        }
        Ok(self.judge(entry))
    }

    // The verdict on an entry of the origin.
    #[inline(always)]
    pub(crate) fn judge(&mut self, entry: Entry<A>) -> Verdict<A>
        requires { entry.origin ≡ self.old.origin }
        ensures table { OfferLeaves self.old entry result self.new }
        ensures valid { IsBuffer self.old }
        ensures entry { IsEntry entry }
    {
        let prev = entry.prev();
        if prev < self.last {
            return Verdict::Repeat;
        }
        if self.closed {
            return Verdict::AfterClose;
        }
        let own = entry.own();
        if prev == self.last {
            self.hear(own);
            self.deliver(&entry);
            return Verdict::Ready(entry);
        }
        let Some(place) = place_for(&self.held, prev) else {
            return Verdict::Repeat;
        };
        self.hear(own);
        if self.held.len() == MAX_HELD {
            return Verdict::Full;
        }
        self.hold(place, entry);
        Verdict::Held
    }

    /// Takes in an entry of the origin if it is the next one and no entry is held, as in most arrivals: the verdict is
    /// `Ready`, and nothing is freed. Otherwise nothing changes, and the entry is for `arrive`.
    #[inline(always)]
    pub fn arrive_next(&mut self, entry: &Entry<A>) -> bool
        requires { entry.now.origin ≡ self.old.origin }
        ensures next { IsTrue result
            ↔ (entry.now.prev ≡ self.old.last) × (self.old.closed ≡ false) × (self.old.held ≡ []) }
        ensures arrives { IsTrue result → Arrives {A = A} self.old entry.now (Ready entry.now) [] self.new }
        ensures same { IsFalse result → self.new ≡ self.old }
    {
        if self.closed || !self.held.is_empty() || entry.prev() != self.last {
            return false;
        }
        self.hear(entry.own());
        self.deliver(entry);
        true
    }

    // Notes that the log has the number.
    fn hear(&mut self, number: u64)
        requires { IsNumber number }
        ensures { self.new ≡ told_of self.old number }
    {
        self.told = self.told.max(number);
    }

    // Continues after the entry, whose number was seen before.
    fn deliver(&mut self, entry: &Entry<A>)
        requires { own entry.now ≤ self.old.told }
        ensures { self.new ≡ delivered self.old entry.now }
    {
        self.last = entry.own();
        self.closed = entry.closes();
        drop_before(&mut self.held, self.last);
    }

    // Holds the entry at this position.
    fn hold(&mut self, place: usize, entry: Entry<A>)
        requires place { IsPlace entry.prev self.old.held place }
        requires later { self.old.last ≤ entry.prev }
        requires heard { own entry ≤ self.old.told }
        requires of_origin { entry.origin ≡ self.old.origin }
        requires few { length self.old.held < MAX_HELD }
        ensures { self.new ≡ with_held self.old entry }
    {
        match self.held.insert(place, entry) {
            Ok(()) => {}
            Err(_) => unreachable!(),
        }
    }

    /// Delivers the held entry that has become next, if there is one. There is none after the closing entry.
    pub fn pop_ready(&mut self) -> Option<Entry<A>>
        ensures table { PopLeaves self.old result self.new }
        ensures pair { SamePair self.old self.new }
        ensures chain { (put : List EntryValue) → HasPut put self.old → HasPut (put ++ option_to_list result) self.new }
        ensures follows { (es set put : List EntryValue) → Follows es set put self.old
            → PopFollows es set put result self.new }
        ensures fewer { IfSome result (λ _. length self.new.held < length self.old.held) }
    {
        self.pop_next()
    }

    fn pop_next(&mut self) -> Option<Entry<A>>
        ensures table { PopLeaves self.old result self.new }
        ensures valid { IsBuffer self.old }
        ensures entry { IfSome result (λ e. IsEntry e) }
    {
        if self.closed {
            return None;
        }
        let first = self.held.front()?;
        if first.prev() != self.last {
            return None;
        }
        let entry = self.held.pop_front()?;
        self.deliver(&entry);
        Some(entry)
    }

    /// The origin says that its log ends at this number, at most 10^9. Ignored once the closing entry was delivered.
    pub fn beat(&mut self, number: u64)
        requires { IsNumber number }
        ensures table { self.new ≡ after_beat self.old number }
        ensures pair { SamePair self.old self.new }
        ensures settled { IsSettled self.old → IsSettled self.new }
        ensures chain { (put : List EntryValue) → HasPut put self.old → HasPut put self.new }
        ensures follows { (es set put : List EntryValue) → Follows es set put self.old → Follows es set put self.new }
    {
        if !self.closed {
            self.hear(number);
        }
    }

    /// `Buffering` if there is a gap.
    pub fn state(&self) -> State
        ensures table { (gap : Option QueryValue) × GapOf self.now gap × StateOf gap result }
        ensures gap { (es set put : List EntryValue) → Follows es set put self.now → IsLongest set es put
            → (gap : Option QueryValue) × GapIs self.now.me self.now.origin set put self.now.told gap
            × StateOf gap result }
    {
        if self.missing().is_some() {
            State::Buffering
        } else {
            State::Normal
        }
    }

    /// The first gap, as a query to the origin; None if no number is known to be missing.
    pub fn gap(&self) -> Option<Query>
        ensures table { GapOf self.now result }
        ensures gap { (es set put : List EntryValue) → Follows es set put self.now → IsLongest set es put
            → GapIs self.now.me self.now.origin set put self.now.told result }
    {
        self.missing()
    }

    fn missing(&self) -> Option<Query>
        ensures { GapOf self.now result }
    {
        if self.closed || self.told <= self.last {
            return None;
        }
        let end = match self.held.front() {
            Some(first) => first.prev(),
            None => self.told,
        };
        if end == self.last {
            return None;
        }
        Some(Query::known(self.me, self.origin, self.last + 1, end))
    }

    /// The gap, if it differs from the one that was asked for last. From then on it counts as asked for.
    pub fn want(&mut self) -> Option<Query>
        ensures table { (gap : Option QueryValue) × GapOf self.old gap × Wants gap self.old.asked result
            × (self.new ≡ asked_for self.old result) }
        ensures gap { (es set put : List EntryValue) → Follows es set put self.old → IsLongest set es put
            → (gap : Option QueryValue) × GapIs self.old.me self.old.origin set put self.old.told gap
            × Wants gap self.old.asked result }
        ensures pair { SamePair self.old self.new }
        ensures settled { IsSettled self.old → IsSettled self.new }
        ensures chain { (put : List EntryValue) → HasPut put self.old → HasPut put self.new }
        ensures follows { (es set put : List EntryValue) → Follows es set put self.old → Follows es set put self.new }
    {
        let gap = self.wanted();
        self.note_asked(gap)
    }

    fn wanted(&self) -> Option<Query>
        ensures { (gap : Option QueryValue) × GapOf self.now gap × Wants gap self.now.asked result }
    {
        let gap = self.missing()?;
        if self.was_asked(&gap) {
            return None;
        }
        Some(gap)
    }

    fn was_asked(&self, gap: &Query) -> bool
        ensures { IsTrue result ↔ (self.now.asked ≡ Some gap.now) }
    {
        match &self.asked {
            Some(asked) => asked == gap,
            None => false,
        }
    }

    // Returns the gap, which from then on counts as asked for.
    fn note_asked(&mut self, gap: Option<Query>) -> Option<Query>
        ensures value { result ≡ gap }
        ensures asked { self.new ≡ asked_for self.old gap }
    {
        if gap.is_some() {
            self.asked = gap;
        }
        gap
    }

    /// The gap, even if it was asked for last. From then on it counts as asked for.
    pub fn want_again(&mut self) -> Option<Query>
        ensures table { GapOf self.old result × (self.new ≡ asked_for self.old result) }
        ensures gap { (es set put : List EntryValue) → Follows es set put self.old → IsLongest set es put
            → GapIs self.old.me self.old.origin set put self.old.told result }
        ensures pair { SamePair self.old self.new }
        ensures settled { IsSettled self.old → IsSettled self.new }
        ensures chain { (put : List EntryValue) → HasPut put self.old → HasPut put self.new }
        ensures follows { (es set put : List EntryValue) → Follows es set put self.old → Follows es set put self.new }
    {
        let gap = self.missing();
        self.note_asked(gap)
    }

    /// The site whose buffer it is.
    pub fn me(&self) -> SiteId
        ensures { result ≡ self.now.me }
    {
        self.me
    }

    /// The site whose log it takes.
    pub fn origin(&self) -> SiteId
        ensures { result ≡ self.now.origin }
    {
        self.origin
    }

    /// The own number of the last entry that was delivered, 0 at first. At most `told`.
    pub fn last(&self) -> u64
        ensures value { result ≡ self.now.last }
        ensures valid { IsBuffer self.now }
    {
        self.last
    }

    /// The highest seen number: the greatest number that the origin's log is known to have, by entries and beats; 0 at
    /// first. Repeats, and what comes after the closing entry was delivered, don't count.
    pub fn told(&self) -> u64
        ensures value { result ≡ self.now.told }
        ensures valid { IsBuffer self.now }
    {
        self.told
    }

    // Whether no entry is held.
    pub(crate) fn holds_none(&self) -> bool
        ensures { IsTrue result ↔ (self.now.held ≡ []) }
    {
        self.held.is_empty()
    }

    // Whether the closing entry was delivered.
    pub(crate) fn is_closed(&self) -> bool
        ensures { result ≡ self.now.closed }
    {
        self.closed
    }

    /// How many entries are held, at most 64.
    pub fn held_count(&self) -> usize
        ensures value { result ≡ length self.now.held }
        ensures valid { IsBuffer self.now }
    {
        self.held.len()
    }
}
