//! Entries that arrive at a buffer, each with the held entries that it frees.
ghost use Rattle.std.specs.Prelude.{◌≡◌, ◌+◌, ◌<◌, ◌≤◌, ◌++◌, ◌∷◌, ◌↔◌, IsTrue, List, length, vec_capacity};
ghost use Rattle.std.specs.List.{All};
ghost use Rattle.rights_types.specs.Entries.{EntryValue};

use crate::buffer::SubBuffer;
use crate::verdict::Verdict;
use rights_types::{Entry, MAX_ANSWER, MAX_HELD};
use std::alloc::Allocator;

/// The most verdicts on the entries of one answer: one for each entry, and one for each entry that is freed. One entry
/// can free all that were held before, and then the last one can free all the others but one.
pub const MAX_VERDICTS: usize = MAX_ANSWER + MAX_HELD + MAX_ANSWER - 2;

impl<A: Allocator> SubBuffer<A> {
    ghost use Rattle.sub_buffer.specs.Buffers.{IsSettled};
    ghost use Rattle.sub_buffer.specs.Arrivals.{all_ready, Frees, Arrives, ArriveAll, IsContinuedBy};

    /// Offers an entry of the origin, and delivers everything that it frees: its verdict is appended to `verdicts`,
    /// and after it `Ready` for each held entry that has become next. The buffer must be settled, as a new one is and
    /// one after `arrive`: `pop_ready` would return `None`.
    #[inline(always)]
    pub fn arrive(&mut self, entry: Entry<A>, verdicts: &mut Vec<Verdict<A>, A>)
        requires of_origin { entry.origin ≡ self.old.origin }
        requires settled { IsSettled self.old }
        requires room { length verdicts.old.items + length self.old.held < vec_capacity verdicts.old }
        ensures arrives { (v : Verdict A) × (freed : List EntryValue)
            × (verdicts.new.items ≡ verdicts.old.items ++ v ∷ all_ready freed)
            × Arrives self.old entry v freed self.new }
        ensures capacity { vec_capacity verdicts.new ≡ vec_capacity verdicts.old }
    {
        match self.judge(entry) {
            Verdict::Ready(next) => {
                verdicts.push_reserved(Verdict::Ready(next));
                self.free_held(verdicts);
            }
            other => verdicts.push_reserved(other),
        }
    }

    /// Lets the entries of one answer arrive, in order.
    pub fn arrive_all(&mut self, entries: Vec<Entry<A>, A>, verdicts: &mut Vec<Verdict<A>, A>)
        requires of_origin { All (λ (e : EntryValue). e.origin ≡ self.old.origin) entries.items }
        requires settled { IsSettled self.old }
        requires few { length entries.items ≤ MAX_ANSWER }
        requires room { length verdicts.old.items + MAX_VERDICTS ≤ vec_capacity verdicts.old }
        ensures arrive { ArriveAll self.old verdicts.old.items entries.items self.new verdicts.new.items }
        ensures settled { IsSettled self.new }
        ensures capacity { vec_capacity verdicts.new ≡ vec_capacity verdicts.old }
    {
        // For the proof: at most 64 are held.
        let _ = self.held_count();
        for entry in entries {
            self.arrive(entry, verdicts);
        }
    }

    /// Whether these entries are the next ones, one after another, and none is held, as with most answers: each of them
    /// would be `Ready`, and free nothing.
    pub fn is_continued_by(&self, entries: &[Entry<A>]) -> bool
        requires { All (λ (e : EntryValue). e.origin ≡ self.now.origin) entries.now }
        ensures { IsTrue result ↔ IsContinuedBy self.now entries.now }
    {
        if !self.holds_none() {
            return false;
        }
        let mut last = self.last();
        let mut closed = self.is_closed();
        for entry in entries {
            if closed || entry.prev() != last {
                return false;
            }
            last = entry.own();
            closed = entry.closes();
        }
        true
    }

    /// As `arrive_all`, for entries that the buffer is continued by. They need no more room than one verdict each.
    pub fn arrive_in_order(&mut self, entries: Vec<Entry<A>, A>, verdicts: &mut Vec<Verdict<A>, A>)
        requires next { IsContinuedBy self.old entries.items }
        requires room { length verdicts.old.items + length entries.items ≤ vec_capacity verdicts.old }
        ensures arrive { ArriveAll self.old verdicts.old.items entries.items self.new verdicts.new.items }
        ensures settled { IsSettled self.new }
        ensures ready { verdicts.new.items ≡ verdicts.old.items ++ all_ready entries.items }
        ensures capacity { vec_capacity verdicts.new ≡ vec_capacity verdicts.old }
    {
        for entry in entries {
            let _ = self.arrive_next(&entry);
            verdicts.push_reserved(Verdict::Ready(entry));
        }
    }

    // Delivers the held entries that have become next, one after another.
    fn free_held(&mut self, verdicts: &mut Vec<Verdict<A>, A>)
        requires room { length verdicts.old.items + length self.old.held ≤ vec_capacity verdicts.old }
        ensures freed { (freed : List EntryValue) × (verdicts.new.items ≡ verdicts.old.items ++ all_ready freed)
            × Frees self.old freed self.new }
        ensures capacity { vec_capacity verdicts.new ≡ vec_capacity verdicts.old }
    {
        while let Some(held) = self.pop_ready() {
            verdicts.push_reserved(Verdict::Ready(held));
        }
    }
}
