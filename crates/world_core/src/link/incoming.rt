//! The input from an origin's log, and the list in which it was delivered.
ghost use Rattle.std.specs.Prelude.{◌≡◌, ◌+◌, ◌<◌, ◌≤◌, if◌then◌else◌, [], ◌∷◌, ◌++◌, ◌↔◌, ℕ, None, Some, true, IfOk};
ghost use Rattle.std.specs.Prelude.{IfSome, OnOk, IsSome, IsTrue, IsFalse, List, length, map, take, drop, vec_capacity};
ghost use Rattle.std.specs.Option.{option_map, is_some};
ghost use Rattle.rights_types.specs.Entries.{EntryValue};
ghost use Rattle.rights_types.specs.declared.limits.TheConstants.{MAX_ANSWER, MAX_HELD};
ghost use Rattle.sub_buffer.specs.Follows.{reached_after};
ghost use Rattle.sub_buffer.specs.Arrivals.{Arrives};
ghost use Rattle.sub_buffer.specs.declared.verdict.Verdict.{Verdict as AVerdict};
ghost use Rattle.sub_buffer.specs.declared.verdict.Verdict.TheVariants.{Ready as IsReady};
ghost use Rattle.inbound.specs.Inbounds.{ready_in};
ghost use Rattle.world_core.specs.LinkEvents.{reported as as_reported};
ghost use Rattle.world_core.specs.IncomingLists.{reached_in, NoneAhead, HasRoom, SameLists, IncomingTakes};

use crate::keeping::Keeping;
use crate::reply::{EntryVerdict, EntryVerdicts};
use histories::History;
use inbound::Inbound;
use rights_types::{Entry, OutOfMemory};
use std::alloc::Allocator;
use std::marker::PhantomData;
use std::mem;
use sub_buffer::Verdict as BufferVerdict;

// Applied entries are dropped this many at a time, or all at once.
const MANY: usize = 32;

/// Entries are in `put` once they were delivered. If entries are kept for readers, all of them stay there, and what
/// reached the site becomes a separate list only once an entry arrived out of order: until then the two are equal. If
/// they are kept for replies alone, applied entries are dropped, and there is no separate list: what was delivered
/// before, and what reached the site, then exist only as ghost state. This type has no Model, so that clauses can
/// mention the capacity of its lists.
#[derive(Drop)]
pub(super) struct Incoming<A: Allocator, K: Keeping> {
    pub(super) of: PhantomData<K>,
    pub(super) put: Vec<Entry<A>, A>,
    pub(super) inbound: Inbound<A>,
    pub(super) gone: History<Entry<A>>,
    pub(super) seen: History<Entry<A>>,
    pub(super) apart: Option<Vec<Entry<A>, A>>,
}

/// Lists that each arrival fills anew. They are kept for their memory, and all links share them.
#[derive(Drop)]
pub(crate) struct Scratch<A: Allocator> {
    pub(super) verdicts: Vec<BufferVerdict<A>, A>,
    // The verdicts of a reply.
    pub(super) reported: Vec<EntryVerdict, A>,
}

impl<A: Allocator + Copy> Scratch<A> {
    pub(crate) fn new(alloc: A) -> Scratch<A> {
        Scratch {
            verdicts: Vec::new(alloc),
            reported: Vec::new(alloc),
        }
    }

    /// Returns these verdicts. A single one takes no memory of its own.
    pub(super) fn report(&mut self) -> EntryVerdicts<A>
        ensures { result ≡ self.old.reported.items }
    {
        if self.reported.len() == 1 {
            return EntryVerdicts::one(self.reported[0]);
        }
        let alloc = *self.reported.allocator();
        EntryVerdicts::many(mem::replace(&mut self.reported, Vec::new(alloc)))
    }
}

impl<A: Allocator + Copy, K: Keeping> Incoming<A, K> {
    /// Reserves memory for this many entries that are about to arrive, and for their verdicts: one each, and one more
    /// if it was held and is freed. Unless all arrive in order, what reached the site becomes a separate list.
    #[inline(always)]
    pub(super) fn make_room(
        &mut self,
        entries: usize,
        in_order: bool,
        scratch: &mut Scratch<A>,
    ) -> Result<(), OutOfMemory>
        requires few { entries ≤ MAX_ANSWER }
        requires held { length self.old.inbound.buffer.held ≤ MAX_HELD }
        ensures same { SameLists self.old self.new }
        ensures ok { OnOk result ((scratch.new.verdicts.items ≡ []) × (scratch.new.reported.items ≡ [])
            × HasRoom entries self.new scratch.new) }
        ensures apart { OnOk result (K.keeps ≡ true → self.new.apart ≡ None → in_order ≡ true) }
    {
        if K::keeps() && !in_order {
            self.list_apart()?;
        }
        if let Some(reached) = &mut self.apart {
            reached.reserve(entries)?;
        }
        let room = entries + self.inbound.held_count();
        self.put.reserve(room)?;
        scratch.verdicts.clear();
        scratch.verdicts.reserve(room)?;
        scratch.reported.clear();
        scratch.reported.reserve(entries + room)?;
        Ok(())
    }

    // Makes a separate list of what reached the site.
    fn list_apart(&mut self) -> Result<(), OutOfMemory>
        ensures rest { self.new ≡ record self.old { apart = self.new.apart } }
        ensures reached { reached_in true self.new ≡ reached_in true self.old }
        ensures ok { OnOk result (IsSome self.new.apart) }
    {
        if self.apart.is_none() {
            self.apart = Some(copy_all(*self.put.allocator(), &self.put)?);
        }
        Ok(())
    }

    /// A copy of an entry that is about to arrive, if there is a separate list of what reached the site.
    pub(super) fn copy_of(&self, entry: &Entry<A>) -> Result<Option<Entry<A>>, OutOfMemory>
        ensures { IfOk result (λ copy. copy ≡ option_map (λ _. entry.now) self.now.apart) }
    {
        match &self.apart {
            Some(reached) => Ok(Some(entry.clone_in(*reached.allocator())?)),
            None => Ok(None),
        }
    }

    /// Copies of entries that are about to arrive, if there is a separate list of what reached the site.
    pub(super) fn copies_of(&self, entries: &[Entry<A>]) -> Result<Vec<Entry<A>, A>, OutOfMemory>
        ensures { IfOk result (λ copies. copies.items ≡ (if is_some self.now.apart then entries.now else [])) }
    {
        match &self.apart {
            Some(reached) => copy_all(*reached.allocator(), entries),
            None => Ok(Vec::new(*self.put.allocator())),
        }
    }

    /// Takes in an entry for which memory was reserved. If there is a separate list, there is a copy, which is added
    /// to it if the entry reaches the site.
    #[inline(always)]
    pub(super) fn take(&mut self, entry: Entry<A>, copy: Option<Entry<A>>, scratch: &mut Scratch<A>)
        requires origin { entry.origin ≡ self.old.inbound.buffer.origin }
        requires empty { scratch.old.verdicts.items ≡ [] }
        requires room { HasRoom 1 self.old scratch.old }
        requires copy { IsSome self.old.apart → copy ≡ Some entry }
        ensures takes { (v : AVerdict A) × (freed : List EntryValue)
            × IncomingTakes self.old scratch.old.reported.items entry v freed self.new scratch.new.reported.items }
        ensures empty { scratch.new.verdicts.items ≡ [] }
        ensures room { (n : ℕ) → HasRoom (n + 1) self.old scratch.old → HasRoom n self.new scratch.new }
    {
        let seen = self.seen.and(&entry);
        if self.arrive_next(&entry) {
            self.seen = seen;
            let verdict = self.put_ready(BufferVerdict::Ready(entry));
            scratch.reported.push_reserved(verdict);
            return;
        }
        self.inbound.arrive(entry, &mut scratch.verdicts);
        self.see(seen, &scratch.verdicts);
        self.list(copy, &scratch.verdicts);
        self.pass_on(scratch);
    }

    // Whether the entry is the next one while none is held, and there is no separate list, as in most arrivals. If so,
    // the input has taken it in; it is still to be put. Otherwise nothing changed.
    #[inline(always)]
    fn arrive_next(&mut self, entry: &Entry<A>) -> bool
        requires origin { entry.now.origin ≡ self.old.inbound.buffer.origin }
        ensures arrives { IsTrue result
            → Arrives {A = A} self.old.inbound.buffer entry.now (IsReady entry.now) [] self.new.inbound.buffer }
        ensures apart { IsTrue result → self.old.apart ≡ None }
        ensures inbound { self.new.inbound ≡ record self.old.inbound { buffer = self.new.inbound.buffer } }
        ensures rest { self.new ≡ record self.old { inbound = self.new.inbound } }
        ensures same { IsFalse result → self.new ≡ self.old }
    {
        if self.apart.is_some() {
            return false;
        }
        self.inbound.arrive_next(entry)
    }

    // What was seen, with the entry that arrived, if it reaches the site by the first verdict.
    fn see(&mut self, seen: History<Entry<A>>, verdicts: &[BufferVerdict<A>])
        ensures seen { (v : AVerdict A) (rest : List (AVerdict A)) (e : EntryValue) → verdicts.now ≡ v ∷ rest
            → seen.items ≡ self.old.seen.items ++ e ∷ []
            → self.new.seen.items ≡ reached_after self.old.seen.items e v }
        ensures rest { self.new ≡ record self.old { seen = self.new.seen } }
    {
        if reaches(verdicts) {
            self.seen = seen;
        }
    }

    // Adds the copy of an entry to the separate list, if the entry reaches the site by the first verdict.
    fn list(&mut self, copy: Option<Entry<A>>, verdicts: &[BufferVerdict<A>])
        requires room { IfSome self.old.apart (λ l. length l.items < vec_capacity l) }
        ensures lists { (v : AVerdict A) (rest : List (AVerdict A)) (e : EntryValue) → verdicts.now ≡ v ∷ rest
            → (IsSome self.old.apart → copy ≡ Some e)
            → option_map (λ l. l.items) self.new.apart ≡ option_map (λ l. reached_after l.items e v) self.old.apart }
        ensures rest { self.new ≡ record self.old { apart = self.new.apart } }
        ensures capacity { option_map (λ l. vec_capacity l) self.new.apart
            ≡ option_map (λ l. vec_capacity l) self.old.apart }
    {
        if !reaches(verdicts) {
            return;
        }
        if let (Some(reached), Some(copy)) = (&mut self.apart, copy) {
            reached.push_reserved(copy);
        }
    }

    // Moves the verdicts to the reply; the entries that are ready are appended to what was delivered.
    fn pass_on(&mut self, scratch: &mut Scratch<A>)
        requires put { length self.old.put.items + length scratch.old.verdicts.items ≤ vec_capacity self.old.put }
        requires reported { length scratch.old.reported.items + length scratch.old.verdicts.items
            ≤ vec_capacity scratch.old.reported }
        ensures put { self.new.put.items ≡ self.old.put.items ++ ready_in scratch.old.verdicts.items }
        ensures reported { scratch.new.reported.items
            ≡ scratch.old.reported.items ++ map as_reported scratch.old.verdicts.items }
        ensures verdicts { scratch.new.verdicts.items ≡ [] }
        ensures rest { self.new ≡ record self.old { put = self.new.put } }
        ensures put_room { vec_capacity self.new.put ≡ vec_capacity self.old.put }
        ensures verdicts_room { vec_capacity scratch.new.verdicts ≡ vec_capacity scratch.old.verdicts }
        ensures reported_room { vec_capacity scratch.new.reported ≡ vec_capacity scratch.old.reported }
    {
        // The first verdict is to be taken first, from the end of the list.
        scratch.verdicts.reverse();
        while let Some(verdict) = scratch.verdicts.pop() {
            scratch.reported.push_reserved(self.put_ready(verdict));
        }
    }

    // The verdict for the reply. If the entry is ready, it is appended to what was delivered.
    fn put_ready(&mut self, verdict: BufferVerdict<A>) -> EntryVerdict
        requires { length self.old.put.items < vec_capacity self.old.put }
        ensures reported { result ≡ as_reported verdict }
        ensures put { self.new.put.items ≡ self.old.put.items ++ ready_in (verdict ∷ []) }
        ensures rest { self.new ≡ record self.old { put = self.new.put } }
        ensures room { vec_capacity self.new.put ≡ vec_capacity self.old.put }
    {
        match verdict {
            BufferVerdict::Ready(entry) => {
                let number = entry.own();
                self.put.push_reserved(entry);
                EntryVerdict::Ready(number)
            }
            BufferVerdict::Held => EntryVerdict::Held,
            BufferVerdict::Repeat => EntryVerdict::Repeat,
            BufferVerdict::AfterClose => EntryVerdict::AfterClose,
            BufferVerdict::Full => EntryVerdict::Full,
        }
    }

    /// Whether the delivered entries that were applied stay for now. They are dropped once they are all of the list,
    /// or at least `MANY` and half of it, so that each remaining entry is moved only a few times.
    pub(super) fn stays(&self, count: usize) -> bool {
        let put = self.put.len();
        count < put && (count < MANY || count < put / 2)
    }

    /// Drops the first delivered entries, which were applied.
    pub(super) fn let_go(&mut self, count: usize)
        requires within { count ≤ length self.old.put.items }
        ensures gone { self.new.gone.items ≡ self.old.gone.items ++ take count self.old.put.items }
        ensures put { self.new.put.items ≡ drop count self.old.put.items }
        ensures rest { self.new ≡ record self.old { gone = self.new.gone; put = self.new.put } }
    {
        let gone = mem::replace(&mut self.gone, History::new());
        self.gone = gone.and_all(&self.put[..count]);
        let left = self.put.len() - count;
        if left == 0 {
            self.put.clear();
        } else {
            self.put.rotate_left(count);
            self.put.truncate(left);
        }
    }
}

// Whether the entry of the first verdict reaches the site.
fn reaches<A: Allocator>(verdicts: &[BufferVerdict<A>]) -> bool
    ensures { (v : AVerdict A) (rest : List (AVerdict A)) (set : List EntryValue) (e : EntryValue)
        → verdicts.now ≡ v ∷ rest → reached_after set e v ≡ (if result then set ++ e ∷ [] else set) }
{
    matches!(
        verdicts.first(),
        Some(BufferVerdict::Ready(_) | BufferVerdict::Held)
    )
}

fn copy_all<A: Allocator + Copy>(
    alloc: A,
    entries: &[Entry<A>],
) -> Result<Vec<Entry<A>, A>, OutOfMemory>
    ensures { IfOk result (λ copies. copies.items ≡ entries.now) }
{
    let mut copies = Vec::with_capacity(alloc, entries.len())?;
    for entry in entries {
        copies.push_reserved(entry.clone_in(alloc)?);
    }
    Ok(copies)
}

/// Whether each of these entries begins no later than the ones before it end, given that everything up to this number
/// arrived.
pub(super) fn none_ahead<A: Allocator>(entries: &[Entry<A>], number: u64) -> bool
    ensures { IsTrue result ↔ NoneAhead number entries.now }
{
    let mut end = number;
    for entry in entries {
        if end < entry.prev() {
            return false;
        }
        end = end.max(entry.own());
    }
    true
}
