//! The keys of commands, with where each command ended.
ghost use Rattle.std.specs.Prelude.{◌≡◌, ◌+◌, ◌≤◌, ◌==◌, ◌++◌, [], ◌∷◌, length, None, OnOk, IsOk, position, find};
ghost use Rattle.std.specs.Str.{bytes_eq};
ghost use Rattle.std.specs.Prelude.{◌<◌, not};
ghost use Rattle.command_keys.specs.Keys.{no_keys, outcome_of, key_of, remembered, entry_key, replayed, has_ticket, Serves, Expires, ExpiresAt, Settles, IsOnce};
ghost use Rattle.command_keys.specs.declared.outcome.Waiting.{Waiting};

use crate::entry_keys::EntryKeys;
use crate::key::Key;
use crate::last::LastKeys;
use crate::outcome::{Effect, Ended, Outcome, Waiting, Written};
use request_queue::Request;
use rights_types::OutOfMemory;
use std::alloc::{Allocator, Global};
use std::hash::RandomState;
use std::marker::Model;

/// How many keys of expired spends are remembered. The queue bounds how many wait, and the cap how many wrote entries.
pub const MAX_EXPIRED: usize = 10_000;

/// The keys of commands, with where each command ended: the last that wrote entries, at most `cap`; those whose spend
/// waits; and the last 10,000 whose spend expired. No key occurs twice. A key that was forgotten is free again.
#[derive(Drop)]
pub struct Keys<A: Allocator = Global> {
    written: EntryKeys<A>,
    waiting: Vec<Waiting, A>,
    expired: LastKeys<Ended, A>,
}

impl<A: Allocator> Model for Keys<A> {
    ghost use Rattle.std.specs.Prelude.{◌-◌, min, length};
    ghost use Rattle.std.specs.Vec.{vec_capacity};
    ghost use Rattle.command_keys.specs.Keys.{KeysValue, IsKeys};

    ghost Value = { KeysValue };

    ghost view = { λ k. record {
      written = k.written.entries;
      cap = k.written.cap;
      waiting = k.waiting.items;
      expired = k.expired.entries;
      room = min (k.written.spare - length k.waiting.items)
          (min (k.expired.spare - length k.waiting.items) (vec_capacity k.waiting - length k.waiting.items));
    } };

    ghost invariant = { λ k. IsKeys k.written k.waiting.items k.expired };
}

impl<A: Allocator + Copy> Keys<A> {
    /// No key yet. At most `cap` keys that wrote entries are remembered; with 0, none. It asks for no memory. The
    /// hasher has random keys, since clients choose the texts.
    pub fn new(alloc: A, hasher: RandomState, cap: usize) -> Keys<A>
        ensures { result ≡ record (no_keys cap) { room = result.room } }
    {
        Keys {
            written: EntryKeys::new(alloc, hasher, cap),
            waiting: Vec::new(alloc),
            expired: LastKeys::new(alloc, hasher, MAX_EXPIRED),
        }
    }
}

impl<A: Allocator> Keys<A> {
    /// How many keys that wrote entries are remembered, at most the cap.
    pub fn len(&self) -> usize
        ensures value { result ≡ length self.now.written }
        ensures few { result ≤ self.now.cap }
        ensures once { IsOnce self.now }
    {
        self.written.len()
    }

    /// The greatest number of keys that wrote entries.
    pub fn cap(&self) -> usize
        ensures { result ≡ self.now.cap }
    {
        self.written.cap()
    }

    /// The spends that wait under keys, in the order in which they came. A spend that no longer waits in the queue was
    /// served, or expired.
    pub fn waiting(&self) -> &[Waiting]
        ensures { result.now ≡ self.now.waiting }
    {
        &self.waiting
    }

    /// Where the command of this key ended. None if the key is free.
    pub fn lookup(&self, key: &Key) -> Option<Outcome>
        ensures { result ≡ outcome_of self.now key.now }
    {
        if let Some(written) = self.written.get(key) {
            return Some(Outcome::Wrote(written));
        }
        if let Some(spend) = spend_of_key(&self.waiting, key) {
            return Some(Outcome::Waits(spend.ticket, spend.amount));
        }
        Some(Outcome::Expired(self.expired.get(key)?))
    }

    /// The key of the waiting spend with this ticket. None if it was queued without a key.
    pub fn key_of(&self, ticket: u64) -> Option<Key>
        ensures { result ≡ key_of ticket self.now.waiting }
    {
        Some(spend_of_ticket(&self.waiting, ticket)?.key)
    }

    /// The key whose command wrote the entry of this number. None if there was none, or it was forgotten. It takes
    /// logarithmic time if the numbers came in their order.
    pub fn entry_key(&self, number: u64) -> Option<Key>
        ensures { result ≡ entry_key number self.now.written }
    {
        self.written.entry_key(number)
    }

    /// Makes room for one more key, whatever becomes of its command and of those that wait: once this has succeeded,
    /// `remember` or `wait` asks for no memory. `OutOfMemory` if it is refused.
    pub fn reserve(&mut self) -> Result<(), OutOfMemory>
        ensures same { self.new ≡ record self.old { room = self.new.room } }
        ensures ok { OnOk result (1 ≤ self.new.room) }
        ensures succeeds { 1 ≤ self.old.room → IsOk result }
    {
        let count = self.waiting.len();
        self.written.reserve(count + 1)?;
        self.expired.reserve(count + 1)?;
        self.waiting.reserve(1)?;
        Ok(())
    }

    /// Remembers that the command of this free key wrote this entry. The oldest key that wrote one is forgotten if there
    /// are more than the cap.
    pub fn remember(&mut self, key: Key, written: Written)
        requires room { 1 ≤ self.old.room }
        requires free { outcome_of self.old key ≡ None }
        ensures { self.new ≡ record (remembered self.old key written) { room = self.new.room } }
    {
        self.written.put(key, written);
    }

    /// Remembers that the command of this key wrote this entry before the site started. A key that is remembered already
    /// was forgotten then, when fewer were remembered: its older entry is forgotten now. Spends that wait or expired are
    /// forgotten, as at any start.
    pub fn replay(&mut self, key: Key, written: Written)
        requires room { 1 ≤ self.old.room }
        ensures { self.new ≡ record (replayed self.old key written) { room = self.new.room } }
    {
        self.waiting.clear();
        self.expired.clear();
        self.written.renew(key, written);
    }

    /// Remembers that the spend of this free key waits, with its ticket and its amount.
    pub fn wait(&mut self, key: Key, ticket: u64, amount: u64)
        requires room { 1 ≤ self.old.room }
        requires free { outcome_of self.old key ≡ None }
        ensures { self.new ≡ record self.old {
          waiting = self.old.waiting ++ record { key = key; ticket = ticket; amount = amount } ∷ [];
          room = self.new.room;
        } }
    {
        self.waiting
            .push(Waiting {
                key,
                ticket,
                amount,
            })
            .unwrap();
    }

    /// The waiting spend with this ticket was served by the entry of this number, with so many rights: if it has a key, that
    /// key wrote the entry. It asks for no memory.
    pub fn serve(&mut self, ticket: u64, number: u64, amount: u64)
        ensures { Serves self.old ticket number amount self.new }
    {
        let Some(index) = index_of(&self.waiting, ticket) else {
            return;
        };
        let spend = self.waiting.remove(index);
        let written = Written {
            number,
            effect: Effect::Spend(amount),
            ticket: spend.ticket,
        };
        self.written.put(spend.key, written);
    }

    /// The waiting spend with this ticket expired, or was cancelled: its key, if it has one, is remembered so. It asks
    /// for no memory.
    pub fn expire(&mut self, ticket: u64)
        ensures { Expires self.old ticket self.new }
    {
        if let Some(index) = index_of(&self.waiting, ticket) {
            self.expire_at(index);
        }
    }

    // The waiting spend at this place expired.
    fn expire_at(&mut self, index: usize)
        requires { index < length self.old.waiting }
        ensures { ExpiresAt self.old index self.new }
    {
        let spend = self.waiting.remove(index);
        let ended = Ended {
            ticket: spend.ticket,
            amount: spend.amount,
        };
        self.expired.put(spend.key, ended);
    }

    /// The spends that wait under keys but are not among these requests expired, or were cancelled: their keys are
    /// remembered so. It asks for no memory.
    pub fn settle(&mut self, requests: &[Request])
        ensures settles { Settles requests.now self.old self.new }
        ensures fewer { length self.new.waiting ≤ length self.old.waiting }
    {
        'spends: while let Some(index) = index_of_gone(&self.waiting, requests) {
            self.expire_at(index);
        }
    }
}

// The place of the first of these spends that is not among the requests.
fn index_of_gone(waiting: &[Waiting], requests: &[Request]) -> Option<usize>
    ensures { result ≡ position (λ (w : Waiting). not (has_ticket w.ticket requests.now)) waiting.now }
{
    waiting
        .iter()
        .position(|spend| !has_ticket(requests, spend.ticket))
}

fn has_ticket(requests: &[Request], ticket: u64) -> bool
    ensures { result ≡ has_ticket ticket requests.now }
{
    requests.iter().any(|request| request.ticket == ticket)
}

fn spend_of_key(waiting: &[Waiting], key: &Key) -> Option<Waiting>
    ensures { result ≡ find (λ (w : Waiting). bytes_eq key.now w.key) waiting.now }
{
    waiting.iter().find(|spend| *key == spend.key).copied()
}

fn spend_of_ticket(waiting: &[Waiting], ticket: u64) -> Option<Waiting>
    ensures { result ≡ find (λ (w : Waiting). w.ticket == ticket) waiting.now }
{
    waiting.iter().find(|spend| spend.ticket == ticket).copied()
}

fn index_of(waiting: &[Waiting], ticket: u64) -> Option<usize>
    ensures { result ≡ position (λ (w : Waiting). w.ticket == ticket) waiting.now }
{
    waiting.iter().position(|spend| spend.ticket == ticket)
}
