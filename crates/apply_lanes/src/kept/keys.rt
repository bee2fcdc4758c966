//! The keys of commands under the lock.
ghost use Rattle.std.specs.Prelude.{◌≡◌, ◌≤◌, ◌++◌, ◌∷◌, [], length, nat_lt, Option, None, IfErr, OnOk, OnErr};
ghost use Rattle.command_keys.specs.Keys.{entry_key, outcome_of, remembered, Settles};
ghost use Rattle.command_keys.specs.Books.{KeyBookValue, HasRoom, ServesKey, with_record};
ghost use Rattle.site_records.specs.KeyRecords.{RefusesKey};
ghost use Rattle.apply_lanes.specs.Kepts.{book_of};
ghost use Rattle.apply_lanes.specs.Keeping.{ReplaysKey, with_room};

use crate::kept::Kept;
use crate::names::DeskNames;
use command_keys::{Key, KeyBook, Outcome, Written};
use rights_types::OutOfMemory;
use site_records::{KeyFault, effect_at};
use std::alloc::Allocator;

/// The keys whose records are not in the journal yet.
pub(crate) fn unrecorded<A: Allocator>(keys: &Option<KeyBook<A>>) -> &[(Key, u64)]
    ensures { result.now ≡ (book_of keys.now).unrecorded }
{
    match keys {
        Some(book) => book.unrecorded(),
        None => &[],
    }
}

impl<D: DeskNames, A: Allocator + Copy> Kept<D, A> {
    /// Whether keys are taken.
    pub fn takes_keys(&self) -> bool
        ensures { result ≡ nat_lt 0 self.now.keys.keys.cap }
    {
        match &self.keys {
            Some(book) => book.keys().cap() > 0,
            None => false,
        }
    }

    /// How many keys that wrote entries are remembered.
    pub fn keys_remembered(&self) -> usize
        ensures { result ≡ length self.now.keys.keys.written }
    {
        match &self.keys {
            Some(book) => book.keys().len(),
            None => 0,
        }
    }

    /// Where the command of this key ended. `None` if the key is free.
    pub fn key_outcome(&self, key: &Key) -> Option<Outcome>
        ensures { result ≡ outcome_of self.now.keys.keys key.now }
    {
        self.keys.as_ref()?.keys().lookup(key)
    }

    /// The key whose command wrote the entry of this number. `None` if there was none, or it was forgotten.
    pub fn entry_key(&self, number: u64) -> Option<Key>
        ensures { result ≡ entry_key number self.now.keys.keys.written }
    {
        self.keys.as_ref()?.keys().entry_key(number)
    }

    /// The spends that wait under keys but not in the desk's queue expired: their keys are remembered so.
    pub fn settle_keys(&mut self)
        ensures keys { Settles self.old.desk.queue.waiting self.old.keys.keys self.new.keys.keys }
        ensures rest { self.new ≡ record self.old {
          keys = record self.old.keys { keys = self.new.keys.keys; room = self.new.keys.room };
        } }
    {
        if let Some(book) = &mut self.keys {
            book.settle(self.desk.requests());
        }
    }

    /// Makes room for one more key. `OutOfMemory` if it is refused, or no keys are taken.
    pub fn reserve_key(&mut self) -> Result<(), OutOfMemory>
        ensures same { self.new ≡ with_room self.old self.new.keys }
        ensures ok { OnOk result (HasRoom self.new.keys) }
    {
        match &mut self.keys {
            Some(book) => book.reserve(),
            None => Err(OutOfMemory),
        }
    }

    /// Remembers that the command of this free key wrote this entry, and records it.
    pub fn remember_key(&mut self, key: Key, written: Written)
        requires room { HasRoom self.old.keys }
        requires free { outcome_of self.old.keys.keys key ≡ None }
        ensures { self.new ≡ record self.old {
          keys = record self.old.keys {
            keys = record (remembered self.old.keys.keys key written) { room = self.new.keys.keys.room };
            unrecorded = with_record self.old.keys key written.number;
            room = self.new.keys.room;
          };
        } }
    {
        let Some(book) = &mut self.keys else {
            unreachable!()
        };
        book.remember(key, written);
    }

    /// Remembers that the spend of this free key waits, with its ticket and its amount in rights.
    pub fn wait_key(&mut self, key: Key, ticket: u64, amount: u64)
        requires room { HasRoom self.old.keys }
        requires free { outcome_of self.old.keys.keys key ≡ None }
        ensures { self.new ≡ record self.old {
          keys = record self.old.keys {
            keys = record self.old.keys.keys {
              waiting = self.old.keys.keys.waiting ++ record { key = key; ticket = ticket; amount = amount } ∷ [];
              room = self.new.keys.keys.room;
            };
            room = self.new.keys.room;
          };
        } }
    {
        let Some(book) = &mut self.keys else {
            unreachable!()
        };
        book.wait(key, ticket, amount);
    }

    /// The spend with this ticket was served by the entry of this number, with so many rights: if it waited under a key,
    /// that key wrote the entry, and it is recorded.
    pub fn serve_key(&mut self, ticket: u64, number: u64, amount: u64)
        ensures keys { ServesKey self.old.keys ticket number amount self.new.keys }
        ensures rest { self.new ≡ record self.old { keys = self.new.keys } }
    {
        if let Some(book) = &mut self.keys {
            book.serve(ticket, number, amount);
        }
    }

    /// Remembers the key of a record of the journal again, with the number of its entry, and with what that entry of the
    /// desk's log did. An older entry under this key is forgotten, and so are the spends that wait or expired. A site that
    /// takes no keys remembers none. Errors, in this order: `NoEntry`, `OutOfMemory`; but `OutOfMemory` comes first where
    /// memory to read the entry is refused.
    pub fn replay_key(&mut self, key: Key, number: u64) -> Result<(), KeyFault>
        ensures ok { OnOk result (ReplaysKey (nat_lt 0 self.old.keys.keys.cap) self.old key number self.new) }
        ensures refused { IfErr result
            (RefusesKey self.old.desk.ledger.log.entries number) }
        ensures err { OnErr result (self.new ≡ with_room self.old self.new.keys) }
    {
        if !self.takes_keys() {
            return Ok(());
        }
        let Some(effect) = effect_at(self.desk.log(), number)? else {
            return Err(KeyFault::NoEntry);
        };
        self.reserve_key()?;
        let Some(book) = &mut self.keys else {
            unreachable!()
        };
        book.replay(
            key,
            Written {
                number,
                effect,
                ticket: 0,
            },
        );
        Ok(())
    }
}
