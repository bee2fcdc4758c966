//! The keys of commands at a site that may keep a journal.
ghost use Rattle.std.specs.Prelude.{◌≡◌, ◌≤◌, ◌++◌, [], ◌∷◌, false, true, None, OnOk, OnErr};
ghost use Rattle.command_keys.specs.Keys.{outcome_of, remembered, replayed, Settles};
ghost use Rattle.command_keys.specs.Books.{HasRoom, ServesKey, with_record};

use crate::key::Key;
use crate::keys::Keys;
use crate::outcome::Written;
use request_queue::Request;
use rights_types::OutOfMemory;
use std::alloc::{Allocator, Global};
use std::marker::Model;

/// The keys of commands; and, with a journal, those that wrote entries and are not in it yet, in order, each with the
/// number of its entry.
#[derive(Drop)]
pub struct KeyBook<A: Allocator = Global> {
    keys: Keys<A>,
    is_recorded: bool,
    unrecorded: Vec<(Key, u64), A>,
}

impl<A: Allocator> Model for KeyBook<A> {
    ghost use Rattle.std.specs.Prelude.{◌-◌, ◌+◌, ◌≤◌, length};
    ghost use Rattle.std.specs.Vec.{vec_capacity};
    ghost use Rattle.command_keys.specs.Books.{KeyBookValue};

    ghost Value = { KeyBookValue };

    ghost view = { λ b. record {
      keys = b.keys;
      is_recorded = b.is_recorded;
      unrecorded = b.unrecorded.items;
      room = vec_capacity b.unrecorded - (length b.unrecorded.items + length b.keys.waiting);
    } };

    // Each spend that waits has room to be recorded.
    ghost invariant = { λ b. length b.unrecorded.items + length b.keys.waiting ≤ vec_capacity b.unrecorded };
}

impl<A: Allocator + Copy> KeyBook<A> {
    /// These keys, of which none waits, at a site without a journal. It asks for no memory.
    pub fn new(alloc: A, keys: Keys<A>) -> KeyBook<A>
        requires { keys.waiting ≡ [] }
        ensures keys { result.keys ≡ keys }
        ensures recorded { result.is_recorded ≡ false }
        ensures none { result.unrecorded ≡ [] }
    {
        KeyBook {
            keys,
            is_recorded: false,
            unrecorded: Vec::new(alloc),
        }
    }
}

impl<A: Allocator> KeyBook<A> {
    /// The keys.
    pub fn keys(&self) -> &Keys<A>
        ensures { result.now ≡ self.now.keys }
    {
        &self.keys
    }

    /// Those that are not in the journal yet.
    pub fn unrecorded(&self) -> &[(Key, u64)]
        ensures { result.now ≡ self.now.unrecorded }
    {
        &self.unrecorded
    }

    /// Keeps a journal from now on, which has all keys so far.
    pub fn keep_journal(&mut self)
        ensures { self.new ≡ record self.old { is_recorded = true; unrecorded = []; room = self.new.room } }
    {
        self.is_recorded = true;
        self.unrecorded.clear();
    }

    /// All keys are in the journal now.
    pub fn clear_unrecorded(&mut self)
        ensures { self.new ≡ record self.old { unrecorded = []; room = self.new.room } }
    {
        self.unrecorded.clear();
    }

    /// Makes room for one more key, as `Keys::reserve`, and for its record.
    pub fn reserve(&mut self) -> Result<(), OutOfMemory>
        ensures same { self.new ≡ record self.old { keys = record self.old.keys { room = self.new.keys.room }; room = self.new.room } }
        ensures ok { OnOk result (HasRoom self.new) }
    {
        self.keys.reserve()?;
        self.unrecorded.reserve(self.keys.waiting().len() + 1)?;
        Ok(())
    }

    /// Remembers that the command of this free key wrote this entry, as `Keys::remember`.
    pub fn remember(&mut self, key: Key, written: Written)
        requires room { HasRoom self.old }
        requires free { outcome_of self.old.keys key ≡ None }
        ensures { self.new ≡ record self.old {
          keys = record (remembered self.old.keys key written) { room = self.new.keys.room };
          unrecorded = with_record self.old key written.number;
          room = self.new.room;
        } }
    {
        let number = written.number;
        self.keys.remember(key, written);
        self.record(key, number);
    }

    /// Remembers that the command of this key wrote this entry before the site started, as `Keys::replay`.
    pub fn replay(&mut self, key: Key, written: Written)
        requires room { HasRoom self.old }
        ensures { self.new ≡ record self.old {
          keys = record (replayed self.old.keys key written) { room = self.new.keys.room };
          unrecorded = with_record self.old key written.number;
          room = self.new.room;
        } }
    {
        let number = written.number;
        self.keys.replay(key, written);
        self.record(key, number);
    }

    /// Remembers that the spend of this free key waits, as `Keys::wait`.
    pub fn wait(&mut self, key: Key, ticket: u64, amount: u64)
        requires room { HasRoom self.old }
        requires free { outcome_of self.old.keys key ≡ None }
        ensures { self.new ≡ record self.old {
          keys = record self.old.keys {
            waiting = self.old.keys.waiting ++ record { key = key; ticket = ticket; amount = amount } ∷ [];
            room = self.new.keys.room;
          };
          room = self.new.room;
        } }
    {
        self.keys.wait(key, ticket, amount);
    }

    /// The waiting spend with this ticket was served by the entry of this number, with so many rights, as `Keys::serve`.
    pub fn serve(&mut self, ticket: u64, number: u64, amount: u64)
        ensures { ServesKey self.old ticket number amount self.new }
    {
        if let Some(key) = self.keys.key_of(ticket) {
            self.keys.serve(ticket, number, amount);
            self.record(key, number);
        }
    }

    /// The spends that wait under keys but are not among these requests expired, as `Keys::settle`.
    pub fn settle(&mut self, requests: &[Request])
        ensures keys { Settles requests.now self.old.keys self.new.keys }
        ensures rest { self.new ≡ record self.old { keys = self.new.keys; room = self.new.room } }
    {
        self.keys.settle(requests);
    }

    // Records the key of this entry, with a journal.
    fn record(&mut self, key: Key, number: u64)
        requires { 1 ≤ self.old.room }
        ensures { self.new ≡ record self.old { unrecorded = with_record self.old key number; room = self.new.room } }
    {
        if self.is_recorded {
            self.unrecorded.push((key, number)).unwrap();
        }
    }
}
