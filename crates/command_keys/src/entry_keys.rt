//! The keys whose commands wrote entries.
ghost use Rattle.std.specs.Prelude.{◌≡◌, ◌≢◌, ◌+◌, ◌<◌, ◌≤◌, [], ◌∷◌, length, take, drop, slice_get, None, OnOk, IsOk, IsFalse, IfSome};
ghost use Rattle.std.specs.List.{All};
ghost use Rattle.std.specs.Map.{lookup};
ghost use Rattle.std.specs.Str.{bytes_eq};
ghost use Rattle.command_keys.specs.Last.{newest_of, without};
ghost use Rattle.command_keys.specs.Keys.{entry_key, key_if, AreInOrder};

use crate::key::Key;
use crate::last::LastKeys;
use crate::outcome::Written;
use rights_types::OutOfMemory;
use std::alloc::{Allocator, Global};
use std::hash::RandomState;
use std::marker::Model;

/// The last keys whose commands wrote entries. A key is found by the number of its entry, too.
#[derive(Drop)]
pub struct EntryKeys<A: Allocator = Global> {
    last: LastKeys<Written, A>,
    // Whether no number is below that of an older key. It always is so at a site, but that is nowhere required.
    in_order: bool,
}

impl<A: Allocator> Model for EntryKeys<A> {
    ghost use Rattle.std.specs.Prelude.{IsTrue};
    ghost use Rattle.command_keys.specs.Last.{LastValue};
    ghost use Rattle.command_keys.specs.Keys.{AreInOrder};
    ghost use Rattle.command_keys.specs.declared.outcome.Written.{Written};

    ghost Value = { LastValue Written };

    ghost view = { λ k. k.last };

    ghost invariant = { λ k. IsTrue k.in_order → AreInOrder k.last.entries };
}

impl<A: Allocator + Copy> EntryKeys<A> {
    /// As `LastKeys::new`.
    pub fn new(alloc: A, hasher: RandomState, cap: usize) -> EntryKeys<A>
        ensures entries { result.entries ≡ [] }
        ensures cap { result.cap ≡ cap }
    {
        EntryKeys {
            last: LastKeys::new(alloc, hasher, cap),
            in_order: true,
        }
    }
}

impl<A: Allocator> EntryKeys<A> {
    /// As `LastKeys::len`.
    pub fn len(&self) -> usize
        ensures value { result ≡ length self.now.entries }
        ensures few { result ≤ self.now.cap }
    {
        self.last.len()
    }

    /// As `LastKeys::cap`.
    pub fn cap(&self) -> usize
        ensures { result ≡ self.now.cap }
    {
        self.last.cap()
    }

    /// As `LastKeys::get`.
    pub fn get(&self, key: &Key) -> Option<Written>
        ensures { result ≡ lookup (bytes_eq key.now) self.now.entries }
    {
        self.last.get(key)
    }

    /// As `LastKeys::reserve`.
    pub fn reserve(&mut self, additional: usize) -> Result<(), OutOfMemory>
        ensures same { self.new ≡ record self.old { spare = self.new.spare } }
        ensures ok { OnOk result (additional ≤ self.new.spare) }
        ensures more { self.old.spare ≤ self.new.spare }
        ensures succeeds { additional ≤ self.old.spare → IsOk result }
    {
        self.last.reserve(additional)
    }

    /// As `LastKeys::put`.
    pub fn put(&mut self, key: Key, value: Written)
        requires room { 0 < self.old.spare }
        requires absent { lookup (bytes_eq key) self.old.entries ≡ None }
        ensures entries { self.new.entries ≡ newest_of self.old.cap ((key, value) ∷ self.old.entries) }
        ensures cap { self.new.cap ≡ self.old.cap }
        ensures spare { self.old.spare ≤ self.new.spare + 1 }
    {
        if self.is_below_newest(value.number) {
            self.in_order = false;
        }
        self.last.put(key, value);
    }

    /// As `LastKeys::renew`.
    pub fn renew(&mut self, key: Key, value: Written)
        requires room { 0 < self.old.spare }
        ensures entries { self.new.entries ≡ newest_of self.old.cap ((key, value) ∷ without key self.old.entries) }
        ensures cap { self.new.cap ≡ self.old.cap }
        ensures spare { self.old.spare ≤ self.new.spare + 1 }
    {
        if self.is_below_newest(value.number) {
            self.in_order = false;
        }
        self.last.renew(key, value);
    }

    // Whether the newest key has an entry behind this number.
    fn is_below_newest(&self, number: u64) -> bool
        ensures { IsFalse result → IfSome (slice_get self.now.entries 0) (λ e. e.1.number ≤ number) }
    {
        match self.last.nth(0) {
            Some((_, newest)) => number < newest.number,
            None => false,
        }
    }

    /// The key whose command wrote the entry of this number. It takes logarithmic time if the numbers came in their
    /// order.
    pub fn entry_key(&self, number: u64) -> Option<Key>
        ensures { result ≡ entry_key number self.now.entries }
    {
        if self.in_order {
            self.key_in_order(number)
        } else {
            self.key_anywhere(number)
        }
    }

    fn key_in_order(&self, number: u64) -> Option<Key>
        requires { AreInOrder self.now.entries }
        ensures { result ≡ entry_key number self.now.entries }
    {
        self.key_at(self.count_behind(number), number)
    }

    // The key at a place, if its command wrote the entry of this number.
    fn key_at(&self, place: usize, number: u64) -> Option<Key>
        ensures { result ≡ key_if number (slice_get self.now.entries place) }
    {
        let (key, written) = self.last.nth(place)?;
        if written.number == number {
            Some(*key)
        } else {
            None
        }
    }

    // How many keys, of the newest, have entries behind this number.
    fn count_behind(&self, number: u64) -> usize
        requires { AreInOrder self.now.entries }
        ensures behind { All (λ e. number < e.1.number) (take result self.now.entries) }
        ensures others { All (λ e. e.1.number ≤ number) (drop result self.now.entries) }
    {
        let mut low = 0;
        let mut high = self.last.len();
        'halves: while low < high {
            let middle = low + (high - low) / 2;
            match self.last.nth(middle) {
                Some((_, written)) => {
                    if written.number > number {
                        low = middle + 1;
                    } else {
                        high = middle;
                    }
                }
                None => unreachable!(),
            }
        }
        low
    }

    fn key_anywhere(&self, number: u64) -> Option<Key>
        ensures { result ≡ entry_key number self.now.entries }
    {
        for place in 0..self.last.len() {
            if let Some(key) = self.key_at(place, number) {
                return Some(key);
            }
        }
        None
    }
}
