//! The keys that were put last, each with a value.
ghost use Rattle.std.specs.Prelude.{◌≡◌, ◌+◌, ◌<◌, ◌≤◌, [], ◌∷◌, length, None, OnOk, OnErr, IsOk, slice_get};
ghost use Rattle.std.specs.Option.{option_map};
ghost use Rattle.std.specs.Map.{lookup};
ghost use Rattle.std.specs.Str.{bytes_eq};
ghost use Rattle.std.specs.Prelude.{remove, slice_get, IfSome};
ghost use Rattle.indexmap.specs.IndexMap.{spare};
ghost use Rattle.command_keys.specs.Last.{newest_of, newest_first, place_left, without};

use crate::key::Key;
use indexmap::IndexMap;
use rights_types::OutOfMemory;
use std::alloc::{Allocator, Global};
use std::hash::RandomState;
use std::marker::Model;

/// The keys that were put last, each with a value, at most `cap` of them: the oldest is forgotten first. No key occurs
/// twice.
// A ring over a map's columns: when it is full, a new key takes the place of the oldest.
#[derive(Drop)]
pub struct LastKeys<V, A: Allocator = Global> {
    map: IndexMap<Key, V, RandomState, A>,
    oldest: usize,
    cap: usize,
}

impl<V, A: Allocator> Model for LastKeys<V, A> {
    ghost use Rattle.indexmap.specs.IndexMap.{spare};
    ghost use Rattle.command_keys.specs.Last.{LastValue, IsRing, newest_first};

    ghost Value = { LastValue V };

    ghost view = { λ l. record {
      entries = newest_first l.map.entries l.oldest;
      cap = l.cap;
      spare = spare l.map;
    } };

    ghost invariant = { λ l. IsRing l.map.entries l.oldest l.cap };
}

impl<V, A: Allocator + Copy> LastKeys<V, A> {
    /// No key yet. It asks for no memory.
    pub fn new(alloc: A, hasher: RandomState, cap: usize) -> LastKeys<V, A>
        ensures entries { result.entries ≡ [] }
        ensures cap { result.cap ≡ cap }
    {
        LastKeys {
            map: IndexMap::with_hasher(alloc, hasher),
            oldest: 0,
            cap,
        }
    }
}

impl<V: Copy, A: Allocator> LastKeys<V, A> {
    /// How many keys there are, at most the cap.
    pub fn len(&self) -> usize
        ensures value { result ≡ length self.now.entries }
        ensures few { result ≤ self.now.cap }
    {
        self.map.len()
    }

    /// The greatest number of keys.
    pub fn cap(&self) -> usize
        ensures { result ≡ self.now.cap }
    {
        self.cap
    }

    /// The value of a key.
    pub fn get(&self, key: &Key) -> Option<V>
        ensures { result ≡ lookup (bytes_eq key.now) self.now.entries }
    {
        // The length is what says that no key occurs twice.
        let _len = self.map.len();
        self.map.get(key).copied()
    }

    /// The key at a place, from 0, and its value. The newest comes first.
    pub fn nth(&self, place: usize) -> Option<(&Key, &V)>
        ensures { option_map (λ e. (e.0.now, e.1.now)) result ≡ slice_get self.now.entries place }
    {
        let len = self.map.len();
        if place >= len {
            return None;
        }
        let back = place + 1;
        if back <= self.oldest {
            self.map.get_index(self.oldest - back)
        } else {
            self.map.get_index(len - back + self.oldest)
        }
    }

    /// Makes room for so many more keys, so that as many calls of `put` need no memory. `OutOfMemory` if it is refused.
    pub fn reserve(&mut self, additional: usize) -> Result<(), OutOfMemory>
        ensures same { self.new ≡ record self.old { spare = self.new.spare } }
        ensures ok { OnOk result (additional ≤ self.new.spare) }
        ensures more { self.old.spare ≤ self.new.spare }
        ensures succeeds { additional ≤ self.old.spare → IsOk result }
    {
        self.map.reserve(additional)?;
        Ok(())
    }

    /// Puts a key that is not there. If there are more than the cap then, the oldest is forgotten.
    pub fn put(&mut self, key: Key, value: V)
        requires room { 0 < self.old.spare }
        requires absent { lookup (bytes_eq key) self.old.entries ≡ None }
        ensures entries { self.new.entries ≡ newest_of self.old.cap ((key, value) ∷ self.old.entries) }
        ensures cap { self.new.cap ≡ self.old.cap }
        ensures spare { self.old.spare ≤ self.new.spare + 1 }
    {
        if self.cap == 0 {
            return;
        }
        let _new = self.map.insert(key, value).unwrap();
        if self.map.len() > self.cap {
            let oldest = self.oldest;
            let _forgotten = self.map.swap_remove_index(oldest);
            self.oldest = if oldest + 1 < self.cap { oldest + 1 } else { 0 };
        }
    }

    /// Puts a key as the newest. If it is there already, it gets this value, and the others keep their order. If there are
    /// more than the cap then, the oldest is forgotten.
    pub fn renew(&mut self, key: Key, value: V)
        requires room { 0 < self.old.spare }
        ensures entries { self.new.entries ≡ newest_of self.old.cap ((key, value) ∷ without key self.old.entries) }
        ensures cap { self.new.cap ≡ self.old.cap }
        ensures spare { self.old.spare ≤ self.new.spare + 1 }
    {
        let Some(index) = self.map.get_index_of(&key) else {
            self.put(key, value);
            return;
        };
        let _old = self.map.insert(key, value).unwrap();
        self.oldest = make_newest(&mut self.map, self.oldest, index);
    }

    /// Forgets all keys. It gives no memory back.
    pub fn clear(&mut self)
        ensures { self.new ≡ record self.old { entries = []; spare = self.new.spare } }
    {
        self.map.clear();
        self.oldest = 0;
    }
}

// The entry at this index becomes the newest of a ring whose oldest entry has this place, and the others keep their order.
// The place of the oldest is returned. It takes time by how many entries it moves.
fn make_newest<V, A: Allocator>(
    map: &mut IndexMap<Key, V, RandomState, A>,
    oldest: usize,
    index: usize,
) -> usize
    requires index { index < length map.old.entries }
    requires oldest { oldest < length map.old.entries }
    ensures order { IfSome (slice_get map.old.entries index)
        (λ e. newest_first map.new.entries result ≡ e ∷ newest_first (remove map.old.entries index) (place_left oldest index)) }
    ensures many { length map.new.entries ≡ length map.old.entries }
    ensures within { result < length map.old.entries }
    ensures first { oldest ≡ 0 → result ≡ 0 }
    ensures spare { spare map.new ≡ spare map.old }
{
    let last = map.len() - 1;
    if oldest == 0 {
        map.move_index(index, last);
        return 0;
    }
    if index < oldest {
        map.move_index(index, oldest - 1);
        return oldest;
    }
    map.move_index(index, oldest);
    if oldest < last { oldest + 1 } else { 0 }
}
