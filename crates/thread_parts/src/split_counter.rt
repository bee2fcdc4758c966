//! A number that several threads add to under a lock, each with a shard that says how much it added.
ghost use Rattle.std.specs.Prelude.{◌≡◌, ◌+◌, ◌<◌, ◌≤◌, ◌^◌, IfSome, IfNone};

use std::marker::Model;
use std::sync::ledger::{Blank, Book, Ledger, Share};

/// The sum, kept under the lock, with the parts of its ledger that were not given out or were returned. The sum is
/// always that of all shards, wherever they are.
#[derive(Drop)]
pub struct SplitCounter<L: Ledger> {
    sum: u64,
    left: u64,
    book: Book<L>,
    rest: Share<L>,
}

impl<L: Ledger> Model for SplitCounter<L> {
    ghost use Rattle.std.specs.Prelude.{◌≡◌, ◌+◌};
    ghost use Rattle.thread_parts.specs.SplitCounters.{SplitCounterValue};

    ghost Value = { SplitCounterValue };

    ghost view = { λ t. record { sum = t.sum; left = t.left; returned = t.rest.amount } };

    ghost invariant = { λ t. (t.book.total ≡ t.sum) × (t.rest.parts ≡ t.left + 1) };
}

/// What one thread added to the sum of its counter.
#[derive(Drop)]
pub struct Shard<L: Ledger> {
    added: u64,
    share: Share<L>,
}

impl<L: Ledger> Model for Shard<L> {
    ghost use Rattle.std.specs.Prelude.{◌≡◌, ℕ};

    ghost Value = { ℕ };

    ghost view = { λ p. p.added };

    ghost invariant = { λ p. (p.share.parts ≡ 1) × (p.share.amount ≡ p.added) };
}

impl<L: Ledger> SplitCounter<L> {
    /// A sum of 0 with this number of shards to give out. The blank is what the ledger's name
    /// is written on.
    pub fn open(blank: Blank, shards: u64) -> SplitCounter<L>
        requires name { blank.name ≡ L.name }
        requires parts { (blank.parts ≡ L.parts) × (L.parts ≡ shards + 1) }
        ensures { result ≡ record { sum = 0; left = shards; returned = 0 } }
    {
        let (book, rest) = blank.open::<L>();
        SplitCounter {
            sum: 0,
            left: shards,
            book,
            rest,
        }
    }

    /// The sum of all that was added.
    pub fn sum(&self) -> u64
        ensures { result ≡ self.now.sum }
    {
        self.sum
    }

    /// How many shards the counter has: not given out yet, or returned.
    pub fn left(&self) -> u64
        ensures { result ≡ self.now.left }
    {
        self.left
    }

    /// A new shard, which has added 0. `None` if the counter has no shard left.
    pub fn split(&mut self) -> Option<Shard<L>>
        ensures some { IfSome result (λ p. (p ≡ 0)
            × (self.new ≡ record { sum = self.old.sum; left = self.new.left; returned = self.old.returned })
            × (self.new.left + 1 ≡ self.old.left)) }
        ensures none { IfNone result ((self.old.left ≡ 0) × (self.new ≡ self.old)) }
    {
        if self.left == 0 {
            return None;
        }
        self.left -= 1;
        let share = self.rest.split_off(1, 0);
        Some(Shard { added: 0, share })
    }

    /// Adds to the sum, and to what the shard added.
    pub fn add(&mut self, shard: &mut Shard<L>, amount: u64)
        requires { self.old.sum + amount < 2 ^ 64 }
        ensures sum { self.new ≡ record {
          sum = self.old.sum + amount;
          left = self.old.left;
          returned = self.old.returned;
        } }
        ensures added { shard.new ≡ shard.old + amount }
        ensures within { shard.new ≤ self.new.sum }
    {
        self.book.audit(&mut shard.share);
        self.book.add(&mut shard.share, amount);
        self.sum += amount;
        shard.added += amount;
    }

    /// Takes a shard back, and returns what it added.
    pub fn collect(&mut self, shard: Shard<L>) -> u64
        requires { self.old.left + 1 < 2 ^ 64 }
        ensures added { result ≡ shard }
        ensures sum { self.new ≡ record {
          sum = self.old.sum;
          left = self.old.left + 1;
          returned = self.old.returned + shard;
        } }
        ensures within { self.new.returned ≤ self.new.sum }
    {
        let Shard { added, share } = shard;
        self.rest.merge(share);
        self.book.audit(&mut self.rest);
        self.left += 1;
        added
    }

    /// If all shards are back, the sum is what they added. The call changes nothing.
    pub fn reconcile(&mut self)
        requires { self.old.left + 1 ≡ L.parts }
        ensures same { self.new ≡ self.old }
        ensures whole { self.new.returned ≡ self.new.sum }
    {
        let SplitCounter { book, rest, .. } = self;
        book.audit(rest);
    }
}

impl<L: Ledger> Shard<L> {
    /// What this shard has added to the sum.
    pub fn added(&self) -> u64
        ensures { result ≡ self.now }
    {
        self.added
    }
}
