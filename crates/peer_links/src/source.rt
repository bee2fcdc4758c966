//! Where the lines that are to be written to a peer come from.
ghost use Rattle.std.specs.Prelude.{◌≡◌, ℕ, ◌≤◌, List, length, take};
ghost use Rattle.peer_links.specs.Sources.{GivesBatch};
ghost use Rattle.peer_links.specs.Turns.{InTurn};

use std::alloc::Allocator;
use std::sync::Wait;

/// The next batch to write.
#[derive(Drop)]
pub enum Batch<A: Allocator> {
    /// Nothing: no line waits, and none will.
    Over,
    /// This number of bytes: lines that were copied to the start of the buffer. They still wait.
    Copied(usize),
    /// The oldest line, which is larger than the buffer. It was taken.
    Large(Vec<u8, A>),
}

/// A queue of lines, the oldest first. One thread takes them.
pub trait LineSource {
    /// The allocator of the lines.
    type Memory: Allocator;

    // These lines wait, and are the oldest.
    ghost waits: { Self → List (List ℕ) → Type 0 };

    // Taking this line, the oldest, leads from the first state to the second.
    ghost takes: { Self → List ℕ → Self → Type 0 };

    // No line waits.
    ghost is_over: { Self → Type 0 };

    /// The next batch to write: as many lines as fit. It may block until there is a line.
    fn next_batch<R: Wait>(&mut self, rt: &R, room: &mut [u8]) -> Batch<Self::Memory>
        ensures same { length room.new ≡ length room.old }
        ensures batch { GivesBatch waits takes is_over self.old result room.new self.new };

    /// Takes this number of the oldest lines.
    fn take_front<R: Wait>(&mut self, rt: &R, count: usize)
        ensures { (lines : List (List ℕ)) → waits self.old lines → count ≤ length lines
            → InTurn takes self.old (take count lines) self.new };
}
