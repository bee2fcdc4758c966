//! A line that is part of a desk's reply.
ghost use Rattle.std.specs.Prelude.{◌≡◌};

use std::alloc::{Allocator, Global};
use std::marker::Model;

/// The bytes of a line, with its line feed.
#[derive(Drop)]
pub struct Line<A: Allocator = Global> {
    bytes: Vec<u8, A>,
}

impl<A: Allocator> Model for Line<A> {
    ghost use Rattle.std.specs.Prelude.{ℕ, List};

    ghost Value = { List ℕ };

    ghost view = { λ l. l.bytes.items };
}

impl<A: Allocator> Line<A> {
    /// The line of these bytes, which end in its line feed.
    pub fn new(bytes: Vec<u8, A>) -> Line<A>
        ensures { result ≡ bytes.items }
    {
        Line { bytes }
    }

    /// The bytes, borrowed.
    pub fn bytes(&self) -> &[u8]
        ensures { result.now ≡ self.now }
    {
        &self.bytes
    }

    /// The bytes.
    pub fn into_bytes(self) -> Vec<u8, A>
        ensures { result.items ≡ self }
    {
        self.bytes
    }
}
