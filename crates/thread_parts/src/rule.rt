//! The rule of a lane, which its ring of slots has.

use crate::item::Item;
use rtrb::{Consumer, Producer, Protocol};
use std::alloc::Allocator;

// An item may be put only where it continues the chain of those before it, so each that is taken does.
pub(crate) struct InOrder;

impl<A: Allocator> Protocol<Item<A>> for InOrder {
    ghost use Rattle.std.specs.Prelude.{[], ◌∷◌, ◌++◌};
    ghost use Rattle.thread_parts.specs.Items.{IsItemChain};

    ghost allows = { λ before item. IsItemChain (before ++ item ∷ []) };
}

pub(crate) type LaneProducer<A> = Producer<Item<A>, A, InOrder>;

pub(crate) type LaneConsumer<A> = Consumer<Item<A>, A, InOrder>;
