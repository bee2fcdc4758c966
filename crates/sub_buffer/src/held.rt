//! The entries that a buffer holds, in the order of their previous numbers.
ghost use Rattle.std.specs.Prelude.{◌≡◌, ◌<◌, ◌≤◌, MatchOption, length};
ghost use Rattle.std.specs.VecDeque.{deque_capacity};
ghost use Rattle.sub_buffer.specs.Buffers.{HasPrev, InOrder, onward};
ghost use Rattle.sub_buffer.specs.Places.{IsPlace};

use rights_types::Entry;
use std::alloc::Allocator;
use std::collections::VecDeque;

/// The position of an entry after the number `prev` among the held ones, or `None` if one that begins there is already
/// held.
pub(crate) fn place_for<A: Allocator>(held: &VecDeque<Entry<A>, A>, prev: u64) -> Option<usize>
    requires { InOrder held.now.items }
    ensures { MatchOption result (HasPrev prev held.now.items) (IsPlace prev held.now.items) }
{
    let mut low = 0;
    let mut high = held.len();
    while low < high {
        let middle = low + (high - low) / 2;
        if held[middle].prev() < prev {
            low = middle + 1;
        } else {
            high = middle;
        }
    }
    let Some(next) = held.get(low) else {
        return Some(low);
    };
    if next.prev() == prev { None } else { Some(low) }
}

/// Drops the entries that begin before the number.
pub(crate) fn drop_before<A: Allocator>(held: &mut VecDeque<Entry<A>, A>, number: u64)
    requires { InOrder held.old.items }
    ensures items { held.new.items ≡ onward number held.old.items }
    ensures capacity { deque_capacity held.new ≡ deque_capacity held.old }
{
    while let Some(first) = held.front() {
        if first.prev() >= number {
            break;
        }
        held.pop_front();
    }
}
