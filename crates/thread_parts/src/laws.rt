//! What the two ends of one lane say about each other.
ghost use Rattle.std.specs.Prelude.{◌≡◌};
ghost use Rattle.thread_parts.specs.Items.{StartsWith, IsEnded};

use crate::ends::{Inlet, Outlet};
use std::alloc::Allocator;

/// Given the two ends of one lane, what was taken is a prefix of what was put, and all of it where End
/// was taken. The outlet is returned unchanged. (The law joins what both ends know, which changes no item.)
pub fn ends_taken_in<A: Allocator>(inlet: Inlet<A>, mut outlet: Outlet<A>) -> Outlet<A>
    requires { outlet.lane ≡ inlet.lane }
    ensures same { result ≡ outlet }
    ensures prefix { StartsWith inlet.put outlet.taken }
    ensures whole { IsEnded outlet.taken → outlet.taken ≡ inlet.put }
{
    let Inlet {
        mut producer,
        dead: _,
        pull: _pull,
    } = inlet;
    outlet.consumer.slots_beside(&mut producer);
    outlet
}
