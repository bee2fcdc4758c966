//! What the threads of a site share besides its desk: a lane, over which the entries of one log go in order; a counter,
//! a sum that each of them adds to; and a view, a snapshot of a desk.
#![tactic(auto)]

mod bells;
mod ends;
mod item;
mod laws;
mod rule;
mod split_counter;
mod view;

pub use ends::{Inlet, LaneClosed, MAX_LANE, Outlet, lane};
pub use item::Item;
pub use laws::ends_taken_in;
pub use split_counter::{Shard, SplitCounter};
pub use view::DeskView;
