//! All sites, and the events among them: whatever happens, in whatever order, the headline holds. No site spends or
//! gives rights that it does not hold, no more rights are spent than were issued, and each site applies of every other
//! site's log a prefix of it that has reached the site, each entry once and in order. Packets may arrive late, often or
//! never, noise may arrive, sites may close, and memory may run out. `World::run` is the program, and `every_run` the
//! same law with no program in it.
#![tactic(auto)]

mod event;
mod fault;
mod keeping;
mod laws;
mod link;
mod links;
mod packets;
mod reply;
mod system;
mod world;

pub use event::{Event, Moves};
pub use fault::WorldError;
pub use keeping::{ForReaders, ForReplies, Keeping};
pub use laws::{
    applied_for_good, closed_for_good, every_run, every_run_operates, every_run_refines,
    later_refines,
};
pub use reply::{EntryVerdict, EntryVerdicts, Reply};
pub use world::{Totals, World};
