//! Scripts: the event that each line causes among all sites, and its reply. `run_script` answers each line of its
//! input, in order, with the reply that `specs/Script` defines, until the input ends or a stream fails. Re-exports the
//! world from world_core.
#![tactic(auto)]

mod script;

pub use script::{ScriptFault, run_last_script, run_script};
pub use world_core::{
    EntryVerdict, EntryVerdicts, Event, ForReaders, ForReplies, Keeping, Moves, Reply, Totals,
    World, WorldError, every_run,
};
