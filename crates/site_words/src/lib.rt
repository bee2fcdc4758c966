//! The command line of a site as a process, the commands that its input lines spell, its status object, and the
//! reasons for which it stops.
#![tactic(auto)]

mod check;
mod commands;
mod config;
mod fault;
mod name;
mod status_object;
mod words;

pub use check::JournalCheck;
pub use commands::{
    BareCommand, DeskCommand, SiteCommand, SiteLine, read_command, read_keyed, read_line, with_key,
};
pub use config::{Config, MAX_KEYS, MAX_TICK, MIN_TICK, PeerAddress, USUAL_KEYS};
pub use fault::{CheckFault, SiteFault};
pub use name::{MAX_SYSTEM, is_system_name};
pub use status_object::{JournalView, PeerView, status, status_text};
pub use words::{Command, HelpText, WordsFault, read_words};
