//! A script of commands, run on a world, and the replies to it.

mod answers;
mod commands;
mod report;
mod session;
mod word;

pub use line_streams::ConversationError as ScriptFault;
pub use session::{run_last_script, run_script};
