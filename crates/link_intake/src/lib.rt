//! The input from one other site: its lines become entries on a lane, and messages for the desk.
#![tactic(auto)]

mod desk_message;
mod intake;

pub use desk_message::DeskMessage;
pub use intake::{Arrived, Intake, IntakeError, VerdictCounts};
