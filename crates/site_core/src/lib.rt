//! The core of one site. `Desk` is its log, its book of rights, its waiting spends and its asks: every decision on
//! rights is one call of it. No call blocks.
#![tactic(auto)]

mod desk;
mod fault;
pub mod laws;
mod ledger;
mod line;
mod owed;
pub mod restarts;

pub use desk::{AskReply, Desk, Spending};
pub use fault::{DeskError, ReplayError};
pub use inbound::{Arrival, Inbound, InboundError, Verdicts};
pub use line::Line;
