//! The input from one other site. `Inbound` reads the lines of its messages, and has the buffer that delivers its entries
//! in order. It knows nothing of the desk, and never blocks.
#![tactic(auto)]

mod fault;
mod inbound;

pub use fault::InboundError;
pub use inbound::{Arrival, Inbound, Verdicts};
