//! Sites, amounts, moves, entries and messages, each within its limits, and the definitions that all crates share:
//! chain, log end, prefix, sums, rights held and in transit.
#![tactic(auto)]

mod amount;
mod answer;
mod ask;
mod beat;
mod deny;
mod entry;
mod fault;
mod frontier;
mod limits;
mod message;
mod moves;
mod query;
mod site;

pub use amount::{Amount, AskNumber, Total};
pub use answer::Answer;
pub use ask::Ask;
pub use beat::Beat;
pub use deny::Deny;
pub use entry::Entry;
pub use fault::{OutOfMemory, TypeError};
pub use frontier::Frontier;
pub use limits::{
    LAST_APPEND, MAX_AMOUNT, MAX_ANSWER, MAX_ASK, MAX_HELD, MAX_HELD_RIGHTS, MAX_LINE, MAX_MOVES,
    MAX_NUMBER, MAX_RECEIVED, MAX_SITES, MAX_TOTAL, MIN_SITES,
};
pub use message::Message;
pub use moves::Move;
pub use query::Query;
pub use site::SiteId;
