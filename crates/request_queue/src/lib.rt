//! The request queue of a site: spends that lack rights wait here, each with a ticket and a deadline, and are served
//! only from the front.
#![tactic(auto)]

mod fault;
mod queue;
mod request;

pub use fault::QueueError;
pub use queue::{LAST_TICKET, RequestQueue, SLOTS};
pub use request::{Request, Status};
