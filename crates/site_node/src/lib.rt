//! Every decision of a running site: the effect of a command at its desk and the reply, the effect of a tick and what
//! it sends to each peer, and the answer to a peer's message. There is no thread, socket, clock or lock here: the
//! holder of the shared desk's lock lends the value under it, a `Kept`, and a seat.
//!
//! **A client is told exactly what the desk did for it.** Each function has one relation in `specs/` for all its
//! possible effects: the reply matches what happened at the desk, or nothing happened. What a client was told as
//! issued and as spent equals, to the last right, what its seat counts (`laws::confirmed_is_counted`).
#![tactic(auto)]

mod answer;
mod clock;
mod commands;
mod keyed;
pub mod laws;
mod log_texts;
mod messages;
mod peer_sums;
mod peers;
mod queue;
mod reply;
mod sending;
mod silence;
mod texts;
mod tick;

pub use answer::{answer_reply, answer_tick};
pub use clock::{SiteTime, site_time};
pub use commands::act;
pub use keyed::act_keyed;
pub use log_texts::{MAX_LISTED, answer_log};
pub use messages::{answer_ask, answer_query, note_denial};
pub use peer_sums::answer_peers;
pub use peers::{Peers, send_to_all};
pub use queue::answer_queue;
pub use reply::Reply;
pub use sending::{Sink, send_due};
pub use silence::{is_silent, note_silent};
pub use texts::TICK_ROOM;
pub use tick::{Ticked, serve_due, serve_due_beside};
