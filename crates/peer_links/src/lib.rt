//! One connection with a peer, over any reader and writer: its first line, the incoming lines, and the outgoing lines,
//! from the outbox in which they wait.
#![tactic(auto)]

mod lines;
mod link;
mod outbox;
mod source;

pub use lines::{Piece, next_piece};
pub use link::{LinkFault, Port, Skipped, read_hello, read_link, write_link};
pub use link_intake::DeskMessage;
pub use outbox::{OUTBOX_LINES, Outbox, OutboxLines, PutError};
pub use source::{Batch, LineSource};
