//! Turns at a site's desk that threads share. A thread takes a turn for each thing that it does there, under one hold of
//! the lock, and what the desk was before and after each of its turns stands in a list for proofs. Whoever has the desk
//! in this form only cannot take its lock in another way, except to read.
#![tactic(auto)]

mod laws;
mod seats;
mod turns;
mod work;

pub use laws::{appliers_take_key_turns, handed_reads_back, work_is_key_turn};
pub use seats::{Seated, Seats};
pub use turns::{Look, TurnDesk, Turns};
pub use work::{
    Act, ActKeyed, ApplyReady, HandOver, HandedOver, KeepJournal, ReplayApplied, ReplayAsk,
    ReplayKey, ReplayOwn, SkipTickets, SkipUnpublished, Tick, TickBeside, Work,
};
