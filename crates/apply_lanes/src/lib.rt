//! One site shared by threads. An `Intake` takes in what another site sends, a lane passes the entries on in order, and
//! an `Applier` applies them under the lock of a `SharedDesk`, where seats spend. Re-exports intakes from link_intake,
//! and lanes, counters and views from thread_parts.
#![tactic(auto)]

mod applier;
mod gate;
mod kept;
pub mod laws;
mod names;
mod recorder;
mod records;
mod seat;
mod shared_desk;
mod stopping;

pub use applier::{Applied, Applier, MAX_BATCH, StepError, pause};
pub use gate::{Free, Gate};
pub use kept::{AdmitCause, AdmitError, Kept};
pub use link_intake::{Arrived, DeskMessage, Intake, IntakeError, VerdictCounts};
pub use names::{APPLIERS, Blanks, DeskNames, IssuedBy, NumberOf, ReceivedBy, SEATS, SpentBy};
pub use recorder::RecordLost;
pub use seat::{Seat, SeatsFull};
pub use shared_desk::SharedDesk;
pub use stopping::{Parts, Report, StopError, stop};
pub use thread_parts::{
    DeskView, Inlet, Item, LaneClosed, MAX_LANE, Outlet, Shard, SplitCounter, lane,
};
