//! The replies of a site to the commands that are one call of its desk.

use request_queue::Status;
use site_core::{DeskError, Spending};

/// The reply to a command.
#[derive(Clone, Copy)]
pub enum Reply {
    /// The number of the entry that was written.
    Number(u64),
    /// The result of a spend.
    Spending(Spending),
    /// The state of a spend that waited.
    Outcome(Status),
    /// Why the command was refused. Nothing changed.
    Refused(DeskError),
    /// The deadline of a spend is too far ahead of the site's clock. Nothing changed.
    BadDeadline,
    /// The site takes no keys. Nothing changed.
    KeyRefused,
    /// The key is that of another command. Nothing changed.
    KeyReused,
}
