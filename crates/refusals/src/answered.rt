//! How a line was answered.

use crate::refusal::Refusal;

/// How a line of a client was answered.
#[derive(Clone, Copy, Debug, PartialEq, Eq)]
pub enum Answered {
    /// The line was carried out, and the reply tells the result.
    Done,
    /// The line was refused, and the reply is `error NAME`.
    Refused(Refusal),
}
