//! The answers of an asked site.

use rights_types::Amount;

/// The answer of a site to an ask.
#[derive(Clone, Copy, Debug, PartialEq, Eq)]
pub enum AskAnswer {
    /// This amount is granted, at most the amount asked for.
    Grant(Amount),
    /// There is nothing to grant.
    Deny,
    /// An ask of this number was denied, and no ask of a greater number was answered since. The denial is to be sent
    /// again.
    RepeatedDeny,
    /// An ask of this number was granted, and no ask of a greater number was answered since. The grant is in the log.
    Repeated,
    /// An ask of a greater number was answered before. This one is ignored.
    OldAsk,
}
