//! Why a line is skipped.
ghost use Rattle.std.specs.Prelude.{◌≡◌};
ghost use Rattle.inbound.specs.declared.fault.InboundError.TheVariants.{OutOfMemory as NoRoom};

use entry_codec::LineError;
use rights_types::OutOfMemory;
use std::alloc::AllocError;

/// Why a line is skipped, in the order in which the causes are checked. Nothing has changed.
#[derive(Clone, Copy, Debug, PartialEq, Eq)]
pub enum InboundError {
    /// It does not spell a message.
    Line(LineError),
    /// A site other than the origin sent it.
    WrongOrigin,
    /// It is addressed to another site, or an entry in it is of another system: it names a site that this one does not
    /// have, or has a frontier for another number of sites.
    BadSite,
    /// A memory request was refused. If it was the one for the line's own message, the two causes before were not
    /// checked.
    OutOfMemory,
}

impl From<OutOfMemory> for InboundError {
    ghost from_gives = { λ _ e. e ≡ NoRoom };

    fn from(_error: OutOfMemory) -> InboundError {
        InboundError::OutOfMemory
    }
}

impl From<AllocError> for InboundError {
    ghost from_gives = { λ _ e. e ≡ NoRoom };

    fn from(_error: AllocError) -> InboundError {
        InboundError::OutOfMemory
    }
}
