//! Why an event is refused.
ghost use Rattle.world_core.specs.declared.fault.WorldError.TheVariants.{OutOfMemory as NoMemory};

use rights_types::OutOfMemory;
use site_core::DeskError;
use std::alloc::{AllocError, AllocFailed};

/// Why an event is refused, in the order in which the causes are checked. A refusal changes nothing, except that after
/// `OutOfMemory` the world has ended.
#[derive(Clone, Copy, Debug, PartialEq, Eq)]
pub enum WorldError {
    /// An earlier event ran out of memory.
    Ended,
    /// A site of the event is not in the world, or its two sites are the same.
    NoSuchSite,
    /// No packet has this number.
    NoPacket,
    /// The packet was made for another site.
    NotForSite,
    /// The noise reads as a message: no site sent it.
    Forged,
    /// The site's desk refuses, for a cause other than memory.
    Desk(DeskError),
    /// A memory request was refused, and the world has ended.
    OutOfMemory,
}

impl From<DeskError> for WorldError {
    ghost use Rattle.std.specs.Prelude.{◌≡◌};
    ghost use Rattle.world_core.specs.Causes.{cause_of};

    ghost from_gives = { λ error e. e ≡ cause_of error };

    fn from(error: DeskError) -> WorldError {
        match error {
            DeskError::OutOfMemory => WorldError::OutOfMemory,
            cause => WorldError::Desk(cause),
        }
    }
}

impl From<OutOfMemory> for WorldError {
    ghost use Rattle.std.specs.Prelude.{◌≡◌};

    ghost from_gives = { λ _ e. e ≡ NoMemory };

    fn from(_error: OutOfMemory) -> WorldError {
        WorldError::OutOfMemory
    }
}

impl From<AllocError> for WorldError {
    ghost use Rattle.std.specs.Prelude.{◌≡◌};

    ghost from_gives = { λ _ e. e ≡ NoMemory };

    fn from(_error: AllocError) -> WorldError {
        WorldError::OutOfMemory
    }
}

impl<T: Drop> From<AllocFailed<T>> for WorldError {
    ghost use Rattle.std.specs.Prelude.{◌≡◌};

    ghost from_gives = { λ _ e. e ≡ NoMemory };

    fn from(_error: AllocFailed<T>) -> WorldError {
        WorldError::OutOfMemory
    }
}
