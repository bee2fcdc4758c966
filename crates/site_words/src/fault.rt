//! Why a running site stops, and why a journal is not checked to its end.
ghost use Rattle.std.specs.Prelude.{◌≡◌};

use line_streams::{ConversationError, OutputError};
use rights_types::OutOfMemory as NoMemory;
use std::alloc::{AllocError, AllocFailed};
use thiserror::Error;

/// Why a running site stops.
#[derive(Clone, Copy, Debug, PartialEq, Eq, Error)]
pub enum SiteFault {
    /// The file that a site creates at its start exists: a site of this number was started before.
    #[error("was started before")]
    StartedBefore,
    /// The file that a site creates at its start cannot be created.
    #[error("cannot create the start file")]
    CannotCreateStartFile,
    /// An address, of the site or for HTTP, cannot be listened on.
    #[error("cannot listen")]
    CannotListen,
    /// Reading the commands failed.
    #[error("read failed")]
    ReadFailed,
    /// Writing the replies failed.
    #[error("write failed")]
    WriteFailed,
    /// A memory request was refused.
    #[error("out of memory")]
    OutOfMemory,
    /// The commands have more lines than the limit.
    #[error("too many lines")]
    TooManyLines,
    /// The cause is on standard error already: whoever ran the site wrote it there, as one line.
    #[error("it was said why")]
    Explained,
}

/// Why the check of a journal does not end well.
#[derive(Clone, Copy, Debug, PartialEq, Eq)]
pub enum CheckFault {
    /// The cause is on standard error already: the file cannot be read, is damaged, or has a record that is refused.
    Explained,
    /// Writing the result failed.
    WriteFailed,
    /// A memory request was refused.
    OutOfMemory,
}

impl From<OutputError> for CheckFault {
    ghost use Rattle.site_words.specs.declared.fault.CheckFault.TheVariants.{WriteFailed};

    ghost from_gives = { λ _ fault. fault ≡ WriteFailed };

    fn from(_error: OutputError) -> CheckFault {
        CheckFault::WriteFailed
    }
}

impl From<NoMemory> for CheckFault {
    ghost use Rattle.site_words.specs.declared.fault.CheckFault.TheVariants.{OutOfMemory};

    ghost from_gives = { λ _ fault. fault ≡ OutOfMemory };

    fn from(_error: NoMemory) -> CheckFault {
        CheckFault::OutOfMemory
    }
}

impl From<AllocError> for SiteFault {
    ghost use Rattle.site_words.specs.declared.fault.SiteFault.TheVariants.{OutOfMemory};

    ghost from_gives = { λ _ fault. fault ≡ OutOfMemory };

    fn from(_error: AllocError) -> SiteFault {
        SiteFault::OutOfMemory
    }
}

impl<T: Drop> From<AllocFailed<T>> for SiteFault {
    ghost use Rattle.site_words.specs.declared.fault.SiteFault.TheVariants.{OutOfMemory};

    ghost from_gives = { λ _ fault. fault ≡ OutOfMemory };

    fn from(_error: AllocFailed<T>) -> SiteFault {
        SiteFault::OutOfMemory
    }
}

impl From<NoMemory> for SiteFault {
    ghost use Rattle.site_words.specs.declared.fault.SiteFault.TheVariants.{OutOfMemory};

    ghost from_gives = { λ _ fault. fault ≡ OutOfMemory };

    fn from(_error: NoMemory) -> SiteFault {
        SiteFault::OutOfMemory
    }
}

impl From<OutputError> for SiteFault {
    ghost use Rattle.site_words.specs.declared.fault.SiteFault.TheVariants.{WriteFailed};

    ghost from_gives = { λ _ fault. fault ≡ WriteFailed };

    fn from(_error: OutputError) -> SiteFault {
        SiteFault::WriteFailed
    }
}

impl From<ConversationError> for SiteFault {
    ghost use Rattle.site_words.specs.Faults.{fault_of_lines};

    ghost from_gives = { λ cause fault. fault ≡ fault_of_lines cause };

    fn from(cause: ConversationError) -> SiteFault {
        match cause {
            ConversationError::ReadFailed => SiteFault::ReadFailed,
            ConversationError::WriteFailed => SiteFault::WriteFailed,
            ConversationError::OutOfMemory => SiteFault::OutOfMemory,
            ConversationError::TooManyLines => SiteFault::TooManyLines,
        }
    }
}
