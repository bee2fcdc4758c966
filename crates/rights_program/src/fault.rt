//! Why the program ends with a status other than 0, and the line that it then prints.
ghost use Rattle.std.specs.Prelude.{◌≡◌};
ghost use Rattle.rights_program.specs.Faults.{line_of, status_of};
ghost use Rattle.rights_program.specs.declared.fault.ProgramError.TheVariants.{OutOfMemory, WriteFailed};

use line_streams::OutputError;
use site_words::{CheckFault, SiteFault, WordsFault};
use std::alloc::AllocError;
use transfer_world::ScriptFault;

/// Why the program ends with a status other than 0.
#[derive(Clone, Copy, Debug, PartialEq, Eq)]
pub enum ProgramError {
    /// The command line is refused.
    BadCommandLine,
    /// The file that a site creates at its start exists: a site of this number was started before.
    StartedBefore,
    /// The file that a site creates at its start cannot be created.
    CannotCreateStartFile,
    /// An address of a site cannot be listened on.
    CannotListen,
    /// Reading the commands failed.
    ReadFailed,
    /// Writing the replies or the help text failed.
    WriteFailed,
    /// A memory request was refused.
    OutOfMemory,
    /// The commands have more lines than the limit.
    TooManyLines,
    /// The cause is on standard error already.
    Explained,
}

impl ProgramError {
    /// The exit status for this cause, 1 or 2.
    pub fn status(self) -> u8
        ensures { result ≡ status_of self }
    {
        match self {
            ProgramError::BadCommandLine => 2,
            _ => 1,
        }
    }

    /// The line on standard error for this cause, with its line feed; empty if the cause is there already.
    pub fn line(self) -> &'static [u8]
        ensures { result.now ≡ line_of self }
    {
        match self {
            ProgramError::BadCommandLine => b"rights-site: bad command line\n",
            ProgramError::StartedBefore => b"rights-site: was started before\n",
            ProgramError::CannotCreateStartFile => b"rights-site: cannot create the start file\n",
            ProgramError::CannotListen => b"rights-site: cannot listen\n",
            ProgramError::ReadFailed => b"rights-site: read failed\n",
            ProgramError::WriteFailed => b"rights-site: write failed\n",
            ProgramError::OutOfMemory => b"rights-site: out of memory\n",
            ProgramError::TooManyLines => b"rights-site: too many lines\n",
            ProgramError::Explained => b"",
        }
    }
}

impl From<AllocError> for ProgramError {
    ghost from_gives = { λ _ fault. fault ≡ OutOfMemory };

    fn from(_error: AllocError) -> ProgramError {
        ProgramError::OutOfMemory
    }
}

impl From<OutputError> for ProgramError {
    ghost from_gives = { λ _ fault. fault ≡ WriteFailed };

    fn from(_error: OutputError) -> ProgramError {
        ProgramError::WriteFailed
    }
}

impl From<WordsFault> for ProgramError {
    ghost use Rattle.rights_program.specs.Faults.{fault_of_words};

    ghost from_gives = { λ cause fault. fault ≡ fault_of_words cause };

    fn from(cause: WordsFault) -> ProgramError {
        match cause {
            WordsFault::Refused => ProgramError::BadCommandLine,
            WordsFault::OutOfMemory => ProgramError::OutOfMemory,
        }
    }
}

impl From<ScriptFault> for ProgramError {
    ghost use Rattle.rights_program.specs.Faults.{fault_of_script};

    ghost from_gives = { λ cause fault. fault ≡ fault_of_script cause };

    fn from(cause: ScriptFault) -> ProgramError {
        match cause {
            ScriptFault::ReadFailed => ProgramError::ReadFailed,
            ScriptFault::WriteFailed => ProgramError::WriteFailed,
            ScriptFault::OutOfMemory => ProgramError::OutOfMemory,
            ScriptFault::TooManyLines => ProgramError::TooManyLines,
        }
    }
}

impl From<SiteFault> for ProgramError {
    ghost use Rattle.rights_program.specs.Faults.{fault_of_site};

    ghost from_gives = { λ cause fault. fault ≡ fault_of_site cause };

    fn from(cause: SiteFault) -> ProgramError {
        match cause {
            SiteFault::StartedBefore => ProgramError::StartedBefore,
            SiteFault::CannotCreateStartFile => ProgramError::CannotCreateStartFile,
            SiteFault::CannotListen => ProgramError::CannotListen,
            SiteFault::ReadFailed => ProgramError::ReadFailed,
            SiteFault::WriteFailed => ProgramError::WriteFailed,
            SiteFault::OutOfMemory => ProgramError::OutOfMemory,
            SiteFault::TooManyLines => ProgramError::TooManyLines,
            SiteFault::Explained => ProgramError::Explained,
        }
    }
}

impl From<CheckFault> for ProgramError {
    ghost use Rattle.rights_program.specs.Faults.{fault_of_check};

    ghost from_gives = { λ cause fault. fault ≡ fault_of_check cause };

    fn from(cause: CheckFault) -> ProgramError {
        match cause {
            CheckFault::Explained => ProgramError::Explained,
            CheckFault::WriteFailed => ProgramError::WriteFailed,
            CheckFault::OutOfMemory => ProgramError::OutOfMemory,
        }
    }
}
