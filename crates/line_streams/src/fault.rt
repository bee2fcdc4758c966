//! Why a conversation is aborted.
ghost use Rattle.std.specs.Prelude.{◌≡◌};
ghost use Rattle.line_streams.specs.declared.fault.ConversationError.TheVariants.{ReadFailed, WriteFailed};
ghost use Rattle.line_streams.specs.declared.fault.ConversationError.TheVariants.{OutOfMemory as NoMemory};
ghost use Rattle.line_streams.specs.declared.fault.ConversationError.TheVariants.{TooManyLines as TooMany};

use crate::limit::TooManyLines;
use crate::read::InputError;
use crate::write::OutputError;
use rights_types::OutOfMemory;

/// Why a conversation ended before its input did.
#[derive(Clone, Copy, Debug, PartialEq, Eq)]
pub enum ConversationError {
    /// A read failed.
    ReadFailed,
    /// A write failed, or took no byte.
    WriteFailed,
    /// A memory request was refused.
    OutOfMemory,
    /// Lines, and reads that end no line, reached 1,000,000,000 together.
    TooManyLines,
}

impl From<OutOfMemory> for ConversationError {
    ghost from_gives = { λ _ e. e ≡ NoMemory };

    fn from(_error: OutOfMemory) -> ConversationError {
        ConversationError::OutOfMemory
    }
}

impl From<InputError> for ConversationError {
    ghost from_gives = { λ _ e. e ≡ ReadFailed };

    fn from(_error: InputError) -> ConversationError {
        ConversationError::ReadFailed
    }
}

impl From<OutputError> for ConversationError {
    ghost from_gives = { λ _ e. e ≡ WriteFailed };

    fn from(_error: OutputError) -> ConversationError {
        ConversationError::WriteFailed
    }
}

impl From<TooManyLines> for ConversationError {
    ghost from_gives = { λ _ e. e ≡ TooMany };

    fn from(_error: TooManyLines) -> ConversationError {
        ConversationError::TooManyLines
    }
}
