//! Why a line is refused.
ghost use Rattle.std.specs.Prelude.{◌≡◌};
ghost use Rattle.entry_codec.specs.Faults.{fault_number};
ghost use Rattle.entry_codec.specs.declared.fault.LineError.TheVariants.{OutOfMemory as NoMemory};

use rights_types::OutOfMemory;

/// The position of a fault in a line: the part and, within it, the field, both counted from 0.
#[derive(Clone, Copy, Debug, PartialEq, Eq)]
pub struct Place {
    pub part: u16,
    pub field: u16,
}

/// Why a line is refused, in the order in which the causes are checked.
#[derive(Clone, Copy, Debug, PartialEq, Eq)]
pub enum LineError {
    /// More than 16,384 bytes.
    TooLong,
    /// There are no bytes, or the last byte is not a line feed.
    NoEnd,
    /// The first field is not the letter of a kind of message.
    BadKind,
    /// A fixed field is missing, is not a decimal in its range, or names a site that must differ from an earlier one;
    /// or a part of an answer does not begin with `E`, or is an entry of an origin other than the answer's.
    BadField(Place),
    /// A field of an entry is not a move, names the entry's origin, lacks the origin's own position in a frontier, or
    /// closes before the end.
    BadMove(Place),
    /// An entry has no move, more than 16, or an own number that is not its previous one plus the number of its moves;
    /// or an answer has more than 16 entries.
    CountWrong,
    /// More fields or parts than this kind of message has.
    TrailingBytes,
    /// The line has no fault, but memory for the message was refused.
    OutOfMemory,
}

impl LineError {
    /// The position of this cause in the order, from 1 to 8, as a script reports it for a refused line.
    pub fn number(self) -> u64
        ensures { result ≡ fault_number self }
    {
        match self {
            LineError::TooLong => 1,
            LineError::NoEnd => 2,
            LineError::BadKind => 3,
            LineError::BadField(_) => 4,
            LineError::BadMove(_) => 5,
            LineError::CountWrong => 6,
            LineError::TrailingBytes => 7,
            LineError::OutOfMemory => 8,
        }
    }
}

impl From<OutOfMemory> for LineError {
    ghost from_gives = { λ _ e. e ≡ NoMemory };

    fn from(_error: OutOfMemory) -> LineError {
        LineError::OutOfMemory
    }
}
