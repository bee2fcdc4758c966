//! The bytes that the format of a line fixes, and bounds that follow from it.

use rights_types::MAX_LINE;

/// Separates the parts of a line.
pub const PART_BREAK: u8 = b';';

/// Separates the fields of a part.
pub(crate) const FIELD_BREAK: u8 = b' ';

/// Separates the values of a field.
pub(crate) const VALUE_BREAK: u8 = b':';

/// The last byte of a line, which occurs nowhere else in it.
pub(crate) const LINE_END: u8 = b'\n';

// The letters of messages.
pub(crate) const ENTRY_LETTER: u8 = b'E';

pub(crate) const QUERY_LETTER: u8 = b'Q';

pub(crate) const ANSWER_LETTER: u8 = b'A';

pub(crate) const BEAT_LETTER: u8 = b'B';

pub(crate) const ASK_LETTER: u8 = b'W';

pub(crate) const DENIAL_LETTER: u8 = b'D';

pub(crate) const HELLO_LETTER: u8 = b'H';

// The letters of moves.
pub(crate) const ISSUE_LETTER: u8 = b'I';

pub(crate) const SPEND_LETTER: u8 = b'S';

pub(crate) const GRANT_LETTER: u8 = b'G';

pub(crate) const GIVE_LETTER: u8 = b'R';

pub(crate) const CLOSE_LETTER: u8 = b'C';

pub(crate) const CLOSE_AT_LETTER: u8 = b'K';

pub(crate) const TAKE_BACK_LETTER: u8 = b'V';

/// Fields of a part, at most: one more than its bytes.
pub(crate) const MAX_FIELDS: usize = MAX_LINE + 1;

/// The index of the field with an entry's first move.
pub(crate) const FIRST_MOVE: u16 = 4;

/// Bytes that suffice for the line of any entry.
pub const ENTRY_ROOM: usize = 1_024;
