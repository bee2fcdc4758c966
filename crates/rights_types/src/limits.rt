//! The limits that all crates share.

/// Sites in a system, at least.
pub const MIN_SITES: u64 = 2;

/// Sites in a system, at most.
pub const MAX_SITES: u64 = 16;

/// The greatest amount of one move; the least is 1.
pub const MAX_AMOUNT: u64 = 1_000_000_000;

/// The greatest number of a log.
pub const MAX_NUMBER: u64 = 1_000_000_000;

/// The last number of an ordinary entry; the numbers above it are reserved for reclaims and the closing entry.
pub const LAST_APPEND: u64 = 999_999_900;

/// The greatest total of one reclaim. It is also the most that one log can give to one site: the greatest amount for
/// each of its numbers.
pub const MAX_TOTAL: u64 = 1_000_000_000_000_000_000;

/// The most that a site can receive: the greatest total from each of 15 others.
pub const MAX_RECEIVED: u64 = 15_000_000_000_000_000_000;

/// The most rights that a site can hold, of those that it received, issued and reclaimed.
pub const MAX_HELD_RIGHTS: u64 = 17_000_000_000_000_000_000;

/// The greatest ask number; the least is 1.
pub const MAX_ASK: u64 = 1_000_000_000;

/// Moves of an entry, at most; at least there is 1.
pub const MAX_MOVES: usize = 16;

/// Entries of an answer, at most.
pub const MAX_ANSWER: usize = 16;

/// Entries that a buffer holds for one origin, at most.
pub const MAX_HELD: usize = 64;

/// Bytes of a line with its line feed, at most.
pub const MAX_LINE: usize = 16_384;
