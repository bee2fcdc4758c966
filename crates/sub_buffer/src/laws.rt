//! Laws of the definitions, as contracts of functions that do nothing.
ghost use Rattle.sub_buffer.specs.Laws.{FollowsLonger, LongestStays, SettledIsLongest};

/// As a log grows, a buffer that follows it continues to follow it, and the longest prefix that reached the buffer
/// stays the longest.
pub fn log_grows()
    ensures follows { FollowsLonger }
    ensures longest { LongestStays }
{}

/// A buffer that follows a log is settled exactly when it delivered the longest prefix that reached it.
pub fn settled_is_longest()
    ensures { SettledIsLongest }
{}
