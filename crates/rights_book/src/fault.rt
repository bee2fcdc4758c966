//! Why moves are refused.

/// Why a site may not write these moves. Each check covers all moves before the next check begins, in the order of
/// this list.
#[derive(Clone, Copy, Debug, PartialEq, Eq)]
pub enum BookError {
    /// A move names a site that the system does not have.
    NoSuchSite,
    /// A move names the site that would write it.
    SameSite,
    /// A move gives to a site whose closing entry was applied here. Reclaiming from it is allowed.
    PeerClosed,
    /// In order, a move spends or gives more than is held after the moves before it.
    Short,
}
