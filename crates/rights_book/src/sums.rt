//! What a book tells of a site.
use rights_types::SiteId;

/// What a book knows of a site: the sums of its log, as far as that was applied, and what was given to it.
#[derive(Clone, Copy, Debug, PartialEq, Eq)]
pub struct SiteSums {
    pub site: SiteId,
    /// The own number of the last entry that is counted; 0 if there is none.
    pub end: u64,
    pub issued: u64,
    pub spent: u64,
    /// What it gave to other sites.
    pub given: u64,
    /// What other sites are known to have given to it.
    pub received: u64,
    /// What it reclaimed. It has 128 bits, since nothing here bounds what another site reclaims.
    pub taken_back: u128,
    /// Whether its log ends in a closing move.
    pub closed: bool,
}
