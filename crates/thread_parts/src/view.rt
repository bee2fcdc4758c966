//! A snapshot of a desk.

use rights_types::SiteId;

/// The values of a desk's readers at one moment.
#[derive(Clone, Copy, Debug, PartialEq, Eq)]
pub struct DeskView {
    pub site: SiteId,
    /// Whether the site is closed.
    pub closed: bool,
    /// The own number of the log's last entry.
    pub number: u64,
    pub issued: u64,
    pub spent: u64,
    /// The rights given to all other sites, taken back or not.
    pub given: u64,
    /// The rights taken back from all other sites.
    pub back: u64,
    pub received: u64,
    pub held: u64,
    /// The sum of the rights that waiting spends ask for.
    pub queued: u64,
}
