//! Sets of sites.
ghost use Rattle.std.specs.Prelude.{◌≡◌, true};
ghost use Rattle.rights_types.specs.Places.{set_site};
ghost use Rattle.transfer_manager.specs.SiteSets.{no_sites, has_site};

use rights_types::SiteId;
use std::marker::Model;

/// A set of sites. Contracts see it as a flag for each site that a system can have, the first for site 1.
#[derive(Debug, Drop)]
pub struct SiteSet {
    members: [bool; 16],
}

impl Model for SiteSet {
    ghost use Rattle.std.specs.Prelude.{Bool, List};

    ghost Value = { List Bool };

    ghost view = { λ s. s.members };
}

impl SiteSet {
    /// The empty set.
    pub fn new() -> SiteSet
        ensures { result ≡ no_sites }
    {
        SiteSet {
            members: [false; 16],
        }
    }

    /// Puts the site into the set.
    pub fn insert(&mut self, site: SiteId)
        ensures { self.new ≡ set_site self.old site true }
    {
        self.members[site.index()] = true;
    }

    /// Whether the site is in the set.
    pub fn contains(&self, site: SiteId) -> bool
        ensures { result ≡ has_site self.now site }
    {
        self.members[site.index()]
    }
}
