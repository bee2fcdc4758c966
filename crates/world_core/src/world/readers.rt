//! The lists of a world, and the rights over them.
ghost use Rattle.std.specs.Prelude.{◌≡◌, ℕ, ◌+◌, ◌<◌, ◌≤◌, [], None, length, IfOk, IsOk, IfSome, IfNone};
ghost use Rattle.std.specs.Option.{option_copied, option_map};
ghost use Rattle.rights_types.specs.Chains.{end, moves_of, is_closed};
ghost use Rattle.rights_types.specs.Rights.{issued, spent, to, sum_sites};
ghost use Rattle.rights_protocol.specs.Lists.{IsSiteOf};
ghost use Rattle.site_core.specs.Desks.{new_desk};
ghost use Rattle.world_core.specs.Sound.{LinkSound, IsWorld};
ghost use Rattle.world_core.specs.Worlds.{desk, link as link_of, log, reached, put, applied, count, packet};
ghost use Rattle.world_core.specs.Worlds.{packet_text, held_by, on_way};

use super::World;
use crate::keeping::{ForReaders, Keeping};
use crate::link::Link;
use origin_log::OriginLog;
use rights_types::{Entry, MAX_SITES, MIN_SITES, OutOfMemory, SiteId};
use site_core::Desk;
use std::alloc::Allocator;

/// The sums over all sites, and over all pairs of sites.
#[derive(Clone, Copy, Debug, PartialEq, Eq)]
pub struct Totals {
    pub issued: u64,
    pub spent: u64,
    pub held: u64,
    pub way: u64,
}

/// For a site or a link that is not in the world, lists are empty and numbers are 0.
impl<A: Allocator + Copy, K: Keeping> World<A, K> {
    /// How many sites there are, 2 to 16.
    pub fn sites(&self) -> u64
        ensures value { result ≡ count self.now }
        ensures range { (MIN_SITES ≤ result) × (result ≤ MAX_SITES) }
    {
        self.system.desks.len() as u64
    }

    // The desk of a site.
    fn desk(&self, site: SiteId) -> Option<&Desk<A>>
        ensures some { IfSome result (λ d. d.now ≡ desk self.now site) }
        ensures none { IfNone result (desk self.now site ≡ new_desk 0 0) }
        ensures site { IfSome result (λ d. IsSiteOf (count self.now) site) }
        ensures past { IfNone result (count self.now < site) }
        ensures kept { IsWorld self.now }
    {
        self.system.desks.get(site.index())
    }

    // What a site has of the origin's log.
    fn link(&self, site: SiteId, origin: SiteId) -> Option<&Link<A, K>>
        ensures value { option_copied result ≡ link_of self.now site origin }
        ensures sound { IfSome result (λ l. LinkSound self.now site origin l.now) }
    {
        self.system.links.get(site.index())?.get(origin)
    }

    /// The line of a packet, with its line feed. Packets are counted from 1.
    pub fn packet(&self, number: u64) -> Option<&[u8]>
        ensures { option_copied result ≡ option_map (packet_text self.now) (packet self.now number) }
    {
        if number == 0 || number > self.system.packets.len() as u64 {
            return None;
        }
        let packet = self.system.packets.at(number as usize - 1);
        Some(self.system.line_of(&packet))
    }

    /// A copy of a site's log. `OutOfMemory` if memory for it is refused; an empty log takes none.
    pub fn log(&self, site: SiteId) -> Result<Vec<Entry<A>, A>, OutOfMemory>
        ensures value { IfOk result (λ copy. copy.items ≡ log self.now site) }
        ensures memory { log self.now site ≡ [] → IsOk result }
    {
        let alloc = self.system.allocator();
        match self.desk(site) {
            Some(desk) => copy_of(alloc, desk.log()),
            None => Ok(Vec::new(alloc)),
        }
    }

    /// The own number of the last entry of a site's log.
    pub fn number(&self, site: SiteId) -> u64
        ensures { result ≡ end (log self.now site) }
    {
        match self.desk(site) {
            Some(desk) => desk.number(),
            None => 0,
        }
    }

    /// The rights that a site issued.
    pub fn issued(&self, site: SiteId) -> u64
        ensures { result ≡ issued (moves_of (log self.now site)) }
    {
        match self.desk(site) {
            Some(desk) => desk.issued(),
            None => 0,
        }
    }

    /// The rights that a site spent.
    pub fn spent(&self, site: SiteId) -> u64
        ensures { result ≡ spent (moves_of (log self.now site)) }
    {
        match self.desk(site) {
            Some(desk) => desk.spent(),
            None => 0,
        }
    }

    /// The rights that a site holds.
    pub fn held(&self, site: SiteId) -> u64
        ensures { result ≡ held_by self.now site }
    {
        match self.desk(site) {
            Some(desk) => desk.held(),
            None => 0,
        }
    }

    /// Whether a site's log ends in a closing move.
    pub fn closed(&self, site: SiteId) -> bool
        ensures { result ≡ is_closed (log self.now site) }
    {
        match self.desk(site) {
            Some(desk) => desk.log().closed(),
            None => false,
        }
    }

    /// The own number of the last entry of the origin that a site's buffer delivered.
    pub fn put_end(&self, site: SiteId, origin: SiteId) -> u64
        ensures { result ≡ end (put self.now site origin) }
    {
        match self.link(site, origin) {
            Some(link) => link.last(),
            None => 0,
        }
    }

    /// The own number of the last entry of the origin that a site applied.
    pub fn applied_end(&self, site: SiteId, origin: SiteId) -> u64
        ensures { result ≡ end (applied self.now site origin) }
    {
        match self.desk(site) {
            Some(desk) => desk.applied(origin),
            None => 0,
        }
    }

    /// The rights in transit from the origin to a site: given in entries that the site has not applied, and not
    /// reclaimed.
    pub fn way(&self, origin: SiteId, site: SiteId) -> u64
        ensures { result ≡ on_way self.now origin site }
    {
        match self.desk(origin) {
            Some(desk) => desk.given_to(site) - self.received(site, origin) - desk.back(site),
            None => 0,
        }
    }

    // What the origin gave to a site, in the entries that the site applied.
    fn received(&self, site: SiteId, origin: SiteId) -> u64
        ensures { result ≡ to site (moves_of (applied self.now site origin)) }
    {
        match self.desk(site) {
            Some(desk) => desk.received_from(origin),
            None => 0,
        }
    }

    /// The sums over all sites and pairs.
    pub fn totals(&self) -> Totals
        ensures issued { result.issued ≡ sum_sites (count self.now) (λ s. issued (moves_of (log self.now s))) }
        ensures spent { result.spent ≡ sum_sites (count self.now) (λ s. spent (moves_of (log self.now s))) }
        ensures held { result.held ≡ sum_sites (count self.now) (held_by self.now) }
        ensures way { result.way
            ≡ sum_sites (count self.now) (λ o. sum_sites (count self.now) (λ s. on_way self.now o s)) }
    {
        // For the proof: the invariant of the world.
        let _ = &self.system;
        let mut totals = Totals {
            issued: 0,
            spent: 0,
            held: 0,
            way: 0,
        };
        for index in 0..self.sites() {
            let site = SiteId::known(index + 1);
            totals.issued += self.issued(site);
            totals.spent += self.spent(site);
            totals.held += self.held(site);
            totals.way += self.way_from(site);
        }
        totals
    }

    // The rights in transit from the origin to all sites.
    fn way_from(&self, origin: SiteId) -> u64
        requires { origin ≤ count self.now }
        ensures { result ≡ sum_sites (count self.now) (λ s. on_way self.now origin s) }
    {
        // For the proof: the invariant of the world, and the range of the origin.
        let _ = &self.system;
        let _ = origin.number();
        let mut way = 0;
        for index in 0..self.sites() {
            way += self.way(origin, SiteId::known(index + 1));
        }
        way
    }
}

impl<A: Allocator + Copy> World<A, ForReaders> {
    /// The entries of the origin that reached a site's buffer, each once, in the order in which they first arrived.
    pub fn reached(&self, site: SiteId, origin: SiteId) -> &[Entry<A>]
        ensures { result.now ≡ reached self.now site origin }
    {
        match self.link(site, origin) {
            Some(link) => link.reached(),
            None => &[],
        }
    }

    /// The entries of the origin that a site's buffer delivered.
    pub fn put(&self, site: SiteId, origin: SiteId) -> &[Entry<A>]
        ensures { result.now ≡ put self.now site origin }
    {
        match self.link(site, origin) {
            Some(link) => link.put(),
            None => &[],
        }
    }

    /// The entries of the origin that a site applied.
    pub fn applied(&self, site: SiteId, origin: SiteId) -> &[Entry<A>]
        ensures { result.now ≡ applied self.now site origin }
    {
        match self.link(site, origin) {
            Some(link) => link.applied(),
            None => &[],
        }
    }
}

// A copy of the entries of a log.
fn copy_of<A: Allocator + Copy>(
    alloc: A,
    log: &OriginLog<A>,
) -> Result<Vec<Entry<A>, A>, OutOfMemory>
    ensures value { IfOk result (λ copy. copy.items ≡ log.now.entries) }
    ensures memory { log.now.entries ≡ [] → IsOk result }
{
    let mut copy = Vec::with_capacity(alloc, log.len())?;
    for index in 0..log.len() {
        match log.get(index)? {
            Some(entry) => copy.push(entry)?,
            None => unreachable!(),
        }
    }
    Ok(copy)
}
