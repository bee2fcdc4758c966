//! The desks and links of all sites, and all packets: the effect of each event on them.
ghost use Rattle.std.specs.Prelude.{◌≡◌, ◌≤◌, None, IfOk};
ghost use Rattle.rights_types.specs.declared.limits.TheConstants.{MIN_SITES, MAX_SITES};
ghost use Rattle.world_core.specs.Worlds.{start, ended};
ghost use Rattle.world_core.specs.Faults.{is_site, site_fault, link_fault, arrive_fault, place_fault, fault_of};
ghost use Rattle.world_core.specs.Step.{wants_memory, Attempts, Step};
ghost use Rattle.world_core.specs.Sound.{IsWorld};

mod arrivals;
mod at_desks;
mod on_links;

use crate::event::Event;
use crate::fault::WorldError;
use crate::keeping::Keeping;
use crate::link::Scratch;
use crate::links::Links;
use crate::packets::Packets;
use crate::reply::Reply;
use rights_types::{MAX_SITES, MIN_SITES, OutOfMemory, SiteId};
use site_core::Desk;
use std::alloc::Allocator;
use std::marker::Model;

/// All sites, and all packets ever sent. Once the system has ended, no event happens. It is apart from `World`, which
/// has the invariant: so a call changes one field after another, and the invariant is proved once, of the whole event.
#[derive(Drop)]
pub(crate) struct System<A: Allocator, K: Keeping> {
    pub(crate) desks: Vec<Desk<A>, A>,
    pub(crate) links: Vec<Links<A, K>, A>,
    pub(crate) packets: Packets<A>,
    pub(crate) ended: bool,
    pub(crate) scratch: Scratch<A>,
}

impl<A: Allocator, K: Keeping> Model for System<A, K> {
    ghost use Rattle.world_core.specs.Values.{WorldValue};
    ghost use Rattle.world_core.specs.Bodies.{world_of};

    ghost Value = { WorldValue };

    ghost view = { λ w. world_of w };
}

impl<A: Allocator + Copy, K: Keeping> System<A, K> {
    /// A system of `sites` sites, 2 to 16, at the start.
    pub(crate) fn new(alloc: A, sites: u64) -> Result<System<A, K>, OutOfMemory>
        requires { (MIN_SITES ≤ sites) × (sites ≤ MAX_SITES) }
        ensures { IfOk result (λ system. system ≡ start sites) }
    {
        let mut desks = Vec::with_capacity(alloc, sites as usize)?;
        let mut links = Vec::with_capacity(alloc, sites as usize)?;
        for index in 0..sites {
            let site = SiteId::known(index + 1);
            desks.push(Desk::new(alloc, site, sites)?)?;
            links.push(Links::new(alloc, site, sites)?)?;
        }
        Ok(System {
            desks,
            links,
            packets: Packets::new(alloc),
            ended: false,
            scratch: Scratch::new(alloc),
        })
    }

    /// The allocator of the system's own lists.
    pub(crate) fn allocator(&self) -> A {
        *self.desks.allocator()
    }

    /// Lets one event happen. Lack of memory ends the system.
    pub(crate) fn happen(&mut self, event: &Event<A>) -> Result<Reply<A>, WorldError>
        requires kept { IsWorld self.old }
        ensures { Step self.old event.now result self.new }
    {
        if let Some(fault) = self.fault_of(event) {
            return Err(fault);
        }
        let outcome = self.attempt(event);
        if wants_memory(&outcome) {
            self.ended = true;
        }
        outcome
    }

    /// Ends the system: no event happens from now on.
    pub(crate) fn end(&mut self)
        ensures { self.new ≡ ended self.old }
    {
        self.ended = true;
    }

    // An event that is not refused because of its sites or its packet. It is apart from `happen`, so that each arm is
    // proved where it returns: after the match all outcomes would be one, of which only lack of memory matters.
    fn attempt(&mut self, event: &Event<A>) -> Result<Reply<A>, WorldError>
        requires kept { IsWorld self.old }
        requires place { place_fault self.old event.now ≡ None }
        ensures { Attempts self.old event.now result self.new }
    {
        match event {
            Event::Post(site, moves) => self.post(*site, moves.as_slice()),
            Event::Issue(site, amount) => self.issue(*site, *amount),
            Event::Give(site, peer, amount) => self.give(*site, *peer, *amount),
            Event::Spend(site, amount, deadline) => self.spend(*site, *amount, *deadline),
            Event::Serve(site) => self.serve(*site),
            Event::Expire(site, time) => self.expire(*site, *time),
            Event::Status(site, ticket) => self.status(*site, *ticket),
            Event::Plan(site) => self.plan(*site),
            Event::Ask(site, peer) => self.ask(*site, *peer),
            Event::Publish(site, peer) => self.publish(*site, *peer),
            Event::Beat(site, peer) => self.beat(*site, *peer),
            Event::Query(site, origin, again) => self.query(*site, *origin, *again),
            Event::Arrive(site, number) => self.arrive(*site, *number),
            Event::Noise(_, _, bytes) => self.noise(bytes.bytes()),
            Event::Take(site, origin) => self.take(*site, *origin),
            Event::Close(site, heir) => self.close(*site, *heir),
        }
    }
}

impl<A: Allocator, K: Keeping> System<A, K> {
    // Why the event is refused because of its sites or its packet.
    #[tactic(auto, unfolding(crate::specs::Faults::fault_of))]
    fn fault_of(&self, event: &Event<A>) -> Option<WorldError>
        ensures { result ≡ fault_of self.now event.now }
    {
        if self.ended {
            return Some(WorldError::Ended);
        }
        match event {
            Event::Post(site, _)
            | Event::Issue(site, _)
            | Event::Give(site, _, _)
            | Event::Spend(site, _, _)
            | Event::Serve(site)
            | Event::Expire(site, _)
            | Event::Status(site, _)
            | Event::Plan(site)
            | Event::Close(site, _) => self.site_fault(*site),
            Event::Ask(site, peer)
            | Event::Publish(site, peer)
            | Event::Beat(site, peer)
            | Event::Query(site, peer, _)
            | Event::Noise(site, peer, _)
            | Event::Take(site, peer) => self.link_fault(*site, *peer),
            Event::Arrive(site, number) => self.arrive_fault(*site, *number),
        }
    }

    fn has_site(&self, site: SiteId) -> bool
        ensures { result ≡ is_site self.now site }
    {
        site.number() >= 1 && site.number() <= self.desks.len() as u64
    }

    fn site_fault(&self, site: SiteId) -> Option<WorldError>
        ensures { result ≡ site_fault self.now site }
    {
        if self.has_site(site) {
            None
        } else {
            Some(WorldError::NoSuchSite)
        }
    }

    fn link_fault(&self, site: SiteId, peer: SiteId) -> Option<WorldError>
        ensures { result ≡ link_fault self.now site peer }
    {
        if self.has_site(site) && self.has_site(peer) && site != peer {
            None
        } else {
            Some(WorldError::NoSuchSite)
        }
    }

    fn arrive_fault(&self, site: SiteId, number: u64) -> Option<WorldError>
        ensures { result ≡ arrive_fault self.now site number }
    {
        if !self.has_site(site) {
            return Some(WorldError::NoSuchSite);
        }
        if number == 0 || number > self.packets.len() as u64 {
            return Some(WorldError::NoPacket);
        }
        if self.packets.at(number as usize - 1).to() == site {
            None
        } else {
            Some(WorldError::NotForSite)
        }
    }
}

fn wants_memory<A: Allocator>(outcome: &Result<Reply<A>, WorldError>) -> bool
    ensures { result ≡ wants_memory outcome.now }
{
    matches!(outcome, Err(WorldError::OutOfMemory))
}
