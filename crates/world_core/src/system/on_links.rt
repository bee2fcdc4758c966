//! Lines that are sent, noise, and entries that are taken.
ghost use Rattle.std.specs.Prelude.{◌≡◌, None};
ghost use Rattle.world_core.specs.Faults.{link_fault};
ghost use Rattle.world_core.specs.LinkEvents.{AskHappens, PublishHappens, BeatHappens, QueryHappens, NoiseHappens};
ghost use Rattle.world_core.specs.LinkEvents.{TakeHappens};
ghost use Rattle.world_core.specs.Sound.{IsWorld};

use crate::fault::WorldError;
use crate::keeping::Keeping;
use crate::reply::Reply;
use crate::system::System;
use entry_codec::{LineError, read_line};
use rights_types::SiteId;
use site_core::Line;
use std::alloc::Allocator;

impl<A: Allocator + Copy, K: Keeping> System<A, K> {
    pub(super) fn ask(&mut self, site: SiteId, peer: SiteId) -> Result<Reply<A>, WorldError>
        requires { link_fault self.old site peer ≡ None }
        ensures { AskHappens self.old site peer result self.new }
    {
        self.packets.reserve_line()?;
        match self.desks[site.index()].ask_line(peer)? {
            None => Ok(Reply::Nothing),
            Some(line) => {
                let number = self.packets.add_line(site, peer, Line::new(line));
                Ok(Reply::Packet(number))
            }
        }
    }

    pub(super) fn publish(&mut self, site: SiteId, peer: SiteId) -> Result<Reply<A>, WorldError>
        requires { link_fault self.old site peer ≡ None }
        ensures { PublishHappens self.old site peer result self.new }
    {
        self.packets.reserve_entry()?;
        match self.desks[site.index()].publish_next(peer) {
            None => Ok(Reply::Nothing),
            Some(place) => {
                let number = self.packets.add_entry(site, peer, place);
                Ok(Reply::Packet(number))
            }
        }
    }

    pub(super) fn beat(&mut self, site: SiteId, peer: SiteId) -> Result<Reply<A>, WorldError>
        requires { link_fault self.old site peer ≡ None }
        ensures { BeatHappens self.old site peer result self.new }
    {
        self.packets.reserve_line()?;
        let line = self.desks[site.index()].beat_line(peer)?;
        let number = self.packets.add_line(site, peer, Line::new(line));
        Ok(Reply::Packet(number))
    }

    pub(super) fn query(
        &mut self,
        site: SiteId,
        origin: SiteId,
        again: bool,
    ) -> Result<Reply<A>, WorldError>
        requires kept { IsWorld self.old }
        requires place { link_fault self.old site origin ≡ None }
        ensures { QueryHappens self.old site origin again result self.new }
    {
        self.packets.reserve_line()?;
        match self.links[site.index()].query_line(origin, again)? {
            None => Ok(Reply::Nothing),
            Some(line) => {
                let number = self.packets.add_line(site, origin, Line::new(line));
                Ok(Reply::Packet(number))
            }
        }
    }

    // Noise whose reading runs out of memory counts as a message.
    pub(super) fn noise(&self, bytes: &[u8]) -> Result<Reply<A>, WorldError>
        ensures { NoiseHappens self.now bytes.now result self.now }
    {
        match read_line(self.allocator(), bytes) {
            Ok(_) | Err(LineError::OutOfMemory) => Err(WorldError::Forged),
            Err(fault) => Ok(Reply::Refused(fault.number())),
        }
    }

    pub(super) fn take(&mut self, site: SiteId, origin: SiteId) -> Result<Reply<A>, WorldError>
        requires kept { IsWorld self.old }
        requires place { link_fault self.old site origin ≡ None }
        ensures { TakeHappens self.old site origin result self.new }
    {
        let desk = &mut self.desks[site.index()];
        if desk.log().closed() {
            return Ok(Reply::Nothing);
        }
        let Some(entry) = self.links[site.index()].next(origin) else {
            return Ok(Reply::Nothing);
        };
        let number = entry.own();
        let back = desk.apply(origin, entry)?;
        self.links[site.index()].apply_next(origin);
        Ok(match back {
            None => Reply::Taken(number),
            Some(back) => Reply::TakenBack(number, back),
        })
    }
}
