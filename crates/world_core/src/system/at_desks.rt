//! Events at the desk of one site.
ghost use Rattle.std.specs.Prelude.{◌≡◌, None};
ghost use Rattle.world_core.specs.Faults.{site_fault};
ghost use Rattle.world_core.specs.DeskEvents.{PostHappens, IssueHappens, GiveHappens, SpendHappens, ServeHappens};
ghost use Rattle.world_core.specs.DeskEvents.{ExpireHappens, StatusHappens, PlanHappens, CloseHappens};

use crate::fault::WorldError;
use crate::keeping::Keeping;
use crate::reply::Reply;
use crate::system::System;
use rights_types::{Move, SiteId};
use site_core::Spending;
use std::alloc::Allocator;

impl<A: Allocator + Copy, K: Keeping> System<A, K> {
    pub(super) fn post(&mut self, site: SiteId, moves: &[Move]) -> Result<Reply<A>, WorldError>
        requires { site_fault self.old site ≡ None }
        ensures { PostHappens self.old site moves.now result self.new }
    {
        let number = self.desks[site.index()].post(moves)?;
        Ok(Reply::Number(number))
    }

    pub(super) fn issue(&mut self, site: SiteId, amount: u64) -> Result<Reply<A>, WorldError>
        requires { site_fault self.old site ≡ None }
        ensures { IssueHappens self.old site amount result self.new }
    {
        let number = self.desks[site.index()].issue(amount)?;
        Ok(Reply::Number(number))
    }

    pub(super) fn give(
        &mut self,
        site: SiteId,
        peer: SiteId,
        amount: u64,
    ) -> Result<Reply<A>, WorldError>
        requires { site_fault self.old site ≡ None }
        ensures { GiveHappens self.old site peer amount result self.new }
    {
        let number = self.desks[site.index()].give_back(peer, amount)?;
        Ok(Reply::Number(number))
    }

    pub(super) fn spend(
        &mut self,
        site: SiteId,
        amount: u64,
        deadline: u64,
    ) -> Result<Reply<A>, WorldError>
        requires { site_fault self.old site ≡ None }
        ensures { SpendHappens self.old site amount deadline result self.new }
    {
        match self.desks[site.index()].spend(amount, deadline)? {
            Spending::Spent(number) => Ok(Reply::Spent(number)),
            Spending::Queued(ticket) => Ok(Reply::Queued(ticket)),
        }
    }

    pub(super) fn serve(&mut self, site: SiteId) -> Result<Reply<A>, WorldError>
        requires { site_fault self.old site ≡ None }
        ensures { ServeHappens self.old site result self.new }
    {
        match self.desks[site.index()].serve()? {
            Some((ticket, number)) => Ok(Reply::Served(ticket, number)),
            None => Ok(Reply::Nothing),
        }
    }

    pub(super) fn expire(&mut self, site: SiteId, time: u64) -> Result<Reply<A>, WorldError>
        requires { site_fault self.old site ≡ None }
        ensures { ExpireHappens self.old site time result self.new }
    {
        let count = self.desks[site.index()].expire(time)?;
        Ok(Reply::Expired(count))
    }

    pub(super) fn status(&mut self, site: SiteId, ticket: u64) -> Result<Reply<A>, WorldError>
        requires { site_fault self.old site ≡ None }
        ensures { StatusHappens self.old site ticket result self.new }
    {
        let status = self.desks[site.index()].status(ticket);
        Ok(Reply::Tells(status))
    }

    pub(super) fn plan(&mut self, site: SiteId) -> Result<Reply<A>, WorldError>
        requires { site_fault self.old site ≡ None }
        ensures { PlanHappens self.old site result self.new }
    {
        let count = self.desks[site.index()].plan();
        Ok(Reply::Asks(count))
    }

    pub(super) fn close(
        &mut self,
        site: SiteId,
        heir: Option<SiteId>,
    ) -> Result<Reply<A>, WorldError>
        requires { site_fault self.old site ≡ None }
        ensures { CloseHappens self.old site heir result self.new }
    {
        let number = self.desks[site.index()].close(heir)?;
        Ok(Reply::Number(number))
    }
}
