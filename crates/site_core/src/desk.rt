//! The desk of one site.
ghost use Rattle.std.specs.Prelude.{◌≡◌, ℕ, ◌≤◌, [], IfOk};

use crate::ledger::Ledger;
use request_queue::RequestQueue;
use rights_types::{OutOfMemory, SiteId};
use std::alloc::{Allocator, Global};
use std::marker::Model;
use transfer_manager::Manager;

mod asks;
mod entries;
mod readers;
mod replaying;
mod requests;
mod retiring;
mod streams;

pub use asks::AskReply;
pub use requests::Spending;

/// One site: its log and book, the spends that wait, its asks, and the time of the last expiry.
///
/// A refused call changes nothing. `OutOfMemory` is the last cause of each call, and comes only if a memory request
/// was refused.
#[derive(Drop)]
pub struct Desk<A: Allocator = Global> {
    ledger: Ledger<A>,
    queue: RequestQueue<A>,
    manager: Manager,
    time: u64,
    alloc: A,
}

impl<A: Allocator> Model for Desk<A> {
    ghost use Rattle.site_core.specs.Desks.{DeskValue, IsDesk};

    ghost Value = { DeskValue };

    ghost view = { λ d. record { ledger = d.ledger; queue = d.queue; manager = d.manager; time = d.time } };

    ghost invariant = { λ d. IsDesk
        (record { ledger = d.ledger; queue = d.queue; manager = d.manager; time = d.time }) };
}

impl<A: Allocator + Copy> Desk<A> {
    ghost use Rattle.rights_types.specs.declared.limits.TheConstants.{MIN_SITES, MAX_SITES};
    ghost use Rattle.site_core.specs.Ledgers.{HasApplied};
    ghost use Rattle.site_core.specs.Desks.{new_desk};

    /// The desk of site `me` in a system of `sites` sites, 2 to 16, at the start. `OutOfMemory` if its memory is
    /// refused.
    pub fn new(alloc: A, me: SiteId, sites: u64) -> Result<Desk<A>, OutOfMemory>
        requires sites { (MIN_SITES ≤ sites) × (sites ≤ MAX_SITES) }
        requires me { me ≤ sites }
        ensures made { IfOk result (λ d. d ≡ new_desk me sites) }
        ensures applied { IfOk result (λ d. HasApplied (λ o. []) d.ledger) }
    {
        Ok(Desk {
            ledger: Ledger::new(alloc, me, sites)?,
            queue: RequestQueue::new(alloc)?,
            manager: Manager::new(me, sites),
            time: 0,
            alloc,
        })
    }
}
