//! All sites, and all packets ever sent, for which the headline holds.
ghost use Rattle.std.specs.Prelude.{◌≡◌, ◌≤◌, [], IfOk, IsOk, OnErr};
ghost use Rattle.rights_types.specs.declared.limits.TheConstants.{MIN_SITES, MAX_SITES};
ghost use Rattle.world_core.specs.Worlds.{start, ended};
ghost use Rattle.world_core.specs.Step.{Step, Runs};
ghost use Rattle.world_core.specs.Headline.{Headline};
ghost use Rattle.world_core.specs.Refinement.{Refines};

mod readers;

use crate::event::Event;
use crate::fault::WorldError;
use crate::keeping::{ForReaders, ForReplies, Keeping};
use crate::reply::Reply;
use crate::system::System;
pub use readers::Totals;
use rights_types::{MAX_SITES, MIN_SITES, OutOfMemory};
use std::alloc::{Allocator, Global};
use std::marker::Model;

/// All sites, and all packets ever sent. After lack of memory the world has ended.
#[derive(Drop)]
pub struct World<A: Allocator = Global, K: Keeping = ForReaders> {
    system: System<A, K>,
}

impl<A: Allocator, K: Keeping> Model for World<A, K> {
    ghost use Rattle.world_core.specs.Values.{WorldValue};
    ghost use Rattle.world_core.specs.Sound.{IsWorld};

    ghost Value = { WorldValue };

    ghost view = { λ w. w.system };

    ghost invariant = { λ w. IsWorld w.system };
}

impl<A: Allocator + Copy> World<A, ForReaders> {
    /// A world of `sites` sites, 2 to 16, at the start. `OutOfMemory` if its memory is refused.
    pub fn new(alloc: A, sites: u64) -> Result<World<A, ForReaders>, OutOfMemory>
        requires { (MIN_SITES ≤ sites) × (sites ≤ MAX_SITES) }
        ensures { IfOk result (λ world. world ≡ start sites) }
    {
        World::start(alloc, sites)
    }
}

impl<A: Allocator + Copy> World<A, ForReplies> {
    /// The same for callers that read only replies, such as a script: entries that were applied take no memory.
    pub fn for_replies(alloc: A, sites: u64) -> Result<World<A, ForReplies>, OutOfMemory>
        requires { (MIN_SITES ≤ sites) × (sites ≤ MAX_SITES) }
        ensures { IfOk result (λ world. world ≡ start sites) }
    {
        World::start(alloc, sites)
    }
}

impl<A: Allocator + Copy, K: Keeping> World<A, K> {
    // Both of the above, which differ only in what the links keep.
    fn start(alloc: A, sites: u64) -> Result<World<A, K>, OutOfMemory>
        requires { (MIN_SITES ≤ sites) × (sites ≤ MAX_SITES) }
        ensures { IfOk result (λ world. world ≡ start sites) }
    {
        Ok(World {
            system: System::new(alloc, sites)?,
        })
    }

    /// Lets one event happen. A refusal changes nothing, except that after `OutOfMemory` every later event is answered
    /// `Ended`, and a query that met it may count as sent. Errors: see `WorldError`.
    pub fn step(&mut self, event: Event<A>) -> Result<Reply<A>, WorldError>
        ensures { Step self.old event result self.new }
    {
        self.system.happen(&event)
    }

    /// Lets events happen one after another, and returns their outcomes in order. If there is no memory for the
    /// outcomes, nothing happens, except that the world has ended. The outcomes of no events take no memory.
    pub fn run(
        &mut self,
        events: &[Event<A>],
    ) -> Result<Vec<Result<Reply<A>, WorldError>, A>, OutOfMemory>
        ensures runs { IfOk result (λ outcomes. Runs self.old events.now outcomes.items self.new) }
        ensures err { OnErr result (self.new ≡ ended self.old) }
        ensures memory { events.now ≡ [] → IsOk result }
        ensures headline { Headline self.new }
        ensures refines { Refines self.old self.new }
    {
        let alloc = self.system.allocator();
        let Ok(mut outcomes) = Vec::with_capacity(alloc, events.len()) else {
            self.system.end();
            return Err(OutOfMemory);
        };
        for event in events {
            let outcome = self.system.happen(event);
            outcomes.push_reserved(outcome);
        }
        Ok(outcomes)
    }
}

impl<A: Allocator, K: Keeping> World<A, K> {
    /// The headline holds of every world.
    pub fn headline(&self)
        ensures { Headline self.now }
    {
        // For the proof: the invariant of the world.
        let _ = &self.system;
    }
}
