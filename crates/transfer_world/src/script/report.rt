//! The report on all sites and pairs.
ghost use Rattle.std.specs.Prelude.{◌≡◌, ◌++◌, ◌≤◌, Bool, OnOk, codes};
ghost use Rattle.world_core.specs.Worlds.{count};
ghost use Rattle.transfer_world.specs.Replies.{bit, site_line, pair_line, other_line, pair_lines, total_text};
ghost use Rattle.transfer_world.specs.Replies.{report_text};

use line_streams::Replies;
use rights_types::{OutOfMemory, SiteId};
use std::alloc::Allocator;
use world_core::{ForReplies, World};

fn put_bit<A: Allocator>(replies: &mut Replies<A>, is_set: bool) -> Result<(), OutOfMemory>
    ensures ok { OnOk result (replies.new.part ≡ replies.old.part ++ bit is_set) }
    ensures kept { replies.new.whole ≡ replies.old.whole }
{
    replies.put(if is_set { b"1" } else { b"0" })
}

#[tactic(auto, unfolding(crate::specs::Replies::site_line))]
fn put_site<A: Allocator + Copy, B: Allocator>(
    replies: &mut Replies<B>,
    world: &World<A, ForReplies>,
    site: SiteId,
) -> Result<(), OutOfMemory>
    ensures ok { OnOk result (replies.new.part ≡ replies.old.part ++ site_line world.now site) }
    ensures kept { replies.new.whole ≡ replies.old.whole }
{
    replies.put_field(b"site ", site.number())?;
    replies.put_field(b" number ", world.number(site))?;
    replies.put_field(b" issued ", world.issued(site))?;
    replies.put_field(b" spent ", world.spent(site))?;
    replies.put_field(b" held ", world.held(site))?;
    replies.put(b" closed ")?;
    put_bit(replies, world.closed(site))?;
    replies.put(b"\n")
}

#[tactic(auto, unfolding(crate::specs::Replies::pair_line))]
fn put_pair<A: Allocator + Copy, B: Allocator>(
    replies: &mut Replies<B>,
    world: &World<A, ForReplies>,
    site: SiteId,
    origin: SiteId,
) -> Result<(), OutOfMemory>
    ensures ok { OnOk result (replies.new.part ≡ replies.old.part ++ pair_line world.now site origin) }
    ensures kept { replies.new.whole ≡ replies.old.whole }
{
    replies.put_field(b"pair ", site.number())?;
    replies.put_field(b" ", origin.number())?;
    replies.put_field(b" applied ", world.applied_end(site, origin))?;
    replies.put_field(b" put ", world.put_end(site, origin))?;
    replies.put_field(b" way ", world.way(origin, site))?;
    replies.put(b"\n")
}

/// The line of a pair; nothing for a site and itself.
fn put_other<A: Allocator + Copy, B: Allocator>(
    replies: &mut Replies<B>,
    world: &World<A, ForReplies>,
    site: SiteId,
    origin: SiteId,
) -> Result<(), OutOfMemory>
    ensures ok { OnOk result (replies.new.part ≡ replies.old.part ++ other_line world.now site origin) }
    ensures kept { replies.new.whole ≡ replies.old.whole }
{
    if origin == site {
        return Ok(());
    }
    put_pair(replies, world, site, origin)
}

#[tactic(auto, unfolding(crate::specs::Replies::pair_lines))]
fn put_pairs<A: Allocator + Copy, B: Allocator>(
    replies: &mut Replies<B>,
    world: &World<A, ForReplies>,
    site: SiteId,
) -> Result<(), OutOfMemory>
    ensures ok { OnOk result (replies.new.part ≡ replies.old.part ++ pair_lines world.now site) }
    ensures kept { replies.new.whole ≡ replies.old.whole }
{
    for number in 1..world.sites() + 1 {
        put_other(replies, world, site, SiteId::known(number))?;
    }
    Ok(())
}

#[tactic(auto, unfolding(crate::specs::Replies::total_text))]
fn put_total<A: Allocator + Copy, B: Allocator>(
    replies: &mut Replies<B>,
    world: &World<A, ForReplies>,
) -> Result<(), OutOfMemory>
    ensures ok { OnOk result (replies.new.part ≡ replies.old.part ++ total_text world.now) }
    ensures kept { replies.new.whole ≡ replies.old.whole }
{
    let totals = world.totals();
    replies.put_field(b"total issued ", totals.issued)?;
    replies.put_field(b" spent ", totals.spent)?;
    replies.put_field(b" held ", totals.held)?;
    replies.put_field(b" way ", totals.way)
}

/// The report, without its last line feed.
pub(crate) fn put_report<A: Allocator + Copy, B: Allocator>(
    replies: &mut Replies<B>,
    world: &World<A, ForReplies>,
) -> Result<(), OutOfMemory>
    ensures ok { OnOk result (replies.new.part ≡ replies.old.part ++ report_text world.now) }
    ensures kept { replies.new.whole ≡ replies.old.whole }
{
    'sites: for number in 1..world.sites() + 1 {
        put_site(replies, world, SiteId::known(number))?;
    }
    'pairs: for number in 1..world.sites() + 1 {
        put_pairs(replies, world, SiteId::known(number))?;
    }
    put_total(replies, world)
}
