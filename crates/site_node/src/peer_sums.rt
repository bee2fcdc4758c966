//! The report of what is known of each other site.
ghost use Rattle.std.specs.Prelude.{◌≡◌, ◌++◌, [], OnOk, OnErr};
ghost use Rattle.line_streams.specs.Waiting.{AddsReply};
ghost use Rattle.rights_types.specs.Ranges.{IsSite};
ghost use Rattle.rights_book.specs.Books.{sites};
ghost use Rattle.site_node.specs.PeerSums.{comma_before, last_members, log_members, peer_item, peer_items, peers_text};
ghost use Rattle.site_node.specs.PeerSums.{rights_members, sums_text, truth};

use itoa::{Buffer, Integer};
use line_streams::Replies;
use rights_book::SiteSums;
use rights_types::{OutOfMemory, SiteId};
use site_core::Desk;
use std::alloc::Allocator;

/// Appends the report of what the desk knows of each other site, in order of their numbers. On `Err` the current reply
/// may have a part of it.
pub fn answer_peers<A: Allocator>(replies: &mut Replies<A>, desk: &Desk) -> Result<(), OutOfMemory>
    requires { replies.old.part ≡ [] }
    ensures ok { OnOk result (AddsReply replies.old replies.new (peers_text desk.now)) }
    ensures kept { OnErr result (replies.new.whole ≡ replies.old.whole) }
{
    replies.put(b"{\"peers\":[")?;
    put_items(replies, desk)?;
    replies.put_field(b"],\"site\":", desk.site().number())?;
    replies.put(b"}")?;
    replies.finish()
}

fn put_items<A: Allocator>(replies: &mut Replies<A>, desk: &Desk) -> Result<(), OutOfMemory>
    ensures ok { OnOk result (replies.new.part ≡ replies.old.part ++ peer_items desk.now (sites desk.now.ledger.book)) }
    ensures kept { replies.new.whole ≡ replies.old.whole }
{
    for index in 0..desk.sites() {
        put_item(replies, desk, index + 1)?;
    }
    Ok(())
}

#[tactic(auto, unfolding(crate::specs::PeerSums::peer_item))]
fn put_item<A: Allocator>(
    replies: &mut Replies<A>,
    desk: &Desk,
    number: u64,
) -> Result<(), OutOfMemory>
    requires { IsSite number }
    ensures ok { OnOk result (replies.new.part ≡ replies.old.part ++ peer_item desk.now number) }
    ensures kept { replies.new.whole ≡ replies.old.whole }
{
    let own = desk.site().number();
    if number == own {
        return Ok(());
    }
    put_comma(replies, own, number)?;
    let site = SiteId::known(number);
    put_sums(replies, &desk.sums(site), desk.known(site))
}

/// Appends the comma before this peer, if it is not the first one.
fn put_comma<A: Allocator>(
    replies: &mut Replies<A>,
    own: u64,
    number: u64,
) -> Result<(), OutOfMemory>
    ensures ok { OnOk result (replies.new.part ≡ replies.old.part ++ comma_before own number) }
    ensures kept { replies.new.whole ≡ replies.old.whole }
{
    let first = if own == 1 { 2 } else { 1 };
    if number == first {
        Ok(())
    } else {
        replies.put(b",")
    }
}

/// Appends what is known of a site, and of the rights that it holds, as an object.
fn put_sums<A: Allocator>(
    replies: &mut Replies<A>,
    sums: &SiteSums,
    held: i128,
) -> Result<(), OutOfMemory>
    ensures ok { OnOk result (replies.new.part ≡ replies.old.part ++ sums_text sums.now held) }
    ensures kept { replies.new.whole ≡ replies.old.whole }
{
    put_log(replies, sums)?;
    put_rights(replies, sums, held)?;
    put_last(replies, sums)
}

fn put_log<A: Allocator>(replies: &mut Replies<A>, sums: &SiteSums) -> Result<(), OutOfMemory>
    ensures ok { OnOk result (replies.new.part ≡ replies.old.part ++ log_members sums.now) }
    ensures kept { replies.new.whole ≡ replies.old.whole }
{
    replies.put_field(b"{\"applied\":", sums.end)?;
    replies.put(b",\"closed\":")?;
    replies.put(truth(sums.closed))
}

#[tactic(auto, unfolding(crate::specs::PeerSums::rights_members))]
fn put_rights<A: Allocator>(
    replies: &mut Replies<A>,
    sums: &SiteSums,
    held: i128,
) -> Result<(), OutOfMemory>
    ensures ok { OnOk result (replies.new.part ≡ replies.old.part ++ rights_members sums.now held) }
    ensures kept { replies.new.whole ≡ replies.old.whole }
{
    replies.put_field(b",\"given\":", sums.given)?;
    put_integer(replies, b",\"held\":", held)?;
    replies.put_field(b",\"issued\":", sums.issued)?;
    replies.put_field(b",\"received\":", sums.received)
}

fn put_last<A: Allocator>(replies: &mut Replies<A>, sums: &SiteSums) -> Result<(), OutOfMemory>
    ensures ok { OnOk result (replies.new.part ≡ replies.old.part ++ last_members sums.now) }
    ensures kept { replies.new.whole ≡ replies.old.whole }
{
    replies.put_field(b",\"site\":", sums.site.number())?;
    replies.put_field(b",\"spent\":", sums.spent)?;
    put_integer(replies, b",\"taken_back\":", sums.taken_back)?;
    replies.put(b"}")
}

fn truth(is_so: bool) -> &'static [u8]
    ensures { result.now ≡ truth is_so }
{
    if is_so { b"true" } else { b"false" }
}

/// Appends a word and an integer of any width.
fn put_integer<A: Allocator, I: Integer>(
    replies: &mut Replies<A>,
    word: &[u8],
    number: I,
) -> Result<(), OutOfMemory>
    ensures ok { OnOk result (replies.new.part ≡ replies.old.part ++ word.now ++ I.text number) }
    ensures kept { replies.new.whole ≡ replies.old.whole }
{
    let mut digits = Buffer::new();
    replies.put(word)?;
    replies.put(digits.format(number).as_bytes())
}
