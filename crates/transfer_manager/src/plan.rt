//! Which peers are asked, and for how much.
ghost use Rattle.std.specs.Prelude.{◌≡◌, ℕ, ◌+◌, ◌-◌, ◌<◌, ◌≤◌, length, if◌then◌else◌};
ghost use Rattle.rights_types.specs.Places.{at_site};
ghost use Rattle.transfer_manager.specs.SiteSets.{has_site};
ghost use Rattle.rights_types.specs.Rights.{sum_sites};
ghost use Rattle.rights_book.specs.Books.{IsBook, held_by};
ghost use Rattle.request_queue.specs.Queues.{total_of};
ghost use Rattle.transfer_manager.specs.Managers.{no_asks, amount_of, with_asked, IsPeerAsks};
ghost use Rattle.transfer_manager.specs.Plans.{of_book, beside, without_closed, expected, eligible_rights};
ghost use Rattle.transfer_manager.specs.Plans.{rights_before, amount_asked, count_asked};

use crate::peer_asks::PeerAsks;
use crate::site_set::SiteSet;
use request_queue::RequestQueue;
use rights_book::{Book, MAX_KNOWN};
use rights_types::{Amount, MAX_AMOUNT, MAX_ASK, MAX_SITES, SiteId};
use std::alloc::Allocator;

/// Ends each outstanding ask to a peer that is known to have closed.
pub(crate) fn end_closed<A: Allocator>(peers: &mut [PeerAsks], book: &Book<A>)
    requires { length peers.old ≤ MAX_SITES }
    ensures { (j : ℕ) → 1 ≤ j → j ≤ length peers.old →
        at_site peers.new j no_asks ≡ without_closed (of_book book.now) j (at_site peers.old j no_asks) }
{
    for place in 0..peers.len() {
        if book.closed(site_at(place)) {
            peers[place].outstanding = None;
        }
    }
}

/// The rights that the site's waiting requests need beyond those that it holds and expects of the peers that it asked.
/// A silent peer is expected to send none.
pub(crate) fn need<A: Allocator, B: Allocator>(
    peers: &[PeerAsks],
    book: &Book<A>,
    queue: &RequestQueue<B>,
    silent: &SiteSet,
) -> u64
    requires few { length peers.now ≤ MAX_SITES }
    requires amounts { (j : ℕ) → amount_of (at_site peers.now j no_asks).outstanding ≤ MAX_AMOUNT }
    ensures value { result ≡ (total_of queue.now.waiting - held_by book.now)
        - sum_sites (length peers.now)
        (λ j. expected (beside (has_site silent.now) (of_book book.now)) j (at_site peers.now j no_asks)) }
    ensures valid { IsBook book.now }
{
    let mut expected = 0;
    for place in 0..peers.len() {
        expected += expected_of(&peers[place], silent, site_at(place));
    }
    queue
        .total()
        .saturating_sub(book.held())
        .saturating_sub(expected)
}

/// For each site, from site 1 on, the rights that it is known to have if it is eligible, else 0.
pub(crate) fn eligible_rights<A: Allocator>(
    me: SiteId,
    peers: &[PeerAsks],
    book: &Book<A>,
    silent: &SiteSet,
) -> [u128; 16]
    requires { length peers.now ≤ MAX_SITES }
    ensures whole { length result ≡ MAX_SITES }
    ensures each { (j : ℕ) → 1 ≤ j → j ≤ length peers.now → at_site result j 0
        ≡ eligible_rights me (beside (has_site silent.now) (of_book book.now)) j (at_site peers.now j no_asks) }
    ensures bounded { (j : ℕ) → at_site result j 0 ≤ MAX_KNOWN }
{
    let mut rights = [0u128; 16];
    for place in 0..peers.len() {
        rights[place] = rights_if_eligible(me, &peers[place], book, silent, site_at(place));
    }
    rights
}

/// Asks each peer for its amount, and returns how many were asked.
pub(crate) fn ask_each(peers: &mut [PeerAsks], rights: &[u128], need: u64) -> u64
    requires few { length peers.old ≤ MAX_SITES }
    requires same { length rights.now ≡ length peers.old }
    requires bounded { (j : ℕ) → at_site rights.now j 0 ≤ MAX_KNOWN }
    requires numbers { (j : ℕ) → 0 < at_site rights.now j 0 → (at_site peers.old j no_asks).last_ask < MAX_ASK }
    ensures each { (j : ℕ) → 1 ≤ j → j ≤ length peers.old → at_site peers.new j no_asks
        ≡ with_asked (at_site peers.old j no_asks)
        (amount_asked (length peers.old) (λ i. at_site rights.now i 0) need j) }
    ensures count { result ≡ count_asked (length peers.old)
        (amount_asked (length peers.old) (λ i. at_site rights.now i 0) need) }
{
    let mut count = 0;
    for place in 0..peers.len() {
        if let Ok(amount) = Amount::new(amount_asked(rights, place, need)) {
            peers[place].ask(amount);
            count += 1;
        }
    }
    count
}

// The amount that the site at this index is asked for; 0 if it is not asked.
fn amount_asked(rights: &[u128], place: usize, need: u64) -> u64
    requires few { length rights.now ≤ MAX_SITES }
    requires place { place < length rights.now }
    requires bounded { (j : ℕ) → at_site rights.now j 0 ≤ MAX_KNOWN }
    ensures value { result ≡ amount_asked (length rights.now) (λ i. at_site rights.now i 0) need (place + 1) }
    ensures range { result ≤ MAX_AMOUNT }
{
    let left = need_after(rights, place, need);
    rights[place].min(left as u128).min(MAX_AMOUNT as u128) as u64
}

// What is still needed after the sites that come before the one at this index: those that have more, and those that
// have the same and a smaller number.
fn need_after(rights: &[u128], place: usize, need: u64) -> u64
    requires few { length rights.now ≤ MAX_SITES }
    requires place { place < length rights.now }
    requires bounded { (j : ℕ) → at_site rights.now j 0 ≤ MAX_KNOWN }
    ensures { result ≡ need - rights_before (length rights.now) (λ i. at_site rights.now i 0) (place + 1) }
{
    let own = rights[place];
    let mut left = need as u128;
    for other in 0..rights.len() {
        // Mostly a few sites have all that is needed.
        if left == 0 {
            return 0;
        }
        let has = rights[other];
        if has > own || has == own && other < place {
            left = left.saturating_sub(has);
        }
    }
    left as u64
}

// The rights of the outstanding ask to this peer; 0 if there is none, or if the peer is silent.
fn expected_of(asks: &PeerAsks, silent: &SiteSet, site: SiteId) -> u64
    ensures { result ≡ if has_site silent.now site then 0 else amount_of asks.now.outstanding }
{
    if silent.contains(site) {
        return 0;
    }
    asks.outstanding_amount()
}

// The rights that the site is known to have if it is eligible, else 0. A peer is eligible if it has no ask
// outstanding, is not known to have closed, is not silent, has an ask number left and is known to have rights.
fn rights_if_eligible<A: Allocator>(
    me: SiteId,
    asks: &PeerAsks,
    book: &Book<A>,
    silent: &SiteSet,
    site: SiteId,
) -> u128
    ensures value { result
        ≡ eligible_rights me (beside (has_site silent.now) (of_book book.now)) site asks.now }
    ensures range { result ≤ MAX_KNOWN }
{
    if site == me || asks.outstanding.is_some() || book.closed(site) {
        return 0;
    }
    if silent.contains(site) || asks.last_ask >= MAX_ASK {
        return 0;
    }
    book.known(site).max(0) as u128
}

// The site at an index of a list that begins with site 1.
fn site_at(place: usize) -> SiteId
    requires { place < MAX_SITES }
    ensures { result ≡ place + 1 }
{
    SiteId::known(place as u64 + 1)
}
