//! Lanes and counters, with one thread and with two.
ghost use Rattle.std.specs.Prelude.{◌≡◌, ◌+◌, ◌≤◌, [], false, true, IfSome};
ghost use Rattle.rights_types.specs.Entries.{EntryValue, IsEntry, own, closes};
ghost use Rattle.thread_parts.specs.Items.{Continues, IsOpen, MayBeFirst, Precedes};

use apply_lanes::laws::ends_taken_in;
use apply_lanes::{Inlet, Item, LaneClosed, Outlet, Shard, SplitCounter, lane};
use rights_types::{Amount, Entry, Frontier, Move, SiteId};
use std::alloc::Global;
use std::marker::Brand;
use std::process::Abort;
use std::sync::ledger::{Blank, Ledger};
use std::sync::{Mutex, Wait};
use std::thread;
use std::thread::Threads;
use test_kit::requests_of;

/// The ends of a new lane with this capacity.
pub(crate) fn lane_of<R: Abort>(rt: &R, alloc: Global, places: usize) -> (Inlet, Outlet)
    requires { (1 ≤ places) × (places ≤ 32) }
    ensures lane { result.1.lane ≡ result.0.lane }
    ensures inlet { result.0.put ≡ [] }
    ensures first { (e : EntryValue) → MayBeFirst e → Continues result.0.put e }
    ensures outlet { result.1.taken ≡ [] }
{
    lane(alloc, places).expect(rt, "a lane")
}

/// An entry of site 2 that issues one right.
pub(crate) fn one(alloc: Global, prev: u64) -> Option<Entry>
    ensures { IfSome result (λ e. IsEntry e × (e.origin ≡ 2) × (e.prev ≡ prev) × (closes e ≡ false)
        × (own e ≡ prev + 1)) }
{
    let mut moves = Vec::new(alloc);
    moves.push(Move::Issue(Amount::known(1))).ok()?;
    Entry::new(SiteId::known(2), prev, moves).ok()
}

/// An entry of site 2 with these moves.
fn entry_of(alloc: Global, prev: u64, moves: &[Move]) -> Option<Entry>
    ensures { IfSome result (λ e. IsEntry e × (e.origin ≡ 2) × (e.prev ≡ prev)) }
{
    let moves = Vec::from_slice(alloc, moves).ok()?;
    Entry::new(SiteId::known(2), prev, moves).ok()
}

/// The first entry of site 2, which issues one right.
fn first<R: Abort>(rt: &R, alloc: Global) -> Entry
    ensures { MayBeFirst result }
{
    one(alloc, 0).expect(rt, "an entry")
}

/// Puts the next entry.
fn put<R: Wait + Abort>(rt: &R, mut inlet: Inlet, entry: Entry) -> Inlet
    requires { Continues inlet.put entry }
    ensures lane { result.lane ≡ inlet.lane }
    ensures open { IsOpen result.put }
    ensures next { (f : EntryValue) → Precedes entry f → Continues result.put f }
{
    assert!(rt; inlet.put(rt, entry).is_ok());
    inlet
}

/// Puts End.
fn end<R: Wait + Abort>(rt: &R, mut inlet: Inlet) -> Inlet
    requires { IsOpen inlet.put }
    ensures { result.lane ≡ inlet.lane }
{
    assert!(rt; inlet.end(rt).is_ok());
    inlet
}

/// Puts an entry of two moves, one that closes its log, and End.
fn put_log<R: Wait + Abort>(
    rt: &R,
    alloc: Global,
    inlet: Inlet,
    gift: &[Move],
    closing: &[Move],
) -> Inlet
    requires { (e : EntryValue) → MayBeFirst e → Continues inlet.put e }
    ensures { result.lane ≡ inlet.lane }
{
    let first = entry_of(alloc, 0, gift).expect(rt, "a gift");
    let last = entry_of(alloc, 2, closing).expect(rt, "a closing entry");
    assert!(rt; !first.closes() && first.own() == 2 && last.closes());
    let inlet = put(rt, inlet, first);
    let inlet = put(rt, inlet, last);
    end(rt, inlet)
}

/// Puts this number of entries, and then End.
fn put_all<R: Wait + Abort>(rt: &R, alloc: Global, mut inlet: Inlet, count: u64) -> Inlet
    requires { inlet.put ≡ [] }
    ensures { result.lane ≡ inlet.lane }
{
    for number in 0..count {
        let entry = one(alloc, number).expect(rt, "an entry");
        assert!(rt; inlet.put(rt, entry).is_ok());
    }
    end(rt, inlet)
}

/// The entry that is returned if the lane is closed.
fn refused<R: Wait>(rt: &R, inlet: &mut Inlet, entry: Entry) -> Option<Entry>
    requires { Continues inlet.old.put entry }
    ensures { IfSome result (λ back. (back ≡ entry) × (inlet.new.put ≡ inlet.old.put)) }
{
    match inlet.put(rt, entry) {
        Ok(()) => None,
        Err(LaneClosed { entry }) => entry,
    }
}

/// Whether the next item is the entry of site 2 between these numbers.
fn takes<R: Wait>(rt: &R, outlet: &mut Outlet, prev: u64, own: u64) -> bool
    requires { IsOpen outlet.old.taken }
    ensures lane { outlet.new.lane ≡ outlet.old.lane }
    ensures open { result ≡ true → IsOpen outlet.new.taken }
{
    match outlet.take(rt) {
        Ok(Item::Entry(entry)) => is_between(&entry, prev, own),
        _ => false,
    }
}

/// Whether the next item is that entry, with these moves.
fn takes_moves<R: Wait>(rt: &R, outlet: &mut Outlet, prev: u64, own: u64, moves: &[Move]) -> bool
    requires { IsOpen outlet.old.taken }
    ensures lane { outlet.new.lane ≡ outlet.old.lane }
    ensures open { result ≡ true → IsOpen outlet.new.taken }
{
    match outlet.take(rt) {
        Ok(Item::Entry(entry)) => is_between(&entry, prev, own) && entry.moves() == moves,
        _ => false,
    }
}

/// Whether it is the entry of site 2 between these numbers.
fn is_between(entry: &Entry, prev: u64, own: u64) -> bool {
    entry.origin() == SiteId::known(2) && entry.prev() == prev && entry.own() == own
}

/// Whether the next item is End.
fn takes_end<R: Wait>(rt: &R, outlet: &mut Outlet) -> bool
    requires { IsOpen outlet.old.taken }
    ensures { outlet.new.lane ≡ outlet.old.lane }
{
    matches!(outlet.take(rt), Ok(Item::End))
}

/// Takes all items up to End: how many entries were taken, and whether each came after the one before it.
fn take_all<R: Wait>(rt: &R, mut outlet: Outlet) -> (Outlet, u64, bool)
    requires { outlet.taken ≡ [] }
    ensures { result.0.lane ≡ outlet.lane }
{
    let mut count = 0u64;
    let mut in_order = true;
    for _ in rt.forever() {
        match outlet.take(rt) {
            Ok(Item::Entry(entry)) => {
                if entry.prev() != count {
                    in_order = false;
                }
                count = count.wrapping_add(1);
            }
            Ok(Item::End) => break,
            Err(_) => {
                in_order = false;
                break;
            }
        }
    }
    (outlet, count, in_order)
}

/// A thousand entries pass through a lane of capacity one between two threads, in order.
#[test]
fn a_thousand_entries_between_two_threads(rt: HostRuntime) {
    let alloc = rt.alloc();
    let (inlet, outlet) = lane_of(&rt, alloc, 1);
    let (inlet, (outlet, count, in_order)) = thread::join(
        &rt,
        || -> Inlet
            requires { inlet.put ≡ [] }
            ensures { result.lane ≡ inlet.lane }
        { put_all(&rt, alloc, inlet, 1000) },
        || -> (Outlet, u64, bool)
            requires { outlet.taken ≡ [] }
            ensures { result.0.lane ≡ outlet.lane }
        { take_all(&rt, outlet) },
    );
    let _outlet = ends_taken_in(inlet, outlet);
    assert!(rt; count == 1000 && in_order);
}

/// What is put is taken, and then End.
#[test]
fn an_entry_and_end(rt: HostRuntime) {
    let (inlet, mut outlet) = lane_of(&rt, rt.alloc(), 2);
    let inlet = put(&rt, inlet, first(&rt, rt.alloc()));
    let inlet = end(&rt, inlet);
    assert!(rt; takes(&rt, &mut outlet, 0, 1));
    assert!(rt; takes_end(&rt, &mut outlet));
    let _outlet = ends_taken_in(inlet, outlet);
}

/// An entry of two moves and the one that closes the log are taken as they were put, and then End.
#[test]
fn a_log_to_its_closing_entry(rt: HostRuntime) {
    let gift = [
        Move::Issue(Amount::known(5)),
        Move::Give {
            peer: SiteId::known(1),
            amount: Amount::known(5),
        },
    ];
    let frontier = Frontier::new(&[7, 0]).expect(&rt, "a frontier");
    let closing = [Move::CloseAt(frontier)];
    let (inlet, mut outlet) = lane_of(&rt, rt.alloc(), 3);
    let inlet = put_log(&rt, rt.alloc(), inlet, &gift, &closing);
    assert!(rt; takes_moves(&rt, &mut outlet, 0, 2, &gift));
    assert!(rt; takes_moves(&rt, &mut outlet, 2, 3, &closing));
    assert!(rt; takes_end(&rt, &mut outlet));
    let _outlet = ends_taken_in(inlet, outlet);
}

// Whether the entry is returned, and again if it is put once more.
fn is_refused_twice<R: Wait>(rt: &R, inlet: &mut Inlet, entry: Entry) -> bool
    requires { Continues inlet.old.put entry }
    ensures { result ≡ true → inlet.new.put ≡ inlet.old.put }
{
    let Some(entry) = refused(rt, inlet, entry) else {
        return false;
    };
    entry.own() == 1 && refused(rt, inlet, entry).is_some_and(|back| back.own() == 1)
}

/// Once the outlet is gone, an entry is returned, in each later call too.
#[test]
fn no_outlet(rt: HostRuntime) {
    let (mut inlet, outlet) = lane_of(&rt, rt.alloc(), 1);
    drop(outlet);
    assert!(rt; is_refused_twice(&rt, &mut inlet, first(&rt, rt.alloc())));
    assert!(rt; inlet.end(&rt).is_err());
}

/// Once the inlet is gone, what waits is taken, and then the lane is closed.
#[test]
fn no_inlet(rt: HostRuntime) {
    let (inlet, mut outlet) = lane_of(&rt, rt.alloc(), 2);
    drop(put(&rt, inlet, first(&rt, rt.alloc())));
    assert!(rt; takes(&rt, &mut outlet, 0, 1));
    assert!(rt; outlet.take(&rt).is_err());
    assert!(rt; outlet.take(&rt).is_err());
}

/// Each memory request of a lane is refused in turn, until the lane is made.
#[test]
fn each_growth_of_a_lane_refused(rt: HostRuntime) {
    let requests = requests_of(
        rt.alloc(),
        |memory| lane(memory, 32).is_ok() != memory.refused(),
    );
    assert!(rt; requests.is_some_and(|count| count > 0));
}

/// Adds one this number of times, and returns the shard.
fn add_ones<L: Ledger, R: Wait>(
    rt: &R,
    counter: &Mutex<SplitCounter<L>>,
    mut shard: Shard<L>,
    times: u64,
) -> Shard<L> {
    for _ in 0..times {
        let mut sum = counter.lock(rt);
        if sum.sum() < 1000 {
            sum.add(&mut shard, 1);
        }
    }
    shard
}

/// Two threads add to one sum, each with its shard: when both are back, the sum is what they report.
fn two_shards<L: Ledger + Send + Sync, R: Threads + Wait + Abort + Sync>(rt: &R, blank: Blank)
    requires name { blank.name ≡ L.name }
    requires parts { (blank.parts ≡ L.parts) × (L.parts ≡ 3) }
{
    let mut counter = SplitCounter::<L>::open(blank, 2);
    let first = counter.split().expect(rt, "a shard");
    let second = counter.split().expect(rt, "another");
    assert!(rt; counter.split().is_none(), "a third shard");
    let counter = Mutex::new(counter);
    let shared = &counter;
    let (first, second) = thread::join(
        rt,
        move || add_ones(rt, shared, first, 10),
        move || add_ones(rt, shared, second, 20),
    );
    let mut counter = counter.into_inner();
    assert!(rt; counter.left() == 0, "both shards are out");
    let told = (counter.collect(first), counter.collect(second));
    assert!(rt; counter.left() == 2, "both shards are back");
    counter.reconcile();
    assert!(rt; told == (10, 20) && counter.sum() == 30, "the sum");
}

#[test]
fn two_threads_add_to_a_counter(rt: HostRuntime) {
    two_shards::<Brand, HostRuntime>(&rt, Blank::new(3));
}
