//! Runs of events with ample memory, all of whose replies are compared.
use rights_types::{Amount, Entry, Move, OutOfMemory, SiteId};
use std::alloc::Global;
use test_kit::{give, issue};
use transfer_world::{EntryVerdict, Event, Moves, Reply, World, WorldError};

/// The greatest amount.
const MOST: u64 = 1_000_000_000;

/// How many times both sites post.
const ROUNDS: u64 = 150;

/// The moves of the largest entry: sixteen, each of the greatest amount.
fn largest(alloc: Global, peer: SiteId) -> Result<Vec<Move>, OutOfMemory> {
    let amount = Amount::known(MOST);
    let mut moves = [Move::Issue(amount); 16];
    for place in 0..4 {
        moves[8 + place] = Move::Give { peer, amount };
        moves[12 + place] = Move::Spend(amount);
    }
    Ok(Vec::from_slice(alloc, &moves)?)
}

/// Whether the reply is that one entry became ready, with this own number.
fn is_ready(outcome: &Result<Reply, WorldError>, number: u64) -> bool {
    let Ok(Reply::Verdicts(verdicts)) = outcome else {
        return false;
    };
    matches!(verdicts.as_slice(), [EntryVerdict::Ready(own)] if *own == number)
}

/// Whether these are the replies to a post, a publish, an arrival and two takes.
fn is_round(outcomes: &[Result<Reply, WorldError>], number: u64, packet: u64) -> bool {
    let [posted, sent, arrived, taken, nothing] = outcomes else {
        return false;
    };
    matches!(posted, Ok(Reply::Number(n)) if *n == number)
        && matches!(sent, Ok(Reply::Packet(p)) if *p == packet)
        && is_ready(arrived, number)
        && matches!(taken, Ok(Reply::Taken(n)) if *n == number)
        && matches!(nothing, Ok(Reply::Nothing))
}

/// Whether it is the entry with this origin, previous number and moves.
fn is_entry(entry: &Entry, origin: SiteId, prev: u64, moves: &[Move]) -> bool {
    entry.origin() == origin
        && entry.prev() == prev
        && entry.own() == prev + moves.len() as u64
        && entry.moves() == moves
}

/// Adds the events of one round, in which a site posts a largest entry for its peer.
fn add_round(
    alloc: Global,
    events: &mut Vec<Event>,
    site: SiteId,
    peer: SiteId,
    packet: u64,
) -> Result<(), OutOfMemory> {
    events.push(Event::Post(site, Moves::new(largest(alloc, peer)?)))?;
    events.push(Event::Publish(site, peer))?;
    events.push(Event::Arrive(peer, packet))?;
    events.push(Event::Take(peer, site))?;
    events.push(Event::Take(peer, site))?;
    Ok(())
}

/// The events of all rounds, in each of which both sites post.
fn all_rounds(alloc: Global, one: SiteId, two: SiteId) -> Result<Vec<Event>, OutOfMemory> {
    let mut events = Vec::new(alloc);
    for round in 0..ROUNDS {
        add_round(alloc, &mut events, one, two, 2 * round + 1)?;
        add_round(alloc, &mut events, two, one, 2 * round + 2)?;
    }
    Ok(events)
}

/// The first packet at which the outcomes differ from those of all rounds, or of more rounds.
fn wrong_packet(outcomes: &[Result<Reply, WorldError>]) -> Option<u64> {
    let mut rest = outcomes;
    for round in 0..ROUNDS {
        for packet in [2 * round + 1, 2 * round + 2] {
            let Some((replies, more)) = rest.split_at_checked(5) else {
                return Some(packet);
            };
            if !is_round(replies, 16 * (round + 1), packet) {
                return Some(packet);
            }
            rest = more;
        }
    }
    if rest.is_empty() {
        None
    } else {
        Some(2 * ROUNDS + 1)
    }
}

/// Whether the log has an entry of these moves for each round.
fn is_log(log: &[Entry], site: SiteId, moves: &[Move]) -> bool {
    let mut prev = 0u64;
    for entry in log {
        if !is_entry(entry, site, prev, moves) {
            return false;
        }
        prev = entry.own();
    }
    log.len() as u64 == ROUNDS
}

/// Whether a site wrote its entries of all rounds, and has the rights that remain.
fn has_all_rounds(alloc: Global, world: &World, site: SiteId, peer: SiteId) -> bool {
    match (world.log(site), largest(alloc, peer)) {
        (Ok(log), Ok(moves)) => is_log(&log, site, &moves) && has_rights(world, site, peer),
        _ => false,
    }
}

/// Several hundred rounds of largest entries, from each of two sites to the other.
#[test]
fn many_rounds(rt: HostRuntime) {
    let (one, two) = (SiteId::known(1), SiteId::known(2));
    let mut world = World::new(rt.alloc(), 2).expect(&rt, "memory");
    let events = all_rounds(rt.alloc(), one, two).expect(&rt, "memory");
    let outcomes = world.run(&events).expect(&rt, "memory");
    assert!(rt; wrong_packet(&outcomes).is_none());
    assert!(rt; has_all_rounds(rt.alloc(), &world, one, two));
    assert!(rt; has_all_rounds(rt.alloc(), &world, two, one));
}

/// Whether the site's sums are those of all rounds.
fn has_rights(world: &World, site: SiteId, peer: SiteId) -> bool {
    world.issued(site) == 8 * MOST * ROUNDS
        && world.spent(site) == 4 * MOST * ROUNDS
        && world.held(site) == 4 * MOST * ROUNDS
        && world.way(site, peer) == 0
}

/// A post of these moves: its entry is sent, arrives and is taken.
fn one_round(
    alloc: Global,
    one: SiteId,
    two: SiteId,
    moves: &[Move],
) -> Result<Vec<Event>, OutOfMemory> {
    let mut events = Vec::new(alloc);
    let copy = Vec::from_slice(alloc, moves)?;
    events.push(Event::Post(one, Moves::new(copy)))?;
    events.push(Event::Publish(one, two))?;
    events.push(Event::Arrive(two, 1))?;
    events.push(Event::Take(two, one))?;
    events.push(Event::Take(two, one))?;
    Ok(events)
}

/// Whether the site's log is one entry with these moves.
fn has_written(world: &World, site: SiteId, moves: &[Move]) -> bool {
    let Ok(log) = world.log(site) else {
        return false;
    };
    match log.as_slice() {
        [entry] => is_entry(entry, site, 0, moves),
        _ => false,
    }
}

/// Whether the replies to these events are those of the first round, with two moves.
fn runs_as_round(world: &mut World, events: &[Event]) -> bool {
    match world.run(events) {
        Ok(outcomes) => is_round(&outcomes, 2, 1),
        Err(OutOfMemory) => false,
    }
}

/// Whether one site has given 3 of 10 rights to the other, in the first packet.
fn has_given(world: &World, one: SiteId, two: SiteId) -> bool {
    world.held(one) == 7
        && world.held(two) == 3
        && world.packet(1) == Some(b"E 1 0 2 I:10 R:2:3\n".as_slice())
}

/// A run of events replies to each of them, and the log can be copied.
#[test]
fn a_run_of_events(rt: HostRuntime) {
    let (one, two) = (SiteId::known(1), SiteId::known(2));
    let moves = [issue(10), give(2, 3)];
    let mut world = World::new(rt.alloc(), 2).expect(&rt, "memory");
    let events = one_round(rt.alloc(), one, two, &moves).expect(&rt, "memory");
    assert!(rt; runs_as_round(&mut world, &events));
    assert!(rt; has_given(&world, one, two));
    assert!(rt; has_written(&world, one, &moves));
}
