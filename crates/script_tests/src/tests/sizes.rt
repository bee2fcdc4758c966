//! Entries of each size, 1 to 16 moves, through events and through a script.
use crate::tests::is_replied;
use rights_types::{Entry, Move, OutOfMemory};
use std::alloc::{AllocError, Global};
use test_kit::{give, is_entry, issue, site, spend};
use transfer_world::{EntryVerdict, Event, Moves, Reply, World, WorldError};

/// The move at an index of an entry, and its text.
fn move_at(place: usize) -> (Move, &'static [u8]) {
    match place % 3 {
        0 => (issue(20), b" I:20"),
        1 => (spend(4), b" S:4"),
        _ => (give(2, 3), b" R:2:3"),
    }
}

fn moves(alloc: Global, count: usize) -> Result<Vec<Move>, OutOfMemory> {
    let mut moves = Vec::with_capacity(alloc, count)?;
    for place in 0..count {
        moves.push(move_at(place).0)?;
    }
    Ok(moves)
}

/// An entry is posted, sent, arrives and is taken.
fn add_events(
    alloc: Global,
    events: &mut Vec<Event>,
    count: usize,
    packet: u64,
) -> Result<(), OutOfMemory> {
    events.push(Event::Post(site(1), Moves::new(moves(alloc, count)?)))?;
    events.push(Event::Publish(site(1), site(2)))?;
    events.push(Event::Arrive(site(2), packet))?;
    events.push(Event::Take(site(2), site(1)))?;
    Ok(())
}

/// Whether these are the replies to such events.
fn are_replies(outcomes: &[Result<Reply, WorldError>], end: u64, number: u64) -> bool {
    let [
        Ok(Reply::Number(posted)),
        Ok(Reply::Packet(packet)),
        Ok(Reply::Verdicts(verdicts)),
        Ok(Reply::Taken(taken)),
    ] = outcomes
    else {
        return false;
    };
    (*posted, *packet, *taken) == (end, number, end)
        && verdicts.as_slice() == [EntryVerdict::Ready(end)].as_slice()
}

/// Whether these are the entries of 1, 2 and so on to 16 moves.
fn are_all_sizes(alloc: Global, entries: &[Entry]) -> Result<bool, OutOfMemory> {
    let mut prev = 0u64;
    let mut right = entries.len() == 16;
    for (place, entry) in entries.iter().enumerate() {
        right = right && is_entry(entry, 1, prev, moves(alloc, place + 1)?.as_slice());
        prev = entry.own();
    }
    Ok(right)
}

/// Whether the world has all entries wherever they should be.
fn has_all(alloc: Global, world: &World) -> Result<bool, OutOfMemory> {
    let log = world.log(site(1))?;
    Ok(
        are_all_sizes(alloc, &log)?
            && are_all_sizes(alloc, world.reached(site(2), site(1)))?
            && are_all_sizes(alloc, world.put(site(2), site(1)))?
            && are_all_sizes(alloc, world.applied(site(2), site(1)))?,
    )
}

/// The outcomes of the events of one entry, stepped one by one.
fn step_all(
    alloc: Global,
    world: &mut World,
    count: usize,
    packet: u64,
) -> Result<Vec<Result<Reply, WorldError>>, OutOfMemory> {
    let mut events = Vec::new(alloc);
    add_events(alloc, &mut events, count, packet)?;
    let mut outcomes = Vec::new(alloc);
    for event in events {
        outcomes.push(world.step(event))?;
    }
    Ok(outcomes)
}

/// The events of entries of 1, 2 and so on to 16 moves.
fn all_events(alloc: Global) -> Result<Vec<Event>, OutOfMemory> {
    let mut events = Vec::new(alloc);
    for count in 1..=16usize {
        add_events(alloc, &mut events, count, count as u64)?;
    }
    Ok(events)
}

/// Whether these are the replies to all these events.
fn are_all_replies(outcomes: &[Result<Reply, WorldError>]) -> bool {
    let mut rest = outcomes;
    let mut end = 0u64;
    for count in 1..=16u64 {
        end = end.saturating_add(count);
        let Some((replies, more)) = rest.split_at_checked(4) else {
            return false;
        };
        if !are_replies(replies, end, count) {
            return false;
        }
        rest = more;
    }
    rest.is_empty()
}

#[test]
fn runs_with_entries_of_each_size(rt: HostRuntime) {
    let mut world = World::new(rt.alloc(), 2).expect(&rt, "memory");
    let events = all_events(rt.alloc()).expect(&rt, "memory");
    let outcomes = world.run(&events).expect(&rt, "memory");
    assert!(rt; are_all_replies(&outcomes));
    assert!(rt; has_all(rt.alloc(), &world) == Ok(true));
}

#[test]
fn steps_with_entries_of_each_size(rt: HostRuntime) {
    let mut world = World::new(rt.alloc(), 2).expect(&rt, "memory");
    let mut end = 0u64;
    for count in 1..=16u64 {
        end = end.saturating_add(count);
        let answers = step_all(rt.alloc(), &mut world, count as usize, count);
        let answers = answers.expect(&rt, "memory");
        assert!(rt; are_replies(&answers, end, count), "with {count} moves");
    }
    assert!(rt; has_all(rt.alloc(), &world) == Ok(true));
}

/// The text of this number of moves.
fn words(alloc: Global, count: usize) -> Result<Vec<u8>, AllocError> {
    let mut words = Vec::new(alloc);
    for place in 0..count {
        words.extend_from_slice(move_at(place).1)?;
    }
    Ok(words)
}

fn joined(alloc: Global, parts: &[&[u8]]) -> Result<Vec<u8>, AllocError> {
    let mut text = Vec::new(alloc);
    for part in parts {
        text.extend_from_slice(part)?;
    }
    Ok(text)
}

/// The script of one entry with these moves.
fn script_of(alloc: Global, words: &[u8]) -> Result<Vec<u8>, AllocError> {
    let rest = b"\npublish 1 2\narrive 2 1\ntake 2 1\n".as_slice();
    joined(alloc, &[b"sites 2\npost 1".as_slice(), words, rest])
}

/// The replies to it.
fn replies_of(alloc: Global, words: &[u8], count: usize) -> Result<Vec<u8>, AllocError> {
    let number = format!(in alloc; "{count}")?;
    let number = number.as_bytes();
    joined(
        alloc,
        &[
            b"ok\nnumber ".as_slice(),
            number,
            b"\npacket 1 E 1 0 ",
            number,
            words,
            b"\nready ",
            number,
            b"\ntaken ",
            number,
            b"\n",
        ],
    )
}

#[test]
fn scripts_with_entries_of_each_size(rt: HostRuntime) {
    for count in 1..=16usize {
        let words = words(rt.alloc(), count).expect(&rt, "memory");
        let script = script_of(rt.alloc(), &words).expect(&rt, "memory");
        let replies = replies_of(rt.alloc(), &words, count).expect(&rt, "memory");
        assert!(rt;
            is_replied(rt.alloc(), &script, &replies),
            "with {count} moves"
        );
    }
}
