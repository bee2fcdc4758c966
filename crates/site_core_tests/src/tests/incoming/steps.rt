//! Scripts of lines that arrive at an inbound: each line is a command, followed by ` > ` and the reply to it. A command
//! is a message, or a call in words.
use crate::tests::calls::{NO_MEMORY, Put};
use crate::tests::sites::row;
use refusing_allocator::Refusing;
use rights_types::{OutOfMemory, SiteId};
use site_core::{Arrival, Inbound, InboundError};
use std::alloc::{AllocGlobal, Allocator, Global};
use std::process::Abort;
use std::str;
use sub_buffer::{State, Verdict};
use test_kit::requests_of;

/// A site, the origin whose lines it gets, and how many sites there are.
#[derive(Clone, Copy)]
pub(crate) struct Place {
    pub(crate) me: u64,
    pub(crate) origin: u64,
    pub(crate) sites: u64,
}

/// Site 2 of two, with the lines of site 1.
pub(crate) const AT_SITE_2: Place = Place {
    me: 2,
    origin: 1,
    sites: 2,
};

/// Site 1 of two, with the lines of site 2.
pub(crate) const AT_SITE_1: Place = Place {
    me: 1,
    origin: 2,
    sites: 2,
};

/// Site 2 of sixteen, with the lines of site 1.
pub(crate) const AT_SITE_2_OF_16: Place = Place {
    me: 2,
    origin: 1,
    sites: 16,
};

/// An inbound, and its last reply.
#[derive(Drop)]
pub(crate) struct Lines<A: Allocator + Copy> {
    pub(crate) inbound: Inbound<A>,
    reply: String,
}

fn new_inbound<A: Allocator + Copy>(alloc: A, place: Place) -> Option<Inbound<A>> {
    let Place { me, origin, sites } = place;
    let me = SiteId::new(me).ok()?;
    let origin = SiteId::new(origin).ok()?;
    if sites < 2 || sites > 16 || me.number() > sites || origin.number() > sites || origin == me {
        return None;
    }
    Inbound::new(alloc, me, origin, sites).ok()
}

impl<A: Allocator + Copy> Lines<A> {
    /// An inbound at the start, or `None` for lack of memory.
    pub(crate) fn new(rt: &impl AllocGlobal, alloc: A, place: Place) -> Option<Lines<A>> {
        let inbound = new_inbound(alloc, place)?;
        let reply = String::new(rt.alloc());
        Some(Lines { inbound, reply })
    }

    /// Passes a command to the inbound.
    pub(crate) fn say(&mut self, rt: &(impl Abort + AllocGlobal), command: &str) {
        self.reply.clear();
        put_reply(rt.alloc(), &mut self.reply, &mut self.inbound, command).expect(rt, "memory");
    }

    /// Passes a command to the inbound, which has this reply.
    pub(crate) fn says(&mut self, rt: &(impl Abort + AllocGlobal), command: &str, expected: &str) {
        self.say(rt, command);
        self.check(rt, command, expected);
    }

    fn check(&self, rt: &impl Abort, command: &str, expected: &str) {
        let reply = self.reply.as_str();
        assert!(rt; reply == expected, "{command}: {reply}");
    }

    fn numbers(&self) -> (bool, u64, usize) {
        let normal = self.inbound.state() == State::Normal;
        (normal, self.inbound.last(), self.inbound.held_count())
    }

    fn is_refused(&self) -> bool {
        self.reply.as_str() == NO_MEMORY
    }
}

fn put_reply<A: Allocator + Copy>(
    alloc: Global,
    text: &mut String,
    inbound: &mut Inbound<A>,
    command: &str,
) -> Put {
    match command {
        "query" => put_query(text, inbound, false),
        "query again" => put_query(text, inbound, true),
        "state" => put_state(text, inbound),
        _ => put_arrival(alloc, text, inbound, command),
    }
}

/// Adds what an inbound reports of itself: its state, its last number, and how many entries it holds.
fn put_state<A: Allocator + Copy>(text: &mut String, inbound: &Inbound<A>) -> Put {
    let (state, last, held) = (inbound.state(), inbound.last(), inbound.held_count());
    write!(text, "{state:?} {last} {held}")
}

// Adds the line that queries the gap, if there is one.
fn put_query<A: Allocator + Copy>(text: &mut String, inbound: &mut Inbound<A>, again: bool) -> Put {
    match inbound.query_line(again) {
        Ok(Some(line)) => text.push_str(str::from_utf8(&line).unwrap_or("").trim_end()),
        Ok(None) => text.push_str("nothing"),
        Err(OutOfMemory) => text.push_str(NO_MEMORY),
    }
}

// The command is a line, whose end is a bar if it is cut.
fn put_arrival<A: Allocator + Copy>(
    alloc: Global,
    text: &mut String,
    inbound: &mut Inbound<A>,
    command: &str,
) -> Put {
    let mut line = Vec::from_slice(alloc, command.as_bytes())?;
    if line.pop() != Some(b'|') {
        line.clear();
        line.extend_from_slice(command.as_bytes())?;
        line.push(b'\n')?;
    }
    match inbound.on_line(&line) {
        Ok(arrival) => put_arrived(text, &arrival),
        Err(error) => put_error(text, error),
    }
}

fn put_error(text: &mut String, error: InboundError) -> Put {
    write!(text, "error {error:?}")
}

fn put_arrived<A: Allocator>(text: &mut String, arrival: &Arrival<A>) -> Put {
    match arrival {
        Arrival::Entries { verdicts } => put_verdicts(text, verdicts.as_slice()),
        Arrival::Query(query) => put_numbers(text, "query", query.first(), query.last()),
        Arrival::Ask(ask) => put_numbers(text, "ask", ask.ask().value(), ask.amount().value()),
        Arrival::Deny(deny) => put_number(text, "deny", deny.ask().value()),
        Arrival::Beat(beat) => put_number(text, "beat", beat.number()),
        Arrival::Hello => text.push_str("hello"),
    }
}

fn put_number(text: &mut String, word: &str, number: u64) -> Put {
    write!(text, "{word} {number}")
}

fn put_numbers(text: &mut String, word: &str, first: u64, second: u64) -> Put {
    write!(text, "{word} {first} {second}")
}

fn put_verdicts<A: Allocator>(text: &mut String, verdicts: &[Verdict<A>]) -> Put {
    if verdicts.is_empty() {
        return text.push_str("no entries");
    }
    for verdict in verdicts {
        if !text.is_empty() {
            text.push(' ')?;
        }
        put_verdict(text, verdict)?;
    }
    Ok(())
}

// An entry that is ready has its own number.
fn put_verdict<A: Allocator>(text: &mut String, verdict: &Verdict<A>) -> Put {
    match verdict {
        Verdict::Ready(entry) => put_number(text, "ready", entry.own()),
        Verdict::Held => text.push_str("held"),
        Verdict::Repeat => text.push_str("repeat"),
        Verdict::AfterClose => text.push_str("after close"),
        Verdict::Full => text.push_str("full"),
    }
}

// A command with this reply. If memory is refused for it, it says so, nothing that the inbound reports has changed, and
// it has this reply when it is sent again. A gap whose query was refused counts as queried.
fn step(
    rt: &(impl Abort + AllocGlobal),
    memory: &Refusing<Global>,
    lines: &mut Lines<&Refusing<Global>>,
    command: &str,
    expected: &str,
) {
    let before = lines.numbers();
    let refused = memory.refused();
    lines.say(rt, command);
    let mut again = command;
    if memory.refused() != refused {
        assert!(rt;
            lines.is_refused() && lines.numbers() == before,
            "{command}"
        );
        if command.starts_with("query") {
            lines.says(rt, "query", "nothing");
            again = "query again";
        }
        lines.say(rt, again);
    }
    lines.check(rt, again, expected);
}

/// Plays a script with each memory request refused in turn, and then with none refused. Returns how many requests
/// the inbound makes.
pub(crate) fn plays(rt: &(impl Abort + AllocGlobal), place: Place, script: &str) -> Option<u64> {
    requests_of(rt.alloc(), |memory| play(rt, memory, place, script))
}

// An inbound for which memory is refused plays nothing.
fn play(
    rt: &(impl Abort + AllocGlobal),
    memory: &Refusing<Global>,
    place: Place,
    script: &str,
) -> bool {
    let Some(mut lines) = Lines::new(rt, memory, place) else {
        return memory.refused();
    };
    for line in script.lines() {
        let (command, expected) = row(line);
        step(rt, memory, &mut lines, command, expected);
    }
    true
}

/// Plays a script with ample memory.
pub(crate) fn plays_amply(rt: &(impl Abort + AllocGlobal), place: Place, script: &str) {
    let mut lines = Lines::new(rt, rt.alloc(), place).expect(rt, "memory");
    for line in script.lines() {
        let (command, expected) = row(line);
        lines.says(rt, command, expected);
    }
}
