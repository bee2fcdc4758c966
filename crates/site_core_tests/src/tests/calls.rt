//! Calls of desks by their names, made only if they are permitted, and their results as text. No function has a
//! clause, and none but `hear` keeps text of its own: so each is checked at little cost.
use crate::tests::readers::{put_peer, put_site};
use entry_codec::{read_move, read_text};
use origin_log::ReadError;
use refusing_allocator::Refusing;
use request_queue::Status;
use rights_types::{Ask, Deny, Entry, Message, Move, OutOfMemory, Query, SiteId};
use site_core::{AskReply, Desk, DeskError, ReplayError, Spending};
use std::alloc::{AllocError, Global};
use std::str;
use test_kit::issue;
use transfer_manager::{AskAnswer, SiteSet};

/// A desk whose memory requests may be refused.
pub(crate) type Counted<'a> = Desk<&'a Refusing<Global>>;

/// Whether the host had memory for a text.
pub(crate) type Put = Result<(), AllocError>;

pub(crate) const NO_MEMORY: &str = "error OutOfMemory";

const NOTHING: &str = "nothing";

/// A call, and what its words are.
#[derive(Clone, Copy)]
enum Verb {
    /// At most two numbers.
    Own(Own),
    /// A peer, and at most one more number.
    Peer(Peer),
    Close,
    Post,
    Hear,
    Replay,
    Site,
}

#[derive(Clone, Copy)]
enum Own {
    Issue,
    Spend,
    Take,
    Cancel,
    Status,
    Serve,
    Expire,
    Plan,
    /// Posts this number of entries of 16 moves.
    Grow,
}

#[derive(Clone, Copy)]
enum Peer {
    Give,
    PlanBeside,
    Ask,
    Publish,
    Beat,
    Tell,
}

// Those that tests use most come first.
const VERBS: [(&str, Verb); 20] = [
    ("hear", Verb::Hear),
    ("replay", Verb::Replay),
    ("issue", Verb::Own(Own::Issue)),
    ("plan", Verb::Own(Own::Plan)),
    ("give", Verb::Peer(Peer::Give)),
    ("spend", Verb::Own(Own::Spend)),
    ("post", Verb::Post),
    ("serve", Verb::Own(Own::Serve)),
    ("publish", Verb::Peer(Peer::Publish)),
    ("ask", Verb::Peer(Peer::Ask)),
    ("expire", Verb::Own(Own::Expire)),
    ("close", Verb::Close),
    ("take", Verb::Own(Own::Take)),
    ("cancel", Verb::Own(Own::Cancel)),
    ("status", Verb::Own(Own::Status)),
    ("grow", Verb::Own(Own::Grow)),
    ("plan_beside", Verb::Peer(Peer::PlanBeside)),
    ("beat", Verb::Peer(Peer::Beat)),
    ("peer", Verb::Peer(Peer::Tell)),
    ("site", Verb::Site),
];

/// The result of a call that makes no line.
#[derive(Clone, Copy)]
enum Said {
    Word(&'static str),
    Number(&'static str, u64),
    /// The ticket, and the number.
    Served(u64, u64),
    Error(DeskError),
}

/// The text before the first space, and after it.
pub(crate) fn cut(text: &str) -> (&str, &str) {
    text.split_once(' ').unwrap_or((text, ""))
}

// The number that the text spells, else 0.
fn number(text: &str) -> u64 {
    text.parse().unwrap_or(0)
}

/// The desk of a site in a system of this many, or `None` for lack of memory.
pub(crate) fn new_desk<'a>(
    memory: &'a Refusing<Global>,
    me: u64,
    sites: u64,
) -> Option<Counted<'a>> {
    if sites < 2 || sites > 16 || me < 1 || me > sites {
        return None;
    }
    Desk::new(memory, SiteId::known(me), sites).ok()
}

fn verb_of(name: &str) -> Option<Verb> {
    for (each, verb) in &VERBS {
        if *each == name {
            return Some(*verb);
        }
    }
    None
}

/// Adds the reply of the desk to a call with these words.
pub(crate) fn put_reply(
    alloc: Global,
    text: &mut String,
    desk: &mut Counted,
    name: &str,
    words: &str,
) -> Put {
    let (first, rest) = cut(words);
    match verb_of(name) {
        Some(Verb::Own(own)) => put_said(text, own_call(desk, own, number(first), number(rest))),
        Some(Verb::Peer(peer)) => put_peer_call(text, desk, peer, number(first), number(rest)),
        Some(Verb::Close) => put_said(text, close(desk, number(first))),
        Some(Verb::Post) => post(alloc, text, desk, words),
        Some(Verb::Hear) => hear(alloc, text, desk, words, false),
        Some(Verb::Replay) => hear(alloc, text, desk, words, true),
        Some(Verb::Site) => put_site(text, desk),
        None => text.push_str("no command"),
    }
}

fn put_said(text: &mut String, said: Said) -> Put {
    match said {
        Said::Word(word) => text.push_str(word),
        Said::Number(word, number) => write!(text, "{word} {number}"),
        Said::Served(ticket, number) => write!(text, "served {ticket} {number}"),
        Said::Error(error) => write!(text, "error {error:?}"),
    }
}

// A number after a word, or why there is none.
fn numbered(word: &'static str, answer: Result<u64, DeskError>) -> Said {
    match answer {
        Ok(number) => Said::Number(word, number),
        Err(error) => Said::Error(error),
    }
}

fn own_call(desk: &mut Counted, own: Own, first: u64, second: u64) -> Said {
    match own {
        Own::Issue => numbered("number", desk.issue(first)),
        Own::Spend => spent(desk.spend(first, second)),
        Own::Take => numbered("spent", desk.take(first)),
        Own::Cancel => status(desk.cancel(first)),
        Own::Status => status(desk.status(first)),
        Own::Serve => served(desk.serve()),
        Own::Expire => numbered("expired", desk.expire(first)),
        Own::Plan => Said::Number("asks", desk.plan()),
        Own::Grow => grow(desk, first),
    }
}

fn grow(desk: &mut Counted, entries: u64) -> Said {
    for _ in 0..entries {
        if let Err(error) = desk.post(&[issue(9); 16]) {
            return Said::Error(error);
        }
    }
    Said::Number("number", desk.number())
}

fn spent(answer: Result<Spending, DeskError>) -> Said {
    match answer {
        Ok(Spending::Spent(number)) => Said::Number("spent", number),
        Ok(Spending::Queued(ticket)) => Said::Number("queued", ticket),
        Err(error) => Said::Error(error),
    }
}

fn served(answer: Result<Option<(u64, u64)>, DeskError>) -> Said {
    match answer {
        Ok(Some((ticket, number))) => Said::Served(ticket, number),
        Ok(None) => Said::Word(NOTHING),
        Err(error) => Said::Error(error),
    }
}

fn status(status: Status) -> Said {
    match status {
        Status::Waiting => Said::Word("waiting"),
        Status::Spent(number) => Said::Number("spent", number),
        Status::Expired => Said::Word("expired"),
        Status::Unknown => Said::Word("unknown"),
    }
}

// Closes for the heir of this number, if it is one.
fn close(desk: &mut Counted, heir: u64) -> Said {
    numbered("number", desk.close(SiteId::new(heir).ok()))
}

fn put_peer_call(text: &mut String, desk: &mut Counted, call: Peer, peer: u64, amount: u64) -> Put {
    let Ok(peer) = SiteId::new(peer) else {
        return text.push_str("no peer");
    };
    match call {
        Peer::Give => put_said(text, numbered("number", desk.give_back(peer, amount))),
        Peer::PlanBeside => put_said(text, plan_beside(desk, peer)),
        Peer::Ask => put_ask(text, desk, peer),
        Peer::Publish => put_line(text, desk.publish(peer)),
        Peer::Beat => put_beat(text, desk, peer),
        Peer::Tell => put_peer(text, desk, peer),
    }
}

/// Adds the ask that is outstanding at a peer.
pub(crate) fn put_ask(text: &mut String, desk: &Counted, peer: SiteId) -> Put {
    put_line(text, desk.ask_line(peer))
}

// A plan while that peer is silent.
fn plan_beside(desk: &mut Counted, peer: SiteId) -> Said {
    let mut silent = SiteSet::new();
    silent.insert(peer);
    Said::Number("asks", desk.plan_beside(&silent))
}

// Adds a line without its line feed, if there is one.
fn put_line(
    text: &mut String,
    line: Result<Option<Vec<u8, &Refusing<Global>>>, OutOfMemory>,
) -> Put {
    match line {
        Ok(Some(line)) => put_bytes(text, &line),
        Ok(None) => text.push_str(NOTHING),
        Err(OutOfMemory) => text.push_str(NO_MEMORY),
    }
}

fn put_bytes(text: &mut String, line: &[u8]) -> Put {
    let line = str::from_utf8(line).unwrap_or("");
    text.push_str(line.strip_suffix('\n').unwrap_or("no line"))
}

fn put_beat(text: &mut String, desk: &Counted, peer: SiteId) -> Put {
    match desk.beat_line(peer) {
        Ok(line) => put_bytes(text, &line),
        Err(OutOfMemory) => text.push_str(NO_MEMORY),
    }
}

// Posts the moves that these words spell. A word that spells none is omitted.
fn post(alloc: Global, text: &mut String, desk: &mut Counted, words: &str) -> Put {
    let mut moves: Vec<Move> = Vec::new(alloc);
    for word in words.split(' ') {
        if let Some(m) = read_move(word.as_bytes()) {
            moves.push(m)?;
        }
    }
    put_said(text, numbered("number", desk.post(&moves)))
}

// The desk receives the message that the words spell, or replays it as a record.
fn hear(alloc: Global, text: &mut String, desk: &mut Counted, words: &str, replays: bool) -> Put {
    match read_text(alloc, words.as_bytes()) {
        Ok(message) => {
            if replays {
                put_replayed(text, desk.replay(&message, words.as_bytes()))
            } else {
                put_message(text, desk, &message)
            }
        }
        Err(fault) => write!(text, "error {fault:?}"),
    }
}

fn put_message(text: &mut String, desk: &mut Counted, message: &Message) -> Put {
    match message {
        Message::Push(entry) => put_applied(text, desk, entry),
        Message::Answer(answer) => put_all_applied(text, desk, answer.entries()),
        Message::Query(query) => put_answer(text, desk, query),
        Message::Ask(ask) => put_granted(text, desk, ask),
        Message::Deny(deny) => text.push_str(denied(desk, *deny)),
        Message::Beat(_) => text.push_str("beat"),
        Message::Hello(_) => text.push_str("hello"),
    }
}

fn put_replayed(text: &mut String, answer: Result<(), ReplayError>) -> Put {
    match answer {
        Ok(()) => text.push_str("replayed"),
        Err(ReplayError::NotPermitted(error)) => write!(text, "error {error:?}"),
        Err(error) => write!(text, "error {error:?}"),
    }
}

// Applies these entries as long as each is the next one.
fn put_all_applied(text: &mut String, desk: &mut Counted, entries: &[Entry]) -> Put {
    for entry in entries {
        if !text.is_empty() {
            text.push(' ')?;
        }
        put_applied(text, desk, entry)?;
    }
    Ok(())
}

// Applies the entry, if it is its origin's next one and neither the origin nor the site is closed.
fn put_applied(text: &mut String, desk: &mut Counted, entry: &Entry) -> Put {
    let origin = entry.origin();
    if origin.number() > desk.sites() || origin == desk.site() {
        return text.push_str("no peer");
    }
    if desk.closed(desk.site()) || desk.closed(origin) {
        return text.push_str(NOTHING);
    }
    if entry.prev() != desk.applied(origin) {
        return text.push_str("not next");
    }
    put_taken(text, entry.own(), desk.apply(origin, entry))
}

// The result of applying the entry with a number.
fn put_taken(text: &mut String, number: u64, answer: Result<Option<u64>, OutOfMemory>) -> Put {
    match answer {
        Ok(None) => write!(text, "taken {number}"),
        Ok(Some(back)) => write!(text, "taken {number} back {back}"),
        Err(OutOfMemory) => text.push_str(NO_MEMORY),
    }
}

fn put_answer(text: &mut String, desk: &Counted, query: &Query) -> Put {
    match desk.on_query(query) {
        Ok(line) => put_bytes(text, &line),
        Err(error) => put_read_error(text, error),
    }
}

fn put_read_error(text: &mut String, error: ReadError) -> Put {
    write!(text, "error {error:?}")
}

fn denied(desk: &mut Counted, deny: Deny) -> &'static str {
    if deny.denier().number() > desk.sites() {
        return "no peer";
    }
    desk.on_deny(deny.denier(), deny.ask());
    "noted"
}

fn put_granted(text: &mut String, desk: &mut Counted, ask: &Ask) -> Put {
    if ask.asker().number() > desk.sites() || ask.asked() != desk.site() {
        return text.push_str("no peer");
    }
    match desk.on_ask(ask) {
        Ok(reply) => put_ask_reply(text, &reply),
        Err(OutOfMemory) => text.push_str(NO_MEMORY),
    }
}

fn put_ask_reply(text: &mut String, reply: &AskReply<&Refusing<Global>>) -> Put {
    put_ask_answer(text, &reply.answer)?;
    if let Some(number) = reply.number {
        write!(text, " number {number}")?;
    }
    if let Some(line) = &reply.line {
        text.push(' ')?;
        put_bytes(text, line.bytes())?;
    }
    Ok(())
}

fn put_ask_answer(text: &mut String, answer: &AskAnswer) -> Put {
    match answer {
        AskAnswer::Grant(amount) => put_said(text, Said::Number("granted", amount.value())),
        AskAnswer::Deny => text.push_str("denied"),
        AskAnswer::RepeatedDeny => text.push_str("denied again"),
        AskAnswer::Repeated => text.push_str("repeated"),
        AskAnswer::OldAsk => text.push_str("old"),
    }
}
