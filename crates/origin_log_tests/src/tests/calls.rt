//! Calls of a log by their names, made only if they are permitted, and their results as text.
ghost use Rattle.std.specs.Prelude.{◌≡◌};
ghost use Rattle.std.specs.List.{list_any};
ghost use Rattle.origin_log.specs.Logs.{is_special};

use entry_codec::{read_move, write_entry};
use origin_log::{LogError, OriginLog, ReadError};
use rights_types::{Amount, Entry, Frontier, MAX_NUMBER, Move, OutOfMemory, Query, SiteId, Total};
use std::alloc::{AllocError, Allocator, Global};
use std::str;
use test_kit::fill;

/// Whether the host had memory for a text.
pub(crate) type Put = Result<(), AllocError>;

pub(crate) const NO_MEMORY: &str = "error OutOfMemory";

const NOTHING: &str = "nothing";

const NOT_PERMITTED: &str = "not permitted";

/// A call, and what its words are.
#[derive(Clone, Copy)]
enum Verb {
    /// Moves. Those that close or take back have calls of their own.
    Append,
    /// Moves that the log copies.
    Lend,
    /// The index of an entry, which is read again from its line.
    Entry,
    /// The index of an entry, whose line is returned.
    Line,
    /// A query, which is answered with entries.
    Find,
    /// A query, which is answered with a line.
    Answer,
    /// A peer, to which the next line is published.
    Publish,
    /// A peer.
    Cursor,
    /// No words.
    End,
}

// Those that tests use most come first.
const VERBS: [(&str, Verb); 9] = [
    ("append", Verb::Append),
    ("entry", Verb::Entry),
    ("find", Verb::Find),
    ("answer", Verb::Answer),
    ("line", Verb::Line),
    ("lend", Verb::Lend),
    ("publish", Verb::Publish),
    ("cursor", Verb::Cursor),
    ("end", Verb::End),
];

fn verb_of(name: &str) -> Option<Verb> {
    for (each, verb) in &VERBS {
        if *each == name {
            return Some(*verb);
        }
    }
    None
}

// The number that the text spells, else 0.
fn number(text: &str) -> usize {
    text.parse().unwrap_or(0)
}

/// Adds the reply of the log to a command.
pub(crate) fn put_reply<A: Allocator + Copy>(
    alloc: Global,
    text: &mut String,
    log: &mut OriginLog<A>,
    command: &str,
) -> Put {
    let (name, words) = command.split_once(' ').unwrap_or((command, ""));
    match verb_of(name) {
        Some(Verb::Append) => put_append(alloc, text, log, words, false),
        Some(Verb::Lend) => put_append(alloc, text, log, words, true),
        Some(Verb::Entry) => put_entry_at(alloc, text, log, number(words)),
        Some(Verb::Line) => put_line_at(text, log, number(words)),
        Some(Verb::Find) => put_query(alloc, text, log, words, true),
        Some(Verb::Answer) => put_query(alloc, text, log, words, false),
        Some(Verb::Publish) => publish(text, log, number(words) as u64),
        Some(Verb::Cursor) => put_cursor(text, log, number(words) as u64),
        Some(Verb::End) => put_end(text, log),
        None => text.push_str("no command"),
    }
}

// Adds the moves that these words spell. A word that spells none is omitted.
fn put_moves(moves: &mut Vec<Move>, words: &str) -> Put {
    for word in words.split(' ') {
        if let Some(m) = read_move(word.as_bytes()) {
            moves.push(m)?;
        }
    }
    Ok(())
}

fn put_append<A: Allocator + Copy>(
    alloc: Global,
    text: &mut String,
    log: &mut OriginLog<A>,
    words: &str,
    lends: bool,
) -> Put {
    let mut moves = Vec::new(alloc);
    put_moves(&mut moves, words)?;
    let answer = if lends {
        lend(log, &moves)
    } else {
        append(alloc, log, &moves)
    };
    put_number(text, answer)
}

fn put_number(text: &mut String, answer: Option<Result<u64, LogError>>) -> Put {
    match answer {
        Some(Ok(number)) => write!(text, "{number}"),
        Some(Err(error)) => write!(text, "error {error:?}"),
        None => text.push_str(NOT_PERMITTED),
    }
}

// `None` for what is not permitted.
fn append<A: Allocator + Copy>(
    alloc: Global,
    log: &mut OriginLog<A>,
    moves: &[Move],
) -> Option<Result<u64, LogError>> {
    match moves {
        [Move::TakeBack { peer, amount }] => take_back(log, *peer, *amount),
        [Move::CloseAt(frontier)] => close(log, *frontier),
        [Move::Give { peer, amount }, Move::CloseAt(frontier)] => {
            close_for(log, *peer, *amount, *frontier)
        }
        _ => append_plain(alloc, log, moves),
    }
}

fn is_special(m: &Move) -> bool
    ensures { result ≡ is_special m.now }
{
    match m {
        Move::TakeBack { peer: _, amount: _ } => true,
        _ => m.is_close(),
    }
}

fn any_special(moves: &[Move]) -> bool
    ensures { result ≡ list_any is_special moves.now }
{
    moves.iter().any(|m| is_special(m))
}

fn append_plain<A: Allocator + Copy>(
    alloc: Global,
    log: &mut OriginLog<A>,
    moves: &[Move],
) -> Option<Result<u64, LogError>> {
    let kept = Vec::from_slice(alloc, moves).ok()?;
    if any_special(&kept) || Move::any_names(&kept, log.site()) {
        return None;
    }
    Some(log.append(kept))
}

/// Appends moves that the log copies. `None` for what is not permitted.
pub(crate) fn lend<A: Allocator + Copy>(
    log: &mut OriginLog<A>,
    moves: &[Move],
) -> Option<Result<u64, LogError>> {
    if any_special(moves) || Move::any_names(moves, log.site()) {
        return None;
    }
    Some(log.append_slice(moves))
}

fn take_back<A: Allocator + Copy>(
    log: &mut OriginLog<A>,
    peer: SiteId,
    total: Total,
) -> Option<Result<u64, LogError>> {
    if peer == log.site() || log.end() >= MAX_NUMBER {
        return None;
    }
    Some(log.append_back(peer, total))
}

fn close<A: Allocator + Copy>(
    log: &mut OriginLog<A>,
    frontier: Frontier,
) -> Option<Result<u64, LogError>> {
    if frontier.at(log.site()) != Some(0) || log.end() + 2 > MAX_NUMBER {
        return None;
    }
    Some(log.append_close(None, frontier))
}

fn close_for<A: Allocator + Copy>(
    log: &mut OriginLog<A>,
    heir: SiteId,
    amount: Amount,
    frontier: Frontier,
) -> Option<Result<u64, LogError>> {
    if frontier.at(log.site()) != Some(0) || heir == log.site() || log.end() + 2 > MAX_NUMBER {
        return None;
    }
    Some(log.append_close(Some((heir, amount)), frontier))
}

// Adds a line without its line feed.
fn put_line(text: &mut String, line: &[u8]) -> Put {
    let line = str::from_utf8(line).unwrap_or("");
    text.push_str(line.strip_suffix('\n').unwrap_or("no line"))
}

fn put_line_at<A: Allocator + Copy>(text: &mut String, log: &OriginLog<A>, index: usize) -> Put {
    match log.line(index) {
        Some(line) => put_line(text, line),
        None => text.push_str(NOTHING),
    }
}

// Adds the line that spells this entry, without its line feed.
fn put_entry<A: Allocator>(alloc: Global, text: &mut String, entry: &Entry<A>) -> Put {
    match write_entry(alloc, entry) {
        Ok(line) => put_line(text, &line),
        Err(OutOfMemory) => Err(AllocError),
    }
}

fn put_entry_at<A: Allocator + Copy>(
    alloc: Global,
    text: &mut String,
    log: &OriginLog<A>,
    index: usize,
) -> Put {
    match log.get(index) {
        Ok(Some(entry)) => put_entry(alloc, text, &entry),
        Ok(None) => text.push_str(NOTHING),
        Err(OutOfMemory) => text.push_str(NO_MEMORY),
    }
}

// The query whose line these words are.
fn query_of(words: &str) -> Option<Query> {
    let mut numbers = [0u64; 5];
    for (place, word) in words.split(' ').enumerate() {
        if let Some(number) = numbers.get_mut(place) {
            *number = word.parse().unwrap_or(0);
        }
    }
    let [_, asker, origin, first, last] = numbers;
    Query::new(
        SiteId::new(asker).ok()?,
        SiteId::new(origin).ok()?,
        first,
        last,
    )
    .ok()
}

fn put_query<A: Allocator + Copy>(
    alloc: Global,
    text: &mut String,
    log: &OriginLog<A>,
    words: &str,
    finds: bool,
) -> Put {
    match query_of(words) {
        Some(query) if finds => find(alloc, text, log, &query),
        Some(query) => answer(text, log, &query),
        None => text.push_str(NOT_PERMITTED),
    }
}

fn answer<A: Allocator + Copy>(text: &mut String, log: &OriginLog<A>, query: &Query) -> Put {
    match log.answer_line(query) {
        Ok(line) => put_line(text, &line),
        Err(error) => write!(text, "error {error:?}"),
    }
}

fn find<A: Allocator + Copy>(
    alloc: Global,
    text: &mut String,
    log: &OriginLog<A>,
    query: &Query,
) -> Put {
    match log.answer(query) {
        Ok(entries) => put_entries(alloc, text, &entries),
        Err(error) => write!(text, "error {error:?}"),
    }
}

// Adds the entries, each after a `;`, as in the line of an answer.
fn put_entries<A: Allocator>(alloc: Global, text: &mut String, entries: &[Entry<A>]) -> Put {
    text.push_str("found")?;
    for entry in entries {
        text.push(';')?;
        put_entry(alloc, text, entry)?;
    }
    Ok(())
}

fn publish<A: Allocator + Copy>(text: &mut String, log: &mut OriginLog<A>, peer: u64) -> Put {
    let Ok(peer) = SiteId::new(peer) else {
        return text.push_str(NOT_PERMITTED);
    };
    let next = log.cursor(peer);
    if next < log.len() {
        put_line_at(text, log, next)?;
        log.advance(peer);
        return Ok(());
    }
    text.push_str(NOTHING)
}

fn put_cursor<A: Allocator + Copy>(text: &mut String, log: &OriginLog<A>, peer: u64) -> Put {
    match SiteId::new(peer) {
        Ok(peer) => write!(text, "{}", log.cursor(peer)),
        Err(_) => text.push_str(NOT_PERMITTED),
    }
}

/// Adds how many entries the log has, the number of the last one, that of a beat, and whether it closes the log.
pub(crate) fn put_end<A: Allocator + Copy>(text: &mut String, log: &OriginLog<A>) -> Put {
    let numbers = [log.len() as u64, log.end(), log.beat()];
    fill(text, "$1 entries, the last $2, a beat $3", &numbers)?;
    text.push_str(if log.closed() { ", closed" } else { "" })
}
