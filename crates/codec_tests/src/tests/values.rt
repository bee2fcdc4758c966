//! The values of messages and moves, and the causes of refusals, as text.

use super::texts::Put;
use entry_codec::{LineError, Place, read_line, read_move};
use rights_types::{Answer, Ask, Deny, Entry, Message, Move, Query};
use std::alloc::Global;

// Adds a word, and these numbers.
fn put_numbers(text: &mut String, word: &str, numbers: &[u64]) -> Put {
    text.push_str(word)?;
    for number in numbers {
        write!(text, " {number}")?;
    }
    Ok(())
}

fn put_place(text: &mut String, word: &str, place: Place) -> Put {
    put_numbers(text, word, &[u64::from(place.part), u64::from(place.field)])
}

/// Adds the cause for which a line is refused: a field or a move with its part and its place there, or the line as a
/// whole.
pub(super) fn put_fault(text: &mut String, fault: LineError) -> Put {
    match fault {
        LineError::BadField(place) => put_place(text, "field", place),
        LineError::BadMove(place) => put_place(text, "move", place),
        _ => write!(text, "{fault:?}"),
    }
}

// A closing move has the count of its numbers.
fn put_move(text: &mut String, m: &Move) -> Put {
    match m {
        Move::Issue(amount) => put_numbers(text, "issue", &[amount.value()]),
        Move::Spend(amount) => put_numbers(text, "spend", &[amount.value()]),
        Move::Grant { peer, amount, ask } => {
            put_numbers(text, "grant", &[peer.number(), amount.value(), ask.value()])
        }
        Move::Give { peer, amount } => {
            put_numbers(text, "give", &[peer.number(), amount.value()])
        }
        Move::TakeBack { peer, amount } => {
            put_numbers(text, "take back", &[peer.number(), amount.value()])
        }
        Move::Close => text.push_str("close"),
        Move::CloseAt(frontier) => put_numbers(text, "close at", &[frontier.count() as u64]),
    }
}

fn put_entry(text: &mut String, entry: &Entry) -> Put {
    let numbers = [entry.origin().number(), entry.prev(), entry.own()];
    put_numbers(text, "entry", &numbers)?;
    for m in entry.moves() {
        text.push_str(", ")?;
        put_move(text, m)?;
    }
    Ok(())
}

fn put_entries(text: &mut String, entries: &[Entry]) -> Put {
    for entry in entries {
        text.push_str("; ")?;
        put_entry(text, entry)?;
    }
    Ok(())
}

fn put_answer(text: &mut String, answer: &Answer) -> Put {
    let numbers = [answer.origin().number(), answer.asker().number()];
    put_numbers(text, "answer", &numbers)?;
    put_entries(text, answer.entries())
}

fn put_query(text: &mut String, query: &Query) -> Put {
    let (asker, origin) = (query.asker().number(), query.origin().number());
    put_numbers(text, "query", &[asker, origin, query.first(), query.last()])
}

fn put_ask(text: &mut String, ask: &Ask) -> Put {
    let (asker, asked) = (ask.asker().number(), ask.asked().number());
    put_numbers(
        text,
        "ask",
        &[asker, asked, ask.ask().value(), ask.amount().value()],
    )
}

fn put_denial(text: &mut String, denial: &Deny) -> Put {
    let (denier, asker) = (denial.denier().number(), denial.asker().number());
    put_numbers(text, "denial", &[denier, asker, denial.ask().value()])
}

// The numbers of a message, in the order of its line.
fn put_message(text: &mut String, message: &Message) -> Put {
    match message {
        Message::Push(entry) => put_entry(text, entry),
        Message::Answer(answer) => put_answer(text, answer),
        Message::Query(query) => put_query(text, query),
        Message::Ask(ask) => put_ask(text, ask),
        Message::Deny(denial) => put_denial(text, denial),
        Message::Beat(beat) => put_numbers(text, "beat", &[beat.origin().number(), beat.number()]),
        Message::Hello(site) => put_numbers(text, "hello", &[site.number()]),
    }
}

/// Adds the values of the message that the line spells, or why it spells none.
pub(super) fn put_read(alloc: Global, text: &mut String, line: &[u8]) -> Put {
    match read_line(alloc, line) {
        Ok(message) => put_message(text, &message),
        Err(fault) => put_fault(text, fault),
    }
}

/// Adds the values of the move that the field spells.
pub(super) fn put_field(text: &mut String, field: &str) -> Put {
    match read_move(field.as_bytes()) {
        Some(m) => put_move(text, &m),
        None => text.push_str("no move"),
    }
}
