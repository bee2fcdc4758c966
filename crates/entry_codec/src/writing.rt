//! Writing a message as its line.
ghost use Rattle.std.specs.Prelude.{◌≡◌, ◌+◌, ◌<◌, ◌≤◌, [], ◌∷◌, ◌++◌, length, take, decimal, IfOk, OnOk, OnErr};
ghost use Rattle.rights_types.specs.Entries.{IsEntry};
ghost use Rattle.rights_types.specs.Values.{value_of};
ghost use Rattle.rights_types.specs.Messages.{IsMessage};
ghost use Rattle.rights_types.specs.Messages.MessageValue.{AnEntry};
ghost use Rattle.entry_codec.specs.Spelling.{move_text, part_text, query_fields, beat_fields, ask_fields};
ghost use Rattle.entry_codec.specs.Spelling.{denial_fields, text_of, line, Spells};
ghost use Rattle.entry_codec.specs.Texts.{frontier_text, entry_text, answer_text};

use crate::format::{
    ANSWER_LETTER, ASK_LETTER, BEAT_LETTER, CLOSE_AT_LETTER, CLOSE_LETTER, DENIAL_LETTER,
    ENTRY_LETTER, ENTRY_ROOM, FIELD_BREAK, GIVE_LETTER, GRANT_LETTER, HELLO_LETTER, ISSUE_LETTER,
    LINE_END, PART_BREAK, QUERY_LETTER, SPEND_LETTER, TAKE_BACK_LETTER, VALUE_BREAK,
};
use crate::length::{entry_len, line_len, place_of};
use crate::put::{put_byte, put_decimal};
use rights_types::{
    Answer, Ask, Beat, Deny, Entry, Frontier, Message, Move, OutOfMemory, Query, SiteId,
};
use std::alloc::Allocator;

// A number after a space.
fn put_field(buffer: &mut [u8], at: usize, number: u64) -> usize
    requires { at + length (FIELD_BREAK ∷ decimal number) ≤ length buffer.old }
    ensures end { result ≡ at + length (FIELD_BREAK ∷ decimal number) }
    ensures text { take result buffer.new ≡ take at buffer.old ++ FIELD_BREAK ∷ decimal number }
{
    let at = put_byte(buffer, at, FIELD_BREAK);
    put_decimal(buffer, at, number)
}

// A number after a colon.
fn put_value(buffer: &mut [u8], at: usize, number: u64) -> usize
    requires { at + length (VALUE_BREAK ∷ decimal number) ≤ length buffer.old }
    ensures end { result ≡ at + length (VALUE_BREAK ∷ decimal number) }
    ensures text { take result buffer.new ≡ take at buffer.old ++ VALUE_BREAK ∷ decimal number }
{
    let at = put_byte(buffer, at, VALUE_BREAK);
    put_decimal(buffer, at, number)
}

fn put_frontier(buffer: &mut [u8], start: usize, frontier: &Frontier) -> usize
    requires { start + length (frontier_text frontier.now) ≤ length buffer.old }
    ensures end { result ≡ start + length (frontier_text frontier.now) }
    ensures text { take result buffer.new ≡ take start buffer.old ++ frontier_text frontier.now }
{
    let mut at = put_byte(buffer, start, CLOSE_AT_LETTER);
    for index in 0..frontier.count() {
        at = put_value(buffer, at, place_of(frontier, index));
    }
    at
}

fn put_move(buffer: &mut [u8], at: usize, m: &Move) -> usize
    requires { at + length (move_text m.now) ≤ length buffer.old }
    ensures end { result ≡ at + length (move_text m.now) }
    ensures text { take result buffer.new ≡ take at buffer.old ++ move_text m.now }
{
    match m {
        Move::Issue(amount) => {
            let at = put_byte(buffer, at, ISSUE_LETTER);
            put_value(buffer, at, amount.value())
        }
        Move::Spend(amount) => {
            let at = put_byte(buffer, at, SPEND_LETTER);
            put_value(buffer, at, amount.value())
        }
        Move::Grant { peer, amount, ask } => {
            let at = put_byte(buffer, at, GRANT_LETTER);
            let at = put_value(buffer, at, peer.number());
            let at = put_value(buffer, at, amount.value());
            put_value(buffer, at, ask.value())
        }
        Move::Give { peer, amount } => {
            let at = put_byte(buffer, at, GIVE_LETTER);
            let at = put_value(buffer, at, peer.number());
            put_value(buffer, at, amount.value())
        }
        Move::Close => put_byte(buffer, at, CLOSE_LETTER),
        Move::CloseAt(frontier) => put_frontier(buffer, at, frontier),
        Move::TakeBack { peer, amount } => {
            let at = put_byte(buffer, at, TAKE_BACK_LETTER);
            let at = put_value(buffer, at, peer.number());
            put_value(buffer, at, amount.value())
        }
    }
}

fn put_entry_of(buffer: &mut [u8], start: usize, origin: SiteId, prev: u64, moves: &[Move]) -> usize
    requires valid { IsEntry (record { origin = origin; prev = prev; moves = moves.now }) }
    requires room { start + length (entry_text (record { origin = origin; prev = prev; moves = moves.now }))
        ≤ length buffer.old }
    ensures end { result ≡ start + length (entry_text (record { origin = origin; prev = prev; moves = moves.now })) }
    ensures text { take result buffer.new ≡ take start buffer.old
        ++ entry_text (record { origin = origin; prev = prev; moves = moves.now }) }
{
    let at = put_byte(buffer, start, ENTRY_LETTER);
    let at = put_field(buffer, at, origin.number());
    let at = put_field(buffer, at, prev);
    let mut at = put_field(buffer, at, prev + moves.len() as u64);
    for m in moves {
        at = put_byte(buffer, at, FIELD_BREAK);
        at = put_move(buffer, at, m);
    }
    at
}

fn put_entry<B: Allocator>(buffer: &mut [u8], start: usize, entry: &Entry<B>) -> usize
    requires { start + length (entry_text entry.now) ≤ length buffer.old }
    ensures end { result ≡ start + length (entry_text entry.now) }
    ensures text { take result buffer.new ≡ take start buffer.old ++ entry_text entry.now }
{
    put_entry_of(buffer, start, entry.origin(), entry.prev(), entry.moves())
}

fn put_answer<B: Allocator>(buffer: &mut [u8], start: usize, answer: &Answer<B>) -> usize
    requires { start + length (answer_text answer.now) ≤ length buffer.old }
    ensures end { result ≡ start + length (answer_text answer.now) }
    ensures text { take result buffer.new ≡ take start buffer.old ++ answer_text answer.now }
{
    let at = put_byte(buffer, start, ANSWER_LETTER);
    let at = put_field(buffer, at, answer.origin().number());
    let mut at = put_field(buffer, at, answer.asker().number());
    for entry in answer.entries() {
        at = put_byte(buffer, at, PART_BREAK);
        at = put_entry(buffer, at, entry);
    }
    at
}

fn put_query(buffer: &mut [u8], at: usize, query: &Query) -> usize
    requires { at + length (part_text (query_fields query.now)) ≤ length buffer.old }
    ensures end { result ≡ at + length (part_text (query_fields query.now)) }
    ensures text { take result buffer.new ≡ take at buffer.old
        ++ part_text (query_fields query.now) }
{
    let at = put_byte(buffer, at, QUERY_LETTER);
    let at = put_field(buffer, at, query.asker().number());
    let at = put_field(buffer, at, query.origin().number());
    let at = put_field(buffer, at, query.first());
    put_field(buffer, at, query.last())
}

fn put_beat(buffer: &mut [u8], at: usize, beat: &Beat) -> usize
    requires { at + length (part_text (beat_fields beat.now)) ≤ length buffer.old }
    ensures end { result ≡ at + length (part_text (beat_fields beat.now)) }
    ensures text { take result buffer.new ≡ take at buffer.old
        ++ part_text (beat_fields beat.now) }
{
    let at = put_byte(buffer, at, BEAT_LETTER);
    let at = put_field(buffer, at, beat.origin().number());
    put_field(buffer, at, beat.number())
}

fn put_ask(buffer: &mut [u8], at: usize, ask: &Ask) -> usize
    requires { at + length (part_text (ask_fields ask.now)) ≤ length buffer.old }
    ensures end { result ≡ at + length (part_text (ask_fields ask.now)) }
    ensures text { take result buffer.new ≡ take at buffer.old
        ++ part_text (ask_fields ask.now) }
{
    let at = put_byte(buffer, at, ASK_LETTER);
    let at = put_field(buffer, at, ask.asker().number());
    let at = put_field(buffer, at, ask.asked().number());
    let at = put_field(buffer, at, ask.ask().value());
    put_field(buffer, at, ask.amount().value())
}

fn put_denial(buffer: &mut [u8], at: usize, denial: &Deny) -> usize
    requires { at + length (part_text (denial_fields denial.now)) ≤ length buffer.old }
    ensures end { result ≡ at + length (part_text (denial_fields denial.now)) }
    ensures text { take result buffer.new ≡ take at buffer.old
        ++ part_text (denial_fields denial.now) }
{
    let at = put_byte(buffer, at, DENIAL_LETTER);
    let at = put_field(buffer, at, denial.denier().number());
    let at = put_field(buffer, at, denial.asker().number());
    put_field(buffer, at, denial.ask().value())
}

// The text of a message, without its line feed.
fn put_message<B: Allocator>(buffer: &mut [u8], at: usize, message: &Message<B>) -> usize
    requires { at + length (text_of (value_of message.now)) ≤ length buffer.old }
    ensures end { result ≡ at + length (text_of (value_of message.now)) }
    ensures text { take result buffer.new ≡ take at buffer.old ++ text_of (value_of message.now) }
{
    match message {
        Message::Push(entry) => put_entry(buffer, at, entry),
        Message::Query(query) => put_query(buffer, at, query),
        Message::Answer(answer) => put_answer(buffer, at, answer),
        Message::Beat(beat) => put_beat(buffer, at, beat),
        Message::Ask(ask) => put_ask(buffer, at, ask),
        Message::Deny(denial) => put_denial(buffer, at, denial),
        Message::Hello(site) => {
            let at = put_byte(buffer, at, HELLO_LETTER);
            put_field(buffer, at, site.number())
        }
    }
}

fn put_line<B: Allocator>(buffer: &mut [u8], at: usize, message: &Message<B>) -> usize
    requires { at + length (line (value_of message.now)) ≤ length buffer.old }
    ensures end { result ≡ at + length (line (value_of message.now)) }
    ensures text { take result buffer.new ≡ take at buffer.old ++ line (value_of message.now) }
{
    let at = put_message(buffer, at, message);
    put_byte(buffer, at, LINE_END)
}

/// Appends a message's line to a text. On `OutOfMemory` nothing is appended.
pub fn write_into<A: Allocator, B: Allocator>(
    out: &mut Vec<u8, A>,
    message: &Message<B>,
) -> Result<(), OutOfMemory>
    ensures written { OnOk result (out.new.items ≡ out.old.items ++ line (value_of message.now)) }
    ensures unchanged { OnErr result (out.new.items ≡ out.old.items) }
    ensures valid { IsMessage (value_of message.now) }
{
    let start = out.len();
    out.resize(start + line_len(message), 0)?;
    put_line(out.as_mut_slice(), start, message);
    Ok(())
}

/// Writes the line of the message that pushes the entry of these values, from the start of a buffer that has space for
/// any such line, so it is not measured first. The entry need not exist. Returns the number of bytes written.
pub fn put_entry_line(buffer: &mut [u8], origin: SiteId, prev: u64, moves: &[Move]) -> usize
    requires valid { IsEntry (record { origin = origin; prev = prev; moves = moves.now }) }
    requires room { ENTRY_ROOM ≤ length buffer.old }
    ensures text { take result buffer.new
        ≡ line (AnEntry (record { origin = origin; prev = prev; moves = moves.now })) }
    ensures fits { result ≤ ENTRY_ROOM }
{
    let at = put_entry_of(buffer, 0, origin, prev, moves);
    put_byte(buffer, at, LINE_END)
}

/// Writes a line of this text into a buffer that has room for it, and returns the length of the line.
pub fn put_text_line(buffer: &mut [u8], text: &[u8]) -> usize
    requires { length text.now < length buffer.old }
    ensures text { take result buffer.new ≡ text.now ++ LINE_END ∷ [] }
    ensures end { result ≡ length text.now + 1 }
{
    let end = text.len();
    buffer[..end].copy_from_slice(text);
    put_byte(buffer, end, LINE_END)
}

/// The one line that spells a message. `OutOfMemory` if memory for it is refused.
pub fn write_line<A: Allocator + Copy, B: Allocator>(
    alloc: A,
    message: &Message<B>,
) -> Result<Vec<u8, A>, OutOfMemory>
    ensures { IfOk result (λ text. Spells (value_of message.now) text.items) }
{
    let mut out = Vec::new(alloc);
    write_into(&mut out, message)?;
    Ok(out)
}

/// The line of the message that pushes this entry. `OutOfMemory` if memory for it is refused.
pub fn write_entry<A: Allocator + Copy, B: Allocator>(
    alloc: A,
    entry: &Entry<B>,
) -> Result<Vec<u8, A>, OutOfMemory>
    ensures { IfOk result (λ text. Spells (AnEntry entry.now) text.items) }
{
    let mut out = Vec::new(alloc);
    out.resize(entry_len(entry) + 1, 0)?;
    fill_with_line(out.as_mut_slice(), entry);
    Ok(out)
}

// The buffer has exactly the length of the line.
fn fill_with_line<B: Allocator>(buffer: &mut [u8], entry: &Entry<B>)
    requires { length buffer.old ≡ length (entry_text entry.now) + 1 }
    ensures { buffer.new ≡ entry_text entry.now ++ LINE_END ∷ [] }
{
    let at = put_entry(buffer, 0, entry);
    put_byte(buffer, at, LINE_END);
}
