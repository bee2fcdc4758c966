//! The number of bytes in a message's line. The clauses `small` are rough bounds, from which it follows that no sum of
//! these numbers wraps.
ghost use Rattle.std.specs.Prelude.{◌≡◌, ◌+◌, ◌<◌, ◌≤◌, ◌^◌, nat_le, length, slice_index, decimal, if◌then◌else◌};
ghost use Rattle.rights_types.specs.Entries.{IsEntry};
ghost use Rattle.rights_types.specs.Messages.{IsAnswer, IsMessage};
ghost use Rattle.rights_types.specs.Values.{value_of};
ghost use Rattle.entry_codec.specs.Spelling.{move_text, line};
ghost use Rattle.entry_codec.specs.Texts.{frontier_text, entry_text, answer_text};

use rights_types::{Answer, Entry, Frontier, Message, Move, SiteId};
use std::alloc::Allocator;

const TEN_DIGITS: u64 = 10_000_000_000;

fn at_least(number: u64, least: u64) -> usize
    ensures { result ≡ (if nat_le least number then 1 else 0) }
{
    if number >= least { 1 } else { 0 }
}

// A sum of comparisons, which needs no branch.
fn short_count(number: u64) -> usize
    requires { number < 10 ^ 10 }
    ensures value { result ≡ length (decimal number) }
    ensures small { result ≤ 10 }
{
    1 + at_least(number, 10)
        + at_least(number, 100)
        + at_least(number, 1_000)
        + at_least(number, 10_000)
        + at_least(number, 100_000)
        + at_least(number, 1_000_000)
        + at_least(number, 10_000_000)
        + at_least(number, 100_000_000)
        + at_least(number, 1_000_000_000)
}

pub(crate) fn digit_count(number: u64) -> usize
    ensures value { result ≡ length (decimal number) }
    ensures small { result ≤ 20 }
{
    if number >= TEN_DIGITS {
        return 10 + short_count(number / TEN_DIGITS);
    }
    short_count(number)
}

pub(crate) fn place_of(frontier: &Frontier, index: usize) -> u64
    requires { index < length frontier.now }
    ensures { result ≡ slice_index frontier.now index }
{
    // For the proof: the frontier has at most 16 positions, so the index is a site's.
    let _ = frontier.count();
    frontier.at(SiteId::known(index as u64 + 1)).unwrap_or(0)
}

fn frontier_len(frontier: &Frontier) -> usize
    ensures value { result ≡ length (frontier_text frontier.now) }
    ensures small { result ≤ 400 }
{
    let mut total = 1;
    for index in 0..frontier.count() {
        total += 1 + digit_count(place_of(frontier, index));
    }
    total
}

fn move_len(m: &Move) -> usize
    ensures value { result ≡ length (move_text m.now) }
    ensures small { result ≤ 400 }
{
    match m {
        Move::Issue(amount) => 2 + digit_count(amount.value()),
        Move::Spend(amount) => 2 + digit_count(amount.value()),
        Move::Grant { peer, amount, ask } => {
            4 + digit_count(peer.number()) + digit_count(amount.value()) + digit_count(ask.value())
        }
        Move::Give { peer, amount } => 3 + digit_count(peer.number()) + digit_count(amount.value()),
        Move::Close => 1,
        Move::CloseAt(frontier) => frontier_len(frontier),
        Move::TakeBack { peer, amount } => 3
            + digit_count(peer.number())
            + digit_count(amount.value()),
    }
}

/// The same for the entry of these values.
pub(crate) fn entry_len_of(origin: SiteId, prev: u64, moves: &[Move]) -> usize
    requires { IsEntry (record { origin = origin; prev = prev; moves = moves.now }) }
    ensures value { result ≡ length (entry_text (record { origin = origin; prev = prev; moves = moves.now })) }
    ensures small { result ≤ 10000 }
{
    let mut total = 4
        + digit_count(origin.number())
        + digit_count(prev)
        + digit_count(prev + moves.len() as u64);
    for m in moves {
        total += 1 + move_len(m);
    }
    total
}

pub(crate) fn entry_len<B: Allocator>(entry: &Entry<B>) -> usize
    ensures value { result ≡ length (entry_text entry.now) }
    ensures small { result ≤ 10000 }
    ensures valid { IsEntry entry.now }
{
    entry_len_of(entry.origin(), entry.prev(), entry.moves())
}

fn answer_len<B: Allocator>(answer: &Answer<B>) -> usize
    ensures value { result ≡ length (answer_text answer.now) }
    ensures small { result ≤ 200000 }
    ensures valid { IsAnswer answer.now }
{
    let mut total = 3
        + digit_count(answer.origin().number())
        + digit_count(answer.asker().number());
    for entry in answer.entries() {
        total += 1 + entry_len(entry);
    }
    total
}

pub(crate) fn line_len<B: Allocator>(message: &Message<B>) -> usize
    ensures value { result ≡ length (line (value_of message.now)) }
    ensures small { result ≤ 200001 }
    ensures valid { IsMessage (value_of message.now) }
{
    match message {
        Message::Push(entry) => entry_len(entry) + 1,
        Message::Query(query) => {
            6 + digit_count(query.asker().number())
                + digit_count(query.origin().number())
                + digit_count(query.first())
                + digit_count(query.last())
        }
        Message::Answer(answer) => answer_len(answer) + 1,
        Message::Beat(beat) => 4 + digit_count(beat.origin().number()) + digit_count(beat.number()),
        Message::Ask(ask) => {
            6 + digit_count(ask.asker().number())
                + digit_count(ask.asked().number())
                + digit_count(ask.ask().value())
                + digit_count(ask.amount().value())
        }
        Message::Deny(denial) => {
            5 + digit_count(denial.denier().number())
                + digit_count(denial.asker().number())
                + digit_count(denial.ask().value())
        }
        Message::Hello(site) => 3 + digit_count(site.number()),
    }
}
