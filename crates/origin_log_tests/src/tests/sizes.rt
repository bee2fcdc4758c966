//! Entries and answers of every size, with each memory request refused in turn, compared whole.
use crate::tests::calls::Put;
use crate::tests::scripts::plays;
use crate::tests::texts::{
    LONGEST, SIZES, count_of, longest_log, put_append, put_entry, put_moves,
};
use std::alloc::{AllocError, AllocGlobal};
use std::process::Abort;
use test_kit::{fill, site};

// An entry requests memory for its line, the index, the list of blocks and a block, and again when it is
// read.
const REQUESTS: u64 = 5;

// Appends these moves, so many, to an empty log, and reads the entry again.
fn put_alone(script: &mut String, verb: &str, moves: &str, count: u64, end: &str) -> Put {
    script.push_str(verb)?;
    script.push_str(moves)?;
    fill(script, " > $1\nentry 0 > E 1 0 $1", &[count])?;
    script.push_str(moves)?;
    fill(
        script,
        "\nend > 1 entries, the last $1, a beat $1",
        &[count],
    )?;
    script.push_str(end)
}

fn check_alone(rt: &(impl Abort + AllocGlobal), verb: &str, moves: &str, count: u64, end: &str) {
    let mut script = String::new(rt.alloc());
    put_alone(&mut script, verb, moves, count, end).expect(rt, "memory");
    let requests = plays(rt, site(1), &script);
    assert!(rt; requests == REQUESTS, "{moves}");
}

/// Moves that are passed by value, and moves that are borrowed.
#[test]
fn entries_of_every_size(rt: HostRuntime) {
    let mut moves = String::new(rt.alloc());
    for size in 0..SIZES {
        moves.clear();
        put_moves(&mut moves, size).expect(&rt, "memory");
        check_alone(&rt, "append", &moves, count_of(size), "");
        check_alone(&rt, "lend", &moves, count_of(size), "");
    }
}

/// Totals of 1 to 19 digits.
#[test]
fn take_backs_of_every_size(rt: HostRuntime) {
    let mut moves = String::from_str(rt.alloc(), " V:2:1").expect(&rt, "memory");
    for _ in 0..19u8 {
        check_alone(&rt, "append", &moves, 1, "");
        moves.push('0').expect(&rt, "memory");
    }
}

// The numbers of a frontier.
const APPLIED: [&str; 16] = [
    ":0",
    ":1000000000",
    ":7",
    ":1000000000",
    ":0",
    ":90",
    ":6",
    ":50",
    ":4",
    ":30",
    ":2",
    ":10",
    ":1",
    ":99",
    ":8",
    ":77",
];

// Closing entries of 1 to 16 sites, the first of which no system has.
fn check_closing(rt: &(impl Abort + AllocGlobal), front: &str, count: u64) {
    let mut moves = String::from_str(rt.alloc(), front).expect(rt, "memory");
    for (place, number) in APPLIED.iter().enumerate() {
        moves.push_str(number).expect(rt, "memory");
        if place > 0 {
            check_alone(rt, "append", &moves, count, ", closed");
        }
    }
}

/// Frontiers of 2 to 16 sites, with an heir and without.
#[test]
fn closing_entries_of_every_size(rt: HostRuntime) {
    check_closing(&rt, " K", 1);
    check_closing(&rt, " R:2:1000000000 K", 2);
}

// The number before the first entry of this size: sixteen sizes have 136 moves.
fn prev_at(size: usize) -> u64 {
    let rest = size % 16;
    let short = rest.saturating_mul(rest.saturating_add(1)) / 2;
    (size / 16).saturating_mul(136).saturating_add(short) as u64
}

// Appends an entry of each size.
fn put_each_size(script: &mut String) -> Put {
    for size in 0..SIZES {
        put_append(script, prev_at(size), size)?;
    }
    Ok(())
}

// Queries this number of entries, from that size on and from the middle of the first one to that of the last.
fn put_query(script: &mut String, template: &str, count: usize) -> Put {
    let first = prev_at(count).saturating_add(1);
    let last = prev_at(count.saturating_mul(2).saturating_sub(1)).saturating_add(1);
    fill(script, template, &[first, last])?;
    for size in count..count.saturating_mul(2) {
        script.push(';')?;
        put_entry(script, 1, prev_at(size), size)?;
    }
    script.push('\n')
}

fn put_queries(script: &mut String) -> Put {
    for count in 1..=16usize {
        put_query(script, "find Q 2 1 $1 $2 > found", count)?;
        put_query(script, "answer Q 2 1 $1 $2 > A 1 2", count)?;
    }
    // What comes after all of them.
    script.push_str("find Q 2 1 273 1000000000 > found\nanswer Q 2 1 273 1000000000 > A 1 2\n")
}

// How many requests the log makes, and then the answers too.
fn requests_of_answers(
    rt: &(impl Abort + AllocGlobal),
    script: &mut String,
) -> Result<(u64, u64), AllocError> {
    put_each_size(script)?;
    let made = plays(rt, site(1), script);
    put_queries(script)?;
    Ok((made, plays(rt, site(1), script)))
}

/// Answers of 0 to 16 entries of 1 to 16 moves, and their lines. The log itself may make any number of
/// requests.
#[test]
fn answers_of_every_size(rt: HostRuntime) {
    let mut script = String::new(rt.alloc());
    let (made, asked) = requests_of_answers(&rt, &mut script).expect(&rt, "memory");
    // Each answer with entries makes a request for the list, and one for each entry; each line makes one.
    assert!(rt; asked == made.saturating_add(16 + 136 + 17));
}

// Reads the longest entries with this command.
fn put_reads(script: &mut String, template: &str) -> Put {
    for index in 0..16u64 {
        fill(script, template, &[index])?;
        put_entry(script, 15, index.saturating_mul(16), LONGEST)?;
        script.push('\n')?;
    }
    Ok(())
}

// Queries all of 17 of them, and gets 16.
fn put_query_for_all(script: &mut String, query: &str) -> Put {
    script.push_str(query)?;
    for index in 0..16u64 {
        script.push(';')?;
        put_entry(script, 15, index.saturating_mul(16), LONGEST)?;
    }
    script.push('\n')
}

// Whether the longest log makes one request more for the answer's line, 17 more for its entries, and none for lines.
fn longest_is_read(
    rt: &(impl Abort + AllocGlobal),
    script: &mut String,
) -> Result<bool, AllocError> {
    let made = plays(rt, site(15), script);
    put_query_for_all(script, "answer Q 16 15 1 272 > A 15 16")?;
    let line = plays(rt, site(15), script);
    put_query_for_all(script, "find Q 16 15 1 272 > found")?;
    let found = plays(rt, site(15), script);
    put_reads(script, "line $1 > ")?;
    let read = plays(rt, site(15), script);
    put_reads(script, "entry $1 > ")?;
    plays(rt, site(15), script);
    Ok(line == made.saturating_add(1) && found == made.saturating_add(18) && read == found)
}

/// The longest entries. An answer of 16 of them makes a request for the list, and one for each entry. Its line is
/// allocated in one piece.
#[test]
fn the_longest_answer(rt: HostRuntime) {
    let mut script = longest_log(&rt, 17);
    assert!(rt; longest_is_read(&rt, &mut script) == Ok(true));
}
