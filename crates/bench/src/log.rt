//! How fast a log is written and read, at three lengths.

mod loads;

use crate::log::loads::{MOVES, filled, next, query};
use crate::rate::per_second;
use origin_log::OriginLog;
use std::rt::Clock;
use std::time::Instant;

// The number of runs, of which the best is reported.
const RUNS: u64 = 3;

// The least number of calls of a run.
const CALLS: u64 = 1_000_000;

// A query asks for a number and this many after it, which four entries contain.
const GAP: u64 = 12;

// A short log is filled several times.
fn append_time<R: Clock + AllocGlobal>(rt: &R, entries: u64, rounds: u64) -> Option<u128> {
    let start = Instant::now(rt).ok()?;
    for _ in 0..rounds {
        filled(rt.alloc(), entries)?;
    }
    Some(start.elapsed(rt).ok()?.as_nanos())
}

fn line_time<R: Clock>(rt: &R, log: &OriginLog, numbers: u64) -> Option<u128> {
    let len = (numbers / MOVES).max(1);
    let start = Instant::now(rt).ok()?;
    let mut number = 1;
    let mut bytes = 0u64;
    for _ in 0..CALLS {
        number = next(number);
        if let Some(line) = log.line(((number >> 33) % len) as usize) {
            bytes = bytes.wrapping_add(line.len() as u64);
        }
    }
    let took = start.elapsed(rt).ok()?.as_nanos();
    if bytes == 0 {
        return None;
    }
    Some(took)
}

fn answer_time<R: Clock>(rt: &R, log: &OriginLog, numbers: u64) -> Option<u128> {
    let end = numbers.max(1);
    let start = Instant::now(rt).ok()?;
    let mut number = 1;
    for _ in 0..CALLS {
        number = next(number);
        let asked = query((number >> 33) % end + 1, GAP)?;
        log.answer_line(&asked).ok()?;
    }
    Some(start.elapsed(rt).ok()?.as_nanos())
}

fn read_time<R: Clock>(rt: &R, log: &OriginLog, numbers: u64) -> Option<u128> {
    let end = numbers.max(1);
    let start = Instant::now(rt).ok()?;
    let mut number = 1;
    for _ in 0..CALLS {
        number = next(number);
        let asked = query((number >> 33) % end + 1, GAP)?;
        log.answer(&asked).ok()?;
    }
    Some(start.elapsed(rt).ok()?.as_nanos())
}

// The bytes of all lines.
fn total_bytes(log: &OriginLog) -> u64 {
    let mut bytes = 0u64;
    for index in 0..log.len() {
        if let Some(line) = log.line(index) {
            bytes = bytes.wrapping_add(line.len() as u64);
        }
    }
    bytes
}

// The best times of reading a log: its lines, answers as lines, and answers.
#[derive(Clone, Copy)]
struct Reading {
    line: u128,
    answer: u128,
    read: u128,
}

// The best times of the runs, in which numbers up to `numbers` are read.
fn times_of<R: Clock>(rt: &R, log: &OriginLog, numbers: u64) -> Option<Reading> {
    let (mut line, mut answer, mut read) = (u128::MAX, u128::MAX, u128::MAX);
    for _ in 0..RUNS {
        line = line.min(line_time(rt, log, numbers)?);
        answer = answer.min(answer_time(rt, log, numbers)?);
        read = read.min(read_time(rt, log, numbers)?);
    }
    Some(Reading { line, answer, read })
}

fn best_append_time<R: Clock + AllocGlobal>(rt: &R, entries: u64, rounds: u64) -> Option<u128> {
    let mut best = u128::MAX;
    for _ in 0..RUNS {
        best = best.min(append_time(rt, entries, rounds)?);
    }
    Some(best)
}

// Prints the rates for a log of this number of moves, of which numbers up to `numbers` are read.
fn measure<R: Clock + Print + AllocGlobal>(rt: &R, moves: u64, numbers: u64) -> Option<()> {
    let entries = moves / MOVES;
    let rounds = (CALLS / entries.max(1)).max(1);
    let append = per_second(
        entries.saturating_mul(rounds),
        best_append_time(rt, entries, rounds)?,
    );
    let log = filled(rt.alloc(), entries)?;
    print_rates(rt, moves, numbers, append, &log)
}

fn print_rates<R: Clock + Print>(
    rt: &R,
    moves: u64,
    numbers: u64,
    append: u128,
    log: &OriginLog,
) -> Option<()> {
    let bytes = total_bytes(log) / (log.len() as u64).max(1);
    let times = times_of(rt, log, numbers)?;
    let line = per_second(CALLS, times.line);
    let answer = per_second(CALLS, times.answer);
    let read = per_second(CALLS, times.read);
    println!(rt;
        "log {moves} moves, {numbers} read: {append} appends/s, {line} lines/s, {answer} answer lines/s, {read} answers/s, {bytes} bytes a line"
    ).ok()
}

/// Prints the rates for a short, a medium and a long log. The long one is also read over a short prefix, which fits
/// into caches, so that the cost of its length alone can be seen.
pub(crate) fn measure_all<R: Clock + Print + AllocGlobal>(rt: &R) -> Option<()> {
    measure(rt, 1_000, 1_000)?;
    measure(rt, 100_000, 100_000)?;
    measure(rt, 10_000_000, 1_000)?;
    measure(rt, 10_000_000, 100_000)?;
    measure(rt, 10_000_000, 10_000_000)
}
