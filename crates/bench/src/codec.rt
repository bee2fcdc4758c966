//! How fast lines are read and written.

mod lines;

use crate::codec::lines::{Load, answers, entries, short_kinds};
use crate::rate::per_second;
use entry_codec::{read_line, write_line};
use rights_types::Message;
use std::alloc::Global;
use std::rt::Clock;
use std::time::Instant;

// How often each load is repeated in a run, and the number of runs, of which the best is reported. The runs are
// short, so that some of them are not disturbed when other programs run too.
const ROUNDS: u64 = 1_000;

const RUNS: u64 = 100;

fn read_all(alloc: Global, lines: &[Vec<u8>]) -> Option<Vec<Message>> {
    let mut messages = Vec::with_capacity(alloc, lines.len()).ok()?;
    for line in lines {
        messages.push(read_line(alloc, line).ok()?).ok()?;
    }
    Some(messages)
}

fn write_all(alloc: Global, messages: &[Message]) -> Option<Vec<Vec<u8>>> {
    let mut lines = Vec::with_capacity(alloc, messages.len()).ok()?;
    for message in messages {
        lines.push(write_line(alloc, message).ok()?).ok()?;
    }
    Some(lines)
}

// The least time of the runs, in nanoseconds, and at least 1.
fn read_time<R: Clock + AllocGlobal>(rt: &R, lines: &[Vec<u8>]) -> Option<u128> {
    let mut best = u128::MAX;
    for _ in 0..RUNS {
        let start = Instant::now(rt).ok()?;
        for _ in 0..ROUNDS {
            read_all(rt.alloc(), lines)?;
        }
        best = best.min(start.elapsed(rt).ok()?.as_nanos());
    }
    Some(best.max(1))
}

fn write_time<R: Clock + AllocGlobal>(rt: &R, messages: &[Message]) -> Option<u128> {
    let mut best = u128::MAX;
    for _ in 0..RUNS {
        let start = Instant::now(rt).ok()?;
        for _ in 0..ROUNDS {
            write_all(rt.alloc(), messages)?;
        }
        best = best.min(start.elapsed(rt).ok()?.as_nanos());
    }
    Some(best.max(1))
}

fn print_rates<R: Print>(rt: &R, verb: &str, load: &Load, nanos: u128) -> Option<()> {
    let mut bytes: usize = 0;
    for line in &load.lines {
        bytes = bytes.saturating_add(line.len());
    }
    let count = load.lines.len();
    let line_rate = per_second(ROUNDS.saturating_mul(count as u64), nanos);
    let byte_rate = per_second(ROUNDS.saturating_mul(bytes as u64), nanos);
    let name = load.name;
    println!(rt;
        "codec {verb} {name}: {line_rate} lines/s, {byte_rate} bytes/s ({count} lines, {bytes} bytes)"
    ).ok()
}

fn measure<R: Clock + Print + AllocGlobal>(rt: &R, load: &Load) -> Option<()> {
    let nanos = read_time(rt, &load.lines)?;
    print_rates(rt, "read", load, nanos)?;
    let messages = read_all(rt.alloc(), &load.lines)?;
    let nanos = write_time(rt, &messages)?;
    print_rates(rt, "write", load, nanos)
}

/// Prints the rates of each load.
pub(crate) fn measure_all<R: Clock + Print + AllocGlobal>(rt: &R) -> Option<()> {
    measure(rt, &entries(rt.alloc()).ok()?)?;
    measure(rt, &answers(rt.alloc()).ok()?)?;
    measure(rt, &short_kinds(rt.alloc()).ok()?)
}
