//! How many entries a subscriber buffer takes in per second.
ghost use Rattle.sub_buffer.specs.Buffers.{IsSettled};

mod windows;

use crate::buffer::windows::{Order, WINDOW_COUNT, window};
use crate::rate::per_second;
use rights_types::{Entry, SiteId};
use std::rt::Clock;
use std::time::Instant;
use sub_buffer::{SubBuffer, Verdict};

// The number of runs, of which the best is reported.
const RUNS: u64 = 5;

/// Prints the rates of entries that come in order, backwards within windows of 64, and each three times.
pub(crate) fn measure_all<R: Clock + Print + AllocGlobal>(rt: &R) -> Option<()> {
    measure(rt, "in order", Order::Forward)?;
    measure(rt, "backwards by 64", Order::Backward)?;
    measure(rt, "in order, each three times", Order::Thrice)
}

fn measure<R: Clock + Print + AllocGlobal>(rt: &R, name: &str, order: Order) -> Option<()> {
    let mut best = u128::MAX;
    for _ in 0..RUNS {
        best = best.min(arrival_time(rt, order)?);
    }
    let count = (order.arrivals_per_window() as u64).saturating_mul(WINDOW_COUNT as u64);
    let rate = per_second(count, best);
    println!(rt; "buffer {name}: {rate} arrivals/s ({count} arrivals)").ok()
}

// The nanoseconds that the arrivals of all windows take, without building their entries.
fn arrival_time<R: Clock + AllocGlobal>(rt: &R, order: Order) -> Option<u128> {
    let mut buffer = SubBuffer::new(rt.alloc(), SiteId::known(2), SiteId::known(1)).ok()?;
    let mut verdicts = Vec::new(rt.alloc());
    let mut nanos: u128 = 0;
    for number in 0..WINDOW_COUNT {
        let entries = window(rt.alloc(), order, number)?;
        let start = Instant::now(rt).ok()?;
        arrive_all(&mut buffer, entries, &mut verdicts)?;
        nanos = nanos.saturating_add(start.elapsed(rt).ok()?.as_nanos());
    }
    if buffer.last() != WINDOW_COUNT as u64 * 64 {
        return None;
    }
    Some(nanos)
}

fn arrive_all(
    buffer: &mut SubBuffer,
    entries: Vec<Entry>,
    verdicts: &mut Vec<Verdict>,
) -> Option<()>
    requires settled { IsSettled buffer.old }
    ensures settled { IsSettled buffer.new }
{
    for entry in entries {
        arrive(buffer, entry, verdicts)?;
    }
    Some(())
}

// Takes an entry in as a script does, with a list of verdicts that is kept for its memory.
fn arrive(buffer: &mut SubBuffer, entry: Entry, verdicts: &mut Vec<Verdict>) -> Option<()>
    requires settled { IsSettled buffer.old }
    ensures settled { IsSettled buffer.new }
{
    if entry.origin() != buffer.origin() {
        return None;
    }
    if buffer.arrive_next(&entry) {
        return Some(());
    }
    verdicts.clear();
    verdicts.reserve(buffer.held_count() + 1).ok()?;
    buffer.arrive(entry, verdicts);
    Some(())
}
