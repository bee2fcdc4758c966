//! How fast a desk spends, gives, grants, applies and takes back, compared with a log alone.

mod loads;
mod threads;

use crate::desk::loads::{
    append_all, apply_all, closing, gifts, give_all, grant_all, opened, spend_all,
};
use crate::desk::threads::measure_seats;
use crate::rate::per_second;
use origin_log::OriginLog;
use rights_types::{Entry, SiteId};
use site_core::Desk;
use std::rt::Clock;
use std::sync::Wait;
use std::thread::Threads;
use std::time::Instant;

// The number of runs, of which the best is reported.
const RUNS: u64 = 5;

// The number of calls of a run.
const CALLS: u64 = 1_000_000;

// The number of entries that are built before a run and applied in it.
const ENTRIES: u64 = 100_000;

// The call of a desk that is measured.
#[derive(Clone, Copy)]
enum Load<'a> {
    Spends,
    Gifts,
    Grants,
    Entries(&'a [Entry]),
    // Applying the closing entry of a site, after this number of gifts to it.
    Closing(&'a [Entry]),
}

impl Load<'_> {
    fn prepare(&self, desk: &mut Desk) -> Option<()> {
        match self {
            Load::Closing(_) => give_all(desk, CALLS),
            _ => Some(()),
        }
    }

    fn run(&self, desk: &mut Desk) -> Option<()> {
        match self {
            Load::Spends => spend_all(desk, CALLS),
            Load::Gifts => give_all(desk, CALLS),
            Load::Grants => grant_all(desk, CALLS),
            Load::Entries(entries) => apply_all(desk, entries),
            Load::Closing(entries) => apply_all(desk, entries),
        }
    }

    fn time_at<R: Clock>(&self, rt: &R, desk: &mut Desk) -> Option<u128> {
        self.prepare(desk)?;
        let start = Instant::now(rt).ok()?;
        self.run(desk)?;
        Some(start.elapsed(rt).ok()?.as_nanos())
    }

    // The time at a new desk.
    fn time<R: Clock + AllocGlobal>(&self, rt: &R) -> Option<u128> {
        let mut desk = opened(rt.alloc())?;
        self.time_at(rt, &mut desk)
    }

    fn best_time<R: Clock + AllocGlobal>(&self, rt: &R) -> Option<u128> {
        let mut best = u128::MAX;
        for _ in 0..RUNS {
            best = best.min(self.time(rt)?);
        }
        Some(best)
    }
}

fn append_time<R: Clock + AllocGlobal>(rt: &R) -> Option<u128> {
    let mut log = OriginLog::new(rt.alloc(), SiteId::known(1));
    let start = Instant::now(rt).ok()?;
    append_all(&mut log, CALLS)?;
    Some(start.elapsed(rt).ok()?.as_nanos())
}

fn best_append_time<R: Clock + AllocGlobal>(rt: &R) -> Option<u128> {
    let mut best = u128::MAX;
    for _ in 0..RUNS {
        best = best.min(append_time(rt)?);
    }
    Some(best)
}

fn print_rate<R: Print>(rt: &R, what: &str, count: u64, nanos: u128) -> Option<()> {
    let rate = per_second(count, nanos);
    println!(rt; "desk: {rate} {what}/s").ok()
}

// A site gave this number of times to a site that closes without having applied the last gift.
fn measure_taking_back<R: Clock + Print + AllocGlobal>(rt: &R, beyond: u64) -> Option<()> {
    // The site's log is one entry that issues, and then the gifts.
    let close = closing(rt.alloc(), (CALLS + 1).saturating_sub(beyond))?;
    let took = Load::Closing(close.as_slice()).time(rt)?;
    let rate = per_second(beyond, took);
    println!(rt;
        "desk: {beyond} entries beyond the frontier: {rate} entries/s taken back, {took} ns in all"
    ).ok()
}

fn measure_applying<R: Clock + Print + AllocGlobal>(rt: &R) -> Option<()> {
    let entries = gifts(rt.alloc(), ENTRIES)?;
    let took = Load::Entries(entries.as_slice()).best_time(rt)?;
    print_rate(rt, "applied entries", ENTRIES, took)
}

/// Prints the rates. The log appends entries of one move, as each spend does.
pub(crate) fn measure_all<R: Clock + Print + Threads + Wait + Sync + AllocGlobal>(
    rt: &R,
) -> Option<()> {
    print_rate(rt, "appends of a log alone", CALLS, best_append_time(rt)?)?;
    print_rate(rt, "spends", CALLS, Load::Spends.best_time(rt)?)?;
    print_rate(rt, "gifts", CALLS, Load::Gifts.best_time(rt)?)?;
    print_rate(rt, "answered asks", CALLS, Load::Grants.best_time(rt)?)?;
    measure_applying(rt)?;
    for beyond in [1u64, 1_000, 1_000_000] {
        measure_taking_back(rt, beyond)?;
    }
    measure_seats(rt)
}
