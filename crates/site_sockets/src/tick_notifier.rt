//! The ticks of a site, and the threads that wait for them.
ghost use Rattle.std.specs.Prelude.{◌≡◌, ◌≢◌, ℕ};

use std::sync::{Condvar, CondvarTimeouts, Mutex, Wait};
use std::time::{Clock, Duration};

/// What a wait for a tick came to.
#[derive(Clone, Copy, Debug, PartialEq, Eq)]
pub enum NextTick {
    /// A tick was done: how many were in all, modulo 2^64.
    Done(u64),
    /// The site has ended.
    Ended,
    /// No tick came in time.
    Late,
}

/// Counts the ticks of a site, and notifies the threads that wait for one, or for the site's end.
#[derive(Drop)]
pub struct TickNotifier {
    state: Mutex<State>,
    /// Notified of each tick, and of the end.
    ticked: Condvar,
    /// Notified of the end.
    ended: Condvar,
}

#[derive(Drop)]
struct State {
    ticks: u64,
    has_ended: bool,
}

impl TickNotifier {
    pub(crate) fn new() -> TickNotifier {
        TickNotifier {
            state: Mutex::new(State {
                ticks: 0,
                has_ended: false,
            }),
            ticked: Condvar::new(),
            ended: Condvar::new(),
        }
    }

    /// How many ticks were done, modulo 2^64.
    pub fn count<R: Wait>(&self, rt: &R) -> u64 {
        self.state.lock(rt).ticks
    }

    /// Counts a tick, and wakes the threads that wait for one.
    pub fn tick<R: Wait>(&self, rt: &R) {
        let mut state = self.state.lock(rt);
        let state = &mut *state;
        state.ticks = state.ticks.wrapping_add(1);
        self.ticked.notify_all();
    }

    /// Waits until the number of ticks is not `seen`, for this time at most, or until the site ends.
    pub fn next<R: Wait + Clock>(&self, rt: &R, seen: u64, time: Duration) -> NextTick
        ensures { (ticks : ℕ) → result ≡ NextTick.Done ticks → ticks ≢ seen }
    {
        let (state, _) = self
            .ticked
            .wait_timeout_while(rt, self.state.lock(rt), time, |state| {
                state.ticks == seen && !state.has_ended
            });
        // A tick done before the end is reported first.
        if state.ticks != seen {
            NextTick::Done(state.ticks)
        } else if state.has_ended {
            NextTick::Ended
        } else {
            NextTick::Late
        }
    }

    /// Whether the site has ended.
    pub fn has_ended<R: Wait>(&self, rt: &R) -> bool {
        self.state.lock(rt).has_ended
    }

    /// Waits for this time, or until the site ends. `false` if it has ended.
    pub fn rest<R: Wait + Clock>(&self, rt: &R, time: Duration) -> bool {
        let (state, _) = self
            .ended
            .wait_timeout_while(rt, self.state.lock(rt), time, |state| !state.has_ended);
        !state.has_ended
    }

    /// Ends the waiting of all threads: the site ends.
    pub(crate) fn end<R: Wait>(&self, rt: &R) {
        let mut state = self.state.lock(rt);
        let state = &mut *state;
        state.has_ended = true;
        self.ticked.notify_all();
        self.ended.notify_all();
    }
}
