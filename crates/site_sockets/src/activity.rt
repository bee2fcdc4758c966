//! What the threads of client connections wait for, so that the one that has waited longest can be ended.
ghost use Rattle.std.specs.Prelude.{◌≡◌};
ghost use Rattle.site_sockets.specs.Waits.{rank, age, goes_before};

use std::sync::{Mutex, Wait};

/// What the thread of a connection waits for, and since when, in milliseconds.
#[derive(Clone, Copy, Debug, PartialEq, Eq)]
pub(crate) enum Phase {
    /// The first byte of a request.
    Idle(u64),
    /// The rest of a request.
    Receiving(u64),
    /// It waits for nothing of the client.
    Working,
    /// That the client takes a response.
    Sending(u64),
    /// The connection was ended for another one.
    Ended,
}

impl Phase {
    /// How early a connection ends for another one: idle ones first, then those whose request or response is not
    /// through. `None` if it does not.
    pub(crate) fn rank(self) -> Option<u8>
        ensures { result ≡ rank self }
    {
        match self {
            Phase::Idle(_) => Some(0),
            Phase::Receiving(_) | Phase::Sending(_) => Some(1),
            Phase::Working | Phase::Ended => None,
        }
    }

    /// For how many milliseconds it has waited.
    pub(crate) fn age(self, now: u64) -> u64
        ensures { result ≡ age self now }
    {
        match self {
            Phase::Idle(since) | Phase::Receiving(since) | Phase::Sending(since) =>
                now.saturating_sub(since),
            Phase::Working | Phase::Ended => 0,
        }
    }

    /// Whether this connection, rather than the other one, ends for a new one.
    pub(crate) fn goes_before(self, other: Phase, now: u64) -> bool
        ensures { result ≡ goes_before self other now }
    {
        match (self.rank(), other.rank()) {
            (Some(own), Some(others)) => {
                own < others || (own == others && self.age(now) > other.age(now))
            }
            (Some(_), None) => true,
            (None, _) => false,
        }
    }
}

/// What the thread of one connection waits for. The thread itself changes it, and another one may end it.
#[derive(Drop)]
pub(crate) struct Activity {
    phase: Mutex<Phase>,
}

impl Activity {
    pub(crate) fn new() -> Activity {
        Activity {
            phase: Mutex::new(Phase::Working),
        }
    }

    /// What its thread waits for.
    pub(crate) fn phase<R: Wait>(&self, rt: &R) -> Phase {
        *self.phase.lock(rt)
    }

    /// A new connection has this place.
    pub(crate) fn begin<R: Wait>(&self, rt: &R, now: u64) {
        *self.phase.lock(rt) = Phase::Idle(now);
    }

    /// Its thread waits for this from now on. `false` if the connection was ended.
    pub(crate) fn change<R: Wait>(&self, rt: &R, next: Phase) -> bool {
        let mut phase = self.phase.lock(rt);
        let phase = &mut *phase;
        if *phase == Phase::Ended {
            return false;
        }
        *phase = next;
        true
    }

    /// Ends the connection if its thread still waits for this. Then no request that comes on it is carried out.
    pub(crate) fn end<R: Wait>(&self, rt: &R, seen: Phase) -> bool {
        let mut phase = self.phase.lock(rt);
        let phase = &mut *phase;
        if *phase != seen {
            return false;
        }
        *phase = Phase::Ended;
        true
    }
}
