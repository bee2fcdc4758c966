//! Notifies threads that a tick was done, and of the site's time.
ghost use Rattle.std.specs.Prelude.{◌≡◌, ℕ, Option};

use crate::site::site_time::own_time;
use site_sockets::{NextTick, SiteClock, SiteSockets, TickNotifier};
use std::cell::Cell;
use std::net::TcpStream;
use std::sync::Wait;
use std::time::{Clock, Duration};
use timed_streams::has_left;

/// How many milliseconds a thread waits for a tick before it looks whether its client is still there.
const LOOK_MILLISECONDS: u64 = 200;

/// For how many lines more at most a reading of the clock counts: they are carried out within microseconds, and to read it for
/// each would be a twentieth of what a spend costs.
const LINES: u32 = 32;

/// What ends a wait for a tick.
#[derive(Clone, Copy, Debug, PartialEq, Eq)]
pub(crate) enum Woken {
    /// A tick was done: how many were in all.
    ByTick(u64),
    /// The site has ended.
    ByEnd,
    /// The client has left.
    ByClient,
}

/// Notifies the threads that wait that a tick was done. A tick decides spends that wait.
pub(crate) trait TickSignal {
    /// The site has ended: no thread waits for a tick any more.
    ghost has_ended: { Self → Type 0 };

    /// The client for which the thread waits has left.
    ghost has_left: { Self → Type 0 };

    /// The site's own clock may show this time; None for a site that does not tick itself.
    ghost shows: { Self → Option ℕ → Type 0 };

    /// What the site's own clock shows, in milliseconds since 1970: the wall clock's time, but never less than before.
    /// None for a site that does not tick itself.
    fn time(&self) -> Option<u64>
        ensures { shows self.now result };

    /// A request begins: the clock is read for its first lines.
    fn begin(&self);

    /// What the clock showed for this line of the request or for one of the lines right before it.
    fn line_time(&self) -> Option<u64>
        ensures { shows self.now result };

    /// How many ticks were done; passed to `next`.
    fn count(&self) -> u64;

    /// Notifies that a tick was done.
    fn notify(&self);

    /// Waits until the number of ticks is not `seen`, the site ends, or the client leaves.
    fn next(&self, seen: u64) -> Woken
        ensures ended { result ≡ Woken.ByEnd → has_ended self.now }
        ensures left { result ≡ Woken.ByClient → has_left self.now };
}

/// The ticks of a site, for the thread of a client. Their lock hides whether the site has ended, the clock what it shows,
/// and the stream whether the client has left.
#[derive(Drop)]
pub(crate) struct SiteTickSignal<'a, R: Wait + Clock> {
    rt: &'a R,
    tick_notifier: &'a TickNotifier,
    clock: Option<&'a SiteClock>,
    /// The client's connection. A client without one never leaves.
    stream: Option<&'a TcpStream>,
    /// What the clock showed last, and for how many lines more that counts.
    read: Cell<Option<u64>>,
    lines: Cell<u32>,
}

impl<'a, R: Wait + Clock> SiteTickSignal<'a, R> {
    pub(crate) fn new(
        rt: &'a R,
        site: &'a SiteSockets,
        stream: Option<&'a TcpStream>,
    ) -> SiteTickSignal<'a, R> {
        SiteTickSignal {
            rt,
            tick_notifier: &site.tick_notifier,
            clock: site.clock.as_ref(),
            stream,
            read: Cell::new(None),
            lines: Cell::new(0),
        }
    }

    /// Whether the client has left. At its end the site shuts connections down itself, which does not count.
    fn is_left(&self) -> bool {
        match self.stream {
            Some(stream) => has_left(stream) && !self.tick_notifier.has_ended(self.rt),
            None => false,
        }
    }
}

impl<R: Wait + Clock> TickSignal for SiteTickSignal<'_, R> {
    ghost has_ended = { λ _. Unit {0} };

    ghost has_left = { λ _. Unit {0} };

    ghost shows = { λ _ time. Unit {0} };

    fn time(&self) -> Option<u64> {
        let time = own_time(self.rt, self.clock?);
        Some(time.now)
    }

    fn begin(&self) {
        self.read.set(self.time());
        self.lines.set(LINES);
    }

    fn line_time(&self) -> Option<u64> {
        let lines = self.lines.get();
        if lines == 0 {
            self.begin();
        } else {
            self.lines.set(lines - 1);
        }
        self.read.get()
    }

    fn count(&self) -> u64 {
        self.tick_notifier.count(self.rt)
    }

    fn notify(&self) {
        self.tick_notifier.tick(self.rt);
    }

    fn next(&self, seen: u64) -> Woken {
        let time = Duration::from_millis(LOOK_MILLISECONDS);
        for _ in self.rt.forever() {
            let next = self.tick_notifier.next(self.rt, seen, time);
            if self.is_left() {
                return Woken::ByClient;
            }
            match next {
                NextTick::Done(ticks) => return Woken::ByTick(ticks),
                NextTick::Ended => return Woken::ByEnd,
                NextTick::Late => {}
            }
        }
        unreachable!()
    }
}
