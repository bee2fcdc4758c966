//! The site's own time.

use site_node::{SiteTime, site_time};
use site_sockets::SiteClock;
use std::time::{Clock, SystemTime, UNIX_EPOCH};

/// The milliseconds since 1970. `None` if the clock cannot be read.
pub(crate) fn wall_clock<R: Clock>(rt: &R) -> Option<u64> {
    let now = SystemTime::now(rt).ok()?;
    let since = now.duration_since(UNIX_EPOCH).ok()?;
    u64::try_from(since.as_millis()).ok()
}

/// The site's time now, for all its threads. If the wall clock cannot be read, the time stands still.
pub(crate) fn own_time<R: Clock>(rt: &R, clock: &SiteClock) -> SiteTime {
    // Before the wall clock is read: a time that another thread reads in between must not look like one that went back.
    let last = clock.latest();
    let wall = wall_clock(rt).unwrap_or(last);
    let time = site_time(last, wall);
    SiteTime {
        now: clock.advance(time.now),
        behind: time.behind,
    }
}
