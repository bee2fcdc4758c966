//! What is said of the ticks that a site does by itself.

use reply_texts::refusal_of;
use site_core::DeskError;
use site_sockets::{SiteClock, SiteSockets};
use std::fmt::Display;
use std::sync::Wait;

/// Records how far the wall clock is behind the site's time. The log says it when that begins, and when it ends.
pub(crate) fn note_clock<R: Wait>(rt: &R, site: &SiteSockets, clock: &SiteClock, behind: u64) {
    let before = clock.note_behind(behind);
    if (behind > 0) == (before > 0) {
        return;
    }
    if behind > 0 {
        say(
            rt,
            site,
            format_args!(
                "the wall clock went back: the site's time stands still for {} milliseconds",
                behind
            ),
        );
    } else {
        say(
            rt,
            site,
            "the wall clock has caught up: the site's time goes on",
        );
    }
}

/// Logs what happened, if events are logged.
fn say<R: Wait, D: Display + Drop>(rt: &R, site: &SiteSockets, event: D) {
    if site.logs_events {
        site.log.put(rt, event);
    }
}

/// Counts the refusal of a tick as one of a command. The log says it when ticks begin to be refused, and when that ends.
pub(crate) fn note_outcome<R: Wait>(
    rt: &R,
    site: &SiteSockets,
    clock: &SiteClock,
    refused: Option<DeskError>,
) {
    let was_refused = clock.note_refused(refused.is_some());
    let Some(error) = refused else {
        if was_refused {
            say(rt, site, "ticks are refused no more");
        }
        return;
    };
    let why = refusal_of(error);
    site.commands.note_refused(why);
    if !was_refused {
        let name = str::from_utf8(why.name()).unwrap_or("");
        say(rt, site, format_args!("ticks are refused: {}", name));
    }
}
