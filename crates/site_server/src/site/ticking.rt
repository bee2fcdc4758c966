//! The ticks that a site does by itself.

use crate::site::client::{SiteClient, client_at};
use crate::site::shared::{COMMANDS, TICKS};
use crate::site::site_time::own_time;
use crate::site::tick_log::{note_clock, note_outcome};
use crate::site::tick_signal::TickSignal;
use apply_lanes::DeskNames;
use desk_turns::Seats;
use site_node::{Peers, note_silent};
use site_sockets::{SiteClock, SiteSockets};
use std::sync::{Arc, Wait};
use std::thread::Scope;
use std::time::{Clock, Duration};
use transfer_manager::SiteSet;

/// The peers that are silent now.
fn silent_peers<R: Wait + Clock>(rt: &R, site: &SiteSockets) -> SiteSet {
    let mut silent = SiteSet::new();
    for peer in site.peers() {
        let unheard = peer.unheard(rt);
        let is_silent = note_silent(&mut silent, peer.site, site.silent_after, unheard);
        peer.events
            .notes_silence(rt, if is_silent { unheard } else { 0 });
    }
    silent
}

impl<D: DeskNames, R: Wait + Clock, P: Peers + Drop, B: TickSignal + Drop> SiteClient<
    '_,
    D,
    R,
    P,
    B,
> {
    /// Does what a `tick` with the site's time does, beside the peers that are silent.
    fn tick_now(&mut self, rt: &R, site: &SiteSockets, clock: &SiteClock) {
        let time = own_time(rt, clock);
        note_clock(rt, site, clock, time.behind);
        let outcome = self.tick_alone(time.now, silent_peers(rt, site));
        note_outcome(rt, site, clock, outcome.err());
    }

    /// Ticks every `every` milliseconds until the site ends.
    fn tick_all(&mut self, rt: &R, site: &SiteSockets, clock: &SiteClock, every: u64) {
        let time = Duration::from_millis(every);
        for _ in rt.forever() {
            if !site.tick_notifier.rest(rt, time) {
                return;
            }
            self.tick_now(rt, site, clock);
        }
    }
}

/// Ticks every `every` milliseconds, with the clock's seat.
fn keep_time<D: DeskNames, R: Wait + Clock + AllocGlobal>(
    rt: &R,
    site: &SiteSockets,
    clock: &SiteClock,
    every: u64,
    seats: Arc<Seats<D>>,
) {
    if let Some(mut client) = client_at(rt, site, &seats, TICKS) {
        client.tick_all(rt, site, clock, every);
    }
}

/// Ticks once more if the site ticks by itself, so that what was done last is sent. It is done for the client that wrote to
/// the site's input, which has ended.
pub(crate) fn tick_last<D: DeskNames, R: Wait + Clock + AllocGlobal>(
    rt: &R,
    site: &SiteSockets,
    seats: &Seats<D>,
) {
    let Some(clock) = &site.clock else {
        return;
    };
    if let Some(mut client) = client_at(rt, site, seats, COMMANDS) {
        client.tick_now(rt, site, clock);
    }
}

/// Starts the thread that ticks, if the site ticks by itself. `false` if it could not be started.
pub(crate) fn begin_ticks<
    's,
    E,
    D: DeskNames + Send + Sync + 's,
    R: Wait + Clock + AllocGlobal + Sync,
>(
    scope: &Scope<'s, E>,
    rt: &'s R,
    site: &'s SiteSockets,
    every: Option<u64>,
    seats: &Arc<Seats<D>>,
) -> bool {
    let (Some(every), Some(clock)) = (every, &site.clock) else {
        return true;
    };
    match seats.clone() {
        Ok(seats) => scope
            .spawn(move || keep_time(rt, site, clock, every, seats))
            .is_ok(),
        Err(_) => false,
    }
}
