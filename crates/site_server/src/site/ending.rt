//! The end of a site: its desk stops, and reports what it did and what was reported to its clients.
ghost use Rattle.std.specs.Prelude.{IfOk};
ghost use Rattle.site_server.specs.Ending.{StopsDesk, TellsUnsent};

use crate::site::shared::Shared;
use apply_lanes::{DeskNames, Parts, Report, stop};
use log_lines::LogQueue;
use rights_types::OutOfMemory;
use site_metrics::unsent_numbers;
use site_sockets::SiteSockets;
use std::alloc::Global;
use std::sync::{Arc, Wait};

/// Why there is no report of a desk.
#[derive(Clone, Copy)]
pub(crate) enum NoReport {
    /// A thread still uses the desk or its seats, or what an applier reports was not left.
    Missing,
    /// A memory request was refused.
    OutOfMemory,
}

impl From<OutOfMemory> for NoReport {
    fn from(_error: OutOfMemory) -> NoReport {
        NoReport::OutOfMemory
    }
}

/// Stops the desk, whose seats are all free and whose appliers are done.
pub(crate) fn stop_desk<D: DeskNames>(alloc: Global, shared: Shared<D>) -> Result<Report, NoReport>
    ensures { IfOk result (λ report. StopsDesk D.id report) }
{
    let Shared {
        desk,
        seats,
        applied,
    } = shared;
    let (Ok(seats), Ok(applied)) = (Arc::try_unwrap(seats), Arc::try_unwrap(applied)) else {
        return Err(NoReport::Missing);
    };
    let seats = seats.into_vec(alloc)?;
    let applied = applied.into_vec(alloc)?;
    let Ok(desk) = Arc::try_unwrap(desk) else {
        return Err(NoReport::Missing);
    };
    let parts = Parts {
        desk: desk.into_desk(),
        seats,
        applied,
    };
    match stop(parts) {
        Ok(report) => Ok(report),
        Err(_) => Err(NoReport::Missing),
    }
}

/// How far the log was sent to each peer.
fn sent_to_peers(alloc: Global, site: &SiteSockets) -> Result<Vec<u64>, OutOfMemory> {
    let mut sent = Vec::with_capacity(alloc, site.peers().len())?;
    for peer in site.peers() {
        sent.push(peer.events.counters().sent())?;
    }
    Ok(sent)
}

/// The first and the last number of the log that was sent to no peer, by how far it was sent to each.
fn unsent<D: DeskNames, R: Wait>(rt: &R, shared: &Shared<D>, sent: &[u64]) -> Option<(u64, u64)>
    ensures { TellsUnsent D.id sent.now result }
{
    let look = shared.desk.look(rt);
    let kept = look.kept();
    unsent_numbers(kept.desk().number(), sent)
}

/// Logs which entries of the log no peer can have applied, if there are any.
pub(crate) fn say_unsent<D: DeskNames, R: Wait + AllocGlobal>(
    rt: &R,
    site: &SiteSockets,
    shared: &Shared<D>,
) {
    let Ok(sent) = sent_to_peers(rt.alloc(), site) else {
        return;
    };
    if let Some((first, last)) = unsent(rt, shared, sent.as_slice()) {
        site.log.put(
            rt,
            format_args!(
                "ended: {} to {} of its log were sent to no peer",
                first, last
            ),
        );
    }
}

/// Logs what the site did, as one line.
pub(crate) fn say_report<R: Wait>(rt: &R, log: &LogQueue, report: &Report) {
    log.put(
        rt,
        format_args!(
            "ended: issued {} spent {} given {} received {} held {}; told issued {} spent {} served {}",
            report.issued,
            report.spent,
            report.given,
            report.received,
            report.held,
            report.told_issued,
            report.told_spent,
            report.told_served
        ),
    );
}

/// Logs why there is no report.
pub(crate) fn say_no_report<R: Wait>(rt: &R, log: &LogQueue, why: NoReport) {
    let cause = match why {
        NoReport::Missing => "a seat or an applier is missing",
        NoReport::OutOfMemory => "no memory for the report",
    };
    log.put(rt, format_args!("ended: {}", cause));
}
