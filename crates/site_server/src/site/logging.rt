//! The thread that writes what a site logs.

use log_lines::LogWriter;
use site_sockets::SiteSockets;
use std::io::Write;
use std::sync::Wait;
use std::thread::Scope;

/// Starts the thread that writes the log. `false` if it could not be started.
pub(crate) fn begin_log<'s, E, R: Wait + Sync, W: Write + Send + Drop + 's>(
    scope: &Scope<'s, E>,
    log: LogWriter<'s, R, W>,
) -> bool {
    scope.spawn(move || log.run()).is_ok()
}

/// Ends that thread once it has written the lines that wait, or has given them up.
pub(crate) fn end_log<R: Wait>(rt: &R, site: &SiteSockets) {
    site.log.end(rt);
}
