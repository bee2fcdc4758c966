//! What the system refuses to a process, as the log reports it.

use crate::stopwatch::Stopwatch;
use log_lines::LogQueue;
use std::io;
use std::sync::atomic::{AtomicU64, Ordering};
use std::sync::{Arc, Wait};
use std::time::Clock;

/// For how many milliseconds the system has to refuse nothing before a refusal is reported again.
const QUIET_MILLISECONDS: u64 = 60_000;

/// The number by which Linux says that a process has as many handles as it may, and that the whole system has.
const EMFILE: i32 = 24;

const ENFILE: i32 = 23;

/// Reports refusals of the system, the first of many.
#[derive(Drop)]
pub(crate) struct Limits {
    stopwatch: Stopwatch,
    /// Where they are logged, if they are.
    log: Option<Arc<LogQueue>>,
    /// When the last one was, in milliseconds since the site began, and 1 more; 0 if there was none.
    last: AtomicU64,
}

impl Limits {
    pub(crate) fn new(stopwatch: Stopwatch, log: Option<Arc<LogQueue>>) -> Limits {
        Limits {
            stopwatch,
            log,
            last: AtomicU64::new(0),
        }
    }

    /// Logs that something had this effect, and what the system refused, unless something was refused shortly before.
    pub(crate) fn report<R: Wait + Clock>(&self, rt: &R, effect: &str, refused: &str) {
        let is_first = self.is_first(rt);
        if let Some(log) = &self.log {
            if is_first {
                log.put(rt, format_args!("{}: {}", effect, refused));
            }
        }
    }

    /// Whether nothing was refused for a while before this.
    fn is_first<R: Clock>(&self, rt: &R) -> bool {
        let now = self.stopwatch.read(rt).unwrap_or(0).saturating_add(1);
        let last = self.last.swap(now, Ordering::Relaxed);
        last == 0 || now.saturating_sub(last) >= QUIET_MILLISECONDS
    }
}

/// What the system refused, by the error that it reports.
pub(crate) fn limit_of(error: &io::Error) -> &'static str {
    handle_limit(error).unwrap_or("the system has no memory for it")
}

/// Which limit of handles was met. `None` if it is another error.
pub(crate) fn handle_limit(error: &io::Error) -> Option<&'static str> {
    match error.raw_os_error() {
        Some(EMFILE) => Some("too many open files"),
        Some(ENFILE) => Some("too many open files in the whole system"),
        _ => None,
    }
}
