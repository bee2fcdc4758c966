//! Time since a site began.

use std::io;
use std::time::{Clock, Instant};

/// Counts the milliseconds since it was started. The wall clock has no effect on it.
#[derive(Clone, Copy, Debug)]
pub(crate) struct Stopwatch {
    began: Instant,
}

impl Stopwatch {
    pub(crate) fn start<R: Clock>(rt: &R) -> io::Result<Stopwatch> {
        Ok(Stopwatch {
            began: Instant::now(rt)?,
        })
    }

    /// How many milliseconds it is since the start.
    pub(crate) fn read<R: Clock>(&self, rt: &R) -> io::Result<u64> {
        let time = self.began.elapsed(rt)?;
        Ok(u64::try_from(time.as_millis()).unwrap_or(u64::MAX))
    }
}
