//! What a long start says of how far it is.

use line_streams::write_whole;
use std::alloc::Global;
use std::fs;
use std::fs::{File, Files};
use std::io::Write;
use std::time::{Clock, Duration, Instant};

/// After so many records it is looked at the clock.
const STRIDE: u64 = 4096;

/// After how many seconds a line is written, and then again.
const PAUSE_SECONDS: u64 = 1;

/// How far a journal is read. While that takes long, lines of it are written.
#[derive(Drop)]
pub(crate) struct ProgressLines<'a, E> {
    path: &'a str,
    errors: &'a mut E,
    /// The bytes of the file; 0 if they are not known.
    len: u64,
    /// The bytes of the records so far.
    read: u64,
    /// When a line was written, or else the beginning. `None` if the clock cannot be read.
    last: Option<Instant>,
}

impl<'a, E: Write> ProgressLines<'a, E> {
    pub(crate) fn begin<R: Files<File = File> + Clock>(
        rt: &R,
        path: &'a str,
        errors: &'a mut E,
    ) -> ProgressLines<'a, E> {
        ProgressLines {
            path,
            errors,
            len: fs::metadata(rt, path).map_or(0, |found| found.len()),
            read: 0,
            last: Instant::now(rt).ok(),
        }
    }

    /// Notes that so many records were read, the last of so many bytes.
    pub(crate) fn note<R: Clock + AllocGlobal>(&mut self, rt: &R, records: u64, len: usize) {
        self.read = self.read.saturating_add(len as u64).saturating_add(1);
        if records % STRIDE == 0 && self.is_due(rt) {
            self.last = Instant::now(rt).ok();
            self.say(rt.alloc(), records);
        }
    }

    fn is_due<R: Clock>(&self, rt: &R) -> bool {
        match self.last {
            Some(last) => match last.elapsed(rt) {
                Ok(time) => time >= Duration::from_secs(PAUSE_SECONDS),
                Err(_) => false,
            },
            None => false,
        }
    }

    fn say(&mut self, alloc: Global, records: u64) {
        let path = self.path;
        let percent = match self.read.saturating_mul(100).checked_div(self.len) {
            Some(percent) => percent.min(100),
            None => 100,
        };
        let line = format!(in alloc;
            "rights-site: journal {path}: {records} records read, {percent} %\n"
        );
        if let Ok(line) = line {
            let _ = write_whole(self.errors, line.as_bytes());
        }
    }
}
