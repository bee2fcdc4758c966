//! The thread that writes the log lines.

use crate::backlog::Backlog;
use crate::queue::LogQueue;
use line_streams::write_whole;
use rights_types::OutOfMemory;
use std::io;
use std::io::{Error, ErrorKind, Write};
use std::sync::Wait;

/// How many writes may fail with `WouldBlock` after the end before the lines that are left are given up.
pub const LAST_TRIES: u32 = 10;

/// Writes the lines of a queue to a stream, for one thread. A write of the stream that fails with `WouldBlock` is tried
/// again. So if each write of the stream returns after some time, the thread ends some time after the queue.
#[derive(Drop)]
pub struct LogWriter<'a, R, W> {
    out: PatientWriter<'a, R, W>,
    batch: Backlog,
}

impl<'a, R: Wait, W: Write + Drop> LogWriter<'a, R, W> {
    pub fn new(rt: &'a R, queue: &'a LogQueue, out: W) -> Result<LogWriter<'a, R, W>, OutOfMemory> {
        Ok(LogWriter {
            out: PatientWriter {
                rt,
                queue,
                out,
                tries: LAST_TRIES,
            },
            batch: Backlog::new(queue.alloc())?,
        })
    }

    /// Writes the lines in the order in which they were put, and after those that waited how many found no room. Ends
    /// once the queue has ended and no line waits.
    pub fn run(mut self) {
        let (rt, queue) = (self.out.rt, self.out.queue);
        for _ in rt.forever() {
            if !queue.take(rt, &mut self.batch) {
                break;
            }
            self.write_batch();
        }
    }

    fn write_batch(&mut self) {
        let failed = self.batch.write_to(&mut self.out);
        let dropped = self.batch.take_dropped();
        if dropped > 0 && !self.out.report(dropped) {
            self.out.queue.report_later(self.out.rt, dropped);
        }
        if failed > 0 {
            self.out.queue.drop_lines(self.out.rt, failed as u64);
        }
    }
}

/// A writer whose writes block until the stream takes something. After the end of the queue it tries only so often.
#[derive(Drop)]
struct PatientWriter<'a, R, W> {
    rt: &'a R,
    queue: &'a LogQueue,
    out: W,
    tries: u32,
}

impl<R: Wait, W: Write> PatientWriter<'_, R, W> {
    /// Writes how many lines were dropped. `false` if that fails.
    fn report(&mut self, dropped: u64) -> bool {
        let alloc = self.queue.alloc();
        match format!(in alloc; "rights-site: {dropped} log lines were dropped\n") {
            Ok(line) => write_whole(self, line.as_bytes()).is_ok(),
            Err(_) => false,
        }
    }
}

impl<R: Wait, W: Write> Write for PatientWriter<'_, R, W> {
    fn write(&mut self, buf: &[u8]) -> io::Result<usize> {
        for _ in self.rt.forever() {
            if self.tries == 0 {
                break;
            }
            match self.out.write(buf) {
                Err(error) if error.kind() == ErrorKind::WouldBlock => {}
                done => return done,
            }
            if self.queue.has_ended(self.rt) {
                self.tries -= 1;
            }
        }
        Err(Error::from(ErrorKind::TimedOut))
    }

    fn flush(&mut self) -> io::Result<()> {
        self.out.flush()
    }
}
