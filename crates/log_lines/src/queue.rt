//! The queue of log lines that threads share.

use crate::backlog::Backlog;
use rights_types::OutOfMemory;
use std::alloc::Global;
use std::fmt::Display;
use std::sync::{Condvar, Mutex, Wait};

/// What its lock protects.
#[derive(Drop)]
struct State {
    backlog: Backlog,
    /// How many lines were dropped since the start.
    dropped: u64,
    has_ended: bool,
}

impl State {
    /// Whether no line waits, and more may come.
    fn is_idle(&self) -> bool {
        self.backlog.is_empty() && !self.has_ended
    }

    fn put(&mut self, line: String) {
        if !self.backlog.put(line) {
            self.dropped = self.dropped.saturating_add(1);
        }
    }

    fn drop_lines(&mut self, count: u64) {
        self.backlog.count_dropped(count);
        self.dropped = self.dropped.saturating_add(count);
    }
}

/// The log lines that wait, `LOG_LINES` at most. Many threads put lines; one writes them (`LogWriter`).
#[derive(Drop)]
pub struct LogQueue {
    alloc: Global,
    state: Mutex<State>,
    /// Notified when a line was put, and of the end.
    changed: Condvar,
}

impl LogQueue {
    /// An empty queue, with all the memory that it needs besides that of the lines.
    pub fn new(alloc: Global) -> Result<LogQueue, OutOfMemory> {
        Ok(LogQueue {
            alloc,
            state: Mutex::new(State {
                backlog: Backlog::new(alloc)?,
                dropped: 0,
                has_ended: false,
            }),
            changed: Condvar::new(),
        })
    }

    /// Puts a line that says this. It waits for the lock only: if there is no room or no memory for the line, the line
    /// is dropped and counted.
    pub fn put<R: Wait, D: Display + Drop>(&self, rt: &R, text: D) {
        match format!(in self.alloc; "rights-site: {text}\n") {
            Ok(line) => self.state.lock(rt).put(line),
            Err(_) => self.state.lock(rt).drop_lines(1),
        }
        self.changed.notify_one();
    }

    /// How many lines were not written since the start: they found no room or no memory, or their write failed.
    pub fn dropped<R: Wait>(&self, rt: &R) -> u64 {
        self.state.lock(rt).dropped
    }

    /// Ends the queue: the thread that writes ends once it has written the lines that wait, or gives them up.
    pub fn end<R: Wait>(&self, rt: &R) {
        self.state.lock(rt).has_ended = true;
        self.changed.notify_one();
    }

    pub(crate) fn has_ended<R: Wait>(&self, rt: &R) -> bool {
        self.state.lock(rt).has_ended
    }

    /// Moves what waits to this empty backlog. Blocks until a line waits or the queue has ended. `false` if it has
    /// ended and no line waits.
    pub(crate) fn take<R: Wait>(&self, rt: &R, batch: &mut Backlog) -> bool {
        let mut state = self
            .changed
            .wait_while(rt, self.state.lock(rt), |state| state.is_idle());
        state.backlog.swap(batch);
        !batch.is_empty()
    }

    /// Counts lines that could not be written.
    pub(crate) fn drop_lines<R: Wait>(&self, rt: &R, count: u64) {
        self.state.lock(rt).drop_lines(count);
    }

    /// Has lines reported again that count as dropped already.
    pub(crate) fn report_later<R: Wait>(&self, rt: &R, count: u64) {
        self.state.lock(rt).backlog.count_dropped(count);
    }

    pub(crate) fn alloc(&self) -> Global {
        self.alloc
    }
}
