//! Log lines: more than wait, and a stream that takes none.
use log_lines::{LAST_TRIES, LOG_LINES, LogQueue, LogWriter};
use std::alloc::Global;
use std::io;
use std::io::{Error, ErrorKind, Write};
use std::sync::Wait;
use test_kit::Slow;

/// A stream that takes nothing, and counts how often it is asked.
#[derive(Drop)]
struct Stuck {
    writes: u32,
}

impl Write for Stuck {
    fn write(&mut self, _buf: &[u8]) -> io::Result<usize> {
        self.writes = self.writes.wrapping_add(1);
        Err(Error::from(ErrorKind::WouldBlock))
    }

    fn flush(&mut self) -> io::Result<()> {
        Ok(())
    }
}

/// A queue that has ended, of which so many lines were put: the numbers from 0 on.
fn ended_queue<R: Wait>(rt: &R, alloc: Global, count: usize) -> Option<LogQueue> {
    let queue = LogQueue::new(alloc).ok()?;
    for number in 0..count {
        queue.put(rt, number);
    }
    queue.end(rt);
    Some(queue)
}

/// What is written of that queue, and how many lines are dropped then.
fn written<R: Wait>(rt: &R, alloc: Global, count: usize) -> Option<(Vec<u8>, u64)> {
    let queue = ended_queue(rt, alloc, count)?;
    let mut out = Slow {
        text: Vec::new(alloc),
        step: 7,
    };
    LogWriter::new(rt, &queue, &mut out).ok()?.run();
    Some((out.text, queue.dropped(rt)))
}

/// The lines of the numbers below this one.
fn lines_below(alloc: Global, count: usize) -> Option<Vec<u8>> {
    let mut text = Vec::new(alloc);
    for number in 0..count {
        let line = format!(in alloc; "rights-site: {number}\n").ok()?;
        text.extend_from_slice(line.as_bytes()).ok()?;
    }
    Some(text)
}

/// Whether all of so many lines are written.
fn writes_all<R: Wait>(rt: &R, alloc: Global, count: usize) -> bool {
    match (written(rt, alloc, count), lines_below(alloc, count)) {
        (Some((text, 0)), Some(wanted)) => text.as_slice() == wanted.as_slice(),
        _ => false,
    }
}

/// Whether five lines more than wait are dropped, and their number is told after the others.
fn tells_five<R: Wait>(rt: &R, alloc: Global) -> bool {
    let Some(mut wanted) = lines_below(alloc, LOG_LINES) else {
        return false;
    };
    let last = b"rights-site: 5 log lines were dropped\n";
    match written(rt, alloc, LOG_LINES + 5) {
        Some((text, 5)) => wanted.extend_from_slice(last).is_ok()
            && text.as_slice() == wanted.as_slice(),
        _ => false,
    }
}

#[test]
fn lines_that_find_no_room_are_told(rt: HostRuntime) {
    assert!(rt; writes_all(&rt, rt.alloc(), 3));
    assert!(rt; writes_all(&rt, rt.alloc(), LOG_LINES));
    assert!(rt; tells_five(&rt, rt.alloc()));
}

/// How often a stream that takes nothing is asked after the end, and how many of three lines are dropped.
fn given_up<R: Wait>(rt: &R, alloc: Global) -> Option<(u32, u64)> {
    let queue = ended_queue(rt, alloc, 3)?;
    let mut out = Stuck { writes: 0 };
    LogWriter::new(rt, &queue, &mut out).ok()?.run();
    Some((out.writes, queue.dropped(rt)))
}

#[test]
fn lines_that_nobody_takes_are_given_up(rt: HostRuntime) {
    assert!(rt; given_up(&rt, rt.alloc()) == Some((LAST_TRIES, 3)));
}
