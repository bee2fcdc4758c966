//! Accepting connections. Nothing has to connect to end it: the thread that accepts looks up again and again.

use crate::limits::{Limits, limit_of};
use crate::stopwatch::Stopwatch;
use log_lines::LogQueue;
use site_words::SiteFault;
use std::io::ErrorKind;
use std::net::{Net, TcpListener, TcpStream};
use std::sync::{Arc, Wait};
use std::time::{Clock, Duration};
use std::{io, thread};
use timed_streams::wait_readable;

/// How many milliseconds a look waits for a connection.
const LOOK_MILLISECONDS: u16 = 100;

/// How many milliseconds the accepting thread pauses after a connection could not be accepted.
const REST_MILLISECONDS: u64 = 10;

/// An address that is listened on.
#[derive(Drop)]
pub(crate) struct Listening {
    listener: TcpListener,
    limits: Limits,
}

impl Listening {
    pub(crate) fn new(
        listener: TcpListener,
        stopwatch: Stopwatch,
        log: Option<Arc<LogQueue>>,
    ) -> Listening {
        Listening {
            listener,
            limits: Limits::new(stopwatch, log),
        }
    }

    /// The next connection. `None` if none comes soon, or if it could not be accepted; the caller looks again, unless
    /// the site has ended.
    pub(crate) fn look<R: Wait + Clock>(&self, rt: &R) -> Option<TcpStream> {
        match self.accept() {
            Ok(stream) => Some(stream),
            Err(error) => {
                self.note(rt, &error);
                None
            }
        }
    }

    fn accept(&self) -> io::Result<TcpStream> {
        wait_readable(&self.listener, LOOK_MILLISECONDS)?;
        let (stream, _) = self.listener.accept()?;
        Ok(stream)
    }

    /// Pauses after a connection could not be accepted, which is tried again.
    fn note<R: Wait + Clock>(&self, rt: &R, error: &io::Error) {
        if is_usual(error.kind()) {
            return;
        }
        self.limits
            .report(rt, "a connection could not be accepted", limit_of(error));
        thread::sleep(rt, Duration::from_millis(REST_MILLISECONDS));
    }

    /// Reports that a connection was closed because no thread could be started for it.
    pub(crate) fn note_no_thread<R: Wait + Clock>(&self, rt: &R) {
        self.limits.report(rt, "a connection was closed", "no thread could be started");
    }

    /// Reports that a connection was closed because the system gave no second handle of it.
    pub(crate) fn note_no_handle<R: Wait + Clock>(&self, rt: &R) {
        self.limits
            .report(rt, "a connection was closed", "too many open files");
    }
}

/// Listens on this address.
pub(crate) fn listen<R: Net<Listener = TcpListener, Stream = TcpStream>>(
    rt: &R,
    address: &str,
) -> Result<TcpListener, SiteFault> {
    match open(rt, address) {
        Ok(listener) => Ok(listener),
        Err(_) => Err(SiteFault::CannotListen),
    }
}

/// An accept does not wait: what looked like a connection may be gone.
fn open<R: Net<Listener = TcpListener, Stream = TcpStream>>(
    rt: &R,
    address: &str,
) -> io::Result<TcpListener> {
    let listener = TcpListener::bind(rt, address)?;
    listener.set_nonblocking(true)?;
    Ok(listener)
}

/// Whether it happens at a site that is in order: nothing came, or what came was gone.
fn is_usual(kind: ErrorKind) -> bool {
    match kind {
        ErrorKind::WouldBlock | ErrorKind::Interrupted | ErrorKind::ConnectionAborted => true,
        _ => false,
    }
}
