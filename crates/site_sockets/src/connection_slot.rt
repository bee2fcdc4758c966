//! Connections of one peer, handed over to the thread that reads them.
ghost use Rattle.std.specs.Prelude.{◌≡◌, []};
ghost use Rattle.entry_codec.specs.Cutter.{view_of};

use crate::shutdown_handle::ShutdownHandle;
use entry_codec::LineCutter;
use std::net::TcpStream;
use std::sync::{Condvar, Mutex, Wait};

/// A connection whose first line was read, and the cutter for the rest of it.
#[derive(Drop)]
pub struct Connection {
    pub stream: TcpStream,
    pub cutter: LineCutter,
    ghost empty: { cutter ≡ view_of [] },
}

/// The newest connection of a peer. It waits until the reading thread takes it, and it shuts down the connection that
/// this thread is reading: a peer that disappeared without closing and came back can be read again.
#[derive(Drop)]
pub struct ConnectionSlot {
    waiting: Mutex<Waiting>,
    came: Condvar,
    reading: ShutdownHandle,
}

#[derive(Drop)]
struct Waiting {
    is_closed: bool,
    next: Option<Connection>,
}

impl ConnectionSlot {
    pub(crate) fn new() -> ConnectionSlot {
        ConnectionSlot {
            waiting: Mutex::new(Waiting {
                is_closed: false,
                next: None,
            }),
            came: Condvar::new(),
            reading: ShutdownHandle::new(),
        }
    }

    /// Hands a connection over. One that still waits is closed, and the one that is being read is shut down.
    pub(crate) fn put<R: Wait>(&self, rt: &R, connection: Connection) {
        let mut waiting = self.waiting.lock(rt);
        let waiting = &mut *waiting;
        if waiting.is_closed {
            return;
        }
        waiting.next = Some(connection);
        self.reading.shut_down(rt);
        self.came.notify_one();
    }

    /// Waits for the next connection to read. `None` once the slot is closed.
    pub fn take<R: Wait>(&self, rt: &R) -> Option<Connection> {
        for _ in rt.forever() {
            let mut waiting = self.came.wait_while(
                rt,
                self.waiting.lock(rt),
                |waiting| !waiting.is_closed && waiting.next.is_none(),
            );
            let waiting = &mut *waiting;
            if waiting.is_closed {
                return None;
            }
            let Some(connection) = waiting.next.take() else {
                continue;
            };
            // Under the lock, so that no newer connection comes in between unnoticed.
            if self.reading.hold(rt, &connection.stream) {
                return Some(connection);
            }
        }
        unreachable!()
    }

    /// The reading thread has finished with its connection.
    pub fn finish<R: Wait>(&self, rt: &R) {
        self.reading.release(rt);
    }

    /// Closes all connections, and accepts no other.
    pub(crate) fn close<R: Wait>(&self, rt: &R) {
        let mut waiting = self.waiting.lock(rt);
        let waiting = &mut *waiting;
        waiting.is_closed = true;
        waiting.next = None;
        self.reading.close(rt);
        self.came.notify_all();
    }
}
