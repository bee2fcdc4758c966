//! A stream that one thread uses, and that another thread may shut down.

use std::net::{Shutdown, TcpStream};
use std::sync::{Mutex, Wait};

/// Lets a thread that reads or writes a stream be woken.
#[derive(Drop)]
pub(crate) struct ShutdownHandle {
    state: Mutex<State>,
}

#[derive(Drop)]
struct State {
    is_closed: bool,
    stream: Option<TcpStream>,
}

impl State {
    fn shut_down(&mut self) {
        if let Some(stream) = &self.stream {
            let _ = stream.shutdown(Shutdown::Both);
        }
        self.stream = None;
    }
}

impl ShutdownHandle {
    pub(crate) fn new() -> ShutdownHandle {
        ShutdownHandle {
            state: Mutex::new(State {
                is_closed: false,
                stream: None,
            }),
        }
    }

    /// The thread uses this stream from now on. `false` if it may not, as after `close`, or if the system gives no
    /// second handle of the stream.
    pub(crate) fn hold<R: Wait>(&self, rt: &R, stream: &TcpStream) -> bool {
        let mut state = self.state.lock(rt);
        let state = &mut *state;
        if state.is_closed {
            return false;
        }
        let Ok(handle) = stream.try_clone() else {
            return false;
        };
        state.stream = Some(handle);
        true
    }

    /// The thread no longer uses its stream.
    pub(crate) fn release<R: Wait>(&self, rt: &R) {
        let mut state = self.state.lock(rt);
        state.stream = None;
    }

    /// Shuts the stream down, if there is one.
    pub(crate) fn shut_down<R: Wait>(&self, rt: &R) {
        self.state.lock(rt).shut_down();
    }

    /// Shuts the stream down, and lets the thread use no other.
    pub(crate) fn close<R: Wait>(&self, rt: &R) {
        let mut state = self.state.lock(rt);
        let state = &mut *state;
        state.is_closed = true;
        state.shut_down();
    }
}
