//! A fixed number of places for connections, which another thread may shut down.

use crossbeam_utils::CachePadded;
use rights_types::OutOfMemory;
use std::alloc::Global;
use std::net::{Shutdown, TcpStream};
use std::sync::atomic::{AtomicBool, Ordering};
use std::sync::{Condvar, CondvarTimeouts, Mutex, Wait};
use std::time::{Clock, Duration};

/// Up to so many connections, the threads that serve them may poll for input.
const FEW: usize = 2;

/// Why a connection gets no place.
#[derive(Clone, Copy, Debug, PartialEq, Eq)]
pub(crate) enum NoPlace {
    /// The pool is closed.
    Closed,
    /// All places are taken.
    Taken,
    /// The system gives no second handle of the stream.
    NoHandle,
}

/// Places for connections. Each connection that a thread serves has one.
#[derive(Drop)]
pub(crate) struct ConnectionPool {
    state: Mutex<State>,
    /// Notified whenever a place becomes free.
    freed: Condvar,
    /// For each place, whether its connection is idle: no request has begun on it.
    idle: Vec<CachePadded<AtomicBool>>,
    /// Whether no further request may begin.
    is_ending: AtomicBool,
    /// Whether more than `FEW` places are taken.
    is_crowded: AtomicBool,
}

#[derive(Drop)]
struct State {
    is_closed: bool,
    places: Vec<Option<TcpStream>>,
}

impl State {
    fn enter(&mut self, stream: &TcpStream) -> Result<usize, NoPlace> {
        if self.is_closed {
            return Err(NoPlace::Closed);
        }
        let Some(place) = self.places.iter().position(|place| place.is_none()) else {
            return Err(NoPlace::Taken);
        };
        let Ok(handle) = stream.try_clone() else {
            return Err(NoPlace::NoHandle);
        };
        self.places[place] = Some(handle);
        Ok(place)
    }

    fn leave(&mut self, place: usize) {
        if let Some(place) = self.places.get_mut(place) {
            *place = None;
        }
    }

    fn count(&self) -> usize {
        self.places.iter().flatten().count()
    }

    fn is_full(&self) -> bool {
        self.places.iter().all(|place| place.is_some())
    }

    /// The connection at this place.
    fn stream(&self, place: usize) -> Option<&TcpStream> {
        match self.places.get(place) {
            Some(Some(stream)) => Some(stream),
            _ => None,
        }
    }

    fn shut_down(&self) {
        for stream in self.places.iter().flatten() {
            let _ = stream.shutdown(Shutdown::Both);
        }
    }

    /// Ends the input of the idle connections.
    fn end_idle(&self, idle: &[CachePadded<AtomicBool>]) {
        for (stream, idle) in self.places.iter().zip(idle) {
            if let Some(stream) = stream {
                if idle.load(Ordering::SeqCst) {
                    let _ = stream.shutdown(Shutdown::Read);
                }
            }
        }
    }
}

impl ConnectionPool {
    /// A pool with this number of free places.
    pub(crate) fn new(alloc: Global, size: usize) -> Result<ConnectionPool, OutOfMemory> {
        let mut places = Vec::with_capacity(alloc, size)?;
        let mut idle = Vec::with_capacity(alloc, size)?;
        for _ in 0..size {
            places.push(None)?;
            idle.push(CachePadded::new(AtomicBool::new(true)))?;
        }
        Ok(ConnectionPool {
            state: Mutex::new(State {
                is_closed: false,
                places,
            }),
            freed: Condvar::new(),
            idle,
            is_ending: AtomicBool::new(false),
            is_crowded: AtomicBool::new(false),
        })
    }

    /// A place for the connection, counted from 0.
    pub(crate) fn enter<R: Wait>(&self, rt: &R, stream: &TcpStream) -> Result<usize, NoPlace> {
        let mut state = self.state.lock(rt);
        let place = state.enter(stream)?;
        self.note_count(&state);
        self.set_idle(place, true);
        Ok(place)
    }

    /// Waits until a place is free, the pool is closed, or the time is over.
    pub(crate) fn wait_for_place<R: Wait + Clock>(&self, rt: &R, time: Duration) {
        let _ = self
            .freed
            .wait_timeout_while(rt, self.state.lock(rt), time, |state| {
                !state.is_closed && state.is_full()
            });
    }

    /// Shuts down the connection at this place.
    pub(crate) fn shut_down<R: Wait>(&self, rt: &R, place: usize, how: Shutdown) {
        if let Some(stream) = self.state.lock(rt).stream(place) {
            let _ = stream.shutdown(how);
        }
    }

    /// Frees this place.
    pub(crate) fn leave<R: Wait>(&self, rt: &R, place: usize) {
        let mut state = self.state.lock(rt);
        state.leave(place);
        self.note_count(&state);
        drop(state);
        self.freed.notify_all();
    }

    fn note_count(&self, state: &State) {
        self.is_crowded
            .store(state.count() > FEW, Ordering::Relaxed);
    }

    /// Whether there are so many connections that their threads should not poll for input.
    pub(crate) fn is_crowded(&self) -> bool {
        self.is_crowded.load(Ordering::Relaxed)
    }

    /// How many places are taken.
    pub(crate) fn count<R: Wait>(&self, rt: &R) -> usize {
        self.state.lock(rt).count()
    }

    pub(crate) fn is_closed<R: Wait>(&self, rt: &R) -> bool {
        self.state.lock(rt).is_closed
    }

    /// Records whether the connection at this place is idle.
    pub(crate) fn set_idle(&self, place: usize, is_idle: bool) {
        if let Some(idle) = self.idle.get(place) {
            idle.store(is_idle, Ordering::SeqCst);
        }
    }

    /// Whether no request has begun on the connection at this place.
    pub(crate) fn is_idle(&self, place: usize) -> bool {
        match self.idle.get(place) {
            Some(idle) => idle.load(Ordering::SeqCst),
            None => true,
        }
    }

    /// Whether no further request may begin.
    pub(crate) fn is_ending(&self) -> bool {
        self.is_ending.load(Ordering::SeqCst)
    }

    /// Whether the connection at this place has come to its end: it is idle, and no further request may begin.
    pub(crate) fn is_done(&self, place: usize) -> bool {
        self.is_ending() && self.is_idle(place)
    }

    /// Closes the pool to new connections. The input of each connection that is idle, or becomes idle later, has
    /// ended.
    pub(crate) fn end<R: Wait>(&self, rt: &R) {
        let mut state = self.state.lock(rt);
        let state = &mut *state;
        state.is_closed = true;
        self.is_ending.store(true, Ordering::SeqCst);
        state.end_idle(self.idle.as_slice());
    }

    /// Waits until no place is taken, or the time is over.
    pub(crate) fn wait_until_empty<R: Wait + Clock>(&self, rt: &R, time: Duration) {
        let _ = self
            .freed
            .wait_timeout_while(rt, self.state.lock(rt), time, |state| state.count() > 0);
    }

    /// Closes the pool to new connections, and shuts down all that are in it.
    pub(crate) fn close<R: Wait>(&self, rt: &R) {
        let mut state = self.state.lock(rt);
        let state = &mut *state;
        state.is_closed = true;
        state.shut_down();
    }
}
