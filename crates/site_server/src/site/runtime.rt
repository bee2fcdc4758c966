//! What a running site needs of its runtime.

use std::net::{Net, TcpListener, TcpStream};
use std::random::RandomSource;
use std::sync::Wait;
use std::thread::Threads;
use std::time::Clock;

/// Sockets, threads, waiting, time, random numbers and memory, for use by several threads.
pub(crate) trait SiteRuntime: Net<Listener = TcpListener, Stream = TcpStream>
    + Threads
    + Wait
    + Clock
    + RandomSource
    + AllocGlobal
    + Sync {}

impl<R> SiteRuntime for R
where
    R: Net<Listener = TcpListener, Stream = TcpStream>
        + Threads
        + Wait
        + Clock
        + RandomSource
        + AllocGlobal
        + Sync,
{}
