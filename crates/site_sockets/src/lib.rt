//! The sockets of a running site: incoming and outgoing connections, and the lines that wait to be sent to each peer.
//! This crate does not know what the desk does with them.
#![tactic(auto)]

mod acceptor;
mod activity;
mod budget;
mod client_stream;
mod clients;
mod connection_pool;
mod connection_slot;
mod deadline_reader;
mod entrance;
mod events;
mod exits;
mod limits;
mod listening;
mod peer;
mod peer_reader;
mod peer_writer;
mod polled_stream;
mod polling;
mod sending;
mod shutdown_handle;
mod site;
mod site_clock;
mod stopwatch;
mod tick_notifier;

pub use acceptor::begin_acceptors;
pub use client_stream::{ClientReader, ClientWriter};
pub use clients::{Accepted, ClientPlace, Clients, ClosingPlace, bounded_reader};
pub use connection_slot::{Connection, ConnectionSlot};
pub use deadline_reader::DeadlineReader;
pub use events::{LinkEvents, SkipCause};
pub use peer::{PeerLines, PeerState};
pub use peer_reader::PeerReader;
pub use sending::begin_sender;
pub use site::SiteSockets;
pub use site_clock::SiteClock;
pub use tick_notifier::{NextTick, TickNotifier};
