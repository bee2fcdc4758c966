//! What monitoring reads of a site: its metrics as text, in the exposition format of Prometheus, version 0.0.4, and
//! the counters behind them.
//!
//! The text is exact for the values that were read. What counters hold at a given moment is not proved: other threads
//! may add to them at any time.
#![tactic(auto)]

mod counters;
mod kind;
mod metrics;
mod names;
mod peer_value;
mod samples;
mod text;
mod unsent;

pub use counters::{CLIENTS, Counters, PeerCounters, WRITERS};
pub use metrics::{JournalMetrics, Metrics, PeerMetrics};
pub use text::{PEER_ROOM, SITE_ROOM, put_metrics};
pub use unsent::unsent_numbers;
