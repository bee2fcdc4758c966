//! The text of all metrics, and the counters behind them.

mod counters;
mod expected;
mod text;
