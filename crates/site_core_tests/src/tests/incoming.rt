//! Worked examples of lines that arrive, lines of every size, and memory requests that are refused.
mod arrivals;
mod examples;
mod memory;
mod refusals;
mod sizes;
mod steps;
mod sweeps;
mod texts;
