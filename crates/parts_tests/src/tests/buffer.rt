//! The subscriber buffer: its verdicts and gaps, what arrives, and its memory.

mod arrivals;
mod memory;
mod steps;
mod verdicts;
