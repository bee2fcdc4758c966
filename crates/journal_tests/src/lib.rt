//! Tests of the journal over a file in memory, which tears: every crash point of short runs, calls that fail, and files
//! that are damaged.
#![tactic(auto)]

#[cfg(test)]
mod tests;
