//! Tests of durability: threads that wait at exits, and a thread that appends to a journal in memory.
#![tactic(auto)]

#[cfg(test)]
mod tests;
