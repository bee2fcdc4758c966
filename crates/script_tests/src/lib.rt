//! Tests of scripts and of runs of events, also without memory. They have their own crate, so that the
//! large one that they test is proved once.
#![tactic(auto)]

#[cfg(test)]
mod tests;
