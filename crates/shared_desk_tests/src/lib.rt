//! Tests of shared desks, lanes and counters: worked examples between threads, refused calls and steps, and many calls
//! at random. They have their own crate, since a crate with tests is proved twice.
#![tactic(auto)]

#[cfg(test)]
mod tests;
