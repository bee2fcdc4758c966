//! Tests of logs: worked examples, long logs, and refused memory requests.
#![tactic(auto)]

#[cfg(test)]
mod tests;
