//! Tests of site_metrics: the text of values given from outside, and what counters count. They have their own crate,
//! since a crate with tests in it is proved twice.
#![tactic(auto)]

#[cfg(test)]
mod tests;
