//! A list that only proofs read: what a thread or a value went through, for clauses to name.
#![tactic(auto)]

mod history;

pub use history::History;
