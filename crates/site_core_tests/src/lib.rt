//! Tests of desks and inbounds: worked examples, refusals, lack of memory, closing and reclaiming. They have their own
//! crate, since a crate with tests is proved twice.
#![tactic(auto)]

#[cfg(test)]
mod tests;
