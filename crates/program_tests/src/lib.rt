//! Tests of site_words, peer_links, log_lines and rights_program. They have their own crate, since a crate with tests
//! in it is proved twice, and share it, since a check of a crate of tests reads all crates below before it proves
//! anything.
#![tactic(auto)]

#[cfg(test)]
mod tests;
