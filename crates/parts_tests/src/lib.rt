//! Tests of the parts of a site that know no lines: rights_types, request_queue, rights_book, sub_buffer and
//! transfer_manager. They share a crate, since a check of a crate of tests reads all crates below before it proves
//! anything.
#![tactic(auto)]

#[cfg(test)]
mod tests;
