//! Tests of the codec: texts given from outside, lines of every length, each memory request refused in turn, and how
//! much memory each call takes. They have their own crate, so that the codec is proved once.
#![tactic(auto)]

#[cfg(test)]
mod tests;
