//! The words that the program knows.
use std::alloc::{AllocError, Global};
use strsim::osa_distance;

/// What follows an option.
#[derive(Clone, Copy)]
pub(crate) enum Takes {
    Nothing,
    Text,
    /// A number in this range.
    Number(u64, u64),
}

/// An option of `run`, and what follows it.
pub(crate) type Known = (&'static str, Takes);

pub(crate) const OPTIONS: [Known; 14] = [
    ("--id", Takes::Number(1, 16)),
    ("--sites", Takes::Number(2, 16)),
    ("--listen", Takes::Text),
    ("--from", Takes::Text),
    ("--http", Takes::Text),
    ("--host", Takes::Text),
    ("--tick", Takes::Number(1, 60_000)),
    ("--silent", Takes::Number(0, 3_600_000)),
    ("--keys", Takes::Number(0, 10_000_000)),
    ("--once", Takes::Text),
    ("--journal", Takes::Text),
    ("--system", Takes::Text),
    ("--log", Takes::Nothing),
    ("--help", Takes::Nothing),
];

/// The options that must be given, unless each peer has an entrance of its own; then only the first two.
pub(crate) const REQUIRED: [&str; 3] = ["--id", "--sites", "--listen"];

/// The options that may be given several times.
pub(crate) const REPEATED: [&str; 2] = ["--host", "--from"];

/// What the program may be asked for by its first word.
const COMMANDS: [&str; 6] = ["sim", "run", "check-journal", "help", "--help", "--version"];

/// The options of `check-journal`.
pub(crate) const CHECK_OPTIONS: [&str; 2] = ["--json", "--help"];

/// How many letters a word may differ from one that is meant.
const MOST_DIFFERENT: usize = 2;

/// The option with this name.
pub(crate) fn known(name: &str) -> Option<Known> {
    for option in OPTIONS {
        if option.0 == name {
            return Some(option);
        }
    }
    None
}

/// The option that may be meant by this name.
pub(crate) fn meant_option(alloc: Global, name: &str) -> Result<Option<&'static str>, AllocError> {
    let mut best = None;
    let mut least = MOST_DIFFERENT + 1;
    for (option, _) in OPTIONS {
        let distance = osa_distance(alloc, name, option)?;
        if distance < least {
            best = Some(option);
            least = distance;
        }
    }
    Ok(best)
}

/// The first word that may be meant by this one.
pub(crate) fn meant_command(alloc: Global, word: &str) -> Result<Option<&'static str>, AllocError> {
    nearest(alloc, word, &COMMANDS)
}

/// The option of `check-journal` that may be meant by this word.
pub(crate) fn meant_check_option(
    alloc: Global,
    word: &str,
) -> Result<Option<&'static str>, AllocError> {
    nearest(alloc, word, &CHECK_OPTIONS)
}

/// The one of these words that may be meant by this one.
fn nearest(
    alloc: Global,
    word: &str,
    known: &[&'static str],
) -> Result<Option<&'static str>, AllocError> {
    let mut best = None;
    let mut least = MOST_DIFFERENT + 1;
    for one in known {
        let distance = osa_distance(alloc, word, one)?;
        if distance < least {
            best = Some(*one);
            least = distance;
        }
    }
    Ok(best)
}
