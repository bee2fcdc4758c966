//! The text of scripts with many entries.
use crate::tests::calls::Put;
use std::alloc::AllocGlobal;
use std::process::Abort;
use test_kit::fill;

// The greatest number of moves of an entry.
const MOVES: usize = 16;

// Moves of each ordinary kind.
const KINDS: [&str; 4] = [" I:10", " S:9", " G:2:8:7", " R:3:6"];

/// How many sizes there are: 1 to 16 moves of all kinds, and 1 to 16 of the longest.
pub(crate) const SIZES: usize = 32;

/// The size of the longest entries.
pub(crate) const LONGEST: usize = 31;

/// How many moves an entry of this size has.
pub(crate) fn count_of(size: usize) -> u64 {
    (size % MOVES) as u64 + 1
}

/// Adds the moves of an entry of this size.
pub(crate) fn put_moves(text: &mut String, size: usize) -> Put {
    for place in 0..=size % MOVES {
        let shorter = KINDS[place % 4];
        text.push_str(if size < MOVES {
            shorter
        } else {
            " G:16:1000000000:1000000000"
        })?;
    }
    Ok(())
}

/// Adds the line of an entry of this size, without its line feed.
pub(crate) fn put_entry(text: &mut String, origin: u64, prev: u64, size: usize) -> Put {
    let own = prev.saturating_add(count_of(size));
    fill(text, "E $1 $2 $3", &[origin, prev, own])?;
    put_moves(text, size)
}

/// Appends an entry of this size.
pub(crate) fn put_append(script: &mut String, prev: u64, size: usize) -> Put {
    let own = prev.saturating_add(count_of(size));
    script.push_str("append")?;
    put_moves(script, size)?;
    fill(script, " > $1\n", &[own])
}

// Appends this number of the longest entries.
fn put_longest(script: &mut String, entries: u64) -> Put {
    for entry in 0..entries {
        put_append(script, entry.saturating_mul(16), LONGEST)?;
    }
    Ok(())
}

/// The script of a log with this number of the longest entries.
pub(crate) fn longest_log(rt: &(impl Abort + AllocGlobal), entries: u64) -> String {
    let mut script = String::new(rt.alloc());
    put_longest(&mut script, entries).expect(rt, "memory");
    script
}
