//! Lines of entries of site 1, and what is said of them.
use crate::tests::calls::Put;
use crate::tests::templates::fill;

/// The text of the longest grant.
pub(crate) const LONG_GRANT: &str = " G:16:1000000000:1000000000";

/// Adds an entry after a number: with this number of moves, of which the last is another one.
pub(crate) fn put_entry(text: &mut String, prev: u64, count: u64, each: &str, last: &str) -> Put {
    fill(text, "E 1 $1 $2", &[prev, prev.saturating_add(count)])?;
    for _ in 1..count {
        text.push_str(each)?;
    }
    text.push_str(last)
}

/// Adds the line that answers site 2 with entries of one log: the first has this number of moves, and each further one
/// this many more.
pub(crate) fn put_answer(
    text: &mut String,
    entries: u64,
    first: u64,
    more: u64,
    each: &str,
) -> Put {
    text.push_str("A 1 2")?;
    let mut prev = 0u64;
    let mut count = first;
    for _ in 0..entries {
        text.push(';')?;
        put_entry(text, prev, count, each, each)?;
        prev = prev.saturating_add(count);
        count = count.saturating_add(more);
    }
    Ok(())
}

/// Adds the verdicts on those entries, all of which are ready.
pub(crate) fn put_all_ready(text: &mut String, entries: u64, first: u64, more: u64) -> Put {
    if entries == 0 {
        return text.push_str(" > no entries\n");
    }
    text.push_str(" >")?;
    let mut own = 0u64;
    let mut count = first;
    for _ in 0..entries {
        own = own.saturating_add(count);
        count = count.saturating_add(more);
        fill(text, " ready $1", &[own])?;
    }
    text.push('\n')
}
