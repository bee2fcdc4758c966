//! Lines that arrive at an inbound, over many sizes with ample memory.
use crate::tests::calls::Put;
use crate::tests::incoming::steps::{AT_SITE_2, plays_amply};
use crate::tests::incoming::texts::{put_all_ready, put_answer, put_entry};
use crate::tests::templates::fill;
use rights_types::MAX_HELD;
use std::alloc::AllocGlobal;
use std::process::Abort;

// Holds this number of entries of one move after this number.
fn put_held(script: &mut String, prev: u64, held: u64) -> Put {
    for count in 0..held {
        put_entry(script, prev.saturating_add(count), 1, "", " I:1")?;
        script.push_str(" > held\n")?;
    }
    Ok(())
}

// An answer with this number of entries frees all that are held after it.
fn put_freeing_all(script: &mut String, entries: u64, held: u64) -> Put {
    let last = entries.saturating_add(held);
    put_held(script, entries, held)?;
    put_answer(script, entries, 1, 0, " I:1")?;
    put_all_ready(script, last, 1, 0)?;
    fill(script, "state > Normal $1 0\n", &[last])
}

// An answer with this number of entries leaves those held that are after a gap.
fn put_freeing_none(script: &mut String, entries: u64, held: u64) -> Put {
    let state = if held == 0 {
        "state > Normal $1 $2\n"
    } else {
        "state > Buffering $1 $2\n"
    };
    put_held(script, entries.saturating_add(1), held)?;
    put_answer(script, entries, 1, 0, " I:1")?;
    put_all_ready(script, entries, 1, 0)?;
    fill(script, state, &[entries, held])
}

fn free_none(rt: &(impl Abort + AllocGlobal), entries: u64, held: u64) {
    let mut script = String::new(rt.alloc());
    put_freeing_none(&mut script, entries, held).expect(rt, "memory");
    plays_amply(rt, AT_SITE_2, &script);
}

fn free_all(rt: &(impl Abort + AllocGlobal), entries: u64, held: u64) {
    let mut script = String::new(rt.alloc());
    put_freeing_all(&mut script, entries, held).expect(rt, "memory");
    plays_amply(rt, AT_SITE_2, &script);
}

/// Answers with 0 to 16 entries arrive when 0 to 64 are held, which they free or not.
#[test]
fn answers_by_what_is_held(rt: HostRuntime) {
    for held in 0..=MAX_HELD as u64 {
        for entries in 0..=16u64 {
            free_none(&rt, entries, held);
            if entries > 0 {
                free_all(&rt, entries, held);
            }
        }
    }
}

const ENTRY_OF_16: &str = "\
E 1 $1 $2 I:1 I:1 I:1 I:1 I:1 I:1 I:1 I:1 I:1 I:1 I:1 I:1 I:1 I:1 I:1 I:1 > ready $2
";

// Beats with the end of the log and with one more arrive after all up to the end has arrived.
const BEATS: &str = "\
state > Normal $1 0
B 1 $1 > beat $1
query > nothing
B 1 $2 > beat $2
query > Q 2 1 $2 $2
";

fn put_long_log(script: &mut String) -> Put {
    for entry in 1..=62_500u64 {
        let end = entry.saturating_mul(16);
        fill(script, ENTRY_OF_16, &[end.saturating_sub(16), end])?;
        if entry == 625 || entry == 6_250 || entry == 62_500 {
            fill(script, BEATS, &[end, end.saturating_add(1)])?;
        }
    }
    Ok(())
}

/// Beats arrive at logs of 10^4, 10^5 and 10^6.
#[test]
fn beats_at_long_logs(rt: HostRuntime) {
    let mut script = String::new(rt.alloc());
    put_long_log(&mut script).expect(&rt, "memory");
    plays_amply(&rt, AT_SITE_2, &script);
}
