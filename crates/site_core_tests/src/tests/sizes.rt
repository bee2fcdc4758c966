//! Entries and answers of every size.
use crate::tests::calls::Put;
use crate::tests::sites::plays;
use crate::tests::templates::fill;
use std::alloc::AllocGlobal;

// The number before the entry of this number of moves, if those of fewer come before it.
fn prev(count: u64) -> u64 {
    count.saturating_mul(count.saturating_sub(1)) / 2
}

// An entry of site 1 that issues, spends and gives in turn.
fn put_entry(text: &mut String, count: u64) -> Put {
    let before = prev(count);
    fill(text, "E 1 $1 $2", &[before, before.saturating_add(count)])?;
    put_moves(text, count)
}

const MOVES: [&str; 3] = [" I:1000000000", " S:9", " R:2:1"];

fn put_moves(text: &mut String, count: u64) -> Put {
    for place in 0..count {
        text.push_str(MOVES[(place % 3) as usize])?;
    }
    Ok(())
}

// Posts an entry of this number of moves, which is published and applied.
fn put_post(script: &mut String, count: u64) -> Put {
    let own = prev(count).saturating_add(count);
    script.push_str("post 1")?;
    put_moves(script, count)?;
    fill(script, " > number $1\npublish 1 2 > ", &[own])?;
    put_entry(script, count)?;
    script.push_str("\nhear 2 ")?;
    put_entry(script, count)?;
    fill(script, " > taken $1\n", &[own])
}

// Queries the first entries, as many as this, or what comes after all.
fn put_query(script: &mut String, count: u64) -> Put {
    if count == 0 {
        return script.push_str("hear 1 Q 2 1 137 999 > A 1 2\n");
    }
    let last = prev(count).saturating_add(count);
    fill(script, "hear 1 Q 2 1 1 $1 > A 1 2", &[last])?;
    for entry in 1..=count {
        script.push(';')?;
        put_entry(script, entry)?;
    }
    script.push('\n')
}

fn put_script(script: &mut String) -> Put {
    for count in 1..=16u64 {
        put_post(script, count)?;
    }
    for count in 0..=16u64 {
        put_query(script, count)?;
    }
    Ok(())
}

/// Entries of 1 to 16 moves are posted, published and applied, and answers have 0 to 16 of them: with ample
/// memory none runs out, and with each request refused in turn each succeeds when it is repeated.
#[test]
fn entries_and_answers_of_every_size(rt: HostRuntime) {
    let mut script = String::new(rt.alloc());
    put_script(&mut script).expect(&rt, "memory");
    let _ = plays(&rt, 2, &script);
}
