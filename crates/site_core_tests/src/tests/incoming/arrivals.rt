//! Many entries that arrive at one inbound.
use crate::tests::calls::Put;
use crate::tests::incoming::steps::{AT_SITE_2, plays_amply};
use crate::tests::templates::fill;

// Sixty-four entries of one move are held, and one more is not.
fn put_held(script: &mut String) -> Put {
    for prev in 1..=64u64 {
        fill(
            script,
            "E 1 $1 $2 I:1 > held\n",
            &[prev, prev.saturating_add(1)],
        )?;
    }
    script.push_str("E 1 65 66 I:1 > full\nstate > Buffering 0 64\n")
}

// An answer with entries of one move: after 0, and after 79 down to 65.
fn put_answer_backwards(script: &mut String) -> Put {
    script.push_str("A 1 2;E 1 0 1 I:1")?;
    for down in 0..15u64 {
        let own = 80u64.saturating_sub(down);
        fill(script, ";E 1 $1 $2 I:1", &[own.saturating_sub(1), own])?;
    }
    Ok(())
}

// The numbers from the first to the last one are ready.
fn put_ready(script: &mut String, first: u64, last: u64) -> Put {
    for own in first..=last {
        fill(script, " ready $1", &[own])?;
    }
    Ok(())
}

// 1 is ready and frees 2 to 65; fourteen are held, which the last one frees.
fn put_most_verdicts(script: &mut String) -> Put {
    script.push_str(" >")?;
    put_ready(script, 1, 65)?;
    for _ in 0..14u8 {
        script.push_str(" held")?;
    }
    put_ready(script, 66, 80)?;
    script.push_str("\nstate > Normal 80 0\n")
}

fn put_all(script: &mut String) -> Put {
    put_held(script)?;
    put_answer_backwards(script)?;
    put_most_verdicts(script)
}

/// Sixty-four entries are held and one more is not; then one line has 94 verdicts, the most possible.
#[test]
fn most_verdicts_on_a_line(rt: HostRuntime) {
    let mut script = String::new(rt.alloc());
    put_all(&mut script).expect(&rt, "memory");
    plays_amply(&rt, AT_SITE_2, &script);
}
