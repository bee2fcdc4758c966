//! Scripts with ample memory, and with each memory request refused.
use crate::tests::MANY;
use memchr::memchr;
use refusing_allocator::Refusing;
use std::alloc::Global;
use transfer_world::{ScriptFault, run_last_script, run_script};

/// Scripts with all kinds of events: rights that move, a gap and its answer, an ask that is granted, a denied one, an
/// heir, and what is taken back.
const SCRIPTS: [&[u8]; 6] = [
    b"sites 2\npost 1 I:10 S:4 R:2:3\npublish 1 2\narrive 2 1\nreport\ntake 2 1\nreport\n",
    b"sites 2\nissue 1 10\npost 1 S:1 S:1 S:1\npost 1 S:2\npublish 1 2\npublish 1 2\npublish 1 2\narrive 2 3\nquery 2 1\narrive 1 4\narrive 2 5\narrive 2 1\narrive 2 2\narrive 2 3\nreport\n",
    b"sites 2\nissue 1 10\npublish 1 2\narrive 2 1\ntake 2 1\nspend 2 6 9\nplan 2\nask 2 1\narrive 1 2\narrive 1 2\npublish 1 2\narrive 2 3\ntake 2 1\nserve 2\npublish 2 1\nstatus 2 1\nreport\n",
    b"sites 2\npost 1 I:10 S:4 R:2:3\nclose 1 2\npublish 1 2\npublish 1 2\narrive 2 2\nquery 2 1\narrive 1 3\narrive 2 4\ntake 2 1\ntake 2 1\nreport\n",
    b"sites 2\nissue 1 10\npublish 1 2\narrive 2 1\ntake 2 1\nspend 1 10 0\nspend 2 6 0\nplan 2\nask 2 1\narrive 1 2\narrive 1 2\narrive 2 3\nbeat 1 2\narrive 2 5\nrequery 2 1\nreport\n",
    b"sites 2\nissue 1 10\ngive 1 2 4\npublish 1 2\npublish 1 2\narrive 2 1\ntake 2 1\nclose 2\npublish 2 1\narrive 1 3\nreport\ntake 1 2\npublish 1 2\narrive 2 4\nreport\n",
];

const REFUSAL: &[u8] = b"error OutOfMemory\n";

/// What comes after the prefix, if the text begins with it.
fn rest_after<'a>(text: &'a [u8], front: &[u8]) -> Option<&'a [u8]> {
    if text.len() < front.len() {
        return None;
    }
    let (head, rest) = text.split_at(front.len());
    if head == front { Some(rest) } else { None }
}

fn begins_with(text: &[u8], front: &[u8]) -> bool {
    rest_after(text, front).is_some()
}

/// A reply of an ended world: its refusal, or a line of a report.
fn is_after_end(line: &[u8]) -> bool {
    line == b"error Ended".as_slice()
        || begins_with(line, b"site ")
        || begins_with(line, b"pair ")
        || begins_with(line, b"total ")
}

/// Whether these are whole replies of an ended world.
fn are_after_end(text: &[u8]) -> bool {
    let mut rest = text;
    for _ in 0..text.len() {
        let Some(end) = memchr(b'\n', rest) else {
            break;
        };
        let (line, behind) = rest.split_at(end);
        let [_, after @ ..] = behind else {
            return false;
        };
        if !is_after_end(line) {
            return false;
        }
        rest = after;
    }
    rest.is_empty()
}

/// Whether the text is a prefix of the replies, a refusal for lack of memory, and replies of an ended
/// world.
fn ends_the_world(text: &[u8], replies: &[u8]) -> bool {
    for length in 0..text.len() {
        let (front, rest) = text.split_at(length);
        if let Some(after) = rest_after(rest, REFUSAL) {
            return begins_with(replies, front) && are_after_end(after);
        }
    }
    false
}

/// Whether a script that met a refused memory request ended as it should: a prefix of the replies is written, and
/// then the run stops, or the event is refused and the world has ended.
fn is_cut_short(outcome: Result<(), ScriptFault>, text: &[u8], replies: &[u8]) -> bool {
    match outcome {
        Ok(()) => ends_the_world(text, replies),
        Err(fault) => fault == ScriptFault::OutOfMemory && begins_with(replies, text),
    }
}

/// The replies to a script.
fn replies_to(alloc: Global, script: &[u8]) -> Result<Vec<u8>, ScriptFault> {
    let mut out = Vec::new(alloc);
    let mut reader = script;
    run_script(alloc, &mut reader, &mut out)?;
    Ok(out)
}

/// Whether a run met a refusal. `None` if it had another result than it should.
fn met(
    refusing: &Refusing<Global>,
    outcome: Result<(), ScriptFault>,
    text: &[u8],
    replies: &[u8],
) -> Option<bool> {
    let is_met = refusing.refused();
    let is_right = if is_met {
        is_cut_short(outcome, text, replies)
    } else {
        outcome.is_ok() && text == replies
    };
    if is_right { Some(is_met) } else { None }
}

/// Whether the script met a refusal with this number of requests granted.
fn meets_refusal(alloc: Global, script: &[u8], replies: &[u8], granted: u64) -> Option<bool> {
    let refusing = Refusing::new(alloc, granted);
    let mut reader = script;
    let mut out = Vec::new(alloc);
    let result = run_script(&refusing, &mut reader, &mut out);
    met(&refusing, result, &out, replies)
}

/// The same for a script whose world is left.
fn last_meets_refusal(alloc: Global, script: &[u8], replies: &[u8], granted: u64) -> Option<bool> {
    let refusing = Refusing::new(alloc, granted);
    let mut reader = script;
    let mut out = Vec::new(alloc);
    let result = run_last_script(&refusing, &mut reader, &mut out);
    met(&refusing, result, &out, replies)
}

/// How many memory requests of the script were refused, one in each run. `None` if a run had another result than it
/// should.
fn refused_growths(alloc: Global, script: &[u8], replies: &[u8]) -> Option<u64> {
    for granted in 0..MANY {
        let is_met = meets_refusal(alloc, script, replies, granted)?;
        if last_meets_refusal(alloc, script, replies, granted)? != is_met {
            return None;
        }
        if !is_met {
            return Some(granted);
        }
    }
    None
}

/// Whether some reply is a refusal.
fn has_error(replies: &[u8]) -> bool {
    replies
        .windows(5)
        .any(|window| window == b"error".as_slice())
}

#[test]
fn each_growth_of_a_script_refused(rt: HostRuntime) {
    for script in SCRIPTS {
        let replies = replies_to(rt.alloc(), script).expect(&rt, "the replies");
        assert!(rt; !has_error(&replies));
        let growths = refused_growths(rt.alloc(), script, &replies);
        assert!(rt; matches!(growths, Some(count) if count > 10));
    }
}
