//! Scripts of calls of a log: each line is a command, followed by ` > ` and the reply to it.
use crate::tests::calls::{NO_MEMORY, put_end, put_reply};
use origin_log::OriginLog;
use refusing_allocator::Refusing;
use rights_types::SiteId;
use std::alloc::{AllocGlobal, Allocator};
use std::process::Abort;
use test_kit::requests_of;

// The command of a script's line, and the reply to it.
fn row(line: &str) -> (&str, &str) {
    line.split_once(" > ").unwrap_or((line, ""))
}

// Makes the reply to a command.
fn say<A: Allocator + Copy>(
    rt: &(impl Abort + AllocGlobal),
    log: &mut OriginLog<A>,
    reply: &mut String,
    command: &str,
) {
    reply.clear();
    put_reply(rt.alloc(), reply, log, command).expect(rt, "memory");
}

fn check(rt: &impl Abort, command: &str, reply: &str, expected: &str) {
    assert!(rt; reply == expected, "{command}: {reply}");
}

fn tell_line<A: Allocator + Copy>(
    rt: &(impl Abort + AllocGlobal),
    log: &mut OriginLog<A>,
    reply: &mut String,
    line: &str,
) {
    let (command, expected) = row(line);
    say(rt, log, reply, command);
    check(rt, command, reply, expected);
}

/// The log goes on with a script, with ample memory.
pub(crate) fn tell<A: Allocator + Copy>(
    rt: &(impl Abort + AllocGlobal),
    log: &mut OriginLog<A>,
    script: &str,
) {
    let mut reply = String::new(rt.alloc());
    for line in script.lines() {
        tell_line(rt, log, &mut reply, line);
    }
}

// Where the log ends.
fn end_of<A: Allocator + Copy>(rt: &(impl Abort + AllocGlobal), log: &OriginLog<A>) -> String {
    let mut text = String::new(rt.alloc());
    put_end(&mut text, log).expect(rt, "memory");
    text
}

// Makes the reply to a command. An error leaves the log's end unchanged.
fn say_unless_wrong<A: Allocator + Copy>(
    rt: &(impl Abort + AllocGlobal),
    log: &mut OriginLog<A>,
    reply: &mut String,
    command: &str,
) {
    let before = end_of(rt, log);
    say(rt, log, reply, command);
    if reply.starts_with("error ") {
        check(rt, command, &end_of(rt, log), &before);
    }
}

// A command whose memory is refused says so, and has its reply when it is repeated.
fn step<A: Allocator>(
    rt: &(impl Abort + AllocGlobal),
    memory: &Refusing<A>,
    log: &mut OriginLog<&Refusing<A>>,
    reply: &mut String,
    line: &str,
) {
    let (command, expected) = row(line);
    let refused = memory.refused();
    say_unless_wrong(rt, log, reply, command);
    if memory.refused() != refused {
        check(rt, command, reply, NO_MEMORY);
        say(rt, log, reply, command);
    }
    check(rt, command, reply, expected);
}

/// The log goes on with a script, of which any memory request may be refused.
pub(crate) fn go_on<A: Allocator>(
    rt: &(impl Abort + AllocGlobal),
    memory: &Refusing<A>,
    log: &mut OriginLog<&Refusing<A>>,
    script: &str,
) {
    let mut reply = String::new(rt.alloc());
    for line in script.lines() {
        step(rt, memory, log, &mut reply, line);
    }
}

/// Plays a script of a site's log with each memory request refused in turn, and then with none refused. Returns how
/// many requests the log makes.
pub(crate) fn plays(rt: &(impl Abort + AllocGlobal), site: SiteId, script: &str) -> u64 {
    let requests = requests_of(rt.alloc(), |memory| play(rt, memory, site, script));
    requests.expect(rt, "a script")
}

fn play<A: Allocator>(
    rt: &(impl Abort + AllocGlobal),
    memory: &Refusing<A>,
    site: SiteId,
    script: &str,
) -> bool {
    let mut log = OriginLog::new(memory, site);
    go_on(rt, memory, &mut log, script);
    true
}
