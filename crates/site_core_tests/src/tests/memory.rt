//! Which calls request memory. Each script of these tests is played with each request refused in turn: the
//! call that meets the refusal says so and changes nothing, and none meets one that is not listed below.
use crate::tests::sites::plays;
use std::alloc::AllocGlobal;
use std::process::Abort;

// Whether the last call of a script makes requests of its own.
fn asks(rt: &(impl Abort + AllocGlobal), before: &str, call: &str) -> bool {
    let mut whole = String::from_str(rt.alloc(), before).expect(rt, "memory");
    whole.push_str(call).expect(rt, "memory");
    plays(rt, 3, before) < plays(rt, 3, &whole)
}

// A fifth entry finds no capacity that the four before it have made.
const ISSUED: &str =
    "issue 1 2 > number 1\nissue 1 1 > number 2\nissue 1 1 > number 3\nissue 1 1 > number 4\n";

const WAITING: &str =
    "spend 1 5 0 > queued 1\nissue 1 2 > number 1\nissue 1 1 > number 2\nissue 1 1 > number 3\nissue 1 1 > number 4\n";

const ASKED: &str = "spend 2 9 0 > queued 1\nhear 2 E 1 0 1 I:5 > taken 1\nplan 2 > asks 1\n";

const DENIED: &str = "hear 1 W 2 1 1 1 > denied D 1 2 1\n";

const GIVEN: &str = "issue 1 5 > number 1\ngive 1 2 3 > number 2\n";

// The calls before, and a call that writes an entry or a line.
const WRITING: [(&str, &str); 16] = [
    ("", "post 1 I:5 S:5 > number 2"),
    ("", "issue 1 5 > number 1"),
    (ISSUED, "give 1 2 5 > number 5"),
    (ISSUED, "spend 1 5 0 > spent 5"),
    (ISSUED, "take 1 5 > spent 5"),
    (WAITING, "serve 1 > served 1 5"),
    (ASKED, "ask 2 1 > W 2 1 1 5"),
    (ISSUED, "publish 1 3 > E 1 0 1 I:2"),
    ("", "beat 1 2 > B 1 0"),
    ("", "hear 1 Q 2 1 1 1 > A 1 2"),
    (ISSUED, "hear 1 W 2 1 1 1 > granted 1 number 5"),
    ("", "hear 1 W 2 1 1 1 > denied D 1 2 1"),
    (DENIED, "hear 1 W 2 1 1 1 > denied again D 1 2 1"),
    (GIVEN, "hear 1 E 2 0 1 K:1:0:0 > taken 1 back 3"),
    ("", "close 1 > number 1"),
    (ISSUED, "close 1 3 > number 6"),
];

/// Each call that writes an entry or a line requests memory, so its refusal was met.
#[test]
fn calls_that_ask_for_memory(rt: HostRuntime) {
    for (before, call) in &WRITING {
        let asks = asks(&rt, *before, *call);
        assert!(rt; asks, "{call}");
    }
}

const READING: [&str; 27] = [
    "spend 1 9 0 > queued 1",
    "serve 2 > nothing",
    "serve 1 > nothing",
    "expire 2 6 > expired 1",
    "plan 2 > asks 0",
    "plan_beside 2 1 > asks 0",
    "status 2 1 > waiting",
    "hear 2 D 1 2 1 > noted",
    "hear 1 E 2 0 3 I:9 R:1:4 C > taken 3",
    "hear 2 E 1 2 3 G:2:1:1 > taken 3",
    "publish 1 2 > nothing",
    "ask 1 2 > nothing",
    "site 1 > number 2 issued 5 spent 0 given 3 back 0 received 0 held 2 queued 0 open",
    "peer 2 1 > applied 2 received 3 given 0 published 0 known 2 open",
    "post 1 > error BadCount",
    "post 1 I:1 C > error BadMove",
    "issue 1 0 > error BadAmount",
    "give 1 4 1 > error NoSuchSite",
    "give 1 1 1 > error SameSite",
    "give 1 3 1 > error PeerClosed",
    "give 1 2 9 > error Short",
    "take 1 9 > error Short",
    "cancel 1 9 > unknown",
    "close 2 > error QueueBusy",
    "close 1 1 > error SameSite",
    "hear 1 Q 3 2 1 1 > error NotMine",
    "hear 1 Q 3 1 2 1 > error BadRange",
];

const BEFORE_READING: &str = "\
post 1 I:5 R:2:3 > number 2
hear 2 E 1 0 2 I:5 R:2:3 > taken 2
spend 2 9 5 > queued 1
plan 2 > asks 1
hear 2 W 1 2 1 1 > denied D 2 1 1
publish 1 2 > E 1 0 2 I:5 R:2:3
hear 1 E 3 0 1 C > taken 1
";

/// No call that writes neither requests memory.
#[test]
fn calls_that_ask_for_none(rt: HostRuntime) {
    for call in &READING {
        let asks = asks(&rt, BEFORE_READING, *call);
        assert!(rt; !asks, "{call}");
    }
}

/// The desks of 2 to 16 sites. Memory is refused to each in turn, and it is made again.
#[test]
fn new_desks(rt: HostRuntime) {
    for sites in 2..=16u64 {
        let requests = plays(&rt, sites, "");
        assert!(rt; requests >= sites, "{sites} sites");
    }
}
