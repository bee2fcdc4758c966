//! Worked examples.
use crate::tests::incoming::steps::{AT_SITE_1, AT_SITE_2, plays};

/// The three entries of one log: the later one arrives first, and an answer brings the two before it.
const LATER_FIRST: &str = "\
E 1 4 5 S:2 > held
state > Buffering 0 1
query > Q 2 1 1 4
A 1 2;E 1 0 1 I:10;E 1 1 4 S:1 S:1 S:1 > ready 1 ready 4 ready 5
E 1 0 1 I:10 > repeat
E 1 1 4 S:1 S:1 S:1 > repeat
E 1 4 5 S:2 > repeat
state > Normal 5 0
";

/// A beat reveals an entry that was lost, which is queried once, and again.
const LOST: &str = "\
E 1 0 1 I:10 > ready 1
E 1 1 4 S:1 S:1 S:1 > ready 4
B 1 5 > beat 5
query > Q 2 1 5 5
query > nothing
query again > Q 2 1 5 5
A 1 2;E 1 4 5 S:2 > ready 5
state > Normal 5 0
query again > nothing
";

/// A closing entry waits for the entry before it, and nothing is delivered after it.
const CLOSING: &str = "\
E 1 3 5 R:2:3 K:0:0 > held
query > Q 2 1 1 3
A 1 2;E 1 0 3 I:10 S:4 R:2:3 > ready 3 ready 5
E 1 5 6 I:1 > after close
B 1 9 > beat 9
state > Normal 5 0
query > nothing
";

/// An origin whose entries are of no common chain.
const LYING: &str = "\
E 1 0 3 I:1 I:1 I:1 > ready 3
E 1 1 2 I:9 > repeat
E 1 5 6 I:1 > held
E 1 5 7 I:1 I:1 > repeat
E 1 3 6 I:1 I:1 I:1 > ready 6
state > Normal 6 0
";

/// Each of these is for a new inbound.
#[test]
fn lines_of_one_origin(rt: HostRuntime) {
    for script in &[LATER_FIRST, LOST, CLOSING, LYING] {
        let _ = plays(&rt, AT_SITE_2, *script).expect(&rt, "a script");
    }
}

/// Messages of each kind, from the origin and from others.
const MESSAGES: &str = "\
Q 2 1 1 4 > query 1 4
H 2 > hello
W 2 1 3 6 > ask 3 6
D 2 1 7 > deny 7
B 1 5 > error WrongOrigin
Q 2 3 1 4 > error BadSite
E 2 0 1 R:3:1 > error BadSite
A 2 1;E 2 0 1 I:1;E 2 1 2 I:1 > ready 1 ready 2
A 2 1 > no entries
";

#[test]
fn messages_of_each_kind(rt: HostRuntime) {
    let _ = plays(&rt, AT_SITE_1, MESSAGES).expect(&rt, "a script");
}
