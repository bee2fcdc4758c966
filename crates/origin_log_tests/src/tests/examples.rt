//! Worked examples, each with each memory request refused.
use crate::tests::scripts::plays;
use test_kit::site;

/// Each entry is numbered and published as its line.
const PUBLISHED: &str = "\
append I:10 > 1
append S:1 S:1 S:1 > 4
append S:2 > 5
publish 2 > E 1 0 1 I:10
publish 2 > E 1 1 4 S:1 S:1 S:1
publish 2 > E 1 4 5 S:2
cursor 2 > 3
cursor 3 > 0
line 3 > nothing
end > 3 entries, the last 5, a beat 5";

/// The answer's line contains the lines of its entries, whole; a query inside an entry gives it.
const ANSWERED: &str = "\
append I:10 > 1
append S:1 S:1 S:1 > 4
append S:2 > 5
answer Q 2 1 1 4 > A 1 2;E 1 0 1 I:10;E 1 1 4 S:1 S:1 S:1
answer Q 2 1 3 3 > A 1 2;E 1 1 4 S:1 S:1 S:1
answer Q 2 1 6 9 > A 1 2
find Q 2 1 3 3 > found;E 1 1 4 S:1 S:1 S:1
find Q 2 1 6 9 > found
find Q 2 1 0 3 > error BadRange
find Q 2 1 4 3 > error BadRange
find Q 2 1 0 0 > error BadRange
find Q 1 2 0 3 > error NotMine
answer Q 2 1 0 3 > error BadRange
answer Q 2 1 4 3 > error BadRange
answer Q 2 1 0 0 > error BadRange
answer Q 1 2 0 3 > error NotMine";

/// Counts of moves that are refused.
const COUNTED: &str = "\
append I:10 > 1
append S:1 S:1 S:1 > 4
append S:2 > 5
append > error BadCount
append I:1 I:1 I:1 I:1 I:1 I:1 I:1 I:1 I:1 I:1 I:1 I:1 I:1 I:1 I:1 I:1 I:1 > error BadCount
line 3 > nothing
end > 3 entries, the last 5, a beat 5
append I:1 I:1 I:1 I:1 I:1 I:1 I:1 I:1 I:1 I:1 I:1 I:1 I:1 I:1 I:1 I:1 > 21";

/// A closed log gets no more, and goes on answering.
const CLOSED: &str = "\
append I:10 S:4 R:2:3 > 3
append R:2:3 K:0:0 > 5
append I:1 > error Closed
append K:0:0 > error Closed
append V:2:4 > error Closed
end > 2 entries, the last 5, a beat 5, closed
line 1 > E 1 3 5 R:2:3 K:0:0
answer Q 2 1 1 3 > A 1 2;E 1 0 3 I:10 S:4 R:2:3
answer Q 2 1 4 5 > A 1 2;E 1 3 5 R:2:3 K:0:0
entry 1 > E 1 3 5 R:2:3 K:0:0";

/// A closing entry is read again.
const CLOSED_ALONE: &str = "\
append K:0:7 > 1
entry 0 > E 1 0 1 K:0:7
line 0 > E 1 0 1 K:0:7
entry 1 > nothing";

/// A gift to an heir, and a frontier of sixteen sites.
const LONGEST_CLOSE: &str = "\
append I:1000000000 > 1
append R:16:1000000000 K:0:1000000000:1000000000:1000000000:1000000000:1000000000:1000000000:1000000000:1000000000:1000000000:1000000000:1000000000:1000000000:1000000000:1000000000:1000000000 > 3
line 1 > E 1 1 3 R:16:1000000000 K:0:1000000000:1000000000:1000000000:1000000000:1000000000:1000000000:1000000000:1000000000:1000000000:1000000000:1000000000:1000000000:1000000000:1000000000:1000000000
entry 1 > E 1 1 3 R:16:1000000000 K:0:1000000000:1000000000:1000000000:1000000000:1000000000:1000000000:1000000000:1000000000:1000000000:1000000000:1000000000:1000000000:1000000000:1000000000:1000000000";

/// A total is taken back.
const TAKEN_BACK: &str = "\
append I:10 > 1
append R:2:4 > 2
append V:2:4 > 3
line 2 > E 1 2 3 V:2:4
entry 2 > E 1 2 3 V:2:4
end > 3 entries, the last 3, a beat 3";

/// An answer has at most sixteen entries; a further query gets the rest.
const TWENTY: &str = "\
append I:1 > 1
append I:1 > 2
append I:1 > 3
append I:1 > 4
append I:1 > 5
append I:1 > 6
append I:1 > 7
append I:1 > 8
append I:1 > 9
append I:1 > 10
append I:1 > 11
append I:1 > 12
append I:1 > 13
append I:1 > 14
append I:1 > 15
append I:1 > 16
append I:1 > 17
append I:1 > 18
append I:1 > 19
append I:1 > 20
end > 20 entries, the last 20, a beat 20
line 20 > nothing
find Q 2 1 1 20 > found;E 1 0 1 I:1;E 1 1 2 I:1;E 1 2 3 I:1;E 1 3 4 I:1;E 1 4 5 I:1;E 1 5 6 I:1;E 1 6 7 I:1;E 1 7 8 I:1;E 1 8 9 I:1;E 1 9 10 I:1;E 1 10 11 I:1;E 1 11 12 I:1;E 1 12 13 I:1;E 1 13 14 I:1;E 1 14 15 I:1;E 1 15 16 I:1
find Q 2 1 17 20 > found;E 1 16 17 I:1;E 1 17 18 I:1;E 1 18 19 I:1;E 1 19 20 I:1
find Q 2 1 20 20 > found;E 1 19 20 I:1
answer Q 2 1 1 20 > A 1 2;E 1 0 1 I:1;E 1 1 2 I:1;E 1 2 3 I:1;E 1 3 4 I:1;E 1 4 5 I:1;E 1 5 6 I:1;E 1 6 7 I:1;E 1 7 8 I:1;E 1 8 9 I:1;E 1 9 10 I:1;E 1 10 11 I:1;E 1 11 12 I:1;E 1 12 13 I:1;E 1 13 14 I:1;E 1 14 15 I:1;E 1 15 16 I:1";

const EXAMPLES: [&str; 8] = [
    PUBLISHED,
    ANSWERED,
    COUNTED,
    CLOSED,
    CLOSED_ALONE,
    LONGEST_CLOSE,
    TAKEN_BACK,
    TWENTY,
];

#[test]
fn examples(rt: HostRuntime) {
    for script in &EXAMPLES {
        plays(&rt, site(1), script);
    }
}
