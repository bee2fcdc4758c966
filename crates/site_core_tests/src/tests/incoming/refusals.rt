//! Lines that are refused, and the order of the causes.
use crate::tests::incoming::steps::{AT_SITE_2, plays_amply};

/// From another site than the origin, for any site and naming anything; from the origin, for another site, and with
/// entries of a system of more sites; and no messages, from any site. The bar ends a line that is cut.
const LINES: &str = "\
H 2 > error WrongOrigin
B 3 1 > error WrongOrigin
E 3 0 1 I:1 > error WrongOrigin
E 2 0 1 R:9:1 > error WrongOrigin
A 3 2;E 3 0 1 I:1 > error WrongOrigin
A 2 3 > error WrongOrigin
Q 3 2 1 4 > error WrongOrigin
W 3 1 1 6 > error WrongOrigin
D 2 1 1 > error WrongOrigin
Q 1 3 1 4 > error BadSite
A 1 3 > error BadSite
A 1 3;E 1 0 1 I:1 > error BadSite
W 1 3 1 6 > error BadSite
D 1 3 1 > error BadSite
E 1 0 1 R:3:1 > error BadSite
E 1 0 1 G:16:1:1 > error BadSite
E 1 0 2 I:1 V:3:1 > error BadSite
E 1 0 1 K:0:0:0 > error BadSite
E 1 0 3 I:1 R:2:1 K:0:1:2 > error BadSite
A 1 2;E 1 0 1 I:1;E 1 1 2 R:3:1 > error BadSite
A 1 2;E 1 0 1 I:1;E 1 1 2 K:0:0:0 > error BadSite
B 1 05 > error Line(BadField(Place { part: 0, field: 2 }))
E 3 0 2 I:1 > error Line(CountWrong)
A 1 3;E 1 0 1 I:0 > error Line(BadMove(Place { part: 1, field: 4 }))
B 1 5| > error Line(NoEnd)
state > Normal 0 0
";

/// A line that is refused changes nothing.
#[test]
fn lines_that_are_refused(rt: HostRuntime) {
    plays_amply(&rt, AT_SITE_2, LINES);
}
