//! The least and the greatest amounts.
use crate::tests::sites::plays;

#[test]
fn amounts(rt: HostRuntime) {
    let script = "\
issue 1 0 > error BadAmount
issue 1 1 > number 1
issue 1 1000000000 > number 2
issue 1 1000000001 > error BadAmount
issue 1 18446744073709551615 > error BadAmount
give 1 2 0 > error BadAmount
give 1 2 1 > number 3
give 1 2 1000000000 > number 4
give 1 2 1000000001 > error BadAmount
give 1 2 18446744073709551615 > error BadAmount
post 1 I:1 I:1000000000 > number 6
spend 1 0 0 > error BadAmount
spend 1 1 0 > spent 7
spend 1 1000000000 0 > spent 8
spend 1 1000000001 0 > error BadAmount
spend 1 18446744073709551615 0 > error BadAmount
spend 1 1000000000 18446744073709551615 > queued 1
site 1 > number 8 issued 2000000002 spent 1000000001 given 1000000001 back 0 received 0 held 0 queued 1000000000 open
";
    let _ = plays(&rt, 2, script);
}

/// Exactly 10^9 held goes to an heir; more does not, and stays with the closed site if no heir is
/// named.
#[test]
fn held_of_a_closing_site(rt: HostRuntime) {
    let script = "\
issue 1 1000000000 > number 1
issue 1 1 > number 2
close 1 2 > error HeldTooMuch
spend 1 1 0 > spent 3
close 1 2 > number 5
publish 1 2 > E 1 0 1 I:1000000000
publish 1 2 > E 1 1 2 I:1
publish 1 2 > E 1 2 3 S:1
publish 1 2 > E 1 3 5 R:2:1000000000 K:0:0:0
post 3 I:1000000000 I:1000000000 > number 2
close 3 1 > error HeldTooMuch
close 3 > number 3
site 3 > number 3 issued 2000000000 spent 0 given 0 back 0 received 0 held 2000000000 queued 0 closed
";
    let _ = plays(&rt, 3, script);
}

const GREATEST_MOVES: &str = "\
post 1 I:1000000000 I:1000000000 I:1000000000 I:1000000000 I:1000000000 I:1000000000 I:1000000000 I:1000000000 \
I:1000000000 I:1000000000 I:1000000000 I:1000000000 I:1000000000 I:1000000000 I:1000000000 I:1000000000 > number 16
site 1 > number 16 issued 16000000000 spent 0 given 0 back 0 received 0 held 16000000000 queued 0 open
hear 1 W 2 1 1000000000 1000000000 > granted 1000000000 number 17
issue 1 1000000000 > number 18
post 1 R:2:1000000000 R:2:1000000000 R:2:1000000000 R:2:1000000000 R:2:1000000000 R:2:1000000000 R:2:1000000000 R:2:1000000000 \
R:2:1000000000 R:2:1000000000 R:2:1000000000 R:2:1000000000 R:2:1000000000 R:2:1000000000 R:2:1000000000 R:2:1000000000 > number 34
post 1 R:2:1 > error Short
hear 2 E 1 0 16 I:1000000000 I:1000000000 I:1000000000 I:1000000000 I:1000000000 I:1000000000 I:1000000000 I:1000000000 \
I:1000000000 I:1000000000 I:1000000000 I:1000000000 I:1000000000 I:1000000000 I:1000000000 I:1000000000 > taken 16
hear 2 E 1 16 17 G:2:1000000000:1000000000 > taken 17
hear 2 E 1 17 18 I:1000000000 > taken 18
site 2 > number 0 issued 0 spent 0 given 0 back 0 received 1000000000 held 1000000000 queued 0 open
peer 2 1 > applied 18 received 1000000000 given 0 published 0 known 16000000000 open
close 2 1 > number 2
hear 1 E 2 0 2 R:1:1000000000 K:18:0 > taken 2 back 35
site 1 > number 35 issued 17000000000 spent 0 given 17000000000 back 16000000000 received 1000000000 held 17000000000 queued 0 open
";

/// Sixteen greatest moves in one entry: issued, given, received, granted on and taken back in full.
#[test]
fn sixteen_greatest_moves(rt: HostRuntime) {
    let _ = plays(&rt, 2, GREATEST_MOVES);
}
