//! Worked examples: two or three desks, whose lines are passed by hand.
use crate::tests::sites::plays;

/// A batch of moves is one line, and is applied once.
#[test]
fn a_batch_of_moves(rt: HostRuntime) {
    let script = "\
post 1 I:10 S:4 R:2:3 > number 3
publish 1 2 > E 1 0 3 I:10 S:4 R:2:3
publish 1 2 > nothing
site 1 > number 3 issued 10 spent 4 given 3 back 0 received 0 held 3 queued 0 open
site 2 > number 0 issued 0 spent 0 given 0 back 0 received 0 held 0 queued 0 open
peer 1 2 > applied 0 received 0 given 3 published 1 known 3 open
peer 1 1 > applied 0 received 0 given 0 published 0 known 3 open
peer 1 16 > applied 0 received 0 given 0 published 0 known 0 open
hear 2 E 1 0 3 I:10 S:4 R:2:3 > taken 3
hear 2 E 1 0 3 I:10 S:4 R:2:3 > not next
site 2 > number 0 issued 0 spent 0 given 0 back 0 received 3 held 3 queued 0 open
peer 2 1 > applied 3 received 3 given 0 published 0 known 3 open
";
    let _ = plays(&rt, 2, script);
}

/// Asks of two sites in turn: a grant, its repeat, a denial for lack of rights, and one by a closed site.
#[test]
fn asks_both_ways(rt: HostRuntime) {
    let script = "\
issue 1 10 > number 1
hear 1 W 2 1 1 6 > granted 6 number 2
hear 1 W 2 1 1 6 > repeated
spend 1 5 0 > queued 1
hear 1 W 2 1 2 1 > denied D 1 2 2
plan 1 > asks 1
ask 1 2 > W 1 2 1 1
hear 1 E 2 0 1 G:1:1:1 > taken 1
ask 1 2 > nothing
serve 1 > served 1 3
close 1 2 > number 4
hear 1 Q 2 1 4 4 > A 1 2;E 1 3 4 K:0:1
hear 1 W 2 1 3 1 > denied D 1 2 3
status 1 1 > spent 3
status 1 1 > unknown
";
    let _ = plays(&rt, 2, script);
}

/// A spend that lacks rights waits, the rights are asked for and granted, and it is served.
#[test]
fn a_spend_waits_for_a_grant(rt: HostRuntime) {
    let script = "\
issue 1 10 > number 1
publish 1 2 > E 1 0 1 I:10
hear 2 E 1 0 1 I:10 > taken 1
spend 2 6 9 > queued 1
serve 2 > nothing
plan 2 > asks 1
ask 2 1 > W 2 1 1 6
hear 1 W 2 1 1 6 > granted 6 number 2
hear 1 W 2 1 1 6 > repeated
publish 1 2 > E 1 1 2 G:2:6:1
hear 2 E 1 1 2 G:2:6:1 > taken 2
ask 2 1 > nothing
status 2 1 > waiting
serve 2 > served 1 1
serve 2 > nothing
publish 2 1 > E 2 0 1 S:6
status 2 1 > spent 1
status 2 1 > unknown
hear 1 E 2 0 1 S:6 > taken 1
peer 1 2 > applied 1 received 0 given 6 published 2 known 0 open
";
    let _ = plays(&rt, 2, script);
}

/// Two peers are asked for all that each is known to have, and each only once.
#[test]
fn two_peers_are_asked(rt: HostRuntime) {
    let script = "\
issue 1 4 > number 1
issue 3 4 > number 1
hear 2 E 1 0 1 I:4 > taken 1
hear 2 E 3 0 1 I:4 > taken 1
spend 2 10 0 > queued 1
plan 2 > asks 2
ask 2 1 > W 2 1 1 4
ask 2 3 > W 2 3 1 4
plan 2 > asks 0
ask 2 1 > W 2 1 1 4
";
    let _ = plays(&rt, 3, script);
}

/// A peer that is known to have spent rights before it was known to have them has less than nothing, and is not
/// asked.
#[test]
fn a_peer_with_less_than_nothing(rt: HostRuntime) {
    let script = "\
issue 1 10 > number 1
hear 2 E 1 0 1 I:10 > taken 1
spend 2 6 9 > queued 1
plan 2 > asks 1
ask 2 1 > W 2 1 1 6
ask 2 3 > nothing
hear 1 W 2 1 1 6 > granted 6 number 2
hear 2 E 1 1 2 G:2:6:1 > taken 2
serve 2 > served 1 1
publish 2 3 > E 2 0 1 S:6
hear 3 E 2 0 1 S:6 > taken 1
peer 3 2 > applied 1 received 0 given 0 published 0 known -6 open
peer 3 1 > applied 0 received 0 given 0 published 0 known 0 open
spend 3 1 0 > queued 1
plan 3 > asks 0
";
    let _ = plays(&rt, 3, script);
}

/// A spend expires after its deadline, and time does not go back.
#[test]
fn a_spend_expires(rt: HostRuntime) {
    let script = "\
spend 1 1 9 > queued 1
expire 1 9 > expired 0
expire 1 10 > expired 1
expire 1 8 > error TimeWentBack
status 1 1 > expired
status 1 1 > unknown
site 1 > number 0 issued 0 spent 0 given 0 back 0 received 0 held 0 queued 0 open
";
    let _ = plays(&rt, 2, script);
}

/// An ask is denied twice, then as an old one, and the denied site is asked again.
#[test]
fn denials(rt: HostRuntime) {
    let script = "\
issue 1 10 > number 1
hear 2 E 1 0 1 I:10 > taken 1
spend 1 10 0 > spent 2
spend 2 6 0 > queued 1
plan 2 > asks 1
ask 2 1 > W 2 1 1 6
hear 1 W 2 1 1 6 > denied D 1 2 1
hear 1 W 2 1 1 6 > denied again D 1 2 1
hear 2 D 1 2 1 > noted
hear 2 D 1 2 1 > noted
ask 2 1 > nothing
plan 2 > asks 1
ask 2 1 > W 2 1 2 6
hear 2 D 1 2 1 > noted
ask 2 1 > W 2 1 2 6
hear 1 W 2 1 2 6 > denied D 1 2 2
hear 1 W 2 1 1 6 > old
";
    let _ = plays(&rt, 2, script);
}

/// A gap of twenty entries is answered with sixteen of them, and then with the rest.
#[test]
fn a_gap_of_twenty_entries(rt: HostRuntime) {
    let script = "\
issue 1 1 > number 1
issue 1 1 > number 2
issue 1 1 > number 3
issue 1 1 > number 4
issue 1 1 > number 5
issue 1 1 > number 6
issue 1 1 > number 7
issue 1 1 > number 8
issue 1 1 > number 9
issue 1 1 > number 10
issue 1 1 > number 11
issue 1 1 > number 12
issue 1 1 > number 13
issue 1 1 > number 14
issue 1 1 > number 15
issue 1 1 > number 16
issue 1 1 > number 17
issue 1 1 > number 18
issue 1 1 > number 19
issue 1 1 > number 20
beat 1 2 > B 1 20
hear 1 Q 2 1 1 20 > A 1 2;E 1 0 1 I:1;E 1 1 2 I:1;E 1 2 3 I:1;E 1 3 4 I:1;E 1 4 5 I:1;E 1 5 6 I:1;E 1 6 7 I:1;E 1 7 8 I:1;E 1 8 9 I:1;E 1 9 10 I:1;E 1 10 11 I:1;E 1 11 12 I:1;E 1 12 13 I:1;E 1 13 14 I:1;E 1 14 15 I:1;E 1 15 16 I:1
hear 2 A 1 2;E 1 0 1 I:1;E 1 1 2 I:1;E 1 2 3 I:1;E 1 3 4 I:1;E 1 4 5 I:1;E 1 5 6 I:1;E 1 6 7 I:1;E 1 7 8 I:1;E 1 8 9 I:1;E 1 9 10 I:1;E 1 10 11 I:1;E 1 11 12 I:1;E 1 12 13 I:1;E 1 13 14 I:1;E 1 14 15 I:1;E 1 15 16 I:1 > taken 1 taken 2 taken 3 taken 4 taken 5 taken 6 taken 7 taken 8 taken 9 taken 10 taken 11 taken 12 taken 13 taken 14 taken 15 taken 16
hear 1 Q 2 1 17 20 > A 1 2;E 1 16 17 I:1;E 1 17 18 I:1;E 1 18 19 I:1;E 1 19 20 I:1
hear 2 A 1 2;E 1 16 17 I:1;E 1 17 18 I:1;E 1 18 19 I:1;E 1 19 20 I:1 > taken 17 taken 18 taken 19 taken 20
hear 1 Q 2 1 21 29 > A 1 2
";
    let _ = plays(&rt, 2, script);
}

/// Gifts and spends in a system of two sites, and the causes for which each is refused.
#[test]
fn gifts_and_spends(rt: HostRuntime) {
    let script = "\
issue 1 3 > number 1
give 1 2 3 > number 2
give 1 2 1 > error Short
give 1 1 1 > error SameSite
post 1 R:3:1 > error NoSuchSite
spend 1 0 0 > error BadAmount
post 1 C > error BadMove
site 1 > number 2 issued 3 spent 0 given 3 back 0 received 0 held 0 queued 0 open
";
    let _ = plays(&rt, 2, script);
}

/// A grant ends the ask that it answers: not one of another number, of another site or for another site.
#[test]
fn a_grant_ends_its_ask(rt: HostRuntime) {
    let script = "\
hear 1 E 2 0 1 I:9 > taken 1
hear 1 E 3 0 1 I:9 > taken 1
spend 1 12 0 > queued 1
plan 1 > asks 2
ask 1 2 > W 1 2 1 9
ask 1 3 > W 1 3 1 3
hear 1 E 2 1 4 G:1:1:2 G:3:1:1 R:1:1 > taken 4
ask 1 2 > W 1 2 1 9
hear 1 D 2 1 2 > noted
ask 1 2 > W 1 2 1 9
hear 1 E 2 4 6 S:1 G:1:2:1 > taken 6
ask 1 2 > nothing
ask 1 3 > W 1 3 1 3
hear 1 D 3 1 1 > noted
ask 1 3 > nothing
plan 1 > asks 1
ask 1 3 > W 1 3 2 8
ask 1 2 > nothing
site 1 > number 0 issued 0 spent 0 given 0 back 0 received 4 held 4 queued 12 open
peer 1 3 > applied 1 received 0 given 0 published 0 known 10 open
";
    let _ = plays(&rt, 3, script);
}
