//! Refusals. A call with two causes is refused for the first in the order.
use crate::tests::sites::plays;

/// Each cause of a post is checked for all moves before the next cause is.
#[test]
fn posts(rt: HostRuntime) {
    let script = "\
hear 1 E 3 0 1 C > taken 1
issue 1 6 > number 1
post 1 > error BadCount
post 1 C C C C C C C C C C C C C C C C C > error BadCount
post 1 S:9 R:3:1 R:1:1 R:4:1 C > error BadMove
post 1 S:9 R:3:1 R:1:1 R:4:1 G:2:1:1 > error BadMove
post 1 S:9 R:3:1 R:1:1 R:4:1 V:3:1 > error BadMove
post 1 S:9 R:3:1 R:1:1 R:4:1 > error NoSuchSite
post 1 S:9 R:3:1 R:1:1 > error SameSite
post 1 S:9 R:3:1 > error PeerClosed
post 1 S:9 I:9 > error Short
post 1 R:2:7 I:9 > error Short
post 1 I:1 S:5 R:2:3 > error Short
post 1 S:1 S:1 S:1 S:1 S:1 S:1 R:2:1 I:1 > error Short
site 1 > number 1 issued 6 spent 0 given 0 back 0 received 0 held 6 queued 0 open
post 1 I:3 S:9 > number 3
post 1 I:9 R:2:9 > number 5
close 1 > number 6
post 1 > error Closed
post 1 S:9 R:3:1 R:1:1 R:4:1 C > error Closed
";
    let _ = plays(&rt, 3, script);
}

#[test]
fn issues_and_gifts(rt: HostRuntime) {
    let script = "\
hear 1 E 3 0 1 C > taken 1
issue 1 0 > error BadAmount
issue 1 1000000001 > error BadAmount
give 1 4 0 > error BadAmount
give 1 1 1000000001 > error BadAmount
give 1 4 1 > error NoSuchSite
give 1 16 1 > error NoSuchSite
give 1 1 1 > error SameSite
give 1 3 1 > error PeerClosed
give 1 2 1 > error Short
issue 1 5 > number 1
give 1 2 6 > error Short
give 1 2 5 > number 2
close 1 > number 3
issue 1 0 > error Closed
give 1 4 0 > error Closed
";
    let _ = plays(&rt, 3, script);
}

/// A full queue refuses the spends that cannot be served at once, and no others. A refused one takes no
/// ticket, and one that is served at once takes no slot.
#[test]
fn spends(rt: HostRuntime) {
    let script = "\
spend 1 1 0 > queued 1
spend 1 1 0 > queued 2
spend 1 1 0 > queued 3
spend 1 1 0 > queued 4
spend 1 1 0 > queued 5
spend 1 1 0 > queued 6
spend 1 1 0 > queued 7
spend 1 1 0 > queued 8
spend 1 1 0 > queued 9
spend 1 1 0 > queued 10
spend 1 1 0 > queued 11
spend 1 1 0 > queued 12
spend 1 1 0 > queued 13
spend 1 1 0 > queued 14
spend 1 1 0 > queued 15
spend 1 1 0 > queued 16
spend 1 1 0 > queued 17
spend 1 1 0 > queued 18
spend 1 1 0 > queued 19
spend 1 1 0 > queued 20
spend 1 1 0 > queued 21
spend 1 1 0 > queued 22
spend 1 1 0 > queued 23
spend 1 1 0 > queued 24
spend 1 1 0 > queued 25
spend 1 1 0 > queued 26
spend 1 1 0 > queued 27
spend 1 1 0 > queued 28
spend 1 1 0 > queued 29
spend 1 1 0 > queued 30
spend 1 1 0 > queued 31
spend 1 1 5 > queued 32
spend 1 0 0 > error BadAmount
spend 1 1000000001 0 > error BadAmount
spend 1 1 0 > error QueueFull
issue 1 9 > number 1
spend 1 1 0 > error QueueFull
site 1 > number 1 issued 9 spent 0 given 0 back 0 received 0 held 9 queued 32 open
expire 1 5 > expired 31
spend 1 2 0 > error QueueFull
serve 1 > served 32 2
spend 1 2 0 > spent 3
spend 1 7 0 > error QueueFull
status 1 7 > expired
spend 1 7 0 > queued 33
status 1 33 > waiting
close 1 > error QueueBusy
expire 1 6 > expired 1
close 1 > number 4
spend 1 0 0 > error Closed
spend 1 1 0 > error Closed
";
    let _ = plays(&rt, 2, script);
}

/// A take is served now or refused, whatever waits. What waiting spends ask for is not taken, and nothing is queued.
#[test]
fn takes(rt: HostRuntime) {
    let script = "\
take 1 0 > error BadAmount
take 1 1000000001 > error BadAmount
take 1 1 > error Short
site 1 > number 0 issued 0 spent 0 given 0 back 0 received 0 held 0 queued 0 open
issue 1 10 > number 1
take 1 11 > error Short
take 1 4 > spent 2
spend 1 9 0 > queued 1
take 1 1 > error Short
take 1 0 > error BadAmount
issue 1 5 > number 3
take 1 3 > error Short
take 1 2 > spent 4
site 1 > number 4 issued 15 spent 6 given 0 back 0 received 0 held 9 queued 9 open
serve 1 > served 1 5
close 1 > number 6
take 1 0 > error Closed
take 1 1 > error Closed
";
    let _ = plays(&rt, 2, script);
}

/// A cancelled spend expires and is reported at once, so its slot is free. What was served is reported as such.
#[test]
fn cancels(rt: HostRuntime) {
    let script = "\
cancel 1 1 > unknown
spend 1 5 9 > queued 1
spend 1 3 9 > queued 2
spend 1 1 9 > queued 3
cancel 1 2 > expired
cancel 1 2 > unknown
status 1 2 > unknown
site 1 > number 0 issued 0 spent 0 given 0 back 0 received 0 held 0 queued 6 open
issue 1 5 > number 1
serve 1 > served 1 2
cancel 1 1 > spent 2
cancel 1 1 > unknown
expire 1 10 > expired 1
cancel 1 3 > expired
status 1 3 > unknown
close 1 > number 3
cancel 1 1 > unknown
";
    let _ = plays(&rt, 2, script);
}

/// A silent peer is not asked, and what it was asked for is asked of the others. Its ask stays outstanding, and a late
/// grant of it is applied.
#[test]
fn silent_peers(rt: HostRuntime) {
    let script = "\
hear 2 E 1 0 1 I:9 > taken 1
hear 2 E 3 0 1 I:6 > taken 1
spend 2 4 9 > queued 1
plan 2 > asks 1
ask 2 1 > W 2 1 1 4
plan_beside 2 1 > asks 1
ask 2 1 > W 2 1 1 4
ask 2 3 > W 2 3 1 4
plan_beside 2 1 > asks 0
hear 2 E 3 1 2 G:2:4:1 > taken 2
serve 2 > served 1 1
hear 2 E 1 1 2 G:2:4:1 > taken 2
ask 2 1 > nothing
site 2 > number 1 issued 0 spent 4 given 0 back 0 received 8 held 4 queued 0 open
";
    let _ = plays(&rt, 3, script);
}

/// Requests are served only from the front. Posts and gifts do not wait for them, and reserve nothing.
#[test]
fn waiting_spends(rt: HostRuntime) {
    let script = "\
spend 1 5 9 > queued 1
spend 1 1 3 > queued 2
issue 1 4 > number 1
serve 1 > nothing
spend 1 1 0 > queued 3
post 1 S:1 > number 2
give 1 2 1 > number 3
issue 1 3 > number 4
serve 1 > served 1 5
serve 1 > nothing
issue 1 1 > number 6
serve 1 > served 2 7
expire 1 3 > expired 1
expire 1 3 > expired 0
expire 1 2 > error TimeWentBack
expire 1 3 > expired 0
status 1 1 > spent 5
status 1 2 > spent 7
status 1 3 > expired
status 1 3 > unknown
status 1 4 > unknown
spend 1 1 2 > queued 4
expire 1 18446744073709551615 > expired 1
expire 1 18446744073709551614 > error TimeWentBack
spend 1 1 18446744073709551615 > queued 5
expire 1 18446744073709551615 > expired 0
";
    let _ = plays(&rt, 2, script);
}

#[test]
fn closings(rt: HostRuntime) {
    let script = "\
hear 1 E 3 0 1 C > taken 1
post 1 I:1000000000 I:1 > number 2
close 1 4 > error NoSuchSite
close 1 1 > error SameSite
close 1 3 > error PeerClosed
close 1 2 > error HeldTooMuch
spend 2 1 0 > queued 1
close 2 4 > error QueueBusy
close 2 2 > error QueueBusy
close 2 > error QueueBusy
close 1 > number 3
close 1 4 > error Closed
close 1 > error Closed
";
    let _ = plays(&rt, 3, script);
}

/// A query of another log is refused before its range is checked.
#[test]
fn queries(rt: HostRuntime) {
    let script = "\
hear 1 Q 2 1 1 1 > A 1 2
hear 1 Q 3 2 4 3 > error NotMine
hear 1 Q 1 2 1 1 > error NotMine
hear 1 Q 2 1 0 3 > error BadRange
hear 1 Q 2 1 4 3 > error BadRange
hear 1 Q 16 1 1 1000000000 > A 1 16
";
    let _ = plays(&rt, 3, script);
}

/// What is available to an ask is what is held, less what waiting spends ask for; nothing is for a site that has
/// closed. Repeats and old asks are distinguished from new ones before that, and each asker has its own numbers.
#[test]
fn asks(rt: HostRuntime) {
    let script = "\
hear 1 W 2 1 1 6 > denied D 1 2 1
issue 1 10 > number 1
hear 1 W 2 1 1 6 > denied again D 1 2 1
spend 1 20 0 > queued 1
hear 1 W 2 1 2 6 > denied D 1 2 2
expire 1 1 > expired 1
spend 1 11 2 > queued 2
spend 1 1 1 > queued 3
hear 1 W 2 1 3 6 > denied D 1 2 3
expire 1 2 > expired 1
hear 1 W 2 1 4 6 > denied D 1 2 4
expire 1 3 > expired 1
spend 1 3 3 > spent 2
spend 1 8 3 > queued 4
issue 1 2 > number 3
hear 1 W 2 1 7 6 > granted 1 number 4
hear 1 W 2 1 7 6 > repeated
hear 1 W 2 1 6 6 > old
hear 1 W 2 1 4 6 > old
expire 1 4 > expired 1
hear 1 W 3 1 1 1000000000 > granted 8 number 5
hear 1 W 3 1 1 1 > repeated
issue 1 1 > number 6
hear 1 E 2 0 1 C > taken 1
hear 1 W 2 1 8 1 > denied D 1 2 8
hear 1 W 2 1 7 1 > old
hear 1 W 3 1 2 1 > granted 1 number 7
site 1 > number 7 issued 13 spent 3 given 10 back 0 received 0 held 0 queued 0 open
";
    let _ = plays(&rt, 3, script);
}
