//! Records of journals, each replayed or refused.
use crate::tests::sites::plays;

/// An entry of the site is written again if it is the next one, and if the desk permits it.
#[test]
fn own_entries(rt: HostRuntime) {
    let script = "\
replay 1 E 1 0 1 I:10 > replayed
replay 1 E 1 0 1 I:10 > error OutOfOrder
replay 1 E 1 2 3 I:10 > error OutOfOrder
replay 1 E 1 1 2 S:11 > error Short
replay 1 E 1 1 3 S:4 R:2:6 > replayed
replay 1 E 1 3 4 R:2:1 > error Short
replay 1 E 1 3 4 R:3:1 > error NoSuchSite
replay 1 E 1 3 4 V:2:6 > error BadMove
replay 1 E 1 3 5 I:1 G:2:1:1 > error BadMove
site 1 > number 3 issued 10 spent 4 given 6 back 0 received 0 held 0 queued 0 open
peer 1 2 > applied 0 received 0 given 6 published 0 known 6 open
";
    let _ = plays(&rt, 2, script);
}

/// An ask is granted at most once, in the order of the asks, and a closed site grants nothing.
#[test]
fn grants(rt: HostRuntime) {
    let script = "\
replay 1 E 1 0 1 I:10 > replayed
replay 1 E 1 1 2 G:2:11:1 > error Short
replay 1 E 1 1 2 G:2:3:4 > replayed
replay 1 E 1 2 3 G:2:3:4 > error GrantedBefore
replay 1 E 1 2 3 G:2:3:3 > error GrantedBefore
replay 1 E 1 2 3 G:3:1:4 > replayed
hear 1 W 2 1 4 9 > repeated
hear 1 W 2 1 3 9 > old
hear 1 W 2 1 5 9 > granted 6 number 4
close 1 > number 5
replay 1 E 1 5 6 G:2:1:9 > error Closed
replay 1 E 1 5 6 I:1 > error Closed
";
    let _ = plays(&rt, 3, script);
}

/// An entry of another site is applied again if it is its next one, and what it makes the site owed comes back.
#[test]
fn entries_of_others(rt: HostRuntime) {
    let script = "\
replay 1 E 2 1 2 I:5 > error OutOfOrder
replay 1 E 2 0 1 I:5 > replayed
replay 1 E 2 0 1 I:5 > error OutOfOrder
replay 1 E 2 1 2 R:1:5 > replayed
replay 1 E 1 0 1 R:2:4 > replayed
replay 1 E 1 1 2 R:3:1 > replayed
replay 1 E 2 2 3 K:0:0:0 > replayed
site 1 > number 3 issued 0 spent 0 given 5 back 4 received 5 held 4 queued 0 open
replay 1 E 1 2 3 V:2:4 > error OutOfOrder
replay 1 E 1 3 4 V:2:4 > error BadMove
replay 1 E 2 3 4 I:1 > error PeerClosed
replay 1 E 4 0 1 I:1 > error NoSuchSite
replay 1 E 1 3 4 R:2:1 > error PeerClosed
close 1 3 > number 5
replay 1 E 3 0 1 I:1 > error Closed
";
    let _ = plays(&rt, 3, script);
}

/// The closing entry is written again if it is the one that the site would write.
#[test]
fn closings(rt: HostRuntime) {
    let script = "\
replay 1 E 1 0 1 I:10 > replayed
replay 1 E 2 0 1 I:5 > replayed
replay 1 E 1 1 2 K:0:0:0 > error OtherClosing
replay 1 E 1 1 3 R:2:9 K:0:1:0 > error OtherClosing
replay 1 E 1 1 3 I:10 K:0:1:0 > error OtherClosing
replay 1 E 1 1 3 R:4:10 K:0:1:0 > error NoSuchSite
replay 1 E 1 1 2 C > error OtherClosing
replay 1 E 1 1 3 R:2:10 K:0:1:0 > replayed
replay 1 E 1 3 4 K:0:1:0 > error Closed
site 1 > number 3 issued 10 spent 0 given 10 back 0 received 0 held 0 queued 0 closed
replay 2 E 2 0 1 K:0:0:0 > replayed
replay 3 E 3 0 1 I:3 > replayed
replay 3 E 3 1 2 K:0:0:0 > replayed
site 3 > number 2 issued 3 spent 0 given 0 back 0 received 0 held 3 queued 0 closed
";
    let _ = plays(&rt, 3, script);
}

/// An ask is made again under its number, and no number is used twice afterwards.
#[test]
fn asks(rt: HostRuntime) {
    let script = "\
replay 1 W 1 2 2 5 > error OutOfOrder
replay 1 W 1 2 1 5 > replayed
replay 1 W 1 2 1 5 > error OutOfOrder
replay 1 W 2 1 1 5 > error OutOfOrder
replay 1 W 1 4 1 5 > error OutOfOrder
ask 1 2 > W 1 2 1 5
replay 1 W 1 2 2 7 > replayed
ask 1 2 > W 1 2 2 7
replay 1 E 2 0 1 I:20 > replayed
replay 1 E 2 1 2 G:1:7:2 > replayed
ask 1 2 > nothing
spend 1 9 0 > queued 1
plan 1 > asks 1
ask 1 2 > W 1 2 3 2
";
    let _ = plays(&rt, 3, script);
}

/// Other messages are no records, and what has none is lost: denials and waiting spends.
#[test]
fn no_records(rt: HostRuntime) {
    let script = "\
replay 1 D 2 1 1 > error NoRecord
replay 1 B 2 1 > error NoRecord
replay 1 Q 2 1 1 1 > error NoRecord
replay 1 A 2 1;E 2 0 1 I:1 > error NoRecord
replay 2 E 2 0 1 I:4 > replayed
hear 2 W 1 2 1 3 > granted 3 number 2
spend 2 9 5 > queued 1
hear 2 W 1 2 2 3 > denied D 2 1 2
hear 2 W 1 2 1 3 > old
replay 3 E 2 0 1 I:4 > replayed
";
    let _ = plays(&rt, 3, script);
}
