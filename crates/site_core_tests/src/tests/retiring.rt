//! Closing, and taking back.
use crate::tests::sites::plays;

/// A site that closes gives all that it holds to its heir, and answers with its log from then on.
#[test]
fn a_site_closes_for_an_heir(rt: HostRuntime) {
    let script = "\
post 1 I:10 S:4 R:2:3 > number 3
close 1 2 > number 5
site 1 > number 5 issued 10 spent 4 given 6 back 0 received 0 held 0 queued 0 closed
issue 1 1 > error Closed
publish 1 2 > E 1 0 3 I:10 S:4 R:2:3
publish 1 2 > E 1 3 5 R:2:3 K:0:0
beat 1 2 > B 1 5
hear 2 E 1 3 5 R:2:3 K:0:0 > not next
hear 1 Q 2 1 1 3 > A 1 2;E 1 0 3 I:10 S:4 R:2:3
hear 2 A 1 2;E 1 0 3 I:10 S:4 R:2:3 > taken 3
hear 2 E 1 3 5 R:2:3 K:0:0 > taken 5
hear 2 E 1 3 5 R:2:3 K:0:0 > nothing
give 2 1 1 > error PeerClosed
peer 2 1 > applied 5 received 6 given 0 published 0 known 0 closed
site 2 > number 0 issued 0 spent 0 given 0 back 0 received 6 held 6 queued 0 open
";
    let _ = plays(&rt, 2, script);
}

/// What a closed site will never apply is taken back by the site that gave it, with one entry.
#[test]
fn a_gift_comes_back(rt: HostRuntime) {
    let script = "\
issue 1 10 > number 1
give 1 2 4 > number 2
publish 1 2 > E 1 0 1 I:10
publish 1 2 > E 1 1 2 R:2:4
hear 2 E 1 0 1 I:10 > taken 1
close 2 > number 1
publish 2 1 > E 2 0 1 K:1:0
site 1 > number 2 issued 10 spent 0 given 4 back 0 received 0 held 6 queued 0 open
hear 1 E 2 0 1 K:1:0 > taken 1 back 3
site 1 > number 3 issued 10 spent 0 given 4 back 4 received 0 held 10 queued 0 open
hear 2 E 1 1 2 R:2:4 > nothing
publish 1 2 > E 1 2 3 V:2:4
hear 2 E 1 2 3 V:2:4 > nothing
peer 2 1 > applied 1 received 0 given 0 published 1 known 10 open
peer 1 2 > applied 1 received 0 given 4 published 3 known 4 closed
";
    let _ = plays(&rt, 2, script);
}

/// Two sites that close towards each other take nothing back.
#[test]
fn two_sites_close_towards_each_other(rt: HostRuntime) {
    let script = "\
issue 1 5 > number 1
give 1 2 5 > number 2
close 2 > number 1
close 1 > number 3
publish 2 1 > E 2 0 1 K:0:0
hear 1 E 2 0 1 K:0:0 > nothing
site 1 > number 3 issued 5 spent 0 given 5 back 0 received 0 held 0 queued 0 closed
site 2 > number 1 issued 0 spent 0 given 0 back 0 received 0 held 0 queued 0 closed
";
    let _ = plays(&rt, 2, script);
}

/// No site may post what only closing writes, nor a grant.
#[test]
fn no_posts_of_special_moves(rt: HostRuntime) {
    let script = "\
post 1 V:2:4 > error BadMove
post 1 G:2:4:1 > error BadMove
post 1 K:0:0 > error BadMove
post 1 C > error BadMove
post 1 I:5 R:2:1 V:2:1 > error BadMove
";
    let _ = plays(&rt, 2, script);
}

/// If the closing site names this one as its heir, the legacy is received, and what is beyond the
/// frontier is taken back too: gifts and grants, of several entries, but none to another site.
#[test]
fn an_heir_takes_back_too(rt: HostRuntime) {
    let script = "\
issue 2 7 > number 1
post 1 I:100 R:2:1 R:3:2 > number 3
hear 2 E 1 0 3 I:100 R:2:1 R:3:2 > taken 3
post 1 R:2:10 R:3:20 R:2:5 > number 6
hear 1 W 2 1 1 9 > granted 9 number 7
spend 1 3 0 > spent 8
give 1 3 4 > number 9
close 2 1 > number 3
publish 2 1 > E 2 0 1 I:7
publish 2 1 > E 2 1 3 R:1:8 K:3:0:0
hear 1 E 2 0 1 I:7 > taken 1
hear 1 E 2 1 3 R:1:8 K:3:0:0 > taken 3 back 10
hear 1 Q 2 1 10 10 > A 1 2;E 1 9 10 V:2:24
site 1 > number 10 issued 100 spent 3 given 51 back 24 received 8 held 78 queued 0 open
peer 1 2 > applied 3 received 8 given 25 published 0 known 24 closed
";
    let _ = plays(&rt, 3, script);
}

/// A closing entry that says nothing of this site, or that has no frontier, takes nothing back. Nor does one
/// whose site had applied everything.
#[test]
fn nothing_comes_back(rt: HostRuntime) {
    let script = "\
post 3 I:9 R:1:2 R:2:3 R:4:4 > number 4
hear 3 E 1 0 1 K:0:0 > taken 1
hear 3 E 2 0 2 I:1 C > taken 2
hear 3 E 4 0 1 K:0:0:4:0 > taken 1
site 3 > number 4 issued 9 spent 0 given 9 back 0 received 0 held 0 queued 0 open
peer 3 1 > applied 1 received 0 given 2 published 0 known 2 closed
peer 3 2 > applied 2 received 0 given 3 published 0 known 4 closed
peer 3 4 > applied 1 received 0 given 4 published 0 known 4 closed
";
    let _ = plays(&rt, 4, script);
}

/// The frontier may name a number in the middle of an entry or beyond the log's end: what counts is where
/// entries begin.
#[test]
fn frontiers_within_entries(rt: HostRuntime) {
    let script = "\
post 1 I:50 R:2:1 R:3:2 R:4:4 > number 4
post 1 R:2:8 R:3:16 R:4:1 > number 7
hear 1 E 2 0 1 K:3:0:0:0 > taken 1 back 8
hear 1 E 3 0 1 K:0:0:0:0 > taken 1 back 9
hear 1 E 4 0 1 K:1000000000:0:0:0 > taken 1
hear 1 Q 2 1 8 9 > A 1 2;E 1 7 8 V:2:8;E 1 8 9 V:3:18
";
    let _ = plays(&rt, 4, script);
}

/// An heir is checked even if nothing is held, and one whose closing is unknown to the closing site is accepted.
#[test]
fn heirs(rt: HostRuntime) {
    let script = "\
close 1 4 > error NoSuchSite
close 1 1 > error SameSite
hear 1 E 2 0 1 C > taken 1
close 1 2 > error PeerClosed
close 3 > number 1
close 1 3 > number 1
publish 1 3 > E 1 0 1 K:0:1:0
";
    let _ = plays(&rt, 3, script);
}

/// A closed site keeps its asks until it plans, answers queries, and denies asks. It does not
/// write, spend or apply.
#[test]
fn a_closed_site(rt: HostRuntime) {
    let script = "\
issue 1 9 > number 1
hear 2 E 1 0 1 I:9 > taken 1
issue 2 3 > number 1
hear 2 W 1 2 1 1 > granted 1 number 2
spend 2 5 7 > queued 1
plan 2 > asks 1
close 2 > error QueueBusy
expire 2 8 > expired 1
close 2 > number 3
status 2 1 > expired
post 2 > error Closed
issue 2 1 > error Closed
give 2 1 1 > error Closed
spend 2 1 0 > error Closed
close 2 > error Closed
close 2 2 > error Closed
serve 2 > nothing
expire 2 8 > expired 0
expire 2 7 > error TimeWentBack
plan 2 > asks 0
ask 2 1 > W 2 1 1 3
hear 2 W 1 2 1 1 > repeated
hear 2 W 1 2 3 1 > denied D 2 1 3
hear 2 W 1 2 3 1 > denied again D 2 1 3
hear 2 W 1 2 2 1 > old
hear 2 E 1 1 2 G:2:3:1 > nothing
hear 2 Q 1 2 3 3 > A 2 1;E 2 2 3 K:1:0
beat 2 1 > B 2 3
hear 2 D 1 2 1 > noted
ask 2 1 > nothing
site 2 > number 3 issued 3 spent 0 given 1 back 0 received 0 held 2 queued 0 closed
";
    let _ = plays(&rt, 2, script);
}

/// The ask to a site that has closed ends at the next plan, and no other is made.
#[test]
fn asks_to_a_closed_site(rt: HostRuntime) {
    let script = "\
hear 1 E 2 0 1 I:5 > taken 1
spend 1 5 0 > queued 1
plan 1 > asks 1
ask 1 2 > W 1 2 1 5
hear 1 E 2 1 2 K:0:0 > taken 2
peer 1 2 > applied 2 received 0 given 0 published 0 known 5 closed
ask 1 2 > W 1 2 1 5
plan 1 > asks 0
ask 1 2 > nothing
";
    let _ = plays(&rt, 2, script);
}

/// The closing entry of the last of sixteen sites. The ask to it stays until the next plan.
#[test]
fn a_site_of_sixteen_closes(rt: HostRuntime) {
    let script = "\
issue 16 5 > number 1
publish 16 1 > E 16 0 1 I:5
hear 1 E 16 0 1 I:5 > taken 1
spend 1 5 0 > queued 1
plan 1 > asks 1
ask 1 16 > W 1 16 1 5
close 16 > number 2
publish 16 1 > E 16 1 2 K:0:0:0:0:0:0:0:0:0:0:0:0:0:0:0:0
hear 1 E 16 1 2 K:0:0:0:0:0:0:0:0:0:0:0:0:0:0:0:0 > taken 2
ask 1 16 > W 1 16 1 5
plan 1 > asks 0
";
    let _ = plays(&rt, 16, script);
}
