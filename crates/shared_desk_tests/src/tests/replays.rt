//! Worked examples, replayed on two sites whose desks are shared.
ghost use Rattle.std.specs.Prelude.{◌≡◌, ◌≤◌};
ghost use Rattle.apply_lanes.specs.Names.{id_of, AreBlank, IsUnused};

use crate::tests::desks::new_desk;
use crate::tests::sites::{Site, opened};
use apply_lanes::{Blanks, DeskNames};
use rights_types::SiteId;
use site_core::Desk;
use std::alloc::{AllocError, AllocGlobal, Global};
use std::marker::Brand;
use std::process::Abort;
use std::str;
use std::sync::Wait;
use std::time::Clock;
use test_kit::fill;

// Plays a `1 command > reply` line on two sites.
fn play<D: DeskNames, E: DeskNames, R: Wait + Clock + Abort>(
    rt: &R,
    alloc: Global,
    text: &str,
    one: &mut Site<D>,
    two: &mut Site<E>,
) {
    let (call, wanted) = text.split_once(" > ").expect(rt, "a reply");
    let (site, command) = call.split_once(' ').expect(rt, "a site");
    let mut reply = String::new(alloc);
    let put = if site == "1" {
        one.put_reply(rt, alloc, &mut reply, command)
    } else {
        two.put_reply(rt, alloc, &mut reply, command)
    };
    put.expect(rt, "memory");
    assert!(rt; reply.as_str() == wanted, "{text}: {reply}");
}

fn replay<D: DeskNames, E: DeskNames, R: Wait + Clock + Abort>(
    rt: &R,
    alloc: Global,
    script: &str,
    one: &mut Site<D>,
    two: &mut Site<E>,
) {
    for text in script.lines() {
        play(rt, alloc, text, one, two);
    }
}

// The script is passed as bytes, since a call that picks names passes no text.
fn play_on_two<D: DeskNames, E: DeskNames, R: Wait + Clock + Abort>(
    rt: &R,
    alloc: Global,
    script: &[u8],
    desk: Desk,
    blanks: Blanks,
    other_desk: Desk,
    other_blanks: Blanks,
)
    requires id { D.id ≡ id_of desk blanks }
    requires blanks { AreBlank blanks }
    requires unused { IsUnused desk }
    requires other_id { E.id ≡ id_of other_desk other_blanks }
    requires other_blanks { AreBlank other_blanks }
    requires other_unused { IsUnused other_desk }
{
    let script = str::from_utf8(script).expect(rt, "a text");
    let mut one = opened::<D, R>(rt, alloc, desk, blanks, SiteId::known(2));
    let mut two = opened::<E, R>(rt, alloc, other_desk, other_blanks, SiteId::known(1));
    replay(rt, alloc, script, &mut one, &mut two);
}

// A site of two, at which nothing has happened.
fn one_of_two<R: Abort>(rt: &R, alloc: Global, me: u64) -> Desk
    requires { (1 ≤ me) × (me ≤ 2) }
    ensures { IsUnused result }
{
    new_desk(alloc, me, 2).expect(rt, "a desk")
}

fn plays<R: Wait + Clock + Abort + AllocGlobal>(rt: &R, script: &str) {
    let one = one_of_two(rt, rt.alloc(), 1);
    let two = one_of_two(rt, rt.alloc(), 2);
    play_on_two::<Brand, Brand, R>(
        rt,
        rt.alloc(),
        script.as_bytes(),
        one,
        Blanks::new(),
        two,
        Blanks::new(),
    );
}

/// A beat of an empty log leaves nothing to query.
#[test]
fn a_beat(rt: HostRuntime) {
    plays(
        &rt,
        "\
1 beat 2 > B 1 0
2 hear B 1 0 > beat
2 query > nothing
1 view > issued 0 spent 0 given 0 back 0 received 0 held 0
2 view > issued 0 spent 0 given 0 back 0 received 0 held 0",
    );
}

/// A spend waits, rights are asked for and granted once, and it is served.
#[test]
fn an_ask(rt: HostRuntime) {
    plays(
        &rt,
        "\
1 issue 10 > number 1
1 publish 2 > E 1 0 1 I:10
2 hear E 1 0 1 I:10 > ready 1 held 0 repeat 0
2 step > Ok(true)
2 spend 6 9 > queued 1
2 plan > asks 1
2 ask 1 > W 2 1 1 6
1 hear W 2 1 1 6 > granted 2
1 hear W 2 1 1 6 > repeated
1 publish 2 > E 1 1 2 G:2:6:1
2 hear E 1 1 2 G:2:6:1 > ready 1 held 0 repeat 0
2 step > Ok(true)
2 serve > served 1 1 amount 6
2 publish 1 > E 2 0 1 S:6
2 status 1 > spent 1
2 status 1 > unknown
2 view > issued 0 spent 6 given 0 back 0 received 6 held 0",
    );
}

/// A site closes and leaves what it holds to its heir, which applies its log to the end.
#[test]
fn a_closing(rt: HostRuntime) {
    plays(
        &rt,
        "\
1 issue 10 > number 1
1 spend 4 0 > spent 2
1 give 2 3 > number 3
1 close 2 > number 5
1 issue 1 > error Closed
1 publish 2 > E 1 0 1 I:10
1 publish 2 > E 1 1 2 S:4
1 publish 2 > E 1 2 3 R:2:3
1 publish 2 > E 1 3 5 R:2:3 K:0:0
1 publish 2 > nothing
2 hear E 1 3 5 R:2:3 K:0:0 > ready 0 held 1 repeat 0
2 query > Q 2 1 1 3
1 hear Q 2 1 1 3 > A 1 2;E 1 0 1 I:10;E 1 1 2 S:4;E 1 2 3 R:2:3
2 hear A 1 2;E 1 0 1 I:10;E 1 1 2 S:4;E 1 2 3 R:2:3 > ready 4 held 0 repeat 0
2 step > Ok(true)
2 step > Ok(true)
2 step > Ok(true)
2 step > Ok(true)
2 step > Ok(false)
2 step > Ok(false)
2 give 1 1 > error PeerClosed
2 view > issued 0 spent 0 given 0 back 0 received 6 held 6",
    );
}

/// An ask that cannot be met is denied, and denied again, until a newer one has arrived.
#[test]
fn a_denial(rt: HostRuntime) {
    plays(
        &rt,
        "\
1 issue 10 > number 1
1 publish 2 > E 1 0 1 I:10
2 hear E 1 0 1 I:10 > ready 1 held 0 repeat 0
2 step > Ok(true)
1 spend 10 0 > spent 2
2 spend 6 0 > queued 1
2 plan > asks 1
2 ask 1 > W 2 1 1 6
1 hear W 2 1 1 6 > denied D 1 2 1
1 hear W 2 1 1 6 > denied D 1 2 1
2 hear D 1 2 1 > noted
2 hear D 1 2 1 > noted
2 plan > asks 1
2 ask 1 > W 2 1 2 6
1 hear W 2 1 2 6 > denied D 1 2 2
1 hear W 2 1 1 6 > old",
    );
}

/// Refusals of gifts and spends, and expiry.
#[test]
fn refusals(rt: HostRuntime) {
    plays(
        &rt,
        "\
1 issue 3 > number 1
1 give 2 3 > number 2
1 give 2 1 > error Short
1 give 1 1 > error SameSite
1 spend 0 0 > error BadAmount
1 spend 1 9 > queued 1
1 expire 9 > expired 0
1 expire 10 > expired 1
1 expire 8 > error TimeWentBack
1 status 1 > expired
1 status 1 > unknown",
    );
}

/// What is taken is spent at once or refused, and what waits may be cancelled.
#[test]
fn takes_and_cancels(rt: HostRuntime) {
    plays(
        &rt,
        "\
1 take 1 > error Short
1 issue 7 > number 1
1 take 2 > spent 2
1 spend 6 9 > queued 1
1 take 1 > error Short
1 cancel 1 > expired
1 cancel 1 > unknown
1 take 5 > spent 3
1 take 0 > error BadAmount
1 view > issued 7 spent 7 given 0 back 0 received 0 held 0",
    );
}

/// A silent peer is not asked; once it is heard it is asked, and its ask stays outstanding while it is silent again.
#[test]
fn a_silent_peer(rt: HostRuntime) {
    plays(
        &rt,
        "\
1 issue 10 > number 1
2 hear E 1 0 1 I:10 > ready 1 held 0 repeat 0
2 step > Ok(true)
2 spend 6 9 > queued 1
2 plan_beside 1 > asks 0
2 ask 1 > nothing
2 plan > asks 1
2 plan_beside 1 > asks 0
2 ask 1 > W 2 1 1 6",
    );
}

// Spends until all slots of the queue are taken, and one more.
fn put_spends_of_a_full_queue(script: &mut String) -> Result<(), AllocError> {
    script.push_str("1 issue 3 > number 1\n1 give 2 3 > number 2\n")?;
    for ticket in 1..=32u64 {
        fill(script, "1 spend 1 0 > queued $1\n", &[ticket])?;
    }
    script.push_str("1 spend 1 0 > error QueueFull")
}

/// Thirty-two spends wait, and no more.
#[test]
fn a_full_queue(rt: HostRuntime) {
    let mut script = String::new(rt.alloc());
    put_spends_of_a_full_queue(&mut script).expect(&rt, "memory");
    plays(&rt, script.as_str());
}

/// What a closed site never applied is taken back.
#[test]
fn a_taking_back(rt: HostRuntime) {
    plays(
        &rt,
        "\
1 issue 10 > number 1
1 give 2 4 > number 2
1 publish 2 > E 1 0 1 I:10
1 publish 2 > E 1 1 2 R:2:4
2 hear E 1 0 1 I:10 > ready 1 held 0 repeat 0
2 step > Ok(true)
2 close > number 1
2 publish 1 > E 2 0 1 K:1:0
1 hear E 2 0 1 K:1:0 > ready 1 held 0 repeat 0
1 view > issued 10 spent 0 given 4 back 0 received 0 held 6
1 step > Ok(true)
1 view > issued 10 spent 0 given 4 back 4 received 0 held 10
2 hear E 1 1 2 R:2:4 > ready 1 held 0 repeat 0
2 step > Ok(true)
2 view > issued 0 spent 0 given 0 back 0 received 0 held 0
1 publish 2 > E 1 2 3 V:2:4
1 step > Ok(false)",
    );
}

/// Lines of a log that arrive out of order, and the queries for what is missing.
#[test]
fn a_gap(rt: HostRuntime) {
    plays(
        &rt,
        "\
2 hear E 1 0 1 I:10 > ready 1 held 0 repeat 0
2 hear E 1 1 4 S:1 S:1 S:1 > ready 1 held 0 repeat 0
2 hear B 1 5 > beat
2 query > Q 2 1 5 5
2 query > nothing
2 requery > Q 2 1 5 5
2 hear A 1 2;E 1 4 5 S:2 > ready 1 held 0 repeat 0
2 step > Ok(true)
2 step > Ok(true)
2 step > Ok(true)",
    );
}
