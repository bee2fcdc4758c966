//! Many calls, in a random order.
use crate::tests::balance::Totals;
use crate::tests::sites::Sites;
use crate::tests::templates::filled;
use refusing_allocator::Refusing;
use std::alloc::AllocGlobal;
use std::process::Abort;
use test_kit::Dice;

const GAMES: u64 = 25;

const CALLS: u64 = 200;

/// Two of this many sites.
pub(crate) fn pair(dice: &mut Dice, sites: u64) -> (u64, u64) {
    let site = dice.roll(sites).saturating_add(1);
    let next = site.saturating_add(dice.roll(sites.saturating_sub(1)));
    (site, next.checked_rem(sites).unwrap_or(0).saturating_add(1))
}

// Calls of a site (1) that involve no line, with a peer (2), an amount (3) and a time (4), and how many of 60 are up to
// there.
const COMMANDS: [(&str, u64); 9] = [
    ("issue $1 $3", 10),
    ("give $1 $2 $3", 20),
    ("post $1 S:$3 I:2 R:$2:1", 25),
    ("spend $1 $3 $4", 40),
    ("serve $1", 45),
    ("expire $1 $4", 48),
    ("plan $1", 58),
    ("close $1 $2", 59),
    ("close $1", 60),
];

fn template(drawn: u64) -> &'static str {
    for (command, end) in &COMMANDS {
        if drawn < *end {
            return *command;
        }
    }
    ""
}

/// A call that involves no line.
pub(crate) fn command(rt: &(impl Abort + AllocGlobal), dice: &mut Dice, sites: u64) -> String {
    let (site, peer) = pair(dice, sites);
    let amount = dice.roll(9).saturating_add(1);
    let time = dice.roll(1_000);
    filled(rt, template(dice.roll(60)), &[site, peer, amount, time])
}

// An entry, the entries of a gap, or an ask with its denial goes from one site to another. What is sent may be lost.
fn exchange(rt: &(impl Abort + AllocGlobal), sites: &mut Sites, dice: &mut Dice) {
    let (site, peer) = pair(dice, 3);
    match dice.roll(4) {
        0 => send(rt, sites, dice, "publish $1 $2", (site, peer)),
        1 => sites.catch_up(rt, site, peer),
        _ => ask(rt, sites, dice, (site, peer)),
    }
}

// The peer receives the line that the site has for it, if it is not lost.
fn send(
    rt: &(impl Abort + AllocGlobal),
    sites: &mut Sites,
    dice: &mut Dice,
    template: &str,
    pair: (u64, u64),
) {
    sites.call(rt, template, &[pair.0, pair.1]);
    if dice.roll(4) != 0 {
        sites.pass(rt, pair.1);
    }
}

// The same for an ask, whose denial the site receives.
fn ask(rt: &(impl Abort + AllocGlobal), sites: &mut Sites, dice: &mut Dice, pair: (u64, u64)) {
    send(rt, sites, dice, "ask $1 $2", pair);
    if sites.reply().starts_with("denied ") && dice.roll(4) != 0 {
        sites.pass_denial(rt, pair.0);
    }
}

// Plays a game from this seed. After each call all rights are conserved.
fn game(rt: &(impl Abort + AllocGlobal), seed: u64) -> Totals {
    let memory = Refusing::new(rt.alloc(), u64::MAX);
    let mut sites = Sites::new(rt, &memory, 3);
    let mut dice = Dice::new(seed);
    for _ in 0..CALLS {
        turn(rt, &mut sites, &mut dice);
        sites.check_rights(rt, seed);
    }
    sites.totals().expect(rt, "kept rights")
}

fn turn(rt: &(impl Abort + AllocGlobal), sites: &mut Sites, dice: &mut Dice) {
    if dice.roll(2) == 0 {
        let drawn = command(rt, dice, 3);
        sites.say(rt, &drawn);
    } else {
        exchange(rt, sites, dice);
    }
}

/// At each moment of several games each site's rights are those of its log and of what it applied, and those of
/// all are those that were issued.
#[test]
fn rights_are_kept_in_random_games(rt: HostRuntime) {
    let mut received = 0u64;
    let mut back = 0u64;
    for seed in 0..GAMES {
        let totals = game(&rt, seed);
        received = received.saturating_add(totals.received);
        back = back.saturating_add(totals.back);
    }
    // Rights went in both directions, so the games were not idle.
    assert!(rt; received > 0 && back > 0);
}
