//! Random games, from whose journals every site is made again: after each record it reports what the site reported
//! then, and once all sites are made again the game goes on with them.
use crate::tests::calls::{Counted, Put, cut, put_ask};
use crate::tests::random::{command, pair};
use crate::tests::readers::{closed, entries, peer_numbers, put_entry, site_numbers};
use crate::tests::sites::{Sites, row};
use crate::tests::templates::{fill, filled};
use refusing_allocator::Refusing;
use rights_types::SiteId;
use std::alloc::{AllocGlobal, Global};
use std::process::Abort;
use test_kit::Dice;

// How many games a test plays, and the calls of each, before the restart and after it.
const GAMES: u64 = 224;

const CALLS: u64 = 120;

// What a restart keeps of a report: all but what was published and what waits.
fn put_lasting(text: &mut String, desk: &Counted) -> Put {
    let [number, issued, spent, given, back, received, held, _] = site_numbers(desk);
    write!(
        text,
        "{number} {issued} {spent} {given} {back} {received} {held}"
    )?;
    let sites = desk.sites();
    for index in 0..sites {
        put_lasting_of_peer(text, desk, SiteId::known(index + 1))?;
    }
    put_last_entry(text, desk)
}

fn put_lasting_of_peer(text: &mut String, desk: &Counted, peer: SiteId) -> Put {
    let [applied, received, given, _] = peer_numbers(desk, peer);
    let closed = closed(desk, peer);
    write!(text, " {applied} {received} {given} {closed}")
}

// Adds the last entry of the log, with its line feed.
fn put_last_entry(text: &mut String, desk: &Counted) -> Put {
    put_entry(text, desk, entries(desk).saturating_sub(1))
}

// The journals of all sites, as a script: each line replays a record, and has what its site reported after it.
#[derive(Drop)]
struct Journal {
    script: String,
    records: usize,
}

fn new_journal(alloc: Global) -> Journal {
    Journal {
        script: String::new(alloc),
        records: 0,
    }
}

fn put_record(script: &mut String, site: u64, record: &str, desk: &Counted) -> Put {
    fill(script, "replay $1 ", &[site])?;
    script.push_str(record)?;
    script.push_str(" > ")?;
    put_report(script, desk)
}

// Adds what a restart keeps of a report, on one line.
fn put_report(text: &mut String, desk: &Counted) -> Put {
    put_lasting(text, desk)?;
    if entries(desk) == 0 {
        text.push('\n')?;
    }
    Ok(())
}

// Adds a record of the site.
fn note(rt: &impl Abort, sites: &Sites, journal: &mut Journal, site: u64, record: &str) {
    let desk = sites.desk(rt, site);
    put_record(&mut journal.script, site, record, desk).expect(rt, "memory");
    journal.records = journal.records.saturating_add(1);
}

// Adds a record of the last entry of the site's log.
fn note_entry(rt: &(impl Abort + AllocGlobal), sites: &Sites, journal: &mut Journal, site: u64) {
    let mut line = String::new(rt.alloc());
    put_last_entry(&mut line, sites.desk(rt, site)).expect(rt, "memory");
    note(rt, sites, journal, site, line.trim_end());
}

fn put_asks(text: &mut String, desk: &Counted) -> Put {
    let sites = desk.sites();
    for index in 0..sites {
        put_ask(text, desk, SiteId::known(index + 1))?;
        text.push('\n')?;
    }
    Ok(())
}

// The asks that are outstanding at a site, a line for each peer.
fn outstanding(rt: &(impl Abort + AllocGlobal), sites: &Sites, site: u64) -> String {
    let mut lines = String::new(rt.alloc());
    put_asks(&mut lines, sites.desk(rt, site)).expect(rt, "memory");
    lines
}

// A command, and the record that it makes: the entry that was applied, or the entry that the log got.
fn run(rt: &(impl Abort + AllocGlobal), sites: &mut Sites, journal: &mut Journal, command: &str) {
    let (site, words) = cut(cut(command).1);
    let site = site.parse::<u64>().unwrap_or(1);
    let before = entries(sites.desk(rt, site));
    let asked = outstanding(rt, sites, site);
    sites.say(rt, command);
    if sites.reply().starts_with("taken ") {
        note(rt, sites, journal, site, words);
    } else if entries(sites.desk(rt, site)) > before {
        note_entry(rt, sites, journal, site);
    } else if sites.reply().starts_with("asks ") {
        note_asks(rt, sites, journal, site, &asked);
    }
}

// Adds a record of each ask that is outstanding now and was not before.
fn note_asks(
    rt: &(impl Abort + AllocGlobal),
    sites: &Sites,
    journal: &mut Journal,
    site: u64,
    before: &str,
) {
    let now = outstanding(rt, sites, site);
    for (line, old) in now.lines().zip(before.lines()) {
        if line.starts_with("W ") && line != old {
            note(rt, sites, journal, site, line);
        }
    }
}

// The peer hears the text, if there is one.
fn hear(
    rt: &(impl Abort + AllocGlobal),
    sites: &mut Sites,
    journal: &mut Journal,
    peer: u64,
    text: &str,
) {
    if !text.is_empty() {
        let mut command = filled(rt, "hear $1 ", &[peer]);
        command.push_str(text).expect(rt, "memory");
        run(rt, sites, journal, &command);
    }
}

// A copy of a text.
fn copied(rt: &(impl Abort + AllocGlobal), text: &str) -> String {
    String::from_str(rt.alloc(), text).expect(rt, "memory")
}

// The peer gets the next entry of the site's log, if there is one.
fn send_entry(
    rt: &(impl Abort + AllocGlobal),
    sites: &mut Sites,
    journal: &mut Journal,
    site: u64,
    peer: u64,
) {
    let next = sites.applied(rt, peer, site).saturating_add(1);
    sites.call(rt, "hear $1 Q $2 $1 $3 $3", &[site, peer, next]);
    let entry = copied(rt, sites.reply().split_once(';').unwrap_or(("", "")).1);
    hear(rt, sites, journal, peer, &entry);
}

// The peer gets the site's ask, if one is outstanding, and the site the denial, unless it is lost.
fn send_ask(
    rt: &(impl Abort + AllocGlobal),
    sites: &mut Sites,
    journal: &mut Journal,
    pair: (u64, u64),
    lost: bool,
) {
    let (site, peer) = pair;
    sites.call(rt, "ask $1 $2", &[site, peer]);
    if sites.reply().starts_with("W ") {
        let ask = copied(rt, sites.reply());
        hear(rt, sites, journal, peer, &ask);
        if !lost && sites.reply().contains(" D ") {
            sites.pass_denial(rt, site);
        }
    }
}

// One random call, or one random message.
fn turn(
    rt: &(impl Abort + AllocGlobal),
    sites: &mut Sites,
    journal: &mut Journal,
    dice: &mut Dice,
    count: u64,
) {
    let (site, peer) = pair(dice, count);
    match dice.roll(8) {
        0..=2 => send_entry(rt, sites, journal, site, peer),
        3 => send_ask(rt, sites, journal, (site, peer), dice.roll(2) == 0),
        _ => run(rt, sites, journal, &command(rt, dice, count)),
    }
}

fn turns(
    rt: &(impl Abort + AllocGlobal),
    sites: &mut Sites,
    journal: &mut Journal,
    dice: &mut Dice,
    count: u64,
) {
    for _ in 0..CALLS {
        turn(rt, sites, journal, dice, count);
    }
}

// Makes all sites again. After each record its site reports what it reported in the game.
fn restart(rt: &(impl Abort + AllocGlobal), copies: &mut Sites, journal: &Journal) {
    for line in journal.script.lines() {
        let (record, told) = row(line);
        copies.say(rt, record);
        assert!(rt; copies.reply() == "replayed", "{record}");
        let site = cut(cut(record).1).0.parse::<u64>().unwrap_or(0);
        assert!(rt; is_told(rt, copies, site, told), "{record}: {told}");
    }
}

// Whether a restart of the site keeps this report.
fn is_told(rt: &(impl Abort + AllocGlobal), copies: &Sites, site: u64, told: &str) -> bool {
    let mut report = String::new(rt.alloc());
    put_report(&mut report, copies.desk(rt, site)).expect(rt, "memory");
    report.trim_end() == told
}

// Each ask that is outstanding at a site is so at its copy.
fn check_asks(rt: &(impl Abort + AllocGlobal), sites: &Sites, copies: &Sites, count: u64) {
    for site in 1..=count {
        let asked = outstanding(rt, sites, site);
        let again = outstanding(rt, copies, site);
        assert!(rt; are_kept(&asked, &again), "{again}");
    }
}

fn are_kept(asked: &str, again: &str) -> bool {
    for (line, copy) in asked.lines().zip(again.lines()) {
        if line != "nothing" && line != copy {
            return false;
        }
    }
    true
}

// Plays a game from this seed, and returns how many records it had.
fn game(rt: &(impl Abort + AllocGlobal), seed: u64, count: u64) -> usize {
    let memory = Refusing::new(rt.alloc(), u64::MAX);
    let mut sites = Sites::new(rt, &memory, count);
    let mut copies = Sites::new(rt, &memory, count);
    let mut journal = new_journal(rt.alloc());
    let mut dice = Dice::new(seed);
    turns(rt, &mut sites, &mut journal, &mut dice, count);
    let records = journal.records;
    restart(rt, &mut copies, &journal);
    check_asks(rt, &sites, &copies, count);
    go_on(rt, &mut copies, &mut journal, &mut dice, (seed, count));
    records
}

// The game goes on with the copies, and all rights are conserved.
fn go_on(
    rt: &(impl Abort + AllocGlobal),
    copies: &mut Sites,
    later: &mut Journal,
    dice: &mut Dice,
    game: (u64, u64),
) {
    let (seed, count) = game;
    for _ in 0..CALLS {
        turn(rt, copies, later, dice, count);
        copies.check_rights(rt, seed);
    }
}

// Systems of 2 to 16 sites start again from their journals, whatever happened before.
fn restart_all(rt: &(impl Abort + AllocGlobal), first: u64) {
    let mut records = 0usize;
    for step in 0..GAMES {
        let seed = first.saturating_add(step);
        let count = (seed % 15).saturating_add(2);
        records = records.saturating_add(game(rt, seed, count));
    }
    // The games were not idle.
    assert!(rt; records > 1_000);
}

/// 2,009 sites start again, and with the four tests below 10,055.
#[test]
fn restarts_of_all_sites(rt: HostRuntime) {
    restart_all(&rt, 0);
}

#[test]
fn restarts_of_a_second_draw(rt: HostRuntime) {
    restart_all(&rt, GAMES);
}

#[test]
fn restarts_of_a_third_draw(rt: HostRuntime) {
    restart_all(&rt, 2 * GAMES);
}

#[test]
fn restarts_of_a_fourth_draw(rt: HostRuntime) {
    restart_all(&rt, 3 * GAMES);
}

#[test]
fn restarts_of_a_fifth_draw(rt: HostRuntime) {
    restart_all(&rt, 4 * GAMES);
}

const GIFTS: [&str; 8] = [
    "issue 1 100",
    "give 1 2 10",
    "give 1 3 20",
    "issue 2 7",
    "give 2 1 2",
    "give 2 3 3",
    "issue 3 5",
    "give 3 1 4",
];

const FIRST_ONES: [(u64, u64); 5] = [(1, 2), (1, 2), (2, 1), (3, 1), (2, 3)];

const ALL_PAIRS: [(u64, u64); 6] = [(1, 2), (1, 3), (2, 1), (2, 3), (3, 1), (3, 2)];

// The next entry of each of these sites goes to its peer.
fn send(
    rt: &(impl Abort + AllocGlobal),
    sites: &mut Sites,
    journal: &mut Journal,
    pairs: &[(u64, u64)],
) {
    for (site, peer) in pairs {
        send_entry(rt, sites, journal, *site, *peer);
    }
}

// Two gifts to each other site, all of the first of which were applied, then closings in this order. After each, every
// site gets three more entries of each other.
fn close_in_turn(
    rt: &(impl Abort + AllocGlobal),
    sites: &mut Sites,
    journal: &mut Journal,
    order: &[u64],
) {
    for command in &GIFTS {
        run(rt, sites, journal, *command);
    }
    send(rt, sites, journal, &FIRST_ONES);
    for site in order {
        run(rt, sites, journal, &filled(rt, "close $1 1", &[*site]));
        send(rt, sites, journal, &ALL_PAIRS);
        send(rt, sites, journal, &ALL_PAIRS);
        send(rt, sites, journal, &ALL_PAIRS);
    }
}

fn closings(rt: &(impl Abort + AllocGlobal), order: &[u64]) {
    let memory = Refusing::new(rt.alloc(), u64::MAX);
    let mut sites = Sites::new(rt, &memory, 3);
    let mut copies = Sites::new(rt, &memory, 3);
    let mut journal = new_journal(rt.alloc());
    close_in_turn(rt, &mut sites, &mut journal, order);
    restart(rt, &mut copies, &journal);
}

const ORDERS: [[u64; 3]; 6] = [
    [1, 2, 3],
    [1, 3, 2],
    [2, 1, 3],
    [2, 3, 1],
    [3, 1, 2],
    [3, 2, 1],
];

/// Three sites close in each order, towards each other or not, and start again.
#[test]
fn closings_in_every_order(rt: HostRuntime) {
    for order in &ORDERS {
        closings(&rt, order);
    }
}
