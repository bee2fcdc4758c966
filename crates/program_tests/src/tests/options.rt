//! How the options of a site that may be left out are read.
use crate::tests::words::{REFUSED, check, check_all, check_refused, joined, read};
use rights_types::SiteId;
use site_words::Command;
use std::alloc::AllocGlobal;
use std::process::Abort;

/// The words of site 1 of 2, with these options behind all others and before them, are read as that.
fn check_options(rt: &(impl Abort + AllocGlobal), words: &str, wanted: &str) {
    let behind = joined(rt, ["run --id 1 --sites 2 --listen a 2=b", words, ""]);
    check(rt, &behind, wanted);
    let before = joined(rt, ["run", words, " 2=b --listen a --sites 2 --id 1"]);
    check(rt, &before, wanted);
}

/// The same, with what is behind the values of that site; the options are refused if that is `refused`.
fn check_all_options(rt: &(impl Abort + AllocGlobal), rows: &[(&str, &str)]) {
    for (words, values) in rows {
        if *values == REFUSED {
            check_options(rt, *words, REFUSED);
        } else {
            let wanted = joined(rt, ["site 1 of 2 at a: 2=b", *values, ""]);
            check_options(rt, *words, &wanted);
        }
    }
}

/// Words for ticks and silence, and after how many milliseconds a peer is then silent.
const SILENCES: [(&str, &str); 16] = [
    ("", ""),
    (" --silent 5000", ""),
    (" --tick 100", " tick 100 silent 3000"),
    (" --tick 300", " tick 300 silent 3000"),
    (" --tick 301", " tick 301 silent 3010"),
    (" --tick 60000", " tick 60000 silent 600000"),
    (" --tick 100 --silent 0", " tick 100"),
    (" --tick 100 --silent 1000", " tick 100 silent 1000"),
    (" --tick 100 --silent=1001", " tick 100 silent 1001"),
    (" --tick 60000 --silent 1000", " tick 60000 silent 1000"),
    (" --tick 1 --silent 3600000", " tick 1 silent 3600000"),
    (" --silent 3599999 --tick 1", " tick 1 silent 3599999"),
    (" --silent +2000 --tick 9", " tick 9 silent 2000"),
    (" --silent 00 --tick 9", " tick 9"),
    (" --silent 0 --log --tick=1", " tick 1 log"),
    (
        " --silent 4000 --once f --tick 1000",
        " tick 1000 silent 4000 once f",
    ),
];

#[test]
fn a_peer_is_silent_after_a_time(rt: HostRuntime) {
    check_all_options(&rt, &SILENCES);
}

/// Words for keys of commands, and how many are remembered.
const KEYS: [(&str, &str); 10] = [
    (" --keys 0", " keys 0"),
    (" --keys=1", " keys 1"),
    (" --keys 999999", " keys 999999"),
    (" --keys 1000000", ""),
    (" --keys 1000001", " keys 1000001"),
    (" --keys 10000000", " keys 10000000"),
    (" --keys +0007", " keys 7"),
    (" --keys 5 --log", " keys 5 log"),
    (" --keys 10000001", REFUSED),
    (
        " --once f --keys=2 --silent 0 --tick 9",
        " tick 9 keys 2 once f",
    ),
];

#[test]
fn a_site_remembers_so_many_keys(rt: HostRuntime) {
    check_all_options(&rt, &KEYS);
}

/// Words for the options that may be omitted, and what they set.
const EXTRAS: [(&str, &str); 13] = [
    ("", ""),
    (" --http [::1]:80", " http [::1]:80"),
    (" --http=a=b:1", " http a=b:1"),
    (" --http=", " http "),
    (" --tick 1", " tick 1 silent 3000"),
    (" --tick=60000", " tick 60000 silent 600000"),
    (" --tick +007", " tick 7 silent 3000"),
    (" --once /a/b.c", " once /a/b.c"),
    (" --once=-x", " once -x"),
    (" --log", " log"),
    (
        " --http h:1 --tick 250 --once f --log",
        " http h:1 tick 250 silent 3000 once f log",
    ),
    (
        " --log --once=--log --tick 60000 --http=--tick",
        " http --tick tick 60000 silent 600000 once --log log",
    ),
    (
        " --tick 2 --once 3 --http 4",
        " http 4 tick 2 silent 3000 once 3",
    ),
];

#[test]
fn options_that_may_be_left_out_are_read(rt: HostRuntime) {
    check_all_options(&rt, &EXTRAS);
}

/// Words for a journal, and what they set.
const JOURNALS: [(&str, &str); 12] = [
    ("", ""),
    (" --journal /a/b.c", " journal /a/b.c"),
    (" --journal= --log", " journal  log"),
    (" --system Z-9 --journal f", " journal f system Z-9"),
    (" --journal f --system -", " journal f system -"),
    (" --journal f --system=-", " journal f system -"),
    (" --journal f --system=", REFUSED),
    (" --journal f --system a_b", REFUSED),
    (" --journal f --system a.b", REFUSED),
    (" --system a", REFUSED),
    (" --journal f --once f", REFUSED),
    (" --once f --system a", REFUSED),
];

#[test]
fn a_site_may_have_a_journal(rt: HostRuntime) {
    check_all_options(&rt, &JOURNALS);
}

/// The options that may be omitted, with values, in each order.
const ORDERS: [[&str; 4]; 24] = [
    ["--http h:1", "--tick=5", "--once f", "--log"],
    ["--http h:1", "--tick=5", "--log", "--once f"],
    ["--http h:1", "--once f", "--tick=5", "--log"],
    ["--http h:1", "--once f", "--log", "--tick=5"],
    ["--http h:1", "--log", "--tick=5", "--once f"],
    ["--http h:1", "--log", "--once f", "--tick=5"],
    ["--tick=5", "--http h:1", "--once f", "--log"],
    ["--tick=5", "--http h:1", "--log", "--once f"],
    ["--tick=5", "--once f", "--http h:1", "--log"],
    ["--tick=5", "--once f", "--log", "--http h:1"],
    ["--tick=5", "--log", "--http h:1", "--once f"],
    ["--tick=5", "--log", "--once f", "--http h:1"],
    ["--once f", "--http h:1", "--tick=5", "--log"],
    ["--once f", "--http h:1", "--log", "--tick=5"],
    ["--once f", "--tick=5", "--http h:1", "--log"],
    ["--once f", "--tick=5", "--log", "--http h:1"],
    ["--once f", "--log", "--http h:1", "--tick=5"],
    ["--once f", "--log", "--tick=5", "--http h:1"],
    ["--log", "--http h:1", "--tick=5", "--once f"],
    ["--log", "--http h:1", "--once f", "--tick=5"],
    ["--log", "--tick=5", "--http h:1", "--once f"],
    ["--log", "--tick=5", "--once f", "--http h:1"],
    ["--log", "--once f", "--http h:1", "--tick=5"],
    ["--log", "--once f", "--tick=5", "--http h:1"],
];

const ALL_OPTIONS: &str = "site 1 of 2 at a: 2=b http h:1 tick 5 silent 3000 once f log";

/// All options are read in this order, between the others and after them.
fn check_order(rt: &(impl Abort + AllocGlobal), order: &[&str; 4]) {
    let alloc = rt.alloc();
    let [a, b, c, d] = *order;
    let among = format!(in alloc; "run {a} --id 1 {b} --sites 2 {c} --listen a {d} 2=b");
    check(rt, &among.expect(rt, "memory"), ALL_OPTIONS);
    let behind = format!(in alloc; "run --listen a 2=b {a} {b} --sites=2 {c} --id=1 {d}");
    check(rt, &behind.expect(rt, "memory"), ALL_OPTIONS);
}

#[test]
fn options_come_in_any_order(rt: HostRuntime) {
    for order in &ORDERS {
        check_order(&rt, order);
    }
}

/// Words of a site that lets some peers in at addresses of their own, and how they are read.
const ENTRANCES: [(&str, &str); 5] = [
    (
        "run --id 1 --sites 3 --listen a --from 3=c 2=x 3=y",
        "site 1 of 3 at a: 2=x 3=y from 3=c",
    ),
    (
        "run --from=3==c --id 1 --sites 3 --from 2= 2=x --listen a 3=y",
        "site 1 of 3 at a: 2=x 3=y from 3==c from 2=",
    ),
    (
        "run --id 1 --sites 3 --from 2=a --from 3=a 2=x 3=y",
        "site 1 of 3: 2=x 3=y from 2=a from 3=a",
    ),
    (
        "run --id 2 --sites 2 --from 1=a 1=x",
        "site 2 of 2: 1=x from 1=a",
    ),
    (
        "run --id 2 --sites 2 --from 1=a --listen a 1=x",
        "site 2 of 2 at a: 1=x from 1=a",
    ),
];

#[test]
fn peers_may_have_entrances(rt: HostRuntime) {
    check_all(&rt, &ENTRANCES);
}

/// Words that do not say where the peers 2 and 3 of site 1 of 3 are let in.
const OTHER_ENTRANCES: [&str; 17] = [
    "--listen a --from 1=b",
    "--listen a --from 4=b",
    "--listen a --from 0=b",
    "--listen a --from 02=b",
    "--listen a --from +2=b",
    "--listen a --from =b",
    "--listen a --from 2",
    "--listen a --from 2:b",
    "--listen a --from",
    "--listen a --from=",
    "--listen a --from 18446744073709551618=b",
    "--listen a --from 2=b --from 2=b",
    "--listen a --from 2=b --from 3=c --from 2=d",
    "--from 2=b",
    "--from 3=c",
    "--from 2=b --from 2=c",
    "--from 2=b --from 1=c",
];

#[test]
fn entrances_are_of_other_sites(rt: HostRuntime) {
    for words in &OTHER_ENTRANCES {
        let line = joined(&rt, ["run 2=x 3=y --id 1 --sites 3 ", *words, ""]);
        check(&rt, &line, REFUSED);
    }
}

/// Whether site 1 of 3 takes a connection of each peer at its shared address, at an entrance of site 2, and of site 3.
fn admissions(rt: &(impl Abort + AllocGlobal), words: &str) -> [bool; 6] {
    let line = joined(rt, ["run --id 1 --sites 3 2=x 3=y ", words, ""]);
    let Ok(Command::Run(config)) = read(rt.alloc(), &line) else {
        return [false; 6];
    };
    let (two, three) = (SiteId::new(2), SiteId::new(3));
    let (Ok(two), Ok(three)) = (two, three) else {
        return [false; 6];
    };
    [
        config.admits(None, two),
        config.admits(None, three),
        config.admits(Some(two), two),
        config.admits(Some(two), three),
        config.admits(Some(three), two),
        config.admits(Some(three), three),
    ]
}

#[test]
fn only_its_own_peer_is_let_in_at_an_entrance(rt: HostRuntime) {
    let shared = admissions(&rt, "--listen a");
    assert!(rt;
        shared == [true, true, true, false, false, true],
        "without entrances"
    );
    let one = admissions(&rt, "--listen a --from 2=b");
    assert!(rt; one == [false, true, true, false, false, true], "with one");
    let all = admissions(&rt, "--from 3=c --from 2=b");
    assert!(rt; all == [false, false, true, false, false, true], "with all");
}

/// Words that are no options of a site.
const OTHER_OPTIONS: [&str; 44] = [
    "--tick 0",
    "--tick=0",
    "--tick 60001",
    "--tick 18446744073709551617",
    "--tick -1",
    "--tick 1.5",
    "--tick 5ms",
    "--tick x",
    "--tick=",
    "--tick --log",
    "--tick 5 6",
    "--http --tick 5",
    "--once --log",
    // A flag has no value.
    "--log=true",
    "--log=false",
    "--log=",
    "--log 3=c",
    "--silent 1",
    "--silent 999",
    "--silent=3600001",
    "--silent 18446744073709551616",
    "--silent -1",
    "--silent x",
    "--silent=",
    "--silent --log",
    "--keys 10000001",
    "--keys=18446744073709551616",
    "--keys -1",
    "--keys 1e3",
    "--keys x",
    "--keys=",
    "--keys --log",
    // Each at most once.
    "--silent 0 --silent 0",
    "--keys 5 --keys 5",
    "--tick 5 --tick 5",
    "--http h --http i",
    "--once f --once=f",
    "--log --log",
    // No other name.
    "--ticks 5",
    "--silence 5000",
    "--key 5",
    "--htt h",
    "--Log",
    "-l",
];

/// These words are refused after all others and before them.
fn check_options_refused(rt: &(impl Abort + AllocGlobal), options: &[&str]) {
    for words in options {
        let behind = joined(rt, ["run --id 1 --sites 2 --listen a 2=b ", *words, ""]);
        check(rt, &behind, REFUSED);
        let before = joined(rt, ["run ", *words, " --id 1 --sites 2 --listen a 2=b"]);
        check(rt, &before, REFUSED);
    }
}

#[test]
fn other_forms_of_options_are_refused(rt: HostRuntime) {
    check_options_refused(&rt, &OTHER_OPTIONS);
}

#[test]
fn options_with_no_value_are_refused(rt: HostRuntime) {
    check_options_refused(&rt, &["--http", "--tick", "--silent", "--keys", "--once"]);
}

/// Options that are not behind `run`.
const OPTIONS_ELSEWHERE: [&str; 6] = [
    "sim --log",
    "sim --tick 5",
    "sim --http a",
    "sim --once f",
    "--log sim",
    "--log run --id 1 --sites 2 --listen a 2=b",
];

/// They are options of `run` only.
#[test]
fn a_script_has_no_options(rt: HostRuntime) {
    check_refused(&rt, &OPTIONS_ELSEWHERE);
}
