//! The records of a site's journal: what their lines spell, and the desk that whole journals make again.
use entry_codec::LineError;
use rights_types::SiteId;
use site_core::{DeskError, ReplayError};
use site_journal::TakeRecords;
use site_records::{RecordFault, Restoring, read_key, read_opening, read_tickets};
use std::alloc::AllocGlobal;
use std::process::Abort;

/// The line of an opening, and the site, the number of sites and the name that it has.
const OPENINGS: [(&str, u64, u64, &str); 5] = [
    ("J 1 1 2", 1, 2, ""),
    ("J 1 2 2 shop-7", 2, 2, "shop-7"),
    ("J 1 16 16 Z", 16, 16, "Z"),
    ("J 1 3 16 0", 3, 16, "0"),
    (
        "J 1 9 10 abcdefghijklmnopqrstuvwxyz-01234",
        9,
        10,
        "abcdefghijklmnopqrstuvwxyz-01234",
    ),
];

const NO_OPENINGS: [&str; 22] = [
    "",
    "J",
    "J ",
    "J 1",
    "J 1 1",
    "J 2 1 2",
    "J 0 1 2",
    "J 01 1 2",
    "J 1 0 2",
    "J 1 3 2",
    "J 1 17 17",
    "J 1 1 1",
    "J 1 1 17",
    "J 1 01 2",
    "J 1 1 2 ",
    "J 1 1 2 a b",
    "J 1 1 2 a_b",
    "J 1 1 2 abcdefghijklmnopqrstuvwxyz-012345",
    "J  1 1 2",
    " J 1 1 2",
    "j 1 1 2",
    "E 1 0 1 I:1",
];

fn name_of(text: &str) -> Option<&[u8]> {
    if text.is_empty() {
        return None;
    }
    Some(text.as_bytes())
}

fn opens_as(line: &str, site: u64, sites: u64, name: &str) -> bool {
    match read_opening(line.as_bytes()) {
        Some(opening) => {
            opening.site.number() == site
                && opening.sites == sites
                && opening.system == name_of(name)
        }
        None => false,
    }
}

#[test]
fn openings(rt: HostRuntime) {
    for (line, site, sites, name) in &OPENINGS {
        assert!(rt; opens_as(*line, *site, *sites, *name), "{line}");
    }
    for line in &NO_OPENINGS {
        assert!(rt; read_opening(line.as_bytes()).is_none(), "{line}");
    }
}

const TICKETS: [(&str, Option<u64>); 8] = [
    ("T 1", Some(1)),
    ("T 4000", Some(4000)),
    ("T 1000000000000000000", Some(1_000_000_000_000_000_000)),
    ("T 1000000000000000001", None),
    ("T 0", None),
    ("T 07", None),
    ("T 7 ", None),
    ("T", None),
];

#[test]
fn tickets(rt: HostRuntime) {
    for (line, last) in &TICKETS {
        assert!(rt; read_tickets(line.as_bytes()) == *last, "{line}");
    }
}

/// The line of a key's record, and the key and the number that it says.
const KEYS: [(&str, &str, u64); 4] = [
    ("X k 1", "k", 1),
    ("X !~ 1000000000", "!~", 1_000_000_000),
    ("X X 7", "X", 7),
    (
        "X 0123456789abcdef0123456789abcdef0123456789abcdef0123456789abcdef 12",
        "0123456789abcdef0123456789abcdef0123456789abcdef0123456789abcdef",
        12,
    ),
];

const NO_KEYS: [&str; 15] = [
    "",
    "X",
    "X ",
    "X k",
    "X k ",
    "X  1",
    "X k 0",
    "X k 01",
    "X k -1",
    "X k 1000000001",
    "X k 1 ",
    "X k 1 2",
    "x k 1",
    "X \u{7f} 1",
    "X 0123456789abcdef0123456789abcdef0123456789abcdef0123456789abcdef0 12",
];

fn says_key(line: &str, text: &str, of: u64) -> bool {
    match read_key(line.as_bytes()) {
        Some((key, number)) => key.bytes() == text.as_bytes() && number == of,
        None => false,
    }
}

#[test]
fn keys(rt: HostRuntime) {
    for (line, key, number) in &KEYS {
        assert!(rt; says_key(*line, *key, *number), "{line}");
    }
    for line in &NO_KEYS {
        assert!(rt; read_key(line.as_bytes()).is_none(), "{line}");
    }
}

/// A journal of site 1 of 2 without a name: how many of its records are taken, why the next one is refused, and what the
/// desk then holds.
type Journal = (&'static [&'static str], u64, Option<RecordFault>, u64);

const EACH_STEP: [&str; 9] = [
    "J 1 1 2",
    "E 1 0 1 I:100",
    "E 1 1 2 S:30",
    "E 1 2 3 R:2:20",
    "W 1 2 1 5",
    "E 2 0 1 I:40",
    "E 2 1 2 G:1:5:1",
    "T 1000",
    "E 1 3 4 G:2:10:1",
];

const CLOSED: [&str; 3] = ["J 1 1 2", "E 1 0 1 I:7", "E 1 1 3 R:2:7 K:0:0"];

const TAKES_BACK: [&str; 4] = ["J 1 1 2", "E 1 0 1 I:50", "E 1 1 2 R:2:20", "E 2 0 1 K:1:0"];

// Each key stands somewhere behind its entry. Who makes the desk again keeps none, so one may come twice.
const KEYED: [&str; 8] = [
    "J 1 1 2",
    "E 1 0 1 I:100",
    "E 1 1 2 S:30",
    "X second 2",
    "X first 1",
    "E 1 2 3 R:2:20",
    "X third 3",
    "X first 1",
];

const CLOSED_BY_KEY: [&str; 5] = [
    "J 1 1 2",
    "E 1 0 1 I:7",
    "E 1 1 3 R:2:7 K:0:0",
    "X first 1",
    "X last 3",
];

const JOURNALS: [Journal; 27] = [
    (&[], 0, None, 0),
    (&["J 1 1 2"], 1, None, 0),
    (&EACH_STEP, 9, None, 45),
    (&CLOSED, 3, None, 0),
    (&TAKES_BACK, 4, None, 50),
    (&KEYED, 8, None, 50),
    (&CLOSED_BY_KEY, 5, None, 0),
    (&["X k 1"], 0, Some(RecordFault::NoOpening), 0),
    (
        &["J 1 1 2", "X k 1", "E 1 0 1 I:5"],
        1,
        Some(RecordFault::NoKeyEntry),
        0,
    ),
    (
        &["J 1 1 2", "E 1 0 1 I:5", "X k 2"],
        2,
        Some(RecordFault::NoKeyEntry),
        5,
    ),
    (
        &["J 1 1 2", "E 1 0 1 I:7", "E 1 1 3 R:2:7 K:0:0", "X k 2"],
        3,
        Some(RecordFault::NoKeyEntry),
        0,
    ),
    (
        &["J 1 1 2", "E 1 0 1 I:100", "E 1 1 2 G:2:10:1", "X k 2"],
        3,
        Some(RecordFault::NoKeyEntry),
        90,
    ),
    (
        &["J 1 1 2", "E 1 0 2 I:5 I:6", "X k 2"],
        2,
        Some(RecordFault::NoKeyEntry),
        11,
    ),
    (
        &["J 1 1 2", "E 2 0 1 I:40", "X k 1"],
        2,
        Some(RecordFault::NoKeyEntry),
        0,
    ),
    (
        &["J 1 1 2", "E 1 0 1 I:5", "X k 01"],
        2,
        Some(RecordFault::Unreadable(LineError::BadKind)),
        5,
    ),
    (
        &["J 1 1 2", "E 1 0 1 I:5", "X k"],
        2,
        Some(RecordFault::Unreadable(LineError::BadKind)),
        5,
    ),
    (&["E 1 0 1 I:1"], 0, Some(RecordFault::NoOpening), 0),
    (&["J 1 2 2"], 0, Some(RecordFault::OtherSite), 0),
    (&["J 1 1 3"], 0, Some(RecordFault::OtherSize), 0),
    (&["J 1 1 2 shop"], 0, Some(RecordFault::OtherSystem), 0),
    (
        &["J 1 1 2", "J 1 1 2"],
        1,
        Some(RecordFault::Unreadable(LineError::BadKind)),
        0,
    ),
    (
        &["J 1 1 2", "E 1 0 1 I:5", "E 1 0 1 I:5"],
        2,
        Some(RecordFault::NotPermitted(ReplayError::OutOfOrder)),
        5,
    ),
    (
        &["J 1 1 2", "E 1 0 1 I:5", "E 2 1 2 I:5"],
        2,
        Some(RecordFault::NotPermitted(ReplayError::OutOfOrder)),
        5,
    ),
    (
        &["J 1 1 2", "E 1 0 1 I:5", "E 1 1 2 S:6"],
        2,
        Some(RecordFault::NotPermitted(ReplayError::NotPermitted(DeskError::Short))),
        5,
    ),
    (
        &["J 1 1 2", "W 1 2 2 5"],
        1,
        Some(RecordFault::NotPermitted(ReplayError::OutOfOrder)),
        0,
    ),
    (
        &["J 1 1 2", "B 2 5"],
        1,
        Some(RecordFault::NotPermitted(ReplayError::NoRecord)),
        0,
    ),
    (
        &[
            "J 1 1 2",
            "E 1 0 1 I:5",
            "E 1 1 2 R:2:5",
            "E 2 0 1 I:1",
            "E 3 0 1 I:1",
        ],
        4,
        Some(RecordFault::NotPermitted(ReplayError::NotPermitted(DeskError::NoSuchSite))),
        0,
    ),
];

fn restores(rt: &(impl Abort + AllocGlobal), journal: &Journal) -> bool {
    let (records, taken, fault, held) = journal;
    let site = SiteId::known(1);
    let mut restoring = Restoring::new(rt.alloc(), site, 2, None).expect(rt, "memory");
    for record in *records {
        if !restoring.take_record(record.as_bytes()) {
            break;
        }
    }
    restoring.taken() == *taken && restoring.fault() == *fault && restoring.desk().held() == *held
}

#[test]
fn journals_of_a_site(rt: HostRuntime) {
    for (place, journal) in JOURNALS.iter().enumerate() {
        assert!(rt; restores(&rt, journal), "journal {place}");
    }
}
