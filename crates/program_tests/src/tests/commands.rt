//! The command that a line of a running site's input spells.
use command_keys::Key;
use rights_types::SiteId;
use site_words::{BareCommand, DeskCommand, SiteCommand, read_command, with_key};
use std::process::Abort;

/// A command, with its name and its values; 0 for a value that is absent.
type Shown = (&'static str, u64, u64);

const MOST: u64 = u64::MAX;

/// Lines without their line feeds, and the commands that they spell.
const COMMANDS: [(&str, Shown); 16] = [
    ("issue 5", ("issue", 5, 0)),
    ("issue 0", ("issue", 0, 0)),
    ("issue 18446744073709551615", ("issue", MOST, 0)),
    ("give 16 7", ("give", 16, 7)),
    ("give 1 18446744073709551615", ("give", 1, MOST)),
    ("spend 3 9", ("spend", 3, 9)),
    ("take 4", ("take", 4, 0)),
    ("take 18446744073709551615", ("take", MOST, 0)),
    ("outcome 12", ("outcome", 12, 0)),
    ("cancel 12", ("cancel", 12, 0)),
    ("tick 0", ("tick", 0, 0)),
    ("status", ("status", 0, 0)),
    ("queue", ("queue", 0, 0)),
    ("close", ("close", 0, 0)),
    ("close 16", ("close", 16, 0)),
    ("quit", ("quit", 0, 0)),
];

/// Lines that spell no command.
const OTHERS: [&str; 58] = [
    "issue 18446744073709551616",
    "issue 05",
    "issue +5",
    "issue -5",
    "issue 5 ",
    "issue  5",
    " issue 5",
    "issue 5 6",
    "issue ",
    "issue",
    "Issue 5",
    "issued 5",
    "issu 5",
    "issue\t5",
    "issue 5\r",
    "give 0 7",
    "give 17 7",
    "give 2",
    "give 2 7 1",
    "spend 3",
    "spend 3 9 1",
    "spend +3 5",
    "spend 3 +5",
    "spend 3 +",
    "spend 3 ",
    "spend 3  9",
    "spend 3 9 +1",
    "take",
    "take 1 9",
    "outcome",
    "cancel",
    "tick 1 2",
    "status ",
    "status 1",
    "queue ",
    "queue 1",
    "close 0",
    "close ",
    "",
    "key",
    "key k",
    "key k nonsense",
    "key k ",
    "key k  take 4",
    "key k key l take 4",
    "key k key",
    "key k take",
    "key k take 4 5",
    "key k take 4 ",
    "key k spend 3 +5",
    "key k status 1",
    "key k tick",
    "key take 4",
    "key k Take 4",
    "Key k take 4",
    "keys k take 4",
    " key k take 4",
    "key\tk take 4",
];

fn shown(command: SiteCommand) -> Shown {
    match command {
        SiteCommand::Bare(command) => shown_bare(command),
        SiteCommand::Keyed(_, _) => ("under a key", 0, 0),
        SiteCommand::BadKey => BAD_KEY,
    }
}

fn shown_bare(command: BareCommand) -> Shown {
    match command {
        BareCommand::AtDesk(command) => shown_at_desk(command),
        BareCommand::Tick(time) => ("tick", time, 0),
        BareCommand::RefusedTick => ("refused tick", 0, 0),
        BareCommand::Status => ("status", 0, 0),
        BareCommand::Queue => ("queue", 0, 0),
        BareCommand::Quit => ("quit", 0, 0),
    }
}

fn shown_at_desk(command: DeskCommand) -> Shown {
    match command {
        DeskCommand::Issue(amount) => ("issue", amount, 0),
        DeskCommand::Give(peer, amount) => ("give", peer.number(), amount),
        DeskCommand::Spend(amount, deadline, latest) => shown_spend(amount, deadline, latest),
        DeskCommand::Take(amount) => ("take", amount, 0),
        DeskCommand::Outcome(ticket) => ("outcome", ticket, 0),
        DeskCommand::Cancel(ticket) => ("cancel", ticket, 0),
        DeskCommand::Close(heir) => ("close", heir.map_or(0, SiteId::number), 0),
    }
}

fn shown_spend(amount: u64, deadline: u64, latest: Option<u64>) -> Shown {
    match latest {
        None => ("spend", amount, deadline),
        Some(latest) => ("spend by", amount, latest.wrapping_sub(deadline)),
    }
}

/// Lines at a site whose own clock shows `NOW`, and the commands that they spell: for a spend, how long before the
/// latest deadline its own is.
const TIMED: [(&str, Shown); 11] = [
    ("spend 3 +0", ("spend by", 3, DAY)),
    ("spend 3 +1", ("spend by", 3, DAY - 1)),
    ("spend 0 +86400000", ("spend by", 0, 0)),
    ("spend 3 5", ("spend by", 3, NOW + DAY - 5)),
    ("spend 3 0", ("spend by", 3, NOW + DAY)),
    (
        "spend 3 18446744073709551615",
        ("spend by", 3, NOW + DAY + 1),
    ),
    ("tick 5", ("refused tick", 0, 0)),
    ("tick 0", ("refused tick", 0, 0)),
    ("take 4", ("take", 4, 0)),
    ("queue", ("queue", 0, 0)),
    ("quit", ("quit", 0, 0)),
];

const NOW: u64 = 1_000_000_000_000;

const DAY: u64 = 86_400_000;

/// Lines that spell no command there.
const OTHERS_TIMED: [&str; 15] = [
    "spend 3 +86400001",
    "spend 3 +",
    "spend 3 ++5",
    "spend 3 +-5",
    "spend 3 +05",
    "spend 3 + 5",
    "spend 3 +5 ",
    "spend 3 +5 6",
    "spend +3 +5",
    "spend 3 5+",
    "spend 3",
    "spend 3 ",
    "take +4",
    "tick",
    "tick +5",
];

fn is_read_as(line: &str, time: Option<u64>, expected: Shown) -> bool {
    match read_command(line.as_bytes(), time) {
        Some(command) => shown(command) == expected,
        None => false,
    }
}

fn is_refused(line: &str, time: Option<u64>) -> bool {
    read_command(line.as_bytes(), time).is_none()
}

fn check_read(rt: &impl Abort, rows: &[(&str, Shown)], time: Option<u64>) {
    for (line, expected) in rows {
        assert!(rt; is_read_as(*line, time, *expected), "at {line:?}");
    }
}

fn check_refused(rt: &impl Abort, lines: &[&str], time: Option<u64>) {
    for line in lines {
        assert!(rt; is_refused(*line, time), "at {line:?}");
    }
}

/// Each line spells its command, and no other line spells any.
#[test]
fn lines_ask_for_commands(rt: HostRuntime) {
    check_read(&rt, &COMMANDS, None);
    check_refused(&rt, &OTHERS, None);
}

/// The same at a site with a clock of its own.
#[test]
fn lines_ask_for_commands_by_the_clock(rt: HostRuntime) {
    check_read(&rt, &TIMED, Some(NOW));
    check_refused(&rt, &OTHERS_TIMED, Some(NOW));
}

/// A deadline too large for a number is the largest.
#[test]
fn deadlines_end_at_the_largest_number(rt: HostRuntime) {
    let late = MOST - 10;
    assert!(rt; is_read_as("spend 3 +5", Some(late), ("spend by", 3, 5)));
    assert!(rt; is_read_as("spend 3 +20", Some(late), ("spend by", 3, 0)));
}

/// Lines with a key, the key, and the command.
const KEYED: [(&str, &str, Shown); 12] = [
    ("key 7f3a issue 5", "7f3a", ("issue", 5, 0)),
    ("key k give 16 7", "k", ("give", 16, 7)),
    ("key ! spend 3 9", "!", ("spend", 3, 9)),
    ("key ~ take 4", "~", ("take", 4, 0)),
    ("key k close", "k", ("close", 0, 0)),
    ("key k close 16", "k", ("close", 16, 0)),
    ("key key take 4", "key", ("take", 4, 0)),
    ("key take take 4", "take", ("take", 4, 0)),
    ("key 5 take 4", "5", ("take", 4, 0)),
    ("key \"\\\",;= take 4", "\"\\\",;=", ("take", 4, 0)),
    (
        "key 0123456789abcdef0123456789abcdef0123456789abcdef0123456789abcde take 4",
        "0123456789abcdef0123456789abcdef0123456789abcdef0123456789abcde",
        ("take", 4, 0),
    ),
    (
        "key 0123456789abcdef0123456789abcdef0123456789abcdef0123456789abcdef take 4",
        "0123456789abcdef0123456789abcdef0123456789abcdef0123456789abcdef",
        ("take", 4, 0),
    ),
];

/// The same at a site whose own clock shows `NOW`.
const KEYED_TIMED: [(&str, &str, Shown); 2] = [
    ("key k spend 3 +1", "k", ("spend by", 3, DAY - 1)),
    ("key k take 4", "k", ("take", 4, 0)),
];

/// Lines with a key that is none, or that may have none.
const BAD_KEYS: [(&str, Shown); 21] = [
    ("key ", BAD_KEY),
    ("key  ", BAD_KEY),
    ("key  take 4", BAD_KEY),
    ("key  nonsense", BAD_KEY),
    (
        "key 0123456789abcdef0123456789abcdef0123456789abcdef0123456789abcdef0 take 4",
        BAD_KEY,
    ),
    (
        "key 0123456789abcdef0123456789abcdef0123456789abcdef0123456789abcdef0",
        BAD_KEY,
    ),
    ("key a\tb take 4", BAD_KEY),
    ("key k\r", BAD_KEY),
    ("key \u{1f} take 4", BAD_KEY),
    ("key \u{7f} take 4", BAD_KEY),
    ("key \u{e9} take 4", BAD_KEY),
    ("key k\u{e9}", BAD_KEY),
    ("key \u{e9} nonsense", BAD_KEY),
    ("key \u{e9} key k take 4", BAD_KEY),
    ("key k outcome 12", BAD_KEY),
    ("key k cancel 12", BAD_KEY),
    ("key k tick 5", BAD_KEY),
    ("key k status", BAD_KEY),
    ("key k queue", BAD_KEY),
    ("key k quit", BAD_KEY),
    ("key quit quit", BAD_KEY),
];

const BAD_KEY: Shown = ("bad key", 0, 0);

/// Whether a command is this one under this key.
fn is_under(command: SiteCommand, key: &str, expected: Shown) -> bool {
    match command {
        SiteCommand::Keyed(under, command) => {
            under.bytes() == key.as_bytes() && shown_at_desk(command) == expected
        }
        _ => false,
    }
}

/// The same, if there is a command.
fn is_keyed(command: Option<SiteCommand>, key: &str, expected: Shown) -> bool {
    match command {
        Some(command) => is_under(command, key, expected),
        None => false,
    }
}

fn check_keyed(rt: &impl Abort, rows: &[(&str, &str, Shown)], time: Option<u64>) {
    for (line, key, expected) in rows {
        let command = read_command(line.as_bytes(), time);
        assert!(rt; is_keyed(command, *key, *expected), "at {line:?}");
    }
}

/// A command that writes an entry may have a key, and no other.
#[test]
fn commands_have_keys(rt: HostRuntime) {
    check_keyed(&rt, &KEYED, None);
    check_keyed(&rt, &KEYED_TIMED, Some(NOW));
    check_read(&rt, &BAD_KEYS, None);
    check_read(&rt, &[("key k tick 5", BAD_KEY)], Some(NOW));
    check_refused(&rt, &["key k tick", "key k spend 3 +"], Some(NOW));
}

/// Lines that may not have the key that comes beside them.
const UNKEYED: [&str; 10] = [
    "key k take 4",
    "key  take 4",
    "key k status",
    "outcome 12",
    "cancel 12",
    "tick 5",
    "status",
    "queue",
    "quit",
    "key \u{e9}",
];

/// What a line spells under a key that comes beside it.
fn read_beside(line: &str, key: &str) -> Option<SiteCommand> {
    with_key(
        read_command(line.as_bytes(), None),
        Key::read(key.as_bytes())?,
    )
}

fn is_bad_key(command: Option<SiteCommand>) -> bool {
    match command {
        Some(command) => shown(command) == BAD_KEY,
        None => false,
    }
}

/// A key beside a line is that of a command that may have one, and has none in its line.
#[test]
fn a_key_may_come_beside_a_line(rt: HostRuntime) {
    assert!(rt; is_keyed(read_beside("take 4", "k"), "k", ("take", 4, 0)));
    assert!(rt; is_keyed(read_beside("close", "k"), "k", ("close", 0, 0)));
    for line in &UNKEYED {
        assert!(rt; is_bad_key(read_beside(*line, "k")), "at {line:?}");
    }
    assert!(rt; read_beside("take", "k").is_none());
    assert!(rt; read_beside("key k take", "k").is_none());
}
