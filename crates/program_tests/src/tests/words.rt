//! How the words of a command line are read.
use site_words::{Command, Config, JournalCheck, PeerAddress, WordsFault, read_words};
use std::alloc::{AllocError, AllocGlobal, Global};
use std::process::Abort;
use std::str;

const HELP: &str = "\
Sites that share one stock of rights, and never oversell it

Usage: rights-site <COMMAND>

Commands:
  sim            Runs the script on standard input, over sites in memory
  run            Runs one site, which talks with its peers over TCP
  check-journal  Prints what a site would hold that starts with this journal

Options:
  -h, --help  Print help

`rights-site --version` prints the version. `rights-site run --help` has an example.
";

const SIM_HELP: &str = "\
Runs the script on standard input, over sites in memory

Usage: rights-site sim

Options:
  -h, --help  Print help
";

const RUN_HELP: &str = "\
Runs one site, which talks with its peers over TCP

Usage: rights-site run [OPTIONS] --id <I> --sites <N> <PEER>...

Arguments:
  <PEER>...  Each other site, as J=ADDRESS: its number, and where it listens

Options:
      --id <I>            The number of this site, 1 to N
      --sites <N>         How many sites the system has
      --listen <ADDRESS>  Where this site listens for its peers; not needed if each of them has its --from
      --from <J=ADDRESS>  Lets site J in at this address only, and no other site there (for several sites, repeat it)
      --http <ADDRESS>    Also serves HTTP at this address
      --host <NAME>       Answers HTTP requests to this name of the host too, besides IP addresses and localhost
      --tick <MS>         Ticks by itself, every MS milliseconds (1 to 60,000)
      --silent <MS>       With --tick: a peer with no line for MS milliseconds is silent (1,000 to 3,600,000; 0: never)
      --keys <N>          Remembers the keys of the last N commands (0 to 10,000,000; 0: none are taken; 1,000,000 if not given)
      --once <FILE>       Creates FILE at the start, and does not start if it exists
      --journal <FILE>    Keeps a journal in FILE, and starts again from it if it exists (not with --once)
      --system <NAME>     With --journal: the name of the system, 1 to 32 letters, digits and hyphens
      --log               Reports links and clients on standard error
  -h, --help              Print help

Commands, one a line on standard input, and their replies:
  issue N      creates N rights             number E   (E: its entry in the log)
  give J N     gives N rights to site J     number E
  spend N T    spends N rights              spent E, or queued K: it waits until time T
  spend N +M   the same, with --tick        .. until M milliseconds from now
  take N       spends N rights, or fails    spent E
  outcome K    what became of ticket K      waiting, spent E, expired or unknown
  cancel K     ends what waits              as outcome K
  tick T       does what is due at time T, and sends what is new (not with --tick)
  status       the state of the site, as an object of JSON
  queue        the spends that wait, as an object of JSON
  close [J]    closes the site; site J gets what it holds
  key K C      one of issue, give, spend, take and close, done once for each key K
  quit         ends the program

Example, one site of two, which ticks by itself and also serves HTTP:
  rights-site run --id 1 --sites 2 --listen 127.0.0.1:7001 --http 127.0.0.1:8001 \\
      --tick 100 --once site-1.started 2=127.0.0.1:7002
";

const CHECK_HELP: &str = "\
Prints what a site would hold that starts with this journal

Usage: rights-site check-journal [OPTIONS] <FILE>

Arguments:
  <FILE>  The journal, which is only read: it may be that of a running site

Options:
      --json  Prints an object of JSON, on one line
  -h, --help  Print help

It starts no site and changes nothing. If the file is damaged, or a record is refused, it prints
what stands before that, a line that says where and why on standard error, and ends with status 1.
";

/// Each line of words that asks for help, and the text.
const HELPS: [(&str, &str); 13] = [
    ("--help", HELP),
    ("help", HELP),
    ("-h x", HELP),
    ("-h run", HELP),
    ("sim --help", SIM_HELP),
    ("run --help", RUN_HELP),
    ("run --id 1 -h", RUN_HELP),
    ("run 2=x --help --sites", RUN_HELP),
    ("run --log --tick 5 --help", RUN_HELP),
    ("run -h --tick 0 --once", RUN_HELP),
    ("check-journal --help", CHECK_HELP),
    ("check-journal f -h", CHECK_HELP),
    ("check-journal --json --help f g", CHECK_HELP),
];

/// Whether the host had memory for a text.
type Put = Result<(), AllocError>;

/// How the words of a line are read; two spaces enclose an empty word.
pub(crate) fn read(alloc: Global, line: &str) -> Result<Command, WordsFault> {
    let words: Result<Vec<&str>, AllocError> = line.split(' ').collect(alloc);
    match words {
        Ok(words) => read_words(alloc, words.as_slice()),
        Err(_) => Err(WordsFault::OutOfMemory),
    }
}

/// Adds how words are read.
fn put_read(text: &mut String, read: &Result<Command, WordsFault>) -> Put {
    match read {
        Ok(Command::Sim) => text.push_str("sim"),
        Ok(Command::Version) => text.push_str("version"),
        Ok(Command::Help(help)) => put_bytes(text, help.as_bytes()),
        Ok(Command::CheckJournal(check)) => put_check(text, check),
        Ok(Command::Run(config)) => put_config(text, config),
        Err(WordsFault::Refused) => text.push_str(REFUSED),
        Err(WordsFault::OutOfMemory) => text.push_str("no memory"),
    }
}

pub(crate) const REFUSED: &str = "refused";

fn put_bytes(text: &mut String, bytes: &[u8]) -> Put {
    text.push_str(str::from_utf8(bytes).unwrap_or("no text"))
}

fn put_check(text: &mut String, check: &JournalCheck) -> Put {
    text.push_str(if check.json() {
        "check in JSON "
    } else {
        "check "
    })?;
    text.push_str(check.path())
}

/// Adds the values of a site, and those of the options that may be omitted as far as there are any.
fn put_config(text: &mut String, config: &Config) -> Put {
    let (id, sites) = (config.id().number(), config.sites());
    write!(text, "site {id} of {sites}")?;
    put_word(text, "at", config.listen())?;
    text.push_str(":")?;
    for peer in config.peers() {
        put_peer(text, peer)?;
    }
    for entrance in config.entrances() {
        text.push_str(" from")?;
        put_peer(text, entrance)?;
    }
    put_word(text, "http", config.http())?;
    put_number(text, "tick", config.tick())?;
    put_number(text, "silent", config.silent_after())?;
    put_number(text, "keys", unusual_keys(config))?;
    put_word(text, "once", config.once())?;
    put_word(text, "journal", config.journal())?;
    put_word(text, "system", config.system())?;
    text.push_str(if config.log() { " log" } else { "" })
}

/// How many keys a site remembers, if that is not what it is without words for it.
fn unusual_keys(config: &Config) -> Option<u64> {
    match config.keys() {
        1_000_000 => None,
        keys => Some(keys),
    }
}

fn put_peer(text: &mut String, peer: &PeerAddress) -> Put {
    let (site, address) = (peer.site().number(), peer.address());
    write!(text, " {site}={address}")
}

fn put_word(text: &mut String, name: &str, value: Option<&str>) -> Put {
    match value {
        Some(value) => write!(text, " {name} {value}"),
        None => Ok(()),
    }
}

fn put_number(text: &mut String, name: &str, value: Option<u64>) -> Put {
    match value {
        Some(value) => write!(text, " {name} {value}"),
        None => Ok(()),
    }
}

/// The words of this line are read as that.
pub(crate) fn check(rt: &(impl Abort + AllocGlobal), line: &str, wanted: &str) {
    let mut told = String::new(rt.alloc());
    put_read(&mut told, &read(rt.alloc(), line)).expect(rt, "memory");
    assert!(rt; told.as_str() == wanted, "at {line:?}: {told}");
}

pub(crate) fn check_all(rt: &(impl Abort + AllocGlobal), rows: &[(&str, &str)]) {
    for (line, wanted) in rows {
        check(rt, *line, *wanted);
    }
}

pub(crate) fn check_refused(rt: &(impl Abort + AllocGlobal), lines: &[&str]) {
    for line in lines {
        check(rt, *line, REFUSED);
    }
}

/// A text in three parts.
pub(crate) fn joined(rt: &(impl Abort + AllocGlobal), parts: [&str; 3]) -> String {
    let mut text = String::new(rt.alloc());
    for part in &parts {
        text.push_str(*part).expect(rt, "memory");
    }
    text
}

#[test]
fn sim_is_read(rt: HostRuntime) {
    check_all(&rt, &[("sim", "sim"), ("sim --", "sim")]);
}

#[test]
fn no_words_are_refused(rt: HostRuntime) {
    let read = read_words(rt.alloc(), &[]);
    assert!(rt; matches!(read, Err(WordsFault::Refused)));
}

/// Words that are no command.
const OTHER_WORDS: [&str; 25] = [
    "",
    "sim x",
    "sim sim",
    "sim -- x",
    "-- sim",
    "sim run",
    "run",
    "run --id 1",
    "run sim",
    "-- run --id 1 --sites 2 --listen a 2=b",
    "help sim",
    "--help=sim",
    "--version=1",
    "-v",
    "sim --version",
    "run --version",
    "check-journal",
    "check-journal --json",
    "check-journal f g",
    "check-journal f -- g",
    "check-journal -f",
    "check-journal --json --json f",
    "check-journal --json=1 f",
    "check-journal sim --id 1",
    "-- check-journal f",
];

#[test]
fn other_words_are_refused(rt: HostRuntime) {
    check_refused(&rt, &OTHER_WORDS);
}

/// Lines of words that have a journal checked.
const CHECKS: [(&str, &str); 7] = [
    ("check-journal f", "check f"),
    ("check-journal /a/b.c --json", "check in JSON /a/b.c"),
    ("check-journal --json sim", "check in JSON sim"),
    ("check-journal -- --json", "check --json"),
    ("check-journal --json -- -f", "check in JSON -f"),
    ("check-journal ", "check "),
    ("check-journal \u{e9}=1", "check \u{e9}=1"),
];

#[test]
fn journals_are_checked(rt: HostRuntime) {
    check_all(&rt, &CHECKS);
}

const VERSIONS: [(&str, &str); 4] = [
    ("--version", "version"),
    ("-V", "version"),
    ("--version sim", "version"),
    ("-V x", "version"),
];

#[test]
fn the_version_is_asked_for(rt: HostRuntime) {
    check_all(&rt, &VERSIONS);
}

#[test]
fn help_is_the_text_of_clap(rt: HostRuntime) {
    check_all(&rt, &HELPS);
}

/// Site 1 of 2; and site 2 of 4, with its peers by number, and with options after them and among them.
const CONFIGS: [(&str, &str); 6] = [
    (
        "run --id 1 --sites 2 --listen 127.0.0.1:7001 2=127.0.0.1:7002",
        "site 1 of 2 at 127.0.0.1:7001: 2=127.0.0.1:7002",
    ),
    (
        "run --id 2 --sites 4 --listen b:2 1=a 3=c:3 4=",
        SITE_2_OF_4,
    ),
    (
        "run 4= 1=a 3=c:3 --sites 4 --id 2 --listen b:2",
        SITE_2_OF_4,
    ),
    (
        "run 3=c:3 --listen b:2 4= --sites=4 1=a --id=2",
        SITE_2_OF_4,
    ),
    (
        "run --listen b:2 --sites 4 --id 2 -- 4= 3=c:3 1=a",
        SITE_2_OF_4,
    ),
    // Numbers of options are as clap reads them.
    (
        "run --id 02 --sites +4 --listen b:2 1=a 3=c:3 4=",
        SITE_2_OF_4,
    ),
];

const SITE_2_OF_4: &str = "site 2 of 4 at b:2: 1=a 3=c:3 4=";

#[test]
fn a_config_has_the_values_of_the_words(rt: HostRuntime) {
    check_all(&rt, &CONFIGS);
}

/// An address is the text after the first `=`, whatever it is.
#[test]
fn addresses_are_kept(rt: HostRuntime) {
    let line = "run --id 3 --sites 3 --listen  1== 2=1=\u{e9}";
    check(&rt, line, "site 3 of 3 at : 1== 2=1=\u{e9}");
}

#[test]
fn sixteen_sites_are_read(rt: HostRuntime) {
    let line =
        "run --id 16 --sites 16 --listen x 15=o 14=n 13=m 12=l 11=k 10=j 9=i 8=h 7=g 6=f 5=e \
        4=d 3=c 2=b 1=a";
    let wanted =
        "site 16 of 16 at x: 1=a 2=b 3=c 4=d 5=e 6=f 7=g 8=h 9=i 10=j 11=k 12=l 13=m 14=n 15=o";
    check(&rt, line, wanted);
}

/// The words of a site with other values, or with options twice or missing.
const OTHER_VALUES: [&str; 20] = [
    "run --id 0 --sites 2 --listen a 2=b",
    "run --id 17 --sites 16 --listen a 2=b",
    "run --id 17 --sites 17 --listen a 2=b",
    "run --id 1 --sites 1 --listen a 2=b",
    "run --id 1 --sites 1 --listen a 1=b",
    "run --id 1 --sites 0 --listen a 2=b",
    "run --id 3 --sites 2 --listen a 1=b 2=c",
    "run --id 3 --sites 2 --listen a 1=b",
    "run --id 18446744073709551617 --sites 2 --listen a 2=b",
    "run --id x --sites 2 --listen a 2=b",
    "run --id -1 --sites 2 --listen a 2=b",
    "run --id 1 --sites 2= --listen a 2=b",
    // Each option once, and none missing.
    "run --sites 2 --listen a 2=b",
    "run --id 1 --listen a 2=b",
    "run --id 1 --sites 2 2=b",
    "run --id 1 --sites 2 --listen a",
    "run --id 1 --id 1 --sites 2 --listen a 2=b",
    "run --id 1 --sites 2 --listen a --listen a 2=b",
    "run --id 1 --sites 2 --listen a 2=b --more",
    "run --id 1 --sites 2 2=b --listen",
];

#[test]
fn values_outside_their_range_are_refused(rt: HostRuntime) {
    check_refused(&rt, &OTHER_VALUES);
}

/// Words that are not the peers of site 1 of 3.
const OTHER_PEERS: [&str; 22] = [
    "2=b",
    "3=c",
    "2=b 2=b",
    "2=b 2=c",
    "2=b 3=c 3=c",
    "2=b 3=c 3=d",
    "1=a 2=b",
    "1=a 2=b 3=c",
    "2=b 4=d",
    "2=b 3=c 4=d",
    "2=b 3=c x",
    "0=a 2=b",
    "2=b 17=c",
    "02=b 3=c",
    "+2=b 3=c",
    "2 3=c",
    "=x 3=c",
    "=2=b 3=c",
    "2:b 3=c",
    "2 =b 3=c",
    "2=b 18446744073709551619=c",
    " 3=c",
];

#[test]
fn peers_are_exactly_the_other_sites(rt: HostRuntime) {
    for peers in &OTHER_PEERS {
        let line = joined(&rt, ["run --id 1 --sites 3 --listen a ", *peers, ""]);
        check(&rt, &line, REFUSED);
    }
}

/// Adds a peer, if it is another site than that.
fn put_other(text: &mut String, id: u64, site: u64) -> Put {
    if site == id {
        return Ok(());
    }
    write!(text, " {site}=h:{site}")
}

/// Adds the words of a site in a system of this many, with its peers from the last to the first.
fn put_words_of_site(line: &mut String, id: u64, sites: u64) -> Put {
    write!(line, "run --id {id} --sites {sites} --listen h:{id}")?;
    for site in (1..=sites).rev() {
        put_other(line, id, site)?;
    }
    Ok(())
}

/// Adds how they are read.
fn put_site(wanted: &mut String, id: u64, sites: u64) -> Put {
    write!(wanted, "site {id} of {sites} at h:{id}:")?;
    for site in 1..=sites {
        put_other(wanted, id, site)?;
    }
    Ok(())
}

fn check_site(rt: &(impl Abort + AllocGlobal), id: u64, sites: u64) {
    let mut line = String::new(rt.alloc());
    put_words_of_site(&mut line, id, sites).expect(rt, "memory");
    let mut wanted = String::new(rt.alloc());
    put_site(&mut wanted, id, sites).expect(rt, "memory");
    check(rt, &line, &wanted);
}

/// Each site of a system of each size, with its peers named from the last to the first.
#[test]
fn each_site_is_read(rt: HostRuntime) {
    for sites in 2..=16u64 {
        for id in 1..=sites {
            check_site(&rt, id, sites);
        }
    }
}
