//! The command line, parsed by the crate `clap`.
ghost use Rattle.std.specs.Prelude.{◌≡◌, ◌<◌, ◌^◌, ℕ, Option, Bool, [], ◌∷◌, codes, false, true, IfOk, IfSome};
ghost use Rattle.std.specs.Prelude.{MatchResult};
ghost use Rattle.clap.specs.Matches.{found_of};
ghost use Rattle.clap.specs.Simple.{app_of, new_shape, shape_of, subcommand_rows_of};
ghost use Rattle.clap.specs.Walk.{rows_of, rule_of, texts};
ghost use Rattle.clap.specs.declared.builder.command.Command.TheViews.{out-Command};
ghost use Rattle.rights_types.specs.declared.limits.TheConstants.{MIN_SITES, MAX_SITES};
ghost use Rattle.site_words.specs.Asked.{asked_by, asked_of_clap, asks_for_version, is_help_word};
ghost use Rattle.site_words.specs.Checks.{IsCheckBy};
ghost use Rattle.site_words.specs.CommandLine.{addresses_shape, app, check_shape, file_rule, flag_rule, from_rule};
ghost use Rattle.site_words.specs.CommandLine.{host_rule, keys_rule, number_rule, option_rule, peer_rule};
ghost use Rattle.site_words.specs.CommandLine.{run_numbers_shape, run_shape, silent_rule, tick_rule, value_rule};
ghost use Rattle.site_words.specs.Settings.{AreFound, AreInRange, HasFlag, HasNumber, IsFound, MayHaveNumber, Options};
ghost use Rattle.site_words.specs.Words.{AnswersMet, IsSetBy, MayAnswer};
ghost use Rattle.site_words.specs.declared.words.WordsFault.{WordsFault};

use crate::check::JournalCheck;
use crate::config::{Config, OptionValues};
use clap::error::ErrorKind;
use clap::{Arg, ArgAction, ArgMatches, Command as Parser, value_parser};
use std::alloc::{AllocError, AllocFailed, Global};
use std::marker::Model;

/// What the words ask the program to do.
#[derive(Drop)]
pub enum Command {
    /// Run the script on its standard input.
    Sim,
    /// Run one site with this configuration.
    Run(Config),
    /// Print what this journal holds.
    CheckJournal(JournalCheck),
    /// Print this help text.
    Help(HelpText),
    /// Print the version.
    Version,
}

/// The text that `--help` prints.
#[derive(Drop)]
pub struct HelpText {
    bytes: Vec<u8>,
}

impl Model for HelpText {
    ghost use Rattle.std.specs.Prelude.{List, ℕ};

    ghost Value = { List ℕ };

    ghost view = { λ text. text.bytes.items };
}

impl HelpText {
    pub fn as_bytes(&self) -> &[u8]
        ensures { result.now ≡ self.now }
    {
        self.bytes.as_slice()
    }
}

/// Why words are refused.
#[derive(Clone, Copy, Debug, PartialEq, Eq)]
pub enum WordsFault {
    /// The words are not a command, or do not give a configuration.
    Refused,
    /// A memory request was refused.
    OutOfMemory,
}

impl From<AllocError> for WordsFault {
    ghost use Rattle.site_words.specs.declared.words.WordsFault.TheVariants.{OutOfMemory};

    ghost from_gives = { λ _ fault. fault ≡ OutOfMemory };

    fn from(_error: AllocError) -> WordsFault {
        WordsFault::OutOfMemory
    }
}

impl<T: Drop> From<AllocFailed<T>> for WordsFault {
    ghost use Rattle.site_words.specs.declared.words.WordsFault.TheVariants.{OutOfMemory};

    ghost from_gives = { λ _ fault. fault ≡ OutOfMemory };

    fn from(_error: AllocFailed<T>) -> WordsFault {
        WordsFault::OutOfMemory
    }
}

/// The text below the options in the help text of the program.
const USE: &str = "\
`rights-site --version` prints the version. `rights-site run --help` has an example.";

/// The text below the options in the help text of `run`.
const RUN_USE: &str = "\
Commands, one a line on standard input, and their replies:
  issue N      creates N rights             number E   (E: its entry in the log)
  give J N     gives N rights to site J     number E
  spend N T    spends N rights              spent E, or queued K: it waits until time T
  spend N +M   the same, with --tick        .. until M milliseconds from now
  take N       spends N rights, or fails    spent E
  outcome K    what became of ticket K      waiting, spent E, expired or unknown
  cancel K     ends what waits              as outcome K
  tick T       does what is due at time T, and sends what is new (not with --tick)
  status       the state of the site, as an object of JSON
  queue        the spends that wait, as an object of JSON
  close [J]    closes the site; site J gets what it holds
  key K C      one of issue, give, spend, take and close, done once for each key K
  quit         ends the program

Example, one site of two, which ticks by itself and also serves HTTP:
  rights-site run --id 1 --sites 2 --listen 127.0.0.1:7001 --http 127.0.0.1:8001 \\
      --tick 100 --once site-1.started 2=127.0.0.1:7002";

/// The text below the options in the help text of `check-journal`.
const CHECK_USE: &str = "\
It starts no site and changes nothing. If the file is damaged, or a record is refused, it prints
what stands before that, a line that says where and why on standard error, and ends with status 1.";

/// An optional option with one value.
fn optional<'a>(alloc: Global, name: &'a str, value: &'a str, help: &'a str) -> Arg<'a>
    ensures rule { rule_of result ≡ value_rule name.entry.now }
    ensures local { result.global ≡ false }
{
    Arg::new(alloc, name)
        .long(name)
        .value_name(value)
        .help(help)
}

/// A required option with one value.
fn option<'a>(alloc: Global, name: &'a str, value: &'a str, help: &'a str) -> Arg<'a>
    ensures rule { rule_of result ≡ option_rule name.entry.now }
    ensures local { result.global ≡ false }
{
    optional(alloc, name, value, help).required(true)
}

/// The option with the site's number.
fn id_option<'a>(alloc: Global) -> Arg<'a>
    ensures rule { rule_of result ≡ number_rule (codes "id") 1 MAX_SITES }
    ensures local { result.global ≡ false }
{
    option(alloc, "id", "I", "The number of this site, 1 to N").value_parser(value_parser!(
        u64
    ).range(1..=16))
}

/// The option with the number of sites.
fn sites_option<'a>(alloc: Global) -> Arg<'a>
    ensures rule { rule_of result ≡ number_rule (codes "sites") MIN_SITES MAX_SITES }
    ensures local { result.global ≡ false }
{
    option(alloc, "sites", "N", "How many sites the system has").value_parser(value_parser!(
        u64
    ).range(2..=16))
}

/// The option with the interval at which the site ticks itself.
fn tick_option<'a>(alloc: Global) -> Arg<'a>
    ensures rule { rule_of result ≡ tick_rule }
    ensures local { result.global ≡ false }
{
    let milliseconds = value_parser!(u64).range(1..=60_000);
    optional(
        alloc,
        "tick",
        "MS",
        "Ticks by itself, every MS milliseconds (1 to 60,000)",
    )
    .value_parser(milliseconds)
}

/// The option with the time after which a peer counts as silent.
fn silent_option<'a>(alloc: Global) -> Arg<'a>
    ensures rule { rule_of result ≡ silent_rule }
    ensures local { result.global ≡ false }
{
    let milliseconds = value_parser!(u64).range(0..=3_600_000);
    optional(
        alloc,
        "silent",
        "MS",
        "With --tick: a peer with no line for MS milliseconds is silent (1,000 to 3,600,000; 0: never)",
    )
    .value_parser(milliseconds)
}

/// The option with the number of keys that are remembered.
fn keys_option<'a>(alloc: Global) -> Arg<'a>
    ensures rule { rule_of result ≡ keys_rule }
    ensures local { result.global ≡ false }
{
    let count = value_parser!(u64).range(0..=10_000_000);
    optional(
        alloc,
        "keys",
        "N",
        "Remembers the keys of the last N commands (0 to 10,000,000; 0: none are taken; 1,000,000 if not given)",
    )
    .value_parser(count)
}

/// The option with a name of the host, which may occur several times.
fn host_option<'a>(alloc: Global) -> Arg<'a>
    ensures rule { rule_of result ≡ host_rule }
    ensures local { result.global ≡ false }
{
    optional(
        alloc,
        "host",
        "NAME",
        "Answers HTTP requests to this name of the host too, besides IP addresses and localhost",
    )
    .action(ArgAction::Append)
}

/// The option with the entrance of a peer, which may occur several times.
fn from_option<'a>(alloc: Global) -> Arg<'a>
    ensures rule { rule_of result ≡ from_rule }
    ensures local { result.global ≡ false }
{
    let each = ArgAction::Append;
    optional(
        alloc,
        "from",
        "J=ADDRESS",
        "Lets site J in at this address only, and no other site there (for several sites, repeat it)",
    )
    .action(each)
}

/// The flag that turns on the log.
fn log_flag<'a>(alloc: Global) -> Arg<'a>
    ensures rule { rule_of result ≡ flag_rule (codes "log") }
    ensures local { result.global ≡ false }
{
    Arg::new(alloc, "log")
        .long("log")
        .action(ArgAction::SetTrue)
        .help("Reports links and clients on standard error")
}

/// The argument that lists the peers.
fn peers_argument<'a>(alloc: Global) -> Arg<'a>
    ensures rule { rule_of result ≡ peer_rule }
    ensures local { result.global ≡ false }
{
    Arg::new(alloc, "peer")
        .value_name("PEER")
        .num_args(1..)
        .required(true)
        .help("Each other site, as J=ADDRESS: its number, and where it listens")
}

/// The command that runs one site: only its numbers so far, not yet its addresses.
fn run_numbers_parser<'a>(alloc: Global) -> Result<Parser<'a>, AllocError>
    ensures { IfOk result (λ parser. (app_of parser ≡ record { top = run_numbers_shape; subs = [] })
        × ((out-Command parser).has_globals ≡ false)) }
{
    Parser::new(alloc, "run")
        .about("Runs one site, which talks with its peers over TCP")
        .after_help(RUN_USE)
        .arg(id_option(alloc))?
        .arg(sites_option(alloc))
}

/// The command that runs one site: only its numbers and addresses so far.
fn addresses_parser<'a>(alloc: Global) -> Result<Parser<'a>, AllocError>
    ensures { IfOk result (λ parser. (app_of parser ≡ record { top = addresses_shape; subs = [] })
        × ((out-Command parser).has_globals ≡ false)) }
{
    run_numbers_parser(alloc)?
        .arg(optional(
            alloc,
            "listen",
            "ADDRESS",
            "Where this site listens for its peers; not needed if each of them has its --from",
        ))?
        .arg(from_option(alloc))?
        .arg(peers_argument(alloc))
}

/// The command that runs one site.
fn run_parser<'a>(alloc: Global) -> Result<Parser<'a>, AllocError>
    ensures { IfOk result (λ parser. (app_of parser ≡ record { top = run_shape; subs = [] })
        × ((out-Command parser).has_globals ≡ false)) }
{
    addresses_parser(alloc)?
        .arg(optional(alloc, "http", "ADDRESS", "Also serves HTTP at this address"))?
        .arg(host_option(alloc))?
        .arg(tick_option(alloc))?
        .arg(silent_option(alloc))?
        .arg(keys_option(alloc))?
        .arg(optional(
            alloc,
            "once",
            "FILE",
            "Creates FILE at the start, and does not start if it exists",
        ))?
        .arg(optional(
            alloc,
            "journal",
            "FILE",
            "Keeps a journal in FILE, and starts again from it if it exists (not with --once)",
        ))?
        .arg(optional(
            alloc,
            "system",
            "NAME",
            "With --journal: the name of the system, 1 to 32 letters, digits and hyphens",
        ))?
        .arg(log_flag(alloc))
}

/// The command that runs a script.
fn sim_parser<'a>(alloc: Global) -> Parser<'a>
    ensures shape { shape_of result ≡ new_shape (codes "sim") }
    ensures local { (out-Command result).has_globals ≡ false }
{
    Parser::new(alloc, "sim").about("Runs the script on standard input, over sites in memory")
}

/// The argument with the path of a journal.
fn file_argument<'a>(alloc: Global) -> Arg<'a>
    ensures rule { rule_of result ≡ file_rule }
    ensures local { result.global ≡ false }
{
    Arg::new(alloc, "file")
        .value_name("FILE")
        .required(true)
        .help("The journal, which is only read: it may be that of a running site")
}

/// The flag that asks for JSON.
fn json_flag<'a>(alloc: Global) -> Arg<'a>
    ensures rule { rule_of result ≡ flag_rule (codes "json") }
    ensures local { result.global ≡ false }
{
    Arg::new(alloc, "json")
        .long("json")
        .action(ArgAction::SetTrue)
        .help("Prints an object of JSON, on one line")
}

/// The command that prints what a journal holds.
fn check_parser<'a>(alloc: Global) -> Result<Parser<'a>, AllocError>
    ensures { IfOk result (λ parser. (app_of parser ≡ record { top = check_shape; subs = [] })
        × ((out-Command parser).has_globals ≡ false)) }
{
    Parser::new(alloc, "check-journal")
        .about("Prints what a site would hold that starts with this journal")
        .after_help(CHECK_USE)
        .arg(file_argument(alloc))?
        .arg(json_flag(alloc))
}

/// The program without its commands.
fn bare_parser<'a>(alloc: Global) -> Result<Parser<'a>, AllocError>
    ensures { IfOk result (λ parser. app_of parser ≡ record { top = record app.top { is_leaf = true }; subs = [] }) }
{
    Ok(
        Parser::new(alloc, "rights-site")
            .bin_name("rights-site")?
            .about("Sites that share one stock of rights, and never oversell it")
            .after_help(USE)
            .no_binary_name(true)
            .subcommand_required(true)
            .disable_help_subcommand(true),
    )
}

/// The program with only the command for scripts.
fn script_parser<'a>(alloc: Global) -> Result<Parser<'a>, AllocError>
    ensures { IfOk result (λ parser. app_of parser ≡ record app { subs = new_shape (codes "sim") ∷ [] }) }
{
    bare_parser(alloc)?.subcommand(sim_parser(alloc))
}

/// The program with the commands for scripts and for a site.
fn running_parser<'a>(alloc: Global) -> Result<Parser<'a>, AllocError>
    ensures { IfOk result (λ parser. app_of parser ≡ record app { subs = new_shape (codes "sim") ∷ run_shape ∷ [] }) }
{
    let run = run_parser(alloc)?;
    script_parser(alloc)?.subcommand(run)
}

/// The program with all its commands, as `clap` sees them.
fn parser<'a>(alloc: Global) -> Result<Parser<'a>, AllocError>
    ensures { IfOk result (λ parser. app_of parser ≡ app) }
{
    let check = check_parser(alloc)?;
    running_parser(alloc)?.subcommand(check)
}

/// The number that `clap` found for an option. No clause of `clap` says that it found one.
fn number_of(matches: &ArgMatches<'_>, option: &str) -> Result<u64, WordsFault>
    ensures { MatchResult result (HasNumber (rows_of (found_of matches.now)) option.now)
        (λ fault. (fault ≡ WordsFault.Refused)
        × ((n : ℕ) → n < 2 ^ 64 → HasNumber (rows_of (found_of matches.now)) option.now n → ⊥)) }
{
    matches.get_one(option).ok_or(WordsFault::Refused)
}

/// The number that `clap` found for an optional option.
fn optional_number_of(matches: &ArgMatches<'_>, option: &str) -> Result<Option<u64>, WordsFault>
    ensures { MatchResult result (MayHaveNumber (rows_of (found_of matches.now)) option.now)
        (λ fault. (fault ≡ WordsFault.Refused)
        × ((n : Option ℕ) → IfSome n (λ m. m < 2 ^ 64)
        → MayHaveNumber (rows_of (found_of matches.now)) option.now n → ⊥)) }
{
    match matches.try_get_one(option) {
        Ok(number) => Ok(number),
        Err(_) => Err(WordsFault::Refused),
    }
}

/// The value that `clap` found for a flag. No clause of `clap` says that it is one of the two words.
fn flag_of(matches: &ArgMatches<'_>, flag: &str) -> Result<bool, WordsFault>
    ensures { MatchResult result (HasFlag (rows_of (found_of matches.now)) flag.now)
        (λ fault. (fault ≡ WordsFault.Refused)
        × ((set : Bool) → HasFlag (rows_of (found_of matches.now)) flag.now set → ⊥)) }
{
    matches.get_one(flag).ok_or(WordsFault::Refused)
}

/// The values of the optional settings of `run`.
fn options_of<'a>(matches: &'a ArgMatches<'_>) -> Result<OptionValues<'a>, WordsFault>
    ensures { MatchResult result (AreFound (rows_of (found_of matches.now)))
        (λ fault. (fault ≡ WordsFault.Refused)
        × ((o : Options) → AreInRange o → AreFound (rows_of (found_of matches.now)) o → ⊥)) }
{
    let tick = optional_number_of(matches, "tick")?;
    let silent = optional_number_of(matches, "silent")?;
    let keys = optional_number_of(matches, "keys")?;
    let log = flag_of(matches, "log")?;
    Ok(OptionValues {
        http: matches.get_str("http"),
        hosts: matches.get_strs("host").unwrap_or(&[]),
        tick,
        silent,
        keys,
        once: matches.get_str("once"),
        journal: matches.get_str("journal"),
        system: matches.get_str("system"),
        log,
    })
}

/// The configuration that the words of `run` give.
fn config_of(alloc: Global, matches: &ArgMatches<'_>) -> Result<Config, WordsFault>
    ensures { IsSetBy (IsFound (rows_of (found_of matches.now))) result }
{
    let id = number_of(matches, "id")?;
    let sites = number_of(matches, "sites")?;
    let listen = matches.get_str("listen");
    let peers = matches.get_strs("peer").ok_or(WordsFault::Refused)?;
    let froms = matches.get_strs("from").unwrap_or(&[]);
    let options = options_of(matches)?;
    Config::of_words(alloc, id, sites, listen, peers, froms, options)
}

/// The check of a journal that the words of `check-journal` give.
fn check_of(alloc: Global, matches: &ArgMatches<'_>) -> Result<JournalCheck, WordsFault>
    ensures { IsCheckBy (rows_of (found_of matches.now)) result }
{
    let path = matches.get_str("file").ok_or(WordsFault::Refused)?;
    let json = flag_of(matches, "json")?;
    Ok(JournalCheck::new(alloc, path, json)?)
}

/// The command that `clap` found.
fn command_of(alloc: Global, matches: &ArgMatches<'_>) -> Result<Command, WordsFault>
    ensures { AnswersMet (subcommand_rows_of matches.now) result }
{
    if let Some(values) = matches.subcommand_matches("run") {
        return Ok(Command::Run(config_of(alloc, values)?));
    }
    match matches.subcommand_matches("check-journal") {
        Some(values) => Ok(Command::CheckJournal(check_of(alloc, values)?)),
        None => Ok(Command::Sim),
    }
}

/// Whether the first word asks for the version.
fn asks_for_version(words: &[&str]) -> bool
    ensures { result ≡ asks_for_version (texts words.now) }
{
    match words {
        [first, ..] => *first == "--version" || *first == "-V",
        [] => false,
    }
}

/// The result of parsing the words with `clap`.
#[tactic(auto, using(crate::proofs::CommandWords::no_version))]
fn read_by_clap(alloc: Global, words: &[&str]) -> Result<Command, WordsFault>
    ensures { MayAnswer (asked_of_clap (texts words.now)) result }
{
    let error = match parser(alloc)?.try_get_matches_from(words) {
        Ok(matches) => return command_of(alloc, &matches),
        Err(error) => error,
    };
    match error.kind() {
        ErrorKind::DisplayHelp => {
            let text = error.to_string(alloc)?;
            Ok(Command::Help(HelpText {
                bytes: text.into_bytes(),
            }))
        }
        ErrorKind::OutOfMemory => Err(WordsFault::OutOfMemory),
        _ => Err(WordsFault::Refused),
    }
}

/// Whether `help` is the only word.
fn is_help_word(words: &[&str]) -> bool
    ensures { result ≡ is_help_word (texts words.now) }
{
    match words {
        [word] => *word == "help",
        _ => false,
    }
}

/// Parses the program's words, without its name. `help` alone stands for `--help`. `sim` takes no further
/// word, except that one `--` may end its flags, as everywhere in `clap`. `run` is refused if `clap` refuses its words,
/// or if the values that it finds are not a configuration; `check-journal` only if `clap` refuses its words. The words
/// determine the result, but `OutOfMemory` may come instead of any result except the version. The help text is made by
/// `clap`, and no contract says what it is.
pub fn read_words(alloc: Global, words: &[&str]) -> Result<Command, WordsFault>
    ensures { MayAnswer (asked_by (texts words.now)) result }
{
    if asks_for_version(words) {
        return Ok(Command::Version);
    }
    if is_help_word(words) {
        return read_by_clap(alloc, &["--help"]);
    }
    read_by_clap(alloc, words)
}
