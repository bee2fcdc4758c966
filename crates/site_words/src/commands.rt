//! The commands of a running site.
ghost use Rattle.std.specs.Prelude.{◌≡◌, ◌∷◌};
ghost use Rattle.line_streams.specs.Words.{words_left};
ghost use Rattle.site_words.specs.Commands.{issue_in, give_in, spend_in, take_in, ahead_of, deadline_of, deadline_in};
ghost use Rattle.site_words.specs.Commands.{latest_at, outcome_in, cancel_in, tick_by, close_in, command_by, name_of};
ghost use Rattle.site_words.specs.Commands.{command_of, command_left, command_with, keyed, keyed_in, may_have_key, under_key};

use command_keys::Key;
use entry_codec::read_decimal;
use line_streams::{
    alone, first_number, named, only_number, optional_site, site_and_number, split_word,
};
use rights_types::SiteId;

/// How far ahead of a site's own clock a deadline may be, in milliseconds: a day.
pub const MAX_AHEAD: u64 = 86_400_000;

/// A command that is one call of the desk.
#[derive(Clone, Copy)]
pub enum DeskCommand {
    /// Create this many rights.
    Issue(u64),
    /// Give a peer this many rights.
    Give(SiteId, u64),
    /// Spend this many rights, at once or by this deadline, which may not be later than the last number, if there is
    /// one.
    Spend(u64, u64, Option<u64>),
    /// Spend this many rights now, or not at all.
    Take(u64),
    /// Report the outcome of the spend with this ticket.
    Outcome(u64),
    /// End the spend with this ticket, if it waits, and report its outcome.
    Cancel(u64),
    /// Close the site, and leave what it holds to an heir, if one is named.
    Close(Option<SiteId>),
}

/// A command with no key.
#[derive(Clone, Copy)]
pub enum BareCommand {
    /// A command that is one call of the desk.
    AtDesk(DeskCommand),
    /// Do everything that is due at this time: expire, serve, plan, and send to the peers.
    Tick(u64),
    /// A tick at a site that has a clock of its own, which refuses it.
    RefusedTick,
    /// Report the state of the site and of its links.
    Status,
    /// Report the spends that wait.
    Queue,
    /// End the program.
    Quit,
}

/// The command of a line.
#[derive(Clone, Copy)]
pub enum SiteCommand {
    /// A command with no key.
    Bare(BareCommand),
    /// A command of the desk under a key: one that writes an entry.
    Keyed(Key, DeskCommand),
    /// A key that is none, or a line that may have none: it is refused.
    BadKey,
}

/// A line whose key is not read yet. It has no room for one, so it is handed on faster than a `SiteCommand`.
#[derive(Clone, Copy)]
pub enum SiteLine<'a> {
    /// A command with no key.
    Command(BareCommand),
    /// The words after `key`.
    AfterKey(Option<&'a [u8]>),
}

/// The first word of a command.
#[derive(Clone, Copy)]
enum Name {
    Issue,
    Give,
    Spend,
    Take,
    Outcome,
    Cancel,
    Tick,
    Status,
    Queue,
    Close,
    Quit,
}

const NAMES: [(&[u8], Name); 11] = [
    (b"issue", Name::Issue),
    (b"give", Name::Give),
    (b"spend", Name::Spend),
    (b"take", Name::Take),
    (b"outcome", Name::Outcome),
    (b"cancel", Name::Cancel),
    (b"tick", Name::Tick),
    (b"status", Name::Status),
    (b"queue", Name::Queue),
    (b"close", Name::Close),
    (b"quit", Name::Quit),
];

/// The word before a key.
const KEY: &[u8] = b"key";

#[inline(always)]
fn read_issue(words: Option<&[u8]>) -> Option<BareCommand>
    ensures { result ≡ issue_in (words_left words.entry) }
{
    let amount = only_number(words)?;
    Some(BareCommand::AtDesk(DeskCommand::Issue(amount)))
}

#[inline(always)]
fn read_give(words: Option<&[u8]>) -> Option<BareCommand>
    ensures { result ≡ give_in (words_left words.entry) }
{
    let (peer, amount) = site_and_number(words)?;
    Some(BareCommand::AtDesk(DeskCommand::Give(peer, amount)))
}

#[tactic(auto, unfolding(crate::specs::Commands::spend_in))]
#[inline(always)]
fn read_spend(words: Option<&[u8]>, time: Option<u64>) -> Option<BareCommand>
    ensures { result ≡ spend_in time (words_left words.entry) }
{
    let (amount, words) = first_number(words)?;
    let deadline = read_deadline(words, time)?;
    Some(BareCommand::AtDesk(DeskCommand::Spend(amount, deadline, latest_at(time))))
}

/// The deadline that the only word spells.
#[inline(always)]
#[tactic(auto, using(crate::proofs::DeadlineLaws::plain_deadline))]
fn read_deadline(words: Option<&[u8]>, time: Option<u64>) -> Option<u64>
    ensures { result ≡ deadline_in time (words_left words.entry) }
{
    match time {
        None => only_number(words),
        Some(time) => deadline_by(words, time),
    }
}

/// The same at a site whose own clock shows this time.
#[inline(never)]
fn deadline_by(words: Option<&[u8]>, time: u64) -> Option<u64>
    ensures { result ≡ deadline_in (Some time) (words_left words.entry) }
{
    let (word, rest) = split_word(words?);
    match rest {
        None => deadline_of(word, time),
        Some(_) => None,
    }
}

/// The deadline that a word spells: a time; or `+` and how many milliseconds ahead of this time the deadline is.
fn deadline_of(word: &[u8], time: u64) -> Option<u64>
    ensures { result ≡ deadline_of (Some time) word.now }
{
    match word {
        [first, ahead @ ..] if *first == b'+' => ahead_of(time, ahead),
        _ => read_decimal(word, 0, u64::MAX),
    }
}

/// This time and the milliseconds that the digits spell, which are at most a day.
fn ahead_of(time: u64, digits: &[u8]) -> Option<u64>
    ensures { result ≡ ahead_of time digits.now }
{
    let ahead = read_decimal(digits, 0, MAX_AHEAD)?;
    Some(time.saturating_add(ahead))
}

/// The latest deadline at a site whose own clock shows this time: a day later. None if it has no clock.
fn latest_at(time: Option<u64>) -> Option<u64>
    ensures { result ≡ latest_at time }
{
    match time {
        Some(time) => Some(time.saturating_add(MAX_AHEAD)),
        None => None,
    }
}

#[inline(always)]
fn read_take(words: Option<&[u8]>) -> Option<BareCommand>
    ensures { result ≡ take_in (words_left words.entry) }
{
    let amount = only_number(words)?;
    Some(BareCommand::AtDesk(DeskCommand::Take(amount)))
}

#[inline(always)]
fn read_cancel(words: Option<&[u8]>) -> Option<BareCommand>
    ensures { result ≡ cancel_in (words_left words.entry) }
{
    let ticket = only_number(words)?;
    Some(BareCommand::AtDesk(DeskCommand::Cancel(ticket)))
}

#[inline(always)]
fn read_outcome(words: Option<&[u8]>) -> Option<BareCommand>
    ensures { result ≡ outcome_in (words_left words.entry) }
{
    let ticket = only_number(words)?;
    Some(BareCommand::AtDesk(DeskCommand::Outcome(ticket)))
}

/// A tick at a time. A site that has a clock of its own ticks by it alone.
#[inline(always)]
fn tick_by(time: Option<u64>, at: u64) -> BareCommand
    ensures { result ≡ tick_by time at }
{
    match time {
        Some(_) => BareCommand::RefusedTick,
        None => BareCommand::Tick(at),
    }
}

#[inline(always)]
fn read_close(words: Option<&[u8]>) -> Option<BareCommand>
    ensures { result ≡ close_in (words_left words.entry) }
{
    let heir = optional_site(words)?;
    Some(BareCommand::AtDesk(DeskCommand::Close(heir)))
}

/// The command with this name, given the words after it, at a site whose own clock shows this time.
#[inline(always)]
fn command_by(name: Name, words: Option<&[u8]>, time: Option<u64>) -> Option<BareCommand>
    ensures { result ≡ command_by name time (words_left words.entry) }
{
    match name {
        Name::Issue => read_issue(words),
        Name::Give => read_give(words),
        Name::Spend => read_spend(words, time),
        Name::Take => read_take(words),
        Name::Outcome => read_outcome(words),
        Name::Cancel => read_cancel(words),
        Name::Tick => Some(tick_by(time, only_number(words)?)),
        Name::Status => alone(BareCommand::Status, words),
        Name::Queue => alone(BareCommand::Queue, words),
        Name::Close => read_close(words),
        Name::Quit => alone(BareCommand::Quit, words),
    }
}

#[tactic(auto, unfolding(crate::specs::Commands::name_of))]
#[inline(always)]
fn name_of(text: &[u8]) -> Option<Name>
    ensures { result ≡ name_of text.now }
{
    named(&NAMES, text)
}

/// The command with no key that these words spell: the first one, and those after it.
#[inline(always)]
fn read_bare(first: &[u8], words: Option<&[u8]>, time: Option<u64>) -> Option<BareCommand>
    ensures { result ≡ command_with time (first.now ∷ words_left words.entry) }
{
    command_by(name_of(first)?, words, time)
}

/// Whether a command may have a key: whether it writes an entry.
fn may_have_key(command: &DeskCommand) -> bool
    ensures { result ≡ may_have_key command.now }
{
    match command {
        DeskCommand::Issue(_) => true,
        DeskCommand::Give(_, _) => true,
        DeskCommand::Spend(_, _, _) => true,
        DeskCommand::Take(_) => true,
        DeskCommand::Outcome(_) => false,
        DeskCommand::Cancel(_) => false,
        DeskCommand::Close(_) => true,
    }
}

/// A command under this key; `BadKey` if it may have none.
fn under_key(command: BareCommand, key: Key) -> SiteCommand
    ensures { result ≡ under_key command key }
{
    match command {
        BareCommand::AtDesk(command) if may_have_key(&command) => SiteCommand::Keyed(key, command),
        _ => SiteCommand::BadKey,
    }
}

/// The command of a line under this key, which came beside it. `BadKey` if it is a command that may have none: one that
/// writes no entry, or has a key already. None if the line spells no command.
pub fn with_key(command: Option<SiteCommand>, key: Key) -> Option<SiteCommand>
    ensures { result ≡ keyed command key }
{
    match command? {
        SiteCommand::Bare(command) => Some(under_key(command, key)),
        _ => Some(SiteCommand::BadKey),
    }
}

/// The command that the words after `key` spell: the key, and a command with none.
#[inline(never)]
pub fn read_keyed(words: Option<&[u8]>, time: Option<u64>) -> Option<SiteCommand>
    ensures { result ≡ keyed_in time (words_left words.entry) }
{
    let (word, words) = split_word(words?);
    let Some(key) = Key::read(word) else {
        return Some(SiteCommand::BadKey);
    };
    let (first, words) = split_word(words?);
    Some(under_key(read_bare(first, words, time)?, key))
}

/// What a line spells, as `read_command` reads it, but for its key: `read_keyed` reads that and the command after it.
#[inline(always)]
pub fn read_line(line: &[u8], time: Option<u64>) -> Option<SiteLine<'_>>
    ensures { command_left time result ≡ command_of time line.now }
{
    let (first, words) = split_word(line);
    if first == KEY {
        Some(SiteLine::AfterKey(words))
    } else {
        Some(SiteLine::Command(read_bare(first, words, time)?))
    }
}

/// The command that a line spells, given without its line feed; None if it spells none. Words are separated by single
/// spaces, and numbers are decimals with no sign and no leading zero. `time` is what the site's own clock shows, in
/// milliseconds; None for a site that has none, whose time comes with the ticks of its clients. The words `key K` may
/// stand before a command that writes an entry, where K is its key: 1 to 64 bytes of visible ASCII. `BadKey` if K is
/// none, or if the command writes no entry.
pub fn read_command(line: &[u8], time: Option<u64>) -> Option<SiteCommand>
    ensures { result ≡ command_of time line.now }
{
    match read_line(line, time) {
        Some(SiteLine::Command(command)) => Some(SiteCommand::Bare(command)),
        Some(SiteLine::AfterKey(words)) => read_keyed(words, time),
        None => None,
    }
}
