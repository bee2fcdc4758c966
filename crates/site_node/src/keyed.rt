//! Commands under keys: each is carried out once, however often its client repeats it.
ghost use Rattle.std.specs.Prelude.{◌≡◌, Some, None};
ghost use Rattle.site_node.specs.Keyed.{ActsKeyed, ActsFirst, FreesIf, Notes, effect_of, effect_in, same_effect};
ghost use Rattle.site_node.specs.Keyed.{is_repeat, noted_by, reply_as, reply_of, repeat_of, spend_in, ticket_of};
ghost use Rattle.command_keys.specs.Books.{HasRoom};
ghost use Rattle.command_keys.specs.Keys.{outcome_of};
ghost use Rattle.command_keys.specs.declared.outcome.Effect.TheVariants as kind;

use crate::commands::act;
use crate::reply::Reply;
use apply_lanes::{DeskNames, Kept, Seat};
use command_keys::{Effect, Key, Outcome, Written};
use request_queue::Status;
use rights_types::SiteId;
use site_core::{DeskError, Spending};
use site_words::DeskCommand;

/// Carries out a command under a key at the desk, for this seat, and returns the reply. If the key is that of a command
/// that was carried out, nothing changes: its repeat gets the reply of the first time, or what has become of the spend
/// that waited; another command is refused. A command that is refused leaves its key free.
#[inline(never)]
pub fn act_keyed<D: DeskNames>(
    kept: &mut Kept<D>,
    seat: &mut Seat<D>,
    key: Key,
    command: DeskCommand,
) -> Reply
    ensures { ActsKeyed kept.old seat.old key command result kept.new seat.new }
{
    if !kept.takes_keys() {
        return Reply::KeyRefused;
    }
    kept.settle_keys();
    match kept.key_outcome(&key) {
        Some(outcome) => act_again(kept, seat, outcome, command),
        None => act_first(kept, seat, key, command),
    }
}

/// Replies to a command under the key of the one that ended so. If that is its repeat, and the outcome of a spend that
/// waited is told, its slot is free.
fn act_again<D: DeskNames>(
    kept: &mut Kept<D>,
    seat: &mut Seat<D>,
    outcome: Outcome,
    command: DeskCommand,
) -> Reply
    ensures reply { result ≡ repeat_of outcome command }
    ensures frees { FreesIf (is_repeat outcome command) outcome kept.old seat.old kept.new seat.new }
{
    if !is_repeat(&outcome, &command) {
        return Reply::KeyReused;
    }
    let ticket = ticket_of(&outcome);
    if ticket > 0 {
        let _told = kept.status(ticket);
    }
    reply_of(&outcome, &command)
}

/// Carries out a command under a free key, and remembers what became of it.
fn act_first<D: DeskNames>(
    kept: &mut Kept<D>,
    seat: &mut Seat<D>,
    key: Key,
    command: DeskCommand,
) -> Reply
    requires { outcome_of kept.old.keys.keys key ≡ None }
    ensures { ActsFirst kept.old seat.old key command result kept.new seat.new }
{
    // Reserved first, so that a command is carried out only if its key can be remembered.
    if kept.reserve_key().is_err() {
        return Reply::Refused(DeskError::OutOfMemory);
    }
    let effect = effect_of(&command);
    let reply = act(kept, seat, command);
    if let Some(outcome) = noted_by(effect, &reply) {
        note(kept, key, outcome);
    }
    reply
}

/// Remembers how the command of a free key ended.
fn note<D: DeskNames>(kept: &mut Kept<D>, key: Key, outcome: Outcome)
    requires room { HasRoom kept.old.keys }
    requires free { outcome_of kept.old.keys.keys key ≡ None }
    ensures { Notes (Some outcome) kept.old key kept.new }
{
    match outcome {
        Outcome::Wrote(written) => kept.remember_key(key, written),
        Outcome::Waits(ticket, amount) => kept.wait_key(key, ticket, amount),
        Outcome::Expired(_) => {}
    }
}

/// What is remembered of a command with this effect and this reply: which entry it wrote, or that it waits; nothing if it
/// was refused.
fn noted_by(effect: Option<Effect>, reply: &Reply) -> Option<Outcome>
    ensures { result ≡ noted_by effect reply.now }
{
    let effect = effect?;
    match reply {
        Reply::Number(number) => Some(wrote(*number, effect)),
        Reply::Spending(Spending::Spent(number)) => Some(wrote(*number, effect)),
        Reply::Spending(Spending::Queued(ticket)) => {
            Some(Outcome::Waits(*ticket, spend_in(&effect)?))
        }
        _ => None,
    }
}

fn wrote(number: u64, effect: Effect) -> Outcome
    ensures { result ≡ Outcome.Wrote (record { number = number; effect = effect; ticket = 0 }) }
{
    Outcome::Wrote(Written {
        number,
        effect,
        ticket: 0,
    })
}

/// How many rights it spends. `None` if it does something else.
fn spend_in(effect: &Effect) -> Option<u64>
    ensures { result ≡ spend_in effect.now }
{
    match effect {
        Effect::Spend(amount) => Some(*amount),
        _ => None,
    }
}

/// What the command does if it is carried out. `None` if it writes no entry.
fn effect_of(command: &DeskCommand) -> Option<Effect>
    ensures { result ≡ effect_of command.now }
{
    match command {
        DeskCommand::Issue(amount) => Some(Effect::Issue(*amount)),
        DeskCommand::Give(peer, amount) => Some(Effect::Give(*peer, *amount)),
        DeskCommand::Spend(amount, _, _) => Some(Effect::Spend(*amount)),
        DeskCommand::Take(amount) => Some(Effect::Spend(*amount)),
        DeskCommand::Close(_) => Some(Effect::Close),
        DeskCommand::Outcome(_) => None,
        DeskCommand::Cancel(_) => None,
    }
}

/// What the command did, or would have done, that ended so.
fn effect_in(outcome: &Outcome) -> Effect
    ensures { result ≡ effect_in outcome.now }
{
    match outcome {
        Outcome::Wrote(written) => written.effect,
        Outcome::Waits(_, amount) => Effect::Spend(*amount),
        Outcome::Expired(ended) => Effect::Spend(ended.amount),
    }
}

fn same_effect(one: &Effect, other: &Effect) -> bool
    ensures { result ≡ same_effect one.now other.now }
{
    match one {
        Effect::Issue(amount) => issues(other, *amount),
        Effect::Give(peer, amount) => gives(other, *peer, *amount),
        Effect::Spend(amount) => spends(other, *amount),
        Effect::Close => closes(other),
    }
}

fn issues(effect: &Effect, amount: u64) -> bool
    ensures { result ≡ same_effect (kind.Issue amount) effect.now }
{
    match effect {
        Effect::Issue(other) => amount == *other,
        _ => false,
    }
}

fn gives(effect: &Effect, peer: SiteId, amount: u64) -> bool
    ensures { result ≡ same_effect (kind.Give peer amount) effect.now }
{
    match effect {
        Effect::Give(site, other) => peer == *site && amount == *other,
        _ => false,
    }
}

fn spends(effect: &Effect, amount: u64) -> bool
    ensures { result ≡ same_effect (kind.Spend amount) effect.now }
{
    match effect {
        Effect::Spend(other) => amount == *other,
        _ => false,
    }
}

fn closes(effect: &Effect) -> bool
    ensures { result ≡ same_effect kind.Close effect.now }
{
    match effect {
        Effect::Close => true,
        _ => false,
    }
}

/// Whether the command is a repeat of the one that ended so.
fn is_repeat(outcome: &Outcome, command: &DeskCommand) -> bool
    ensures { result ≡ is_repeat outcome.now command.now }
{
    match effect_of(command) {
        Some(effect) => same_effect(&effect, &effect_in(outcome)),
        None => false,
    }
}

/// The reply to a command that wrote the entry of this number.
fn reply_as(command: &DeskCommand, number: u64) -> Reply
    ensures { result ≡ reply_as command.now number }
{
    match command {
        DeskCommand::Spend(_, _, _) => Reply::Spending(Spending::Spent(number)),
        DeskCommand::Take(_) => Reply::Spending(Spending::Spent(number)),
        _ => Reply::Number(number),
    }
}

/// The reply to a repeat of the command that ended so.
fn reply_of(outcome: &Outcome, command: &DeskCommand) -> Reply
    ensures { result ≡ reply_of outcome.now command.now }
{
    match outcome {
        Outcome::Wrote(written) => reply_as(command, written.number),
        Outcome::Waits(ticket, _) => Reply::Spending(Spending::Queued(*ticket)),
        Outcome::Expired(_) => Reply::Outcome(Status::Expired),
    }
}

/// The ticket of a spend that waited, and waits no longer; 0 if there is none.
fn ticket_of(outcome: &Outcome) -> u64
    ensures { result ≡ ticket_of outcome.now }
{
    match outcome {
        Outcome::Wrote(written) => written.ticket,
        Outcome::Waits(_, _) => 0,
        Outcome::Expired(ended) => ended.ticket,
    }
}
