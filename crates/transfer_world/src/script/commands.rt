//! What the lines of a script ask for.
ghost use Rattle.std.specs.Prelude.{◌≡◌, ℕ, List, [], ◌≤◌, length, vec_capacity, true, IfOk, OnErr};
ghost use Rattle.entry_codec.specs.Parts.{Finds};
ghost use Rattle.line_streams.specs.Words.{words_of, words_left};
ghost use Rattle.line_streams.specs.Handling.{IsGiven};
ghost use Rattle.transfer_world.specs.Commands.{moves_in, two_sites, site_event, link_event, event_on_link, post_of};
ghost use Rattle.transfer_world.specs.Commands.{noise_parts, noise_of, sites_of, act, command_by, command_in};
ghost use Rattle.transfer_world.specs.Commands.{command_of, takes_memory, TakeMemory};

use crate::script::word::{LinkWord, SiteWord, Word, first_word};
use entry_codec::read_move;
use line_streams::{
    alone, first_number, first_site, only_in, only_number, only_site, optional_site,
    site_and_number, split_word,
};
use rights_types::{MAX_SITES, MIN_SITES, Move, OutOfMemory, SiteId};
use site_core::Line;
use std::alloc::Allocator;
use std::marker::Model;
use world_core::{Event, Moves};

/// The command of a line.
#[derive(Drop)]
pub(crate) enum ScriptCommand<A: Allocator> {
    /// Makes a world of this many sites.
    Sites(SiteCount),
    /// Lets this event happen in the world.
    Act(Event<A>),
    /// Prints the state of all sites and pairs.
    Report,
}

/// How many sites a world has, from 2 to 16.
#[derive(Clone, Copy)]
pub(crate) struct SiteCount {
    count: u8,
}

impl Model for SiteCount {
    ghost use Rattle.std.specs.Prelude.{ℕ, ◌≤◌};
    ghost use Rattle.rights_types.specs.declared.limits.TheConstants.{MIN_SITES, MAX_SITES};

    ghost Value = { ℕ };

    ghost view = { λ s. s.count };

    ghost invariant = { λ s. (MIN_SITES ≤ s.count) × (s.count ≤ MAX_SITES) };

    ghost inverse = { λ n. record { count = n } };
}

impl SiteCount {
    fn known(count: u64) -> SiteCount
        requires { (MIN_SITES ≤ count) × (count ≤ MAX_SITES) }
        ensures { result ≡ count }
    {
        SiteCount { count: count as u8 }
    }

    pub(crate) fn number(self) -> u64
        ensures value { result ≡ self }
        ensures range { (MIN_SITES ≤ result) × (result ≤ MAX_SITES) }
    {
        self.count as u64
    }
}

/// The moves that these words spell.
fn read_moves<A: Allocator>(alloc: A, words: Option<&[u8]>) -> Result<Option<Moves<A>>, OutOfMemory>
    ensures { IfOk result (λ moves. moves ≡ moves_in (words_left words.entry)) }
{
    let mut moves = move_room(alloc, words)?;
    let mut left = words;
    while let Some(text) = left {
        let (word, more) = split_word(text);
        let Some(next) = read_move(word) else {
            return Ok(None);
        };
        moves.push(next)?;
        left = more;
    }
    Ok(Some(Moves::new(moves)))
}

/// Memory for one move for each word, and no more: a post keeps it.
fn move_room<A: Allocator>(alloc: A, words: Option<&[u8]>) -> Result<Vec<Move, A>, OutOfMemory>
    ensures empty { IfOk result (λ room. room.items ≡ []) }
    ensures exact { IfOk result (λ room. vec_capacity room ≡ length (words_left words.entry)) }
{
    let count = match words {
        None => 0,
        Some(text) => count_words(text),
    };
    Ok(Vec::with_capacity(alloc, count)?)
}

fn count_words(text: &[u8]) -> usize
    ensures { result ≡ length (words_of text.now) }
{
    let mut count = 1;
    for byte in text {
        if *byte == b' ' {
            count += 1;
        }
    }
    count
}

#[tactic(auto, unfolding(crate::specs::Commands::post_of))]
fn read_post<A: Allocator>(alloc: A, values: Option<&[u8]>) -> Result<Option<Event<A>>, OutOfMemory>
    ensures { IfOk result (λ event. event ≡ post_of (words_left values.entry)) }
{
    let Some((site, words)) = first_site(values) else {
        return Ok(None);
    };
    match read_moves(alloc, words)? {
        Some(moves) => Ok(Some(Event::Post(SiteId::known(site), moves))),
        None => Ok(None),
    }
}

/// The two sites of noise, and its text: everything after the space that follows them.
#[tactic(auto, unfolding(crate::specs::Commands::noise_parts))]
fn noise_parts(values: Option<&[u8]>) -> Option<(SiteId, SiteId, &[u8])>
    ensures { Finds (λ x. (x.0, x.1, x.2.now)) result (noise_parts (words_left values.entry)) }
{
    let (site, rest) = first_site(values)?;
    let (origin, text) = first_site(rest)?;
    Some((SiteId::known(site), SiteId::known(origin), text?))
}

#[tactic(auto, unfolding(crate::specs::Commands::noise_of))]
fn read_noise<A: Allocator>(
    alloc: A,
    values: Option<&[u8]>,
) -> Result<Option<Event<A>>, OutOfMemory>
    ensures { IfOk result (λ event. event ≡ noise_of (words_left values.entry)) }
{
    let Some((site, origin, text)) = noise_parts(values) else {
        return Ok(None);
    };
    let mut line = Vec::with_capacity(alloc, text.len() + 1)?;
    line.extend_from_slice(text)?;
    line.push(b'\n')?;
    Ok(Some(Event::Noise(site, origin, Line::new(line))))
}

#[inline(always)]
#[tactic(auto, unfolding(crate::specs::Commands::two_sites))]
fn two_sites(values: Option<&[u8]>) -> Option<(SiteId, SiteId)>
    ensures { result ≡ two_sites (words_left values.entry) }
{
    let (site, rest) = first_site(values)?;
    Some((SiteId::known(site), only_site(rest)?))
}

#[tactic(auto, unfolding(crate::specs::Commands::site_event))]
fn give_event<A: Allocator>(values: Option<&[u8]>) -> Option<Event<A>>
    ensures { result ≡ site_event SiteWord.Give (words_left values.entry) }
{
    let (site, rest) = first_site(values)?;
    let (peer, amount) = site_and_number(rest)?;
    Some(Event::Give(SiteId::known(site), peer, amount))
}

#[tactic(auto, unfolding(crate::specs::Commands::site_event))]
fn spend_event<A: Allocator>(values: Option<&[u8]>) -> Option<Event<A>>
    ensures { result ≡ site_event SiteWord.Spend (words_left values.entry) }
{
    let (site, rest) = first_site(values)?;
    let (amount, rest) = first_number(rest)?;
    let deadline = only_number(rest)?;
    Some(Event::Spend(SiteId::known(site), amount, deadline))
}

#[tactic(auto, unfolding(crate::specs::Commands::site_event))]
fn close_event<A: Allocator>(values: Option<&[u8]>) -> Option<Event<A>>
    ensures { result ≡ site_event SiteWord.Close (words_left values.entry) }
{
    let (site, rest) = first_site(values)?;
    Some(Event::Close(SiteId::known(site), optional_site(rest)?))
}

#[tactic(auto, unfolding(crate::specs::Commands::site_event))]
fn site_event<A: Allocator>(word: SiteWord, values: Option<&[u8]>) -> Option<Event<A>>
    ensures { result ≡ site_event word (words_left values.entry) }
{
    match word {
        SiteWord::Issue => {
            let (site, amount) = site_and_number(values)?;
            Some(Event::Issue(site, amount))
        }
        SiteWord::Give => give_event(values),
        SiteWord::Spend => spend_event(values),
        SiteWord::Serve => Some(Event::Serve(only_site(values)?)),
        SiteWord::Expire => {
            let (site, time) = site_and_number(values)?;
            Some(Event::Expire(site, time))
        }
        SiteWord::Status => {
            let (site, ticket) = site_and_number(values)?;
            Some(Event::Status(site, ticket))
        }
        SiteWord::Plan => Some(Event::Plan(only_site(values)?)),
        SiteWord::Arrive => {
            let (site, packet) = site_and_number(values)?;
            Some(Event::Arrive(site, packet))
        }
        SiteWord::Close => close_event(values),
    }
}

fn link_event<A: Allocator>(word: LinkWord, site: SiteId, other: SiteId) -> Event<A>
    ensures { result ≡ link_event word site other }
{
    match word {
        LinkWord::Ask => Event::Ask(site, other),
        LinkWord::Publish => Event::Publish(site, other),
        LinkWord::Beat => Event::Beat(site, other),
        LinkWord::Query => Event::Query(site, other, false),
        LinkWord::Requery => Event::Query(site, other, true),
        LinkWord::Take => Event::Take(site, other),
    }
}

#[tactic(auto, unfolding(crate::specs::Commands::event_on_link))]
fn event_on_link<A: Allocator>(word: LinkWord, values: Option<&[u8]>) -> Option<Event<A>>
    ensures { result ≡ event_on_link word (words_left values.entry) }
{
    let (site, other) = two_sites(values)?;
    Some(link_event(word, site, other))
}

#[tactic(auto, unfolding(crate::specs::Commands::sites_of))]
fn read_sites<A: Allocator>(values: Option<&[u8]>) -> Option<ScriptCommand<A>>
    ensures { result ≡ sites_of (words_left values.entry) }
{
    let count = only_in(values, MIN_SITES, MAX_SITES)?;
    Some(ScriptCommand::Sites(SiteCount::known(count)))
}

fn act<A: Allocator>(event: Option<Event<A>>) -> Option<ScriptCommand<A>>
    ensures { result ≡ act event }
{
    Some(ScriptCommand::Act(event?))
}

/// The command of a first word, with its values.
#[tactic(auto, unfolding(crate::specs::Commands::command_by))]
fn read_values<A: Allocator>(
    alloc: A,
    word: Word,
    values: Option<&[u8]>,
) -> Result<Option<ScriptCommand<A>>, OutOfMemory>
    ensures means { IfOk result (λ command. command ≡ command_by word (words_left values.entry)) }
    ensures memory { OnErr result (takes_memory word ≡ true) }
{
    Ok(match word {
        Word::Sites => read_sites(values),
        Word::Post => act(read_post(alloc, values)?),
        Word::AtSite(word) => act(site_event(word, values)),
        Word::OnLink(word) => act(event_on_link(word, values)),
        Word::Noise => act(read_noise(alloc, values)?),
        Word::Report => alone(ScriptCommand::Report, values),
    })
}

/// The command of a line that is not too long.
#[tactic(auto, unfolding(crate::specs::Commands::command_in))]
fn parse_line<A: Allocator>(alloc: A, text: &[u8]) -> Result<Option<ScriptCommand<A>>, OutOfMemory>
    ensures means { IfOk result (λ command. command ≡ command_in text.now) }
    ensures memory { OnErr result (TakeMemory (words_of text.now)) }
{
    match first_word(text) {
        Some((word, values)) => read_values(alloc, word, values),
        None => Ok(None),
    }
}

/// The command of a line, given without its line feed; None if it spells none. A line that is too long spells none.
pub(crate) fn read_command<A: Allocator>(
    alloc: A,
    text: Option<&[u8]>,
) -> Result<Option<ScriptCommand<A>>, OutOfMemory>
    ensures means { (line : List ℕ) → IsGiven line text.entry → IfOk result (λ command. command ≡ command_of line) }
    ensures memory { OnErr result (TakeMemory (words_left text.entry)) }
{
    match text {
        Some(text) => parse_line(alloc, text),
        None => Ok(None),
    }
}
