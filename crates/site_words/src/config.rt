//! The configuration of a site: its number, the number of sites, the addresses, and the options.
ghost use Rattle.std.specs.Prelude.{◌≡◌, ◌≤◌, ℕ, List, IfOk, IfSome, MatchOption, MatchResult, map, option_map, false};
ghost use Rattle.std.specs.Prelude.{true};
ghost use Rattle.std.specs.List.{All};
ghost use Rattle.std.specs.String.{string_bytes};
ghost use Rattle.clap.specs.Walk.{texts, Text};
ghost use Rattle.rights_types.specs.Ranges.{IsSite};
ghost use Rattle.rights_types.specs.declared.limits.TheConstants.{MAX_SITES};
ghost use Rattle.site_words.specs.declared.config.TheConstants.{MAX_KEYS};
ghost use Rattle.site_words.specs.Settings.{HasValues, IsKeyCount, IsNamed, IsSettings, IsSilence, IsTick, Lacks};
ghost use Rattle.site_words.specs.Settings.{AreEntrances, IsJournaling, IsOther, Peer, has_entrance, is_admitted};
ghost use Rattle.site_words.specs.Settings.{keys_of, others, peer_word, silent_after};
ghost use Rattle.site_words.specs.Words.{IsSetBy};
ghost use Rattle.site_words.specs.declared.words.WordsFault.{WordsFault};

use crate::name::is_system_name;
use crate::words::WordsFault;
use entry_codec::read_decimal;
use rights_types::{MAX_SITES, MIN_SITES, SiteId};
use std::alloc::{AllocError, Global};
use std::marker::Model;

/// The shortest interval at which a site ticks itself, in milliseconds.
pub const MIN_TICK: u64 = 1;

/// The longest interval at which a site ticks itself, in milliseconds.
pub const MAX_TICK: u64 = 60_000;

/// The shortest time after which a peer can count as silent, in milliseconds.
pub const MIN_SILENCE: u64 = 1_000;

/// The longest time after which a peer can count as silent, in milliseconds.
pub const MAX_SILENCE: u64 = 3_600_000;

/// After how many milliseconds a peer counts as silent if the words do not say, unless the site ticks too rarely.
pub const USUAL_SILENCE: u64 = 3_000;

/// .. and of how many of the site's own ticks that time is at least.
pub const TICKS_OF_SILENCE: u64 = 10;

/// How many keys of commands a site remembers at most.
pub const MAX_KEYS: u64 = 10_000_000;

/// How many keys it remembers if the words do not say.
pub const USUAL_KEYS: u64 = 1_000_000;

/// A peer, and an address: where it listens, or the one at which this site lets it in.
#[derive(Drop)]
pub struct PeerAddress {
    site: SiteId,
    address: String,
}

impl Model for PeerAddress {
    ghost use Rattle.std.specs.String.{string_bytes};
    ghost use Rattle.site_words.specs.Settings.{Peer};

    ghost Value = { Peer };

    ghost view = { λ peer. record { site = peer.site; address = string_bytes peer.address } };
}

impl PeerAddress {
    /// The peer's number.
    pub fn site(&self) -> SiteId
        ensures { result ≡ self.now.site }
    {
        self.site
    }

    /// The address, as the words have it. It may be empty or unusable.
    pub fn address(&self) -> &str
        ensures { result.now ≡ self.now.address }
    {
        self.address.as_str()
    }
}

/// The values of the optional settings.
#[derive(Drop)]
pub(crate) struct OptionValues<'a> {
    pub(crate) http: Option<&'a str>,
    pub(crate) hosts: &'a [&'a str],
    pub(crate) tick: Option<u64>,
    pub(crate) silent: Option<u64>,
    pub(crate) keys: Option<u64>,
    pub(crate) once: Option<&'a str>,
    pub(crate) journal: Option<&'a str>,
    pub(crate) system: Option<&'a str>,
    pub(crate) log: bool,
}

impl<'a> Model for OptionValues<'a> {
    ghost use Rattle.std.specs.Prelude.{option_map};
    ghost use Rattle.clap.specs.Walk.{texts};
    ghost use Rattle.site_words.specs.Settings.{Options};

    ghost Value = { Options };

    ghost view = { λ values. record {
      http = option_map (λ s. s.now) values.http;
      hosts = texts values.hosts.now;
      tick = values.tick;
      silent = values.silent;
      keys = values.keys;
      once = option_map (λ s. s.now) values.once;
      journal = option_map (λ s. s.now) values.journal;
      system = option_map (λ s. s.now) values.system;
      log = values.log;
    } };
}

/// The configuration of one site.
#[derive(Drop)]
pub struct Config {
    id: SiteId,
    sites: u64,
    listen: Option<String>,
    peers: Vec<PeerAddress>,
    entrances: Vec<PeerAddress>,
    http: Option<String>,
    hosts: Vec<String>,
    tick: Option<u64>,
    silent: Option<u64>,
    keys: Option<u64>,
    once: Option<String>,
    journal: Option<String>,
    system: Option<String>,
    log: bool,
}

impl Model for Config {
    ghost use Rattle.std.specs.Prelude.{map, option_map};
    ghost use Rattle.std.specs.String.{string_bytes};
    ghost use Rattle.site_words.specs.Settings.{Settings, IsSettings};

    ghost Value = { Settings };

    ghost view = { λ config. record {
      id = config.id;
      sites = config.sites;
      listen = option_map string_bytes config.listen;
      peers = config.peers.items;
      entrances = config.entrances.items;
      options = record {
        http = option_map string_bytes config.http;
        hosts = map string_bytes config.hosts.items;
        tick = config.tick;
        silent = config.silent;
        keys = config.keys;
        once = option_map string_bytes config.once;
        journal = option_map string_bytes config.journal;
        system = option_map string_bytes config.system;
        log = config.log;
      };
    } };

    ghost invariant = { λ config. IsSettings (record {
      id = config.id;
      sites = config.sites;
      listen = option_map string_bytes config.listen;
      peers = config.peers.items;
      entrances = config.entrances.items;
      options = record {
        http = option_map string_bytes config.http;
        hosts = map string_bytes config.hosts.items;
        tick = config.tick;
        silent = config.silent;
        keys = config.keys;
        once = option_map string_bytes config.once;
        journal = option_map string_bytes config.journal;
        system = option_map string_bytes config.system;
        log = config.log;
      };
    }) };
}

impl Config {
    /// Its number.
    pub fn id(&self) -> SiteId
        ensures value { result ≡ self.now.id }
        ensures valid { IsSettings self.now }
    {
        self.id
    }

    /// How many sites the system has, from 2 to 16.
    pub fn sites(&self) -> u64
        ensures value { result ≡ self.now.sites }
        ensures valid { IsSettings self.now }
    {
        self.sites
    }

    /// The address that it listens on for each peer that has no entrance of its own, as the words have it. None only if
    /// every peer has one.
    pub fn listen(&self) -> Option<&str>
        ensures value { option_map (λ s. s.now) result ≡ self.now.listen }
        ensures valid { IsSettings self.now }
    {
        self.listen.as_deref()
    }

    /// The other sites, by number, each once.
    pub fn peers(&self) -> &[PeerAddress]
        ensures value { result.now ≡ self.now.peers }
        ensures valid { IsSettings self.now }
    {
        self.peers.as_slice()
    }

    /// The entrances: the peers that may connect at one address only, each once, with that address of this site.
    pub fn entrances(&self) -> &[PeerAddress]
        ensures value { result.now ≡ self.now.entrances }
        ensures valid { IsSettings self.now }
    {
        self.entrances.as_slice()
    }

    /// Whether a connection whose first line names this peer is taken: at the entrance of `owner`, or at the address
    /// that the peers share if `owner` is None.
    pub fn admits(&self, owner: Option<SiteId>, peer: SiteId) -> bool
        ensures value { result ≡ is_admitted self.now.entrances owner peer }
        ensures valid { IsSettings self.now }
    {
        match owner {
            Some(owner) => owner == peer,
            None => !has_entrance(self.entrances.as_slice(), peer.number()),
        }
    }

    /// The address at which it also serves HTTP, as the words have it; None if it does not.
    pub fn http(&self) -> Option<&str>
        ensures value { option_map (λ s. s.now) result ≡ self.now.options.http }
        ensures valid { IsSettings self.now }
    {
        self.http.as_deref()
    }

    /// The names of its host, besides `localhost`, to which it answers over HTTP, as the words have them.
    pub fn hosts(&self) -> &[String]
        ensures value { map string_bytes result.now ≡ self.now.options.hosts }
        ensures valid { IsSettings self.now }
    {
        self.hosts.as_slice()
    }

    /// The interval at which it ticks itself, in milliseconds, from `MIN_TICK` to `MAX_TICK`; None if it does not.
    pub fn tick(&self) -> Option<u64>
        ensures value { result ≡ self.now.options.tick }
        ensures valid { IsSettings self.now }
    {
        self.tick
    }

    /// After how many milliseconds with no line of a peer it counts the peer as silent: what the words say, or three
    /// seconds, or ten of its own ticks if that is more. None if it never does, as without ticks of its own.
    pub fn silent_after(&self) -> Option<u64>
        ensures value { result ≡ silent_after self.now.options }
        ensures valid { IsSettings self.now }
    {
        let tick = self.tick?;
        match self.silent {
            Some(0) => None,
            Some(milliseconds) => Some(milliseconds),
            None => Some(USUAL_SILENCE.max(TICKS_OF_SILENCE * tick)),
        }
    }

    /// How many keys of commands that wrote entries it remembers, at most `MAX_KEYS`: what the words say, or
    /// `USUAL_KEYS`. With 0, commands with keys are refused.
    pub fn keys(&self) -> u64
        ensures value { result ≡ keys_of self.now.options }
        ensures valid { IsSettings self.now }
        ensures most { result ≤ MAX_KEYS }
    {
        self.keys.unwrap_or(USUAL_KEYS)
    }

    /// The path of the file that it creates at its start, as the words have it. A site does not start if that file
    /// exists.
    pub fn once(&self) -> Option<&str>
        ensures value { option_map (λ s. s.now) result ≡ self.now.options.once }
        ensures valid { IsSettings self.now }
    {
        self.once.as_deref()
    }

    /// The path of its journal, as the words have it; None if it has none. A site with a journal has no file of `once`.
    pub fn journal(&self) -> Option<&str>
        ensures value { option_map (λ s. s.now) result ≡ self.now.options.journal }
        ensures valid { IsSettings self.now }
    {
        self.journal.as_deref()
    }

    /// The name of the system, which a new journal gets: 1 to 32 letters, digits and hyphens. None if it has none, as
    /// a site without a journal.
    pub fn system(&self) -> Option<&str>
        ensures value { option_map (λ s. s.now) result ≡ self.now.options.system }
        ensures valid { IsSettings self.now }
    {
        self.system.as_deref()
    }

    /// Whether it logs events on links and clients to standard error.
    pub fn log(&self) -> bool
        ensures value { result ≡ self.now.options.log }
        ensures valid { IsSettings self.now }
    {
        self.log
    }

    /// The configuration with these values, where each of the `words` names a peer, and each of `froms` an entrance.
    /// `Refused` if a value is out of range, if the peers are not exactly the other sites, if an entrance is of no other
    /// site or a second one, or if a peer could not come in.
    pub(crate) fn of_words(
        alloc: Global,
        id: u64,
        sites: u64,
        listen: Option<&str>,
        words: &[&str],
        froms: &[&str],
        options: OptionValues<'_>,
    ) -> Result<Config, WordsFault>
        ensures { IsSetBy (HasValues id sites (option_map (λ s. s.now) listen.entry) (texts words.now)
            (texts froms.now) options.entry) result }
    {
        if id < 1 || id > sites || sites < MIN_SITES || sites > MAX_SITES {
            return Err(WordsFault::Refused);
        }
        if words.len() as u64 != sites - 1 {
            return Err(WordsFault::Refused);
        }
        if listen.is_none() && froms.len() as u64 != sites - 1 {
            return Err(WordsFault::Refused);
        }
        if !is_tick(options.tick) || !is_silence(options.silent) || !is_key_count(options.keys) {
            return Err(WordsFault::Refused);
        }
        if !is_journaling(options.once, options.journal, options.system) {
            return Err(WordsFault::Refused);
        }
        Ok(Config {
            id: SiteId::known(id),
            sites,
            listen: owned(alloc, listen)?,
            peers: other_peers(alloc, id, sites, words)?,
            entrances: entrances_of(alloc, id, sites, froms)?,
            http: owned(alloc, options.http)?,
            hosts: owned_all(alloc, options.hosts)?,
            tick: options.tick,
            silent: options.silent,
            keys: options.keys,
            once: owned(alloc, options.once)?,
            journal: owned(alloc, options.journal)?,
            system: owned(alloc, options.system)?,
            log: options.log,
        })
    }
}

/// Whether a site may tick itself at this interval, or not at all.
fn is_tick(tick: Option<u64>) -> bool
    ensures yes { result ≡ true → IfSome tick IsTick }
    ensures no { result ≡ false → IfSome tick IsTick → ⊥ }
{
    match tick {
        Some(milliseconds) => milliseconds >= MIN_TICK && milliseconds <= MAX_TICK,
        None => true,
    }
}

/// Whether a peer may count as silent after this time, or none is given.
fn is_silence(time: Option<u64>) -> bool
    ensures yes { result ≡ true → IfSome time IsSilence }
    ensures no { result ≡ false → IfSome time IsSilence → ⊥ }
{
    match time {
        Some(milliseconds) => {
            milliseconds == 0 || milliseconds >= MIN_SILENCE && milliseconds <= MAX_SILENCE
        }
        None => true,
    }
}

/// Whether a site may remember so many keys, or none are given.
fn is_key_count(count: Option<u64>) -> bool
    ensures yes { result ≡ true → IfSome count IsKeyCount }
    ensures no { result ≡ false → IfSome count IsKeyCount → ⊥ }
{
    match count {
        Some(keys) => keys <= MAX_KEYS,
        None => true,
    }
}

/// Whether a site may have these: a file that it creates at its start or a journal, and a name of its system only
/// beside a journal.
fn is_journaling(once: Option<&str>, journal: Option<&str>, system: Option<&str>) -> bool
    ensures yes { result ≡ true → IsJournaling (option_map (λ s. s.now) once.entry)
        (option_map (λ s. s.now) journal.entry) (option_map (λ s. s.now) system.entry) }
    ensures no { result ≡ false → IsJournaling (option_map (λ s. s.now) once.entry)
        (option_map (λ s. s.now) journal.entry) (option_map (λ s. s.now) system.entry) → ⊥ }
{
    if once.is_some() && journal.is_some() {
        return false;
    }
    match system {
        Some(name) => journal.is_some() && is_system_name(name.as_bytes()),
        None => true,
    }
}

/// A copy of a text, if there is one.
fn owned(alloc: Global, text: Option<&str>) -> Result<Option<String>, AllocError>
    ensures { IfOk result (λ copy. option_map string_bytes copy ≡ option_map (λ s. s.now) text.entry) }
{
    match text {
        Some(text) => Ok(Some(String::from_str(alloc, text)?)),
        None => Ok(None),
    }
}

/// Copies of these texts.
fn owned_all(alloc: Global, names: &[&str]) -> Result<Vec<String>, AllocError>
    ensures { IfOk result (λ copies. map string_bytes copies.items ≡ texts names.now) }
{
    let mut copies = Vec::with_capacity(alloc, names.len())?;
    for name in names {
        copies.push(String::from_str(alloc, name)?)?;
    }
    Ok(copies)
}

/// The other sites, each with the address in the first word that names it.
fn other_peers(
    alloc: Global,
    id: u64,
    sites: u64,
    words: &[&str],
) -> Result<Vec<PeerAddress>, WordsFault>
    requires { sites ≤ MAX_SITES }
    ensures { MatchResult result
        (λ peers. (map (λ p. p.site) peers.items ≡ others id sites) × All (IsNamed (texts words.now)) peers.items)
        (λ fault. fault ≡ WordsFault.Refused → Lacks id sites (texts words.now)) }
{
    let mut peers = Vec::new(alloc);
    for index in 0..sites {
        let number = index + 1;
        if number == id {
            continue;
        }
        let address = address_among(words, number).ok_or(WordsFault::Refused)?;
        peers.push(PeerAddress {
            site: SiteId::known(number),
            address: String::from_str(alloc, address)?,
        })?;
    }
    Ok(peers)
}

/// The entrances that these words name.
fn entrances_of(
    alloc: Global,
    id: u64,
    sites: u64,
    words: &[&str],
) -> Result<Vec<PeerAddress>, WordsFault>
    requires { sites ≤ MAX_SITES }
    ensures { MatchResult result
        (λ ps. AreEntrances id sites ps.items × (map peer_word ps.items ≡ texts words.now))
        (λ fault. fault ≡ WordsFault.Refused
        → (ps : List Peer) → AreEntrances id sites ps → map peer_word ps ≡ texts words.now → ⊥) }
{
    let mut entrances = Vec::new(alloc);
    for word in words {
        let (site, address) = entrance_of(word, id, sites).ok_or(WordsFault::Refused)?;
        if has_entrance(entrances.as_slice(), site) {
            return Err(WordsFault::Refused);
        }
        let address = String::from_str(alloc, address)?;
        entrances.push(PeerAddress {
            site: SiteId::known(site),
            address,
        })?;
    }
    Ok(entrances)
}

/// The site and the address in a word `J=ADDRESS`, if J is another site.
fn entrance_of(word: &str, id: u64, sites: u64) -> Option<(u64, &str)>
    requires { sites ≤ MAX_SITES }
    ensures { MatchOption result
        ((p : Peer) → IsOther id sites p.site → word.now ≡ peer_word p → ⊥)
        (λ found. IsOther id sites found.0
        × (word.now ≡ peer_word (record { site = found.0; address = found.1.now }))) }
{
    let (number, address) = word.split_once('=')?;
    let site = read_decimal(number.as_bytes(), 1, sites)?;
    if site == id {
        None
    } else {
        Some((site, address))
    }
}

/// Whether one of these is of this site.
fn has_entrance(entrances: &[PeerAddress], site: u64) -> bool
    ensures { result ≡ has_entrance site entrances.now }
{
    entrances
        .iter()
        .any(|entrance| entrance.site.number() == site)
}

/// The address in the first word that names this site.
fn address_among<'a>(words: &[&'a str], site: u64) -> Option<&'a str>
    requires { IsSite site }
    ensures { MatchOption result
        ((address : Text) → IsNamed (texts words.now) (record { site = site; address = address }) → ⊥)
        (λ found. IsNamed (texts words.now) (record { site = site; address = found.now })) }
{
    for word in words {
        if let Some(address) = address_of(word, site) {
            return Some(address);
        }
    }
    None
}

/// The address in a word `J=ADDRESS`, if J is this site.
fn address_of(word: &str, site: u64) -> Option<&str>
    ensures { MatchOption result
        ((address : Text) → word.now ≡ peer_word (record { site = site; address = address }) → ⊥)
        (λ found. word.now ≡ peer_word (record { site = site; address = found.now })) }
{
    let (number, address) = word.split_once('=')?;
    read_decimal(number.as_bytes(), site, site)?;
    Some(address)
}
