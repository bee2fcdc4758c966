//! Reads refused words once more, for the first cause.
use crate::explanation::Explanation;
use crate::options::{
    CHECK_OPTIONS, Known, REPEATED, REQUIRED, Takes, known, meant_check_option, meant_command,
    meant_option,
};
use entry_codec::read_decimal;
use rights_types::MAX_SITES;
use site_words::is_system_name;
use std::alloc::{AllocError, Global};

/// The shortest time of `--silent` besides 0, in milliseconds.
const SECOND: u64 = 1_000;

/// Why these words are refused.
pub fn explain<'a>(alloc: Global, words: &[&'a str]) -> Result<Explanation<'a>, AllocError> {
    match words {
        [] => Ok(Explanation::NoWords),
        [first, others @ ..] if *first == "run" => explain_run(alloc, others),
        [first, others @ ..] if *first == "sim" => Ok(explain_sim(others)),
        [first, others @ ..] if *first == "check-journal" => explain_check(alloc, others),
        [first, _, ..] if *first == "help" => Ok(Explanation::HelpAlone),
        [first, ..] => Ok(Explanation::NoSuchWord(first, meant_command(alloc, first)?)),
    }
}

fn explain_sim<'a>(words: &[&'a str]) -> Explanation<'a> {
    for word in words {
        if *word != "--" {
            return Explanation::Further(word);
        }
    }
    Explanation::Other
}

fn explain_check<'a>(alloc: Global, words: &[&'a str]) -> Result<Explanation<'a>, AllocError> {
    let mut is_behind_options = false;
    let mut has_path = false;
    let mut has_json = false;
    for word in words {
        if is_behind_options || !word.starts_with('-') {
            if has_path {
                return Ok(Explanation::FurtherPath(word));
            }
            has_path = true;
        } else if *word == "--" {
            is_behind_options = true;
        } else if let Some(cause) = wrong_check_option(alloc, word, has_json)? {
            return Ok(cause);
        } else {
            has_json = true;
        }
    }
    Ok(if has_path {
        Explanation::Other
    } else {
        Explanation::NoPath
    })
}

/// What is wrong with a word of `check-journal` that begins as an option; `--json` may have been given before.
fn wrong_check_option<'a>(
    alloc: Global,
    word: &'a str,
    has_json: bool,
) -> Result<Option<Explanation<'a>>, AllocError> {
    if word == "--json" {
        return Ok(has_json.then_some(Explanation::Twice("--json")));
    }
    let name = match word.split_once('=') {
        Some((name, _)) => name,
        None => word,
    };
    for option in CHECK_OPTIONS {
        if name == option {
            return Ok(Some(Explanation::TakesNoValue(option)));
        }
    }
    Ok(Some(Explanation::NoSuchWord(word, meant_check_option(alloc, name)?)))
}

fn explain_run<'a>(alloc: Global, words: &[&'a str]) -> Result<Explanation<'a>, AllocError> {
    let mut reading = Reading::new(alloc);
    for word in words {
        if let Some(cause) = reading.read(word)? {
            return Ok(cause);
        }
    }
    let mut cause = reading.missing();
    if cause.is_none() {
        cause = reading.wrong_peer()?;
    }
    if cause.is_none() {
        cause = reading.wrong_entrance()?;
    }
    Ok(cause.unwrap_or(Explanation::Other))
}

/// What was read of the words of `run`.
#[derive(Drop)]
struct Reading<'a> {
    alloc: Global,
    /// The option whose value comes next.
    awaits: Option<Known>,
    /// Whether no more options come.
    is_behind_options: bool,
    given: Vec<&'static str>,
    id: u64,
    sites: u64,
    peers: Vec<&'a str>,
    froms: Vec<&'a str>,
}

impl<'a> Reading<'a> {
    fn new(alloc: Global) -> Reading<'a> {
        Reading {
            alloc,
            awaits: None,
            is_behind_options: false,
            given: Vec::new(alloc),
            id: 0,
            sites: 0,
            peers: Vec::new(alloc),
            froms: Vec::new(alloc),
        }
    }

    /// Reads one word; the cause if it is wrong.
    fn read(&mut self, word: &'a str) -> Result<Option<Explanation<'a>>, AllocError> {
        if let Some(option) = self.awaits {
            self.awaits = None;
            return self.read_value(option, word, word.starts_with('-'));
        }
        if self.is_behind_options || !word.starts_with('-') {
            self.peers.push(word)?;
            return Ok(None);
        }
        if word == "--" {
            self.is_behind_options = true;
            return Ok(None);
        }
        match word.split_once('=') {
            Some((name, value)) => self.read_option(word, name, Some(value)),
            None => self.read_option(word, word, None),
        }
    }

    /// Reads an option, with its value if that is in the same word.
    fn read_option(
        &mut self,
        word: &'a str,
        name: &'a str,
        value: Option<&'a str>,
    ) -> Result<Option<Explanation<'a>>, AllocError> {
        let Some(known) = known(name) else {
            let meant = meant_option(self.alloc, name)?;
            return Ok(Some(Explanation::NoSuchWord(word, meant)));
        };
        let (option, takes) = known;
        if !REPEATED.as_slice().contains(&option) && self.given.as_slice().contains(&option) {
            return Ok(Some(Explanation::Twice(option)));
        }
        self.given.push(option)?;
        match (takes, value) {
            (Takes::Nothing, None) => Ok(None),
            (Takes::Nothing, Some(_)) => Ok(Some(Explanation::TakesNoValue(option))),
            (_, Some(value)) => self.read_value(known, value, false),
            (_, None) => {
                self.awaits = Some(known);
                Ok(None)
            }
        }
    }

    /// Reads the value of an option; the cause if it is wrong.
    fn read_value(
        &mut self,
        known: Known,
        value: &'a str,
        is_option: bool,
    ) -> Result<Option<Explanation<'a>>, AllocError> {
        let (option, takes) = known;
        if is_option {
            return Ok(Some(Explanation::NoValue(option)));
        }
        let Takes::Number(least, most) = takes else {
            return self.read_text(option, value);
        };
        let Ok(number) = value.parse::<u64>() else {
            return Ok(Some(Explanation::NoNumber(option, value)));
        };
        if number < least || number > most {
            return Ok(Some(Explanation::OutOfRange(option, value, least, most)));
        }
        if option == "--silent" && number > 0 && number < SECOND {
            return Ok(Some(Explanation::ShortSilence(value)));
        }
        if option == "--id" {
            self.id = number;
        } else if option == "--sites" {
            self.sites = number;
        }
        Ok(None)
    }

    /// Reads the value of an option that is no number; the cause if it is wrong.
    fn read_text(
        &mut self,
        option: &'static str,
        value: &'a str,
    ) -> Result<Option<Explanation<'a>>, AllocError> {
        if option == "--from" {
            self.froms.push(value)?;
        }
        let is_wrong = option == "--system" && !is_system_name(value.as_bytes());
        Ok(is_wrong.then_some(Explanation::NoName(value)))
    }

    /// Which options exclude each other, or lack another one.
    fn excluded(&self) -> Option<Explanation<'a>> {
        let given = self.given.as_slice();
        let has_journal = given.contains(&"--journal");
        if has_journal && given.contains(&"--once") {
            return Some(Explanation::OnceAndJournal);
        }
        if !has_journal && given.contains(&"--system") {
            return Some(Explanation::SystemAlone);
        }
        None
    }

    /// What is missing among the options, or does not fit.
    fn missing(&self) -> Option<Explanation<'a>> {
        if let Some((option, _)) = self.awaits {
            return Some(Explanation::NoValue(option));
        }
        for option in REQUIRED {
            let is_open = option == "--listen" && !self.froms.is_empty();
            if !is_open && !self.given.as_slice().contains(&option) {
                return Some(Explanation::Missing(option));
            }
        }
        if self.id > self.sites {
            return Some(Explanation::AboveSites(self.id, self.sites));
        }
        self.excluded()
    }

    /// What is wrong with the peers.
    fn wrong_peer(&self) -> Result<Option<Explanation<'a>>, AllocError> {
        let mut named = Vec::new(self.alloc);
        for word in &self.peers {
            match self.site_in(word, named.as_slice()) {
                Named::Site(site) => named.push(site)?,
                Named::None => return Ok(Some(Explanation::NoPeer(word))),
                Named::Unknown(number) => {
                    return Ok(Some(Explanation::NoSuchPeer(number, self.sites)));
                }
                Named::Own(site) => return Ok(Some(Explanation::OwnPeer(site))),
                Named::Twice(site) => return Ok(Some(Explanation::PeerTwice(site))),
            }
        }
        match self.first_other(named.as_slice()) {
            Some(site) => Ok(Some(Explanation::PeerMissing(site))),
            None => Ok(None),
        }
    }

    /// What is wrong with the entrances.
    fn wrong_entrance(&self) -> Result<Option<Explanation<'a>>, AllocError> {
        let mut named = Vec::new(self.alloc);
        for word in &self.froms {
            match self.site_in(word, named.as_slice()) {
                Named::Site(site) => named.push(site)?,
                Named::None => return Ok(Some(Explanation::NoEntrance(word))),
                Named::Unknown(number) => {
                    return Ok(Some(Explanation::NoSuchEntrance(number, self.sites)));
                }
                Named::Own(site) => return Ok(Some(Explanation::OwnEntrance(site))),
                Named::Twice(site) => return Ok(Some(Explanation::EntranceTwice(site))),
            }
        }
        if self.given.as_slice().contains(&"--listen") {
            return Ok(None);
        }
        match self.first_other(named.as_slice()) {
            Some(site) => Ok(Some(Explanation::NoWayIn(site))),
            None => Ok(None),
        }
    }

    /// The site that a word `J=ADDRESS` names, where these are named already.
    fn site_in(&self, word: &'a str, named: &[u64]) -> Named<'a> {
        let Some((number, _)) = word.split_once('=') else {
            return Named::None;
        };
        match read_decimal(number.as_bytes(), 1, MAX_SITES) {
            Some(site) if site > self.sites => Named::Unknown(number),
            Some(site) if site == self.id => Named::Own(site),
            Some(site) if named.contains(&site) => Named::Twice(site),
            Some(site) => Named::Site(site),
            None => Named::Unknown(number),
        }
    }

    /// The first other site that is not named.
    fn first_other(&self, named: &[u64]) -> Option<u64> {
        for site in 1..=self.sites {
            if site != self.id && !named.contains(&site) {
                return Some(site);
            }
        }
        None
    }
}

/// What a word `J=ADDRESS` names.
#[derive(Clone, Copy)]
enum Named<'a> {
    /// A site that is not named before.
    Site(u64),
    /// Nothing: it is not of this form.
    None,
    /// No site, by this number.
    Unknown(&'a str),
    /// The site itself.
    Own(u64),
    /// A site that is named before.
    Twice(u64),
}
