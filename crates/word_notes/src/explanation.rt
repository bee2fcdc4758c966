//! Why words are refused.
use std::alloc::{AllocError, Global};

/// How the program is used, in short.
pub const USAGE: &str = "\
usage: rights-site run --id I --sites N --listen ADDRESS [OPTION..] J=ADDRESS..
       rights-site sim
       rights-site check-journal FILE [--json]
       rights-site run --help
       rights-site --version
";

/// Why words are refused: the first cause that was found.
#[derive(Clone, Copy, Debug, PartialEq, Eq)]
pub enum Explanation<'a> {
    /// There are no words.
    NoWords,
    /// There is no such word, but perhaps one that is meant.
    NoSuchWord(&'a str, Option<&'static str>),
    /// `help` stands alone.
    HelpAlone,
    /// `sim` takes no further word.
    Further(&'a str),
    /// `check-journal` takes one path, and no further word.
    FurtherPath(&'a str),
    /// `check-journal` lacks its path.
    NoPath,
    /// An option is given twice.
    Twice(&'static str),
    /// An option has no value.
    NoValue(&'static str),
    /// An option has a value, and takes none.
    TakesNoValue(&'static str),
    /// The value of an option is not a number.
    NoNumber(&'static str, &'a str),
    /// The value of an option is not from the first of these numbers to the second.
    OutOfRange(&'static str, &'a str, u64, u64),
    /// The value of `--silent` is neither 0 nor at least a second.
    ShortSilence(&'a str),
    /// The value of `--system` is no name of a system.
    NoName(&'a str),
    /// `--once` and `--journal` are both given.
    OnceAndJournal,
    /// `--system` is given without `--journal`.
    SystemAlone,
    /// A required option is missing.
    Missing(&'static str),
    /// The site's number is above the number of sites.
    AboveSites(u64, u64),
    /// The word is not of the form `J=ADDRESS`.
    NoPeer(&'a str),
    /// The number of a peer is not one from 1 to this.
    NoSuchPeer(&'a str, u64),
    /// The peer is the site itself.
    OwnPeer(u64),
    /// A peer is given twice.
    PeerTwice(u64),
    /// A peer is missing.
    PeerMissing(u64),
    /// The value of `--from` is not of the form `J=ADDRESS`.
    NoEntrance(&'a str),
    /// The number in the value of `--from` is not one from 1 to this.
    NoSuchEntrance(&'a str, u64),
    /// The value of `--from` has the number of the site itself.
    OwnEntrance(u64),
    /// `--from` is given twice for a peer.
    EntranceTwice(u64),
    /// Neither `--listen` nor a `--from` for this peer is given.
    NoWayIn(u64),
    /// Something else.
    Other,
}

impl Explanation<'_> {
    /// The line that is printed.
    pub(crate) fn line(&self, alloc: Global) -> Result<String, AllocError> {
        let text = self.text(alloc)?;
        format!(in alloc; "rights-site: {text}\n")
    }

    /// The explanation as a text of one line, without its line feed.
    pub fn text(&self, alloc: Global) -> Result<String, AllocError> {
        match *self {
            Explanation::NoWords => String::from_str(alloc, "there is no word"),
            Explanation::NoSuchWord(word, meant) => no_such_word(alloc, word, meant),
            Explanation::HelpAlone => {
                String::from_str(alloc, "no such word help; it stands alone")
            }
            Explanation::Further(word) => format!(in alloc; "sim takes no further word, as {word}"),
            Explanation::FurtherPath(word) => {
                format!(in alloc; "check-journal takes one file, and no further word, as {word}")
            }
            Explanation::NoPath => String::from_str(alloc, "the path of the journal is missing"),
            Explanation::Missing(option) => format!(in alloc; "{option} is missing"),
            Explanation::AboveSites(id, sites) => {
                format!(in alloc; "--id {id} is above --sites {sites}")
            }
            Explanation::Other => String::from_str(alloc, "see rights-site run --help"),
            _ => self.text_of_value(alloc),
        }
    }

    /// The same for those of an option that is given, or of a peer.
    fn text_of_value(&self, alloc: Global) -> Result<String, AllocError> {
        match *self {
            Explanation::Twice(option) => format!(in alloc; "{option} is given twice"),
            Explanation::NoValue(option) => format!(in alloc; "{option} has no value"),
            Explanation::TakesNoValue(option) => format!(in alloc; "{option} takes no value"),
            Explanation::NoNumber(option, value) => {
                format!(in alloc; "{option} {value} is not a number")
            }
            Explanation::OutOfRange(option, value, least, most) => {
                format!(in alloc; "{option} {value} is not {least} to {most}")
            }
            Explanation::ShortSilence(value) => {
                format!(in alloc; "--silent {value} is neither 0 nor 1000 to 3600000")
            }
            Explanation::NoName(value) => {
                format!(in alloc; "--system {value} is not 1 to 32 letters, digits and hyphens")
            }
            Explanation::OnceAndJournal => {
                String::from_str(alloc, "--once and --journal exclude each other")
            }
            Explanation::SystemAlone => String::from_str(alloc, "--system needs --journal"),
            _ => self.text_of_peer(alloc),
        }
    }

    /// The same for those of a peer.
    fn text_of_peer(&self, alloc: Global) -> Result<String, AllocError> {
        match *self {
            Explanation::NoPeer(word) => {
                format!(in alloc; "{word} names no peer, as 2=127.0.0.1:7002 does")
            }
            Explanation::NoSuchPeer(number, sites) => {
                format!(in alloc; "peer {number} is not 1 to {sites}")
            }
            Explanation::OwnPeer(site) => format!(in alloc; "peer {site} is this site"),
            Explanation::PeerTwice(site) => format!(in alloc; "peer {site} is given twice"),
            Explanation::PeerMissing(site) => format!(in alloc; "peer {site} is missing"),
            _ => self.text_of_entrance(alloc),
        }
    }

    /// The same for those of an entrance.
    fn text_of_entrance(&self, alloc: Global) -> Result<String, AllocError> {
        match *self {
            Explanation::NoEntrance(word) => {
                format!(in alloc; "--from {word} names no peer, as 2=127.0.0.1:7102 does")
            }
            Explanation::NoSuchEntrance(number, sites) => {
                format!(in alloc; "--from {number}=.. is not for a peer from 1 to {sites}")
            }
            Explanation::OwnEntrance(site) => {
                format!(in alloc; "--from {site}=.. is for this site")
            }
            Explanation::EntranceTwice(site) => {
                format!(in alloc; "--from {site}=.. is given twice")
            }
            Explanation::NoWayIn(site) => {
                format!(in alloc; "--listen is missing, or --from {site}=..")
            }
            _ => Ok(String::new(alloc)),
        }
    }
}

fn no_such_word(alloc: Global, word: &str, meant: Option<&str>) -> Result<String, AllocError> {
    match meant {
        Some(meant) => format!(in alloc; "no such word {word}; did you mean {meant}?"),
        None => format!(in alloc; "no such word {word}"),
    }
}
