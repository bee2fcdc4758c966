//! The notes on standard error.
use crate::explanation::{Explanation, USAGE};
use crate::options::known;
use crate::reading::explain;
use line_streams::write_whole;
use site_words::{Command, Config, PeerAddress, read_words};
use std::alloc::{AllocError, Global};
use std::env::Env;
use std::io::Write;
use std::net::{Net, TcpListener, TcpStream};
use std::{env, io};

/// Whether refused words are explained: someone reads standard error at a terminal, or asked for log lines; or a word
/// is used that is none of the first ones, for which nothing but one line may be printed.
pub fn is_due(words: &[&str], is_terminal: bool) -> bool {
    is_terminal || words.is_empty() || words.contains(&"--log") || has_other_word(words)
}

/// Whether there is a word besides `sim`, `run`, its first options with their values, and peers.
fn has_other_word(words: &[&str]) -> bool {
    let mut is_value = false;
    for word in words {
        if !is_value && is_other(word) {
            return true;
        }
        is_value = !is_value && takes_next(word);
    }
    false
}

/// Whether the next word is the value of this one.
fn takes_next(word: &str) -> bool {
    known(word).is_some() && word != "--log" && word != "--help"
}

fn is_other(word: &str) -> bool {
    if !word.starts_with('-') {
        return word != "sim" && word != "run" && !word.contains('=');
    }
    let name = match word.split_once('=') {
        Some((name, _)) => name,
        None => word,
    };
    match name {
        "--" | "--help" | "-h" => false,
        "--from" | "--host" | "--silent" | "--keys" | "--journal" | "--system" => true,
        _ => known(name).is_none(),
    }
}

/// The words of this process. `None` if one is not UTF-8 text, or memory for them was refused.
fn given_words<R: Env + AllocGlobal>(rt: &R) -> Option<Vec<String>> {
    let given: Result<Vec<String>, AllocError> = env::args(rt).ok()?.collect(rt.alloc());
    given.ok()
}

/// These words without the first one, which is the program's name.
fn behind_name<'a>(alloc: Global, given: &'a [String]) -> Option<Vec<&'a str>> {
    let words: Result<Vec<&str>, AllocError> = given
        .iter()
        .skip(1)
        .map(|word| word.as_str())
        .collect(alloc);
    words.ok()
}

/// Prints why the words of this process are refused, if that is due. If a memory request is refused, nothing.
pub fn explain_refusal<R: Env + AllocGlobal, W: Write>(rt: &R, is_terminal: bool, errors: &mut W) {
    let Some(given) = given_words(rt) else {
        return;
    };
    if let Some(words) = behind_name(rt.alloc(), given.as_slice())
        && is_due(words.as_slice(), is_terminal)
    {
        say_why(rt.alloc(), words.as_slice(), errors);
    }
}

/// Prints which address this process cannot listen on, and the system's reason, if that is due. Tries the addresses
/// once more.
pub fn explain_listening<
    R: Env + Net<Listener = TcpListener, Stream = TcpStream> + AllocGlobal,
    W: Write,
>(rt: &R, is_terminal: bool, errors: &mut W) {
    let Some(given) = given_words(rt) else {
        return;
    };
    if let Some(words) = behind_name(rt.alloc(), given.as_slice())
        && is_due(words.as_slice(), is_terminal)
        && let Ok(Command::Run(config)) = read_words(rt.alloc(), words.as_slice())
    {
        say_listening(rt, &config, errors);
    }
}

fn say_listening<R: Net<Listener = TcpListener, Stream = TcpStream> + AllocGlobal, W: Write>(
    rt: &R,
    config: &Config,
    errors: &mut W,
) {
    let mut held = Vec::new(rt.alloc());
    if let Some(address) = config.listen()
        && !can_listen(rt, address, &mut held, errors)
    {
        return;
    }
    for entrance in config.entrances() {
        if !can_listen(rt, entrance.address(), &mut held, errors) {
            return;
        }
    }
    if let Some(address) = config.http() {
        can_listen(rt, address, &mut held, errors);
    }
}

/// Whether this address can be listened on; if not, says why. It is held while the next ones are tried, which may be the
/// same.
fn can_listen<R: Net<Listener = TcpListener, Stream = TcpStream> + AllocGlobal, W: Write>(
    rt: &R,
    address: &str,
    held: &mut Vec<TcpListener>,
    errors: &mut W,
) -> bool {
    match TcpListener::bind(rt, address) {
        Ok(listener) => {
            let _ = held.push(listener);
            true
        }
        Err(error) => {
            say_address(rt.alloc(), address, error, errors);
            false
        }
    }
}

fn say_address<W: Write>(alloc: Global, address: &str, error: io::Error, errors: &mut W) {
    say(
        errors,
        format!(in alloc; "rights-site: cannot listen on {address}: {error}\n"),
    );
}

fn say_why<W: Write>(alloc: Global, words: &[&str], errors: &mut W) {
    match explain(alloc, words) {
        Ok(Explanation::NoWords) => {
            let _ = write_whole(errors, USAGE.as_bytes());
        }
        Ok(cause) => say(errors, cause.line(alloc)),
        Err(_) => {}
    }
}

/// Prints a line, if there was memory for it.
fn say<W: Write>(errors: &mut W, line: Result<String, AllocError>) {
    if let Ok(line) = line {
        let _ = write_whole(errors, line.as_bytes());
    }
}

/// Prints which peers have addresses that cannot be meant. They are not refused: an address is looked up at each
/// attempt to connect, and a name may be given its address later.
pub fn note_peers<W: Write>(alloc: Global, config: &Config, errors: &mut W) {
    for peer in config.peers() {
        note_peer(alloc, config, peer, errors);
    }
}

fn note_peer<W: Write>(alloc: Global, config: &Config, peer: &PeerAddress, errors: &mut W) {
    let (site, address) = (peer.site().number(), peer.address());
    if address.is_empty() {
        say(
            errors,
            format!(in alloc; "rights-site: peer {site} has no address\n"),
        );
    } else if !has_port(address) {
        say(
            errors,
            format!(in alloc; "rights-site: peer {site} has no port: {address}\n"),
        );
    } else if is_own(config, address) {
        let line = format!(in alloc;
            "rights-site: peer {site} has the address of this site: {address}\n"
        );
        say(errors, line);
    }
}

/// Whether a site lets its peers in at this address.
fn is_own(config: &Config, address: &str) -> bool {
    let is_shared = match config.listen() {
        Some(listen) => listen == address,
        None => false,
    };
    is_shared
        || config
            .entrances()
            .iter()
            .any(|entrance| entrance.address() == address)
}

/// Whether an address ends in `:` and a number.
fn has_port(address: &str) -> bool {
    match address.rsplit_once(':') {
        Some((_, port)) => port.parse::<u16>().is_ok(),
        None => false,
    }
}
