//! The hosts to which a site answers: a page whose name was made to stand for the site's address names another one.
ghost use Rattle.std.specs.Prelude.{◌≡◌, ◌≤◌, ◌↔◌, map, length, take, not, ◌==◌, IsTrue};
ghost use Rattle.std.specs.List.{list_any, prefix_len};
ghost use Rattle.std.specs.String.{string_bytes};
ghost use Rattle.http1.specs.Text.{eq_ignore_case};
ghost use Rattle.site_http.specs.Hosts.{up_to, is_named, IsIpv4, IsIpv6, IsBracketed, IsOwnHost};

use http1::text::eq_ignore_case;
use std::net::{Ipv4Addr, Ipv6Addr};

/// Whether the site answers to this host, with or without a port: an IP address, in brackets if of version 6,
/// `localhost`, or one of the names, in letters of either case.
pub(crate) fn is_own_host(names: &[String], host: &[u8]) -> bool
    ensures { IsTrue result ↔ IsOwnHost (map string_bytes names.now) host.now }
{
    let name = up_to(b':', host);
    is_ipv4(name) || is_named(names, name) || is_bracketed(host)
}

/// The text before the first such byte, or all of it.
fn up_to(stop: u8, text: &[u8]) -> &[u8]
    ensures { result.now ≡ up_to stop text.now }
{
    &text[..len_up_to(stop, text)]
}

fn len_up_to(stop: u8, text: &[u8]) -> usize
    ensures value { result ≡ prefix_len (λ b. not (b == stop)) text.now }
    ensures within { result ≤ length text.now }
{
    text.iter().take_while(|b| **b != stop).count()
}

fn is_ipv4(text: &[u8]) -> bool
    ensures { IsTrue result ↔ IsIpv4 text.now }
{
    match Ipv4Addr::parse_ascii(text) {
        Ok(_) => true,
        Err(_) => false,
    }
}

/// Whether the host begins with an IP address of version 6 in brackets.
fn is_bracketed(host: &[u8]) -> bool
    ensures { IsTrue result ↔ IsBracketed host.now }
{
    let [first, rest @ ..] = host else {
        return false;
    };
    *first == b'[' && is_ipv6(up_to(b']', rest))
}

fn is_ipv6(text: &[u8]) -> bool
    ensures { IsTrue result ↔ IsIpv6 text.now }
{
    match Ipv6Addr::parse_ascii(text) {
        Ok(_) => true,
        Err(_) => false,
    }
}

#[tactic(auto, using(crate::proofs::HostLaws::any_mapped))]
fn is_named(names: &[String], text: &[u8]) -> bool
    ensures { result ≡ is_named (map string_bytes names.now) text.now }
{
    eq_ignore_case(b"localhost", text) || is_among(names, text)
}

fn is_among(names: &[String], text: &[u8]) -> bool
    ensures { result ≡ list_any (λ name. eq_ignore_case (string_bytes name) text.now) names.now }
{
    names
        .iter()
        .any(|name| eq_ignore_case(name.as_bytes(), text))
}
