//! How requests are told apart.
ghost use Rattle.std.specs.Prelude.{◌≡◌, ◌↔◌, ℕ, ◌-◌, ◌^◌, List, map, codes, option_map, IfSome, IsTrue, Some};
ghost use Rattle.std.specs.Option.{option_copied};
ghost use Rattle.std.specs.String.{string_bytes};
ghost use Rattle.entry_codec.specs.Moves.{only_number};
ghost use Rattle.entry_codec.specs.Parts.{left, split_at};
ghost use Rattle.http.specs.Request.{head_of};
ghost use Rattle.http.specs.HeaderMap.{ContainsKey};
ghost use Rattle.http.specs.Uri.{uri_authority};
ghost use Rattle.http_uri.specs.Grammar.{authority_host};
ghost use Rattle.site_http.specs.Hosts.{IsOwnHost};
ghost use Rattle.site_http.specs.Routing.{verb_of, target_of, field_of, route_by, IsForSite, IsForeign, Leads};
ghost use Rattle.site_http.specs.Routing.{first_asked, first_by, log_route};

use crate::fields::has_field;
use crate::hosts::is_own_host;
use bytes::Bytes;
use entry_codec::{first_decimal, split_first};
use http::{HeaderName, Request, header};
use line_streams::named;

/// The effect of a method.
#[derive(Clone, Copy)]
pub(crate) enum Verb {
    Post,
    /// `GET`, or `HEAD`.
    Get,
    Other,
}

/// What a path stands for.
#[derive(Clone, Copy)]
pub(crate) enum Target {
    Root,
    Wait,
    Status,
    Queue,
    Peers,
    Log,
    Metrics,
    Health,
    Unknown,
}

/// The methods that a target allows.
#[derive(Clone, Copy)]
pub enum Allowed {
    Get,
    Post,
    GetAndPost,
}

/// The meaning of a request.
#[derive(Clone, Copy)]
pub enum Route {
    /// Carry out commands.
    Commands,
    /// Carry out one command and wait for its outcome.
    Wait,
    Status,
    Queue,
    Peers,
    /// List the log from this number on.
    Log(u64),
    Metrics,
    Health,
    Page,
    /// A page of another site made the browser send it.
    Foreign,
    /// It names another host than the site's.
    Misdirected,
    NotAllowed(Allowed),
    NotFound,
    BadQuery,
}

/// The route of a request to a site whose host has these names. A query after the path counts only for the log.
pub(crate) fn route_of(names: &[String], request: &Request<Bytes>) -> Route
    ensures { Leads (map string_bytes names.now) request.now result }
{
    let own = is_for_site(names, request);
    let foreign = is_foreign(request);
    let verb = verb_of(request.method().as_str());
    let target = target_of(request.uri().path());
    let first = first_asked(request.uri().query());
    route_by(own, foreign, verb, target, first)
}

/// Whether the request names no host besides the site's own.
fn is_for_site(names: &[String], request: &Request<Bytes>) -> bool
    ensures { IsTrue result ↔ IsForSite (map string_bytes names.now) request.now }
{
    has_own_host(names, field_of(request, header::HOST))
        && has_own_host(names, target_host(request))
}

/// Whether this host, if there is one, is the site's own.
fn has_own_host(names: &[String], host: Option<&[u8]>) -> bool
    ensures { IsTrue result ↔ IfSome host.entry (λ host. IsOwnHost (map string_bytes names.now) host.now) }
{
    match host {
        Some(host) => is_own_host(names, host),
        None => true,
    }
}

/// The host in the target of a request, if there is one.
fn target_host(request: &Request<Bytes>) -> Option<&[u8]>
    ensures { option_map (λ host. host.now) result
        ≡ option_map authority_host (uri_authority (head_of request.now).uri) }
{
    match request.uri().host() {
        Some(host) => Some(host.as_bytes()),
        None => None,
    }
}

/// The value of the field with this name.
fn field_of(request: &Request<Bytes>, name: HeaderName) -> Option<&[u8]>
    ensures { option_map (λ value. value.now) result ≡ field_of request.now name }
{
    match request.headers().get(name) {
        Some(value) => Some(value.as_bytes()),
        None => None,
    }
}

/// Whether a page of another site made the browser send the request. Programs that are no browsers send none of these
/// fields.
fn is_foreign(request: &Request<Bytes>) -> bool
    ensures { IsTrue result ↔ IsForeign request.now }
{
    names_origin(request) || names_other_site(request)
}

/// Whether the request has an `Origin`.
fn names_origin(request: &Request<Bytes>) -> bool
    ensures { IsTrue result ↔ ContainsKey (head_of request.now).headers (codes "origin") }
{
    has_field(request, "origin")
}

/// The field in which a browser says from which site a request comes.
const SITE_FIELD: &str = "sec-fetch-site";

/// Whether the request says that it comes from another site.
#[tactic(auto, using(crate::proofs::FieldLaws::no_field))]
fn names_other_site(request: &Request<Bytes>) -> bool
    ensures { IsTrue result ↔ (field_of request.now (codes "sec-fetch-site") ≡ Some (codes "cross-site")) }
{
    has_field(request, SITE_FIELD)
        && is_cross_site(field_of(request, HeaderName::from_static(SITE_FIELD)))
}

/// Whether this value says that a request comes from another site.
fn is_cross_site(value: Option<&[u8]>) -> bool
    ensures { IsTrue result ↔ (option_map (λ value. value.now) value.entry ≡ Some (codes "cross-site")) }
{
    match value {
        Some(value) => value == b"cross-site".as_slice(),
        None => false,
    }
}

const VERBS: [(&[u8], Verb); 3] = [
    (b"POST", Verb::Post),
    (b"GET", Verb::Get),
    (b"HEAD", Verb::Get),
];

#[tactic(auto, unfolding(crate::specs::Routing::verb_of))]
fn verb_of(method: &str) -> Verb
    ensures { result ≡ verb_of method.now }
{
    named(&VERBS, method.as_bytes()).unwrap_or(Verb::Other)
}

const TARGETS: [(&[u8], Target); 8] = [
    (b"/", Target::Root),
    (b"/wait", Target::Wait),
    (b"/status", Target::Status),
    (b"/queue", Target::Queue),
    (b"/peers", Target::Peers),
    (b"/log", Target::Log),
    (b"/metrics", Target::Metrics),
    (b"/healthz", Target::Health),
];

#[tactic(auto, unfolding(crate::specs::Routing::target_of))]
fn target_of(path: &str) -> Target
    ensures { result ≡ target_of path.now }
{
    named(&TARGETS, path.as_bytes()).unwrap_or(Target::Unknown)
}

/// The number from which a query asks for the log: all of it, if there is none. `None` if it is no such query.
fn first_asked(query: Option<&str>) -> Option<u64>
    ensures { result ≡ first_asked (option_copied query.entry) }
{
    match query {
        Some(query) => first_in(query.as_bytes()),
        None => Some(0),
    }
}

fn first_in(query: &[u8]) -> Option<u64>
    ensures { result ≡ first_by (split_at 61 query.now) }
{
    let (name, value) = split_first(query, b'=');
    if name != b"from".as_slice() {
        return None;
    }
    only_decimal(value)
}

/// The number that the only value spells.
#[tactic(auto, unfolding(entry_codec::specs::Moves::only_number))]
fn only_decimal(value: Option<&[u8]>) -> Option<u64>
    ensures { result ≡ only_number 0 (2 ^ 64 - 1) (left 61 value.entry) }
{
    let (number, rest) = first_decimal(value, b'=', 0, u64::MAX)?;
    match rest {
        None => Some(number),
        Some(_) => None,
    }
}

fn log_route(first: Option<u64>) -> Route
    ensures { result ≡ log_route first }
{
    match first {
        Some(first) => Route::Log(first),
        None => Route::BadQuery,
    }
}

/// The route, also by the number from which the query asks for the log.
fn route_by(own: bool, foreign: bool, verb: Verb, target: Target, first: Option<u64>) -> Route
    ensures { result ≡ route_by own foreign verb target first }
{
    if !own {
        return Route::Misdirected;
    }
    match (verb, target) {
        (Verb::Post, _) if foreign => Route::Foreign,
        (_, Target::Unknown) => Route::NotFound,
        (Verb::Post, Target::Root) => Route::Commands,
        (Verb::Get, Target::Root) => Route::Page,
        (Verb::Other, Target::Root) => Route::NotAllowed(Allowed::GetAndPost),
        (Verb::Post, Target::Wait) => Route::Wait,
        (_, Target::Wait) => Route::NotAllowed(Allowed::Post),
        (Verb::Get, Target::Status) => Route::Status,
        (Verb::Get, Target::Queue) => Route::Queue,
        (Verb::Get, Target::Peers) => Route::Peers,
        (Verb::Get, Target::Log) => log_route(first),
        (Verb::Get, Target::Metrics) => Route::Metrics,
        (Verb::Get, Target::Health) => Route::Health,
        _ => Route::NotAllowed(Allowed::Get),
    }
}
