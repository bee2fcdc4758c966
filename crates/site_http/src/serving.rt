//! The conversation of one connection.
ghost use Rattle.std.specs.Prelude.{◌≡◌, ◌≢◌, ◌⊎◌, ℕ, List, [], ◌++◌, map, take, IfSome, MatchOption};
ghost use Rattle.std.specs.String.{string_bytes};
ghost use Rattle.std.specs.Io.KnownBytes.{Appends, Consumes};
ghost use Rattle.http_server.specs.Connection.{history};
ghost use Rattle.http_server.specs.Exchange.{Calls};
ghost use Rattle.http_server.specs.History.{after_sent};
ghost use Rattle.site_http.specs.Responding.{Responds};
ghost use Rattle.site_http.specs.declared.request_fault.TheConstants.{BAD_REQUEST};
ghost use Rattle.site_http.specs.Refusing.{fault_in, fault_text, ComesFirst, IsCause};
ghost use Rattle.site_http.specs.Conversing.{AnswersFault, Conversed};

use crate::backend::Backend;
use crate::config::service_config;
use crate::request_fault::{BAD_REQUEST, RequestFault};
use crate::service::ClientService;
use bytes::Buf;
use http_server::{Connection, Reason, Service, State};
use http1::ReadError;
use http1::chunked::ChunkError;
use line_streams::write_whole;
use std::alloc::Global;
use std::hash::RandomState;
use std::io::{ErrorKind, Read, Write};

/// Answers the requests of a connection to a site whose host has these names, until its end. If a read fails, the
/// request that is not whole is refused as `RequestFault::of_error` says.
pub fn converse<C: Backend + Drop, I: Read, W: Write>(
    alloc: Global,
    keys: RandomState,
    names: &[String],
    client: C,
    reader: &mut I,
    writer: &mut W,
) -> C
    ensures { Conversed (Responds C.answers C.status C.queue C.known C.listed C.metrics C.closed (map string_bytes names.now))
        (I.remaining reader.old) (I.remaining reader.new) (W.contents writer.old)
        (W.contents writer.new) client result }
{
    let mut connection = Connection::new(alloc, keys, service_config());
    let mut service = ClientService::new(alloc, client, names);
    let why = exchange(&mut connection, &mut service, reader, writer);
    refuse(alloc, connection, why, writer);
    service.into_client()
}

/// Reads, answers and writes until the connection is done, a read or a write fails, or the next request is to be
/// refused; returns why.
fn exchange<S: Service, I: Read, W: Write>(
    connection: &mut Connection,
    service: &mut S,
    reader: &mut I,
    writer: &mut W,
) -> Option<RequestFault>
    ensures cause { IfSome result (λ why. IsCause why (history connection.new)) }
    ensures read { (more : List ℕ)
        × Consumes (I.remaining reader.old) (I.remaining reader.new) more
        × ((history connection.new).received ≡ (history connection.old).received ++ more) }
    ensures written { (more : List ℕ)
        × Appends (W.contents writer.old) (W.contents writer.new) more
        × ((history connection.new).sent ≡ (history connection.old).sent ++ more) }
    ensures calls { Calls S.answers service.old service.new
        (history connection.old).calls (history connection.new).calls }
{
    // A loop is proved to end, so this one counts its turns.
    for _ in 0..u64::MAX {
        connection.advance(service);
        if let Some(why) = refused(connection) {
            return Some(why);
        }
        if connection.is_done() {
            return None;
        }
        if !connection.wants_write() {
            if let Err(error) = connection.read_from(reader) {
                return cut_off(connection, error.kind());
            }
        } else if write_part(connection, writer) == 0 {
            return None;
        }
    }
    None
}

/// Writes some of what waits. Returns how many bytes were taken; 0 if the write failed.
fn write_part<W: Write>(connection: &mut Connection, writer: &mut W) -> usize
    ensures { (history connection.new ≡ after_sent (history connection.old) result)
        × Appends (W.contents writer.old) (W.contents writer.new) (take result (history connection.old).pending) }
{
    match connection.write_to(writer) {
        Ok(count) => count,
        Err(_) => 0,
    }
}

/// Why the next request is refused in another way than http_server does.
fn refused(connection: &Connection) -> Option<RequestFault>
    ensures { IfSome result (λ why. IsCause why (history connection.now)) }
{
    match fault_in(connection.state()) {
        Some(RequestFault::Version) => Some(RequestFault::Version),
        Some(RequestFault::TooLong) => Some(RequestFault::TooLong),
        _ => None,
    }
}

fn fault_in(state: State) -> Option<RequestFault>
    ensures { result ≡ fault_in state }
{
    match state {
        State::Closing(
            Reason::Refused(
                http_server::Refusal::Unreadable(ReadError::Parse(httparse::Error::Version)),
            ),
        ) => Some(RequestFault::Version),
        State::Closing(
            Reason::Refused(
                http_server::Refusal::Unreadable(ReadError::Chunk(ChunkError::SizeOverflow)),
            ),
        ) => Some(RequestFault::TooLong),
        _ => None,
    }
}

/// Why a request is refused that was cut off by an error of this kind.
fn cut_off(connection: &Connection, kind: ErrorKind) -> Option<RequestFault>
    ensures { IfSome result (λ why. IsCause why (history connection.now)) }
{
    if connection.state() != State::Open || connection.wants_write() {
        return None;
    }
    RequestFault::of_error(kind)
}

/// Writes what still waits, and then a refusal, if there is a cause.
fn refuse<W: Write>(
    alloc: Global,
    connection: Connection,
    why: Option<RequestFault>,
    writer: &mut W,
)
    requires { IfSome why (λ why. IsCause why (history connection)) }
    ensures { (last : List ℕ) × Appends (W.contents writer.old) (W.contents writer.new) last
        × ((last ≡ []) ⊎ AnswersFault (history connection) last) }
{
    let Some(why) = why else {
        return;
    };
    let Some(text) = last_text(alloc, connection, why) else {
        return;
    };
    let _ = write_whole(writer, text.as_slice());
}

/// What still waits, and then the refusal. `None` if memory is refused.
fn last_text(alloc: Global, connection: Connection, why: RequestFault) -> Option<Vec<u8>>
    ensures { IfSome result (λ text. (front : List ℕ) × ComesFirst why (history connection).pending front
        × (text.items ≡ front ++ fault_text why)) }
{
    let waits = waiting(alloc, connection)?;
    let front = first_part(why, waits.as_slice())?;
    joined(alloc, front, why.text())
}

/// What waits to be written.
fn waiting(alloc: Global, connection: Connection) -> Option<Vec<u8>>
    ensures { IfSome result (λ text. text.items ≡ (history connection).pending) }
{
    let (_, mut pending) = connection.into_buffers();
    let mut text = vec![in alloc; 0; pending.len()].ok()?;
    pending.copy_to_slice(&mut text);
    Some(text)
}

/// Two texts, one after the other.
fn joined(alloc: Global, first: &[u8], second: &[u8]) -> Option<Vec<u8>>
    ensures { IfSome result (λ text. text.items ≡ first.now ++ second.now) }
{
    let mut text = Vec::new(alloc);
    text.extend_from_slice(first).ok()?;
    text.extend_from_slice(second).ok()?;
    Some(text)
}

/// What comes before the refusal, of what waits. `None` if that does not end in the response of http_server's own.
fn first_part(why: RequestFault, pending: &[u8]) -> Option<&[u8]>
    ensures { IfSome result (λ front. ComesFirst why pending.now front.now) }
{
    match why {
        RequestFault::Version => before_own(pending),
        RequestFault::TooLong => before_own(pending),
        RequestFault::TooSlow => Some(pending),
        RequestFault::GivesWay => Some(pending),
        RequestFault::NoRoom => Some(pending),
    }
}

/// What comes before http_server's own response, if the text ends in that.
fn before_own(text: &[u8]) -> Option<&[u8]>
    ensures { MatchOption result ((front : List ℕ) → text.now ≢ front ++ BAD_REQUEST.now)
        (λ front. text.now ≡ front.now ++ BAD_REQUEST.now) }
{
    text.strip_suffix(BAD_REQUEST)
}
