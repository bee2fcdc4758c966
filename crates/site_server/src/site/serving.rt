//! Clients over HTTP: a thread and a seat for each connection.
ghost use Rattle.std.specs.Prelude.{map};
ghost use Rattle.std.specs.String.{string_bytes};
ghost use Rattle.site_http.specs.Conversing.{Conversed};
ghost use Rattle.site_server.specs.Requests.{CountsCalls};
ghost use Rattle.site_server.specs.Connections.{Responded};

use crate::site::client::{SiteClient, client_over};
use crate::site::tick_signal::TickSignal;
use apply_lanes::DeskNames;
use desk_turns::Seats;
use http_server::{Connection, serve};
use site_http::{Busy, converse, service_config};
use site_node::Peers;
use site_sockets::{Accepted, ClientPlace, Clients, ClosingPlace, SiteSockets, bounded_reader};
use std::alloc::Global;
use std::hash::RandomState;
use std::io::{Read, Write};
use std::net::TcpStream;
use std::random::RandomSource;
use std::sync::{Arc, Wait};
use std::thread;
use std::thread::{Scope, Threads};
use std::time::Clock;

/// Answers the requests of a connection to a site whose host has these names, for a client with a seat, until its end.
/// However it ends, what the responses reported to the client as issued and as spent is what the seat counts in
/// addition.
fn answer_requests<
    'a,
    D: DeskNames,
    R: Wait,
    P: Peers + Drop,
    B: TickSignal + Drop,
    I: Read,
    W: Write,
>(
    alloc: Global,
    keys: RandomState,
    names: &[String],
    client: SiteClient<'a, D, R, P, B>,
    reader: &mut I,
    writer: &mut W,
) -> SiteClient<'a, D, R, P, B>
    ensures { (talk : Conversed (Responded P.size P.sends P.stops B.has_ended B.has_left B.shows D.id (map string_bytes names.now))
        (I.remaining reader.old) (I.remaining reader.new) (W.contents writer.old)
        (W.contents writer.new) client.entry result)
        × CountsCalls (map string_bytes names.now) client.entry.seat.told talk.history.calls result.seat.told }
{
    converse(alloc, keys, names, client, reader, writer)
}

/// Answers the requests of a connection with the seat at its index. If there is no memory to begin with, no seat is
/// taken.
fn seat_client<D: DeskNames, R: Wait + Clock + RandomSource + AllocGlobal>(
    rt: &R,
    site: &SiteSockets,
    clients: &Clients,
    seats: &Seats<D>,
    stream: &TcpStream,
    place: &ClientPlace,
) {
    let Ok(keys) = RandomState::new(rt) else {
        return;
    };
    let Some(client) = client_over(rt, site, seats, place.index(), stream) else {
        return;
    };
    let names = clients.hosts.as_slice();
    let mut reader = clients.reader(rt, stream, place);
    let mut writer = clients.writer(rt, stream, place);
    let _ = answer_requests(rt.alloc(), keys, names, client, &mut reader, &mut writer);
}

/// Serves the client that has this place, until it disconnects.
fn serve_client<D: DeskNames, R: Wait + Clock + RandomSource + AllocGlobal>(
    rt: &R,
    site: &SiteSockets,
    clients: &Clients,
    seats: Arc<Seats<D>>,
    stream: TcpStream,
    place: ClientPlace,
) {
    seat_client(rt, site, clients, &seats, &stream, &place);
    clients.finish(rt, &stream, place);
}

/// Responds to a client that all places are taken. The client has a second to send its request.
fn turn_away<R: Wait + Clock + RandomSource + AllocGlobal>(
    rt: &R,
    clients: &Clients,
    stream: TcpStream,
    place: ClosingPlace,
) {
    let _ = answer_busy(rt, &stream);
    clients.finish_closing(rt, &stream, place);
}

fn answer_busy<R: Wait + Clock + RandomSource + AllocGlobal>(
    rt: &R,
    stream: &TcpStream,
) -> Option<()> {
    let keys = RandomState::new(rt).ok()?;
    let mut connection = Connection::new(rt.alloc(), keys, service_config());
    let mut reader = bounded_reader(rt, stream).ok()?;
    let mut writer = stream;
    serve(&mut connection, &mut Busy, &mut reader, &mut writer).ok()
}

/// Starts the thread that serves a client. If it cannot be started, the connection is closed.
fn begin_client<
    's,
    E,
    D: DeskNames + Send + Sync + 's,
    R: Wait + Clock + RandomSource + AllocGlobal + Sync,
>(
    scope: &Scope<'s, E>,
    rt: &'s R,
    site: &'s SiteSockets,
    clients: &'s Clients,
    seats: &Arc<Seats<D>>,
    stream: TcpStream,
    place: ClientPlace,
) {
    let is_begun = match seats.clone() {
        Ok(seats) => scope
            .spawn(move || serve_client(rt, site, clients, seats, stream, place))
            .is_ok(),
        Err(_) => false,
    };
    if !is_begun {
        clients.leave(rt, place);
        clients.note_no_thread(rt);
    }
}

/// Starts the thread that turns a client away. If it cannot be started, the connection is closed.
fn begin_turning_away<'s, E, R: Wait + Clock + RandomSource + AllocGlobal + Sync>(
    scope: &Scope<'s, E>,
    rt: &'s R,
    clients: &'s Clients,
    stream: TcpStream,
    place: ClosingPlace,
) {
    if scope
        .spawn(move || turn_away(rt, clients, stream, place))
        .is_err()
    {
        clients.leave_closing(rt, place);
        clients.note_no_thread(rt);
    }
}

/// Starts the thread for a new connection.
fn begin_accepted<
    's,
    E,
    D: DeskNames + Send + Sync + 's,
    R: Wait + Clock + RandomSource + AllocGlobal + Sync,
>(
    scope: &Scope<'s, E>,
    rt: &'s R,
    site: &'s SiteSockets,
    clients: &'s Clients,
    seats: &Arc<Seats<D>>,
    accepted: Accepted,
) {
    match accepted {
        Accepted::Client(stream, place) => {
            begin_client(scope, rt, site, clients, seats, stream, place);
        }
        Accepted::TurnedAway(stream, place) => {
            begin_turning_away(scope, rt, clients, stream, place);
        }
    }
}

/// Accepts connections of clients, each with a thread of its own, until the site ends.
fn accept_clients<
    's,
    E,
    D: DeskNames + Send + Sync + 's,
    R: Threads + Wait + Clock + RandomSource + AllocGlobal + Sync,
>(
    scope: &Scope<'s, E>,
    rt: &'s R,
    site: &'s SiteSockets,
    clients: &'s Clients,
    seats: &Arc<Seats<D>>,
) {
    for _ in rt.forever() {
        let Some(accepted) = clients.next(rt) else {
            return;
        };
        begin_accepted(scope, rt, site, clients, seats, accepted);
    }
}

/// The same, and waits for all these threads.
fn run_client_acceptor<
    D: DeskNames + Send + Sync,
    R: Threads + Wait + Clock + RandomSource + AllocGlobal + Sync,
>(rt: &R, site: &SiteSockets, clients: &Clients, seats: Arc<Seats<D>>) {
    thread::scope(thread::scope_env(), rt, |scope| {
        accept_clients(scope, rt, site, clients, &seats);
    })
}

/// Starts the thread that accepts clients, if any may connect. `false` if it could not be started.
pub(crate) fn begin_clients<
    's,
    E,
    D: DeskNames + Send + Sync + 's,
    R: Threads + Wait + Clock + RandomSource + AllocGlobal + Sync,
>(scope: &Scope<'s, E>, rt: &'s R, site: &'s SiteSockets, seats: &Arc<Seats<D>>) -> bool {
    let Some(clients) = &site.clients else {
        return true;
    };
    match seats.clone() {
        Ok(seats) => scope
            .spawn(move || run_client_acceptor(rt, site, clients, seats))
            .is_ok(),
        Err(_) => false,
    }
}
