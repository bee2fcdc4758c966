//! The service of one connection.
ghost use Rattle.std.specs.Prelude.{◌≡◌, map};
ghost use Rattle.std.specs.String.{string_bytes};
ghost use Rattle.site_http.specs.Responding.{Serves};

use crate::backend::Backend;
use crate::responding::respond;
use bytes::Bytes;
use http::Request;
use http_server::{Response, Service};
use line_streams::Replies;
use std::alloc::{AllocError, Global};
use std::marker::Model;

/// Responds to the requests of one connection, for a client of the site. Clauses see the client, and the names of the
/// site's host.
#[derive(Drop)]
pub struct ClientService<'a, C: Backend> {
    client: C,
    names: &'a [String],
    /// Kept between requests, so that a request allocates nothing here.
    replies: Replies<Global>,
}

impl<'a, C: Backend> Model for ClientService<'a, C> {
    ghost use Rattle.std.specs.Prelude.{map};
    ghost use Rattle.std.specs.String.{string_bytes};
    ghost use Rattle.site_http.specs.Responding.{Named};

    ghost Value = { Named C };

    ghost view = { λ s. record { client = s.client; names = map string_bytes s.names.now } };
}

impl<'a, C: Backend> ClientService<'a, C> {
    /// Allocates nothing.
    pub fn new(alloc: Global, client: C, names: &'a [String]) -> ClientService<'a, C>
        ensures { result ≡ record { client = client; names = map string_bytes names.entry.now } }
    {
        ClientService {
            client,
            names,
            replies: Replies::new(alloc),
        }
    }

    /// The client, once its connection has ended.
    pub fn into_client(self) -> C
        ensures { result ≡ self.entry.client }
    {
        let ClientService { client, .. } = self;
        client
    }
}

impl<C: Backend> Service for ClientService<'_, C> {
    ghost answers = { Serves C.answers C.status C.queue C.known C.listed C.metrics C.closed };

    fn call(
        &mut self,
        request: &Request<Bytes>,
        response: &mut Response,
    ) -> Result<(), AllocError> {
        respond(
            self.names,
            &mut self.client,
            &mut self.replies,
            request,
            response,
        )
    }
}
