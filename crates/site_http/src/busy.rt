//! The service of a connection that finds no seat.
ghost use Rattle.std.specs.Prelude.{◌≡◌};
ghost use Rattle.site_http.specs.Responding.{IsBusy};

use crate::responding::say;
use bytes::Bytes;
use http::{HeaderValue, Request, StatusCode, header};
use http_server::{Response, Service};
use std::alloc::AllocError;

/// Turns every request away, and asks to close the connection.
#[derive(Clone, Copy, Debug)]
pub struct Busy;

impl Service for Busy {
    ghost answers = { λ old request response new. IsBusy response };

    fn call(&mut self, _: &Request<Bytes>, response: &mut Response) -> Result<(), AllocError> {
        say(response, StatusCode::SERVICE_UNAVAILABLE, b"error Busy\n")?;
        response.add_header(header::RETRY_AFTER, HeaderValue::from_static("1"))?;
        response.add_header(header::CONNECTION, HeaderValue::from_static("close"))
    }
}
