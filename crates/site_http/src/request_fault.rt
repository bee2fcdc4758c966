//! The responses of the server's own that differ from those of http_server.
ghost use Rattle.std.specs.Prelude.{◌≡◌};

use std::io::ErrorKind;

/// Why a connection ends with another response than one of http_server.
#[derive(Clone, Copy, Debug, PartialEq, Eq)]
pub enum RequestFault {
    /// The request is not one of HTTP/1.0 or HTTP/1.1.
    Version,
    /// A chunk of the body is longer than any number may say.
    TooLong,
    /// The request took too long.
    TooSlow,
    /// Another connection needs the place of this one.
    GivesWay,
    /// There is no memory for the request.
    NoRoom,
}

impl RequestFault {
    ghost use Rattle.site_http.specs.Refusing.{fault_of, fault_text};

    /// What a failed read stands for. `None` if it is answered by nothing.
    pub(crate) fn of_error(kind: ErrorKind) -> Option<RequestFault>
        ensures { result ≡ fault_of kind }
    {
        match kind {
            ErrorKind::TimedOut => Some(RequestFault::TooSlow),
            ErrorKind::ConnectionAborted => Some(RequestFault::GivesWay),
            ErrorKind::OutOfMemory => Some(RequestFault::NoRoom),
            _ => None,
        }
    }

    /// The response that says so.
    pub(crate) fn text(self) -> &'static [u8]
        ensures { result.now ≡ fault_text self }
    {
        match self {
            RequestFault::Version => VERSION,
            RequestFault::TooLong => TOO_LONG,
            RequestFault::TooSlow => TIMEOUT,
            RequestFault::GivesWay | RequestFault::NoRoom => UNAVAILABLE,
        }
    }
}

/// The response of http_server to a request that it cannot read.
pub(crate) const BAD_REQUEST: &[u8] =
    b"HTTP/1.1 400 Bad Request\r\nconnection: close\r\ncontent-length: 0\r\n\r\n";

const VERSION: &[u8] =
    b"HTTP/1.1 505 HTTP Version Not Supported\r\nconnection: close\r\ncontent-length: 0\r\n\r\n";

const TOO_LONG: &[u8] =
    b"HTTP/1.1 413 Payload Too Large\r\nconnection: close\r\ncontent-length: 0\r\n\r\n";

const TIMEOUT: &[u8] =
    b"HTTP/1.1 408 Request Timeout\r\nconnection: close\r\ncontent-length: 0\r\n\r\n";

const UNAVAILABLE: &[u8] =
    b"HTTP/1.1 503 Service Unavailable\r\nretry-after: 1\r\nconnection: close\r\ncontent-length: 0\r\n\r\n";
