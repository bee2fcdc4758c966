//! Requests and responses as text, and a connection over bytes.

use http_server::{Connection, Service, serve};
use site_http::service_config;
use std::alloc::{AllocError, Global};
use std::hash::RandomState;
use std::test::Fail;
use test_kit::{FewAtATime, Slow};

/// The text of a request.
pub fn request(alloc: Global, line: &str, headers: &str, body: &str) -> Result<String, AllocError> {
    let length = body.len();
    format!(in alloc;
        "{line} HTTP/1.1\r\nHost: localhost\r\n{headers}Content-Length: {length}\r\n\r\n{body}"
    )
}

/// The text of a response.
pub fn response(
    alloc: Global,
    status: &str,
    content_type: &str,
    extra: &str,
    body: &str,
) -> Result<String, AllocError> {
    let length = body.len();
    format!(in alloc;
        "HTTP/1.1 {status}\r\ncontent-type: {content_type}\r\ncache-control: no-store\r\n{extra}content-length: {length}\r\n\r\n{body}"
    )
}

/// The response to these bytes, which are read and written this number at a time.
pub fn said<S: Service>(
    rt: &HostRuntime,
    service: &mut S,
    input: &[u8],
    step: usize,
) -> Result<Vec<u8>, Fail> {
    let mut connection = Connection::new(rt.alloc(), RandomState::new(rt)?, service_config());
    let mut reader = FewAtATime { rest: input, step };
    let mut writer = Slow {
        text: Vec::new(rt.alloc()),
        step,
    };
    serve(&mut connection, service, &mut reader, &mut writer)?;
    let Slow { text, step: _ } = writer;
    Ok(text)
}
