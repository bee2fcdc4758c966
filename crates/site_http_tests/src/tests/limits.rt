//! Bodies and heads at their limits, and lines that are too long.

use super::counter::{Counter, LONG};
use super::talk::{request, response, said};
use site_http::ClientService;
use std::alloc::{AllocError, Global};
use std::test::Fail;

/// The status of the response to a `POST /` of a line with this number of bytes and no line feed.
fn status_of(rt: &HostRuntime, length: usize) -> Result<Vec<u8>, Fail> {
    let alloc = rt.alloc();
    let mut asked = format!(in alloc;
        "POST / HTTP/1.1\r\nHost: localhost\r\nContent-Length: {length}\r\n\r\n"
    )?.into_bytes();
    asked.resize(asked.len().saturating_add(length), b'x')?;
    let mut service = ClientService::new(alloc, Counter::new(u8::MAX), &[]);
    let mut sent = said(rt, &mut service, asked.as_slice(), 5_000)?;
    sent.truncate(12);
    Ok(sent)
}

#[test]
fn a_body_has_a_limit(rt: HostRuntime) -> Result<(), Fail> {
    assert_eq!(rt;
        status_of(&rt, 1_048_576)?.as_slice(),
        b"HTTP/1.1 400".as_slice()
    );
    assert_eq!(rt;
        status_of(&rt, 1_048_577)?.as_slice(),
        b"HTTP/1.1 413".as_slice()
    );
    Ok(())
}

fn repeated(alloc: Global, text: &str, count: usize) -> Result<String, AllocError> {
    let mut all = String::new(alloc);
    for _ in 0..count {
        all.push_str(text)?;
    }
    Ok(all)
}

/// Whether a body of this many lines with replies of a hundred bytes, and one line more, gets those replies, then this
/// one.
fn is_told(rt: &HostRuntime, lines: usize, status: &str, last: &str) -> Result<bool, Fail> {
    let alloc = rt.alloc();
    let mut body = repeated(alloc, "tell\n", lines)?;
    body.push_str("a\n")?;
    let long = LONG;
    let mut told = repeated(alloc, format!(in alloc; "{long}\n")?.as_str(), lines)?;
    told.push_str(last)?;
    let asked = request(alloc, "POST /", "", body.as_str())?;
    let expected = response(
        alloc,
        status,
        "text/plain; charset=utf-8",
        "",
        told.as_str(),
    )?;
    let mut service = ClientService::new(alloc, Counter::new(u8::MAX), &[]);
    let sent = said(rt, &mut service, asked.as_bytes(), 1_000_000)?;
    Ok(sent.as_slice() == expected.as_bytes())
}

#[test]
fn the_replies_to_a_body_have_a_limit(rt: HostRuntime) -> Result<(), Fail> {
    assert!(rt; is_told(&rt, 199_999, "200 OK", "number 0\n")?);
    assert!(rt;
        is_told(
            &rt,
            200_000,
            "503 Service Unavailable",
            "error OutOfMemory\n"
        )?
    );
    Ok(())
}

#[test]
fn a_line_has_a_limit(rt: HostRuntime) -> Result<(), Fail> {
    assert_eq!(rt;
        status_of(&rt, 16_383)?.as_slice(),
        b"HTTP/1.1 200".as_slice()
    );
    assert_eq!(rt;
        status_of(&rt, 16_384)?.as_slice(),
        b"HTTP/1.1 400".as_slice()
    );
    Ok(())
}

/// The status of the response to a request with a header of this number of bytes.
fn status_with_header(rt: &HostRuntime, length: usize) -> Result<Vec<u8>, Fail> {
    let alloc = rt.alloc();
    let mut asked = b"GET /healthz HTTP/1.1\r\nHost: localhost\r\nX: ".to_vec(alloc)?;
    asked.resize(asked.len().saturating_add(length), b'x')?;
    asked.extend_from_slice(b"\r\n\r\n")?;
    let mut service = ClientService::new(alloc, Counter::new(u8::MAX), &[]);
    let mut sent = said(rt, &mut service, asked.as_slice(), 5_000)?;
    sent.truncate(12);
    Ok(sent)
}

#[test]
fn a_head_has_a_limit(rt: HostRuntime) -> Result<(), Fail> {
    assert_eq!(rt;
        status_with_header(&rt, 16_000)?.as_slice(),
        b"HTTP/1.1 200".as_slice()
    );
    assert_eq!(rt;
        status_with_header(&rt, 17_000)?.as_slice(),
        b"HTTP/1.1 431".as_slice()
    );
    Ok(())
}
