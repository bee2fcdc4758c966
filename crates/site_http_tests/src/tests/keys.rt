//! Requests that give a key, or try to.

use super::counter::Counter;
use super::talk::{request, response, said};
use site_http::ClientService;
use std::test::Fail;

/// Method and target, further headers and body of a request; status and body of its response, and how many lines were
/// carried out.
type Case = (
    &'static str,
    &'static str,
    &'static str,
    &'static str,
    &'static str,
    u8,
);

const CASES: [Case; 28] = [
    ("POST /", "", "a\n", "200 OK", "number 0\n", 1),
    (
        "POST /",
        "Idempotency-Key: k-1\r\n",
        "a\n",
        "200 OK",
        "number 0 under k-1\n",
        1,
    ),
    (
        "POST /",
        "Idempotency-Key: k-1\r\n",
        "a",
        "200 OK",
        "number 0 under k-1\n",
        1,
    ),
    (
        "POST /",
        "IDEMPOTENCY-KEY:  !~,\"  \r\n",
        "a\n",
        "200 OK",
        "number 0 under !~,\"\n",
        1,
    ),
    (
        "POST /",
        "Idempotency-Key: k\r\nidempotency-key: k\r\n",
        "a\n",
        "400 Bad Request",
        "error BadKey\n",
        0,
    ),
    (
        "POST /",
        "Idempotency-Key: k\r\nX: y\r\nidempotency-key: l\r\n",
        "a\n",
        "400 Bad Request",
        "error BadKey\n",
        0,
    ),
    (
        "POST /",
        "Idempotency-Key: k\r\nIdempotency-Key: \r\n",
        "a\n",
        "400 Bad Request",
        "error BadKey\n",
        0,
    ),
    (
        "POST /",
        "Idempotency-Key:\r\n",
        "a\n",
        "400 Bad Request",
        "error BadKey\n",
        0,
    ),
    (
        "POST /",
        "Idempotency-Key: 0123456789abcdef0123456789abcdef0123456789abcdef0123456789abcdef\r\n",
        "a\n",
        "200 OK",
        "number 0 under 0123456789abcdef0123456789abcdef0123456789abcdef0123456789abcdef\n",
        1,
    ),
    (
        "POST /",
        "Idempotency-Key: 0123456789abcdef0123456789abcdef0123456789abcdef0123456789abcdefg\r\n",
        "a\n",
        "400 Bad Request",
        "error BadKey\n",
        0,
    ),
    (
        "POST /",
        "Idempotency-Key: a b\r\n",
        "a\n",
        "400 Bad Request",
        "error BadKey\n",
        0,
    ),
    (
        "POST /",
        "Idempotency-Key: a\tb\r\n",
        "a\n",
        "400 Bad Request",
        "error BadKey\n",
        0,
    ),
    (
        "POST /",
        "Idempotency-Key: é\r\n",
        "a\n",
        "400 Bad Request",
        "error BadKey\n",
        0,
    ),
    (
        "POST /",
        "Idempotency-Key: k\r\n",
        "a\nb\n",
        "400 Bad Request",
        "error BadKey\n",
        0,
    ),
    (
        "POST /",
        "Idempotency-Key: k\r\n",
        "",
        "400 Bad Request",
        "error BadKey\n",
        0,
    ),
    (
        "POST /",
        "Idempotency-Key: a b\r\n",
        "",
        "400 Bad Request",
        "error BadKey\n",
        0,
    ),
    (
        "POST /",
        "Idempotency-Key: k\r\n",
        "\n",
        "200 OK",
        "number 0 under k\n",
        1,
    ),
    (
        "POST /",
        "Idempotency-Key: k\r\n",
        "error BadKey\n",
        "400 Bad Request",
        "error BadKey\n",
        0,
    ),
    (
        "POST /",
        "Idempotency-Key: k\r\n",
        "error KeyReused\n",
        "409 Conflict",
        "error KeyReused\n",
        0,
    ),
    (
        "POST /wait",
        "Idempotency-Key: k\r\n",
        "a\n",
        "200 OK",
        "spent 0 under k\n",
        1,
    ),
    (
        "POST /wait",
        "Idempotency-Key: k\r\n",
        "a\nb\n",
        "400 Bad Request",
        "error BadKey\n",
        0,
    ),
    (
        "POST /wait",
        "Idempotency-Key: k\r\n",
        "",
        "400 Bad Request",
        "error BadKey\n",
        0,
    ),
    (
        "POST /wait",
        "Idempotency-Key: a b\r\n",
        "a\n",
        "400 Bad Request",
        "error BadKey\n",
        0,
    ),
    (
        "GET /healthz",
        "Idempotency-Key: k\r\n",
        "",
        "200 OK",
        "ok\n",
        0,
    ),
    (
        "GET /healthz",
        "Idempotency-Key: a b\r\n",
        "",
        "200 OK",
        "ok\n",
        0,
    ),
    (
        "GET /nothing",
        "Idempotency-Key: a b\r\n",
        "",
        "404 Not Found",
        "error Target\n",
        0,
    ),
    (
        "POST /nothing",
        "Idempotency-Key: k\r\n",
        "a\n",
        "404 Not Found",
        "error Target\n",
        0,
    ),
    (
        "POST /",
        "Origin: http://h\r\nIdempotency-Key: a b\r\n",
        "a\n",
        "403 Forbidden",
        "error Origin\n",
        0,
    ),
];

/// Whether the request gets its response from a new client, and so many lines are carried out.
fn is_answered(rt: &HostRuntime, case: &Case) -> Result<bool, Fail> {
    let alloc = rt.alloc();
    let asked = request(alloc, case.0, case.1, case.2)?;
    let expected = response(alloc, case.3, "text/plain; charset=utf-8", "", case.4)?;
    let mut service = ClientService::new(alloc, Counter::new(u8::MAX), &[]);
    let sent = said(rt, &mut service, asked.as_bytes(), 10_000)?;
    Ok(sent.as_slice() == expected.as_bytes() && service.into_client().count == case.5)
}

/// The place of the first case with another response.
fn first_wrong(rt: &HostRuntime) -> Result<Option<usize>, Fail> {
    for i in 0..CASES.len() {
        if !is_answered(rt, &CASES[i])? {
            return Ok(Some(i));
        }
    }
    Ok(None)
}

#[test]
fn a_key_is_given_to_one_command(rt: HostRuntime) -> Result<(), Fail> {
    assert_eq!(rt; first_wrong(&rt)?, None);
    Ok(())
}
