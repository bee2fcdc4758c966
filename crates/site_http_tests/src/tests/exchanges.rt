//! Each request, and the whole text of its response.

use super::counter::Counter;
use super::talk::{request, response, said};
use site_http::{Busy, ClientService};
use std::alloc::{AllocError, Global};
use std::test::Fail;

/// Method and target, further headers and body of a request; status, further headers and body of its response in
/// plain text.
type Case = (
    &'static str,
    &'static str,
    &'static str,
    &'static str,
    &'static str,
    &'static str,
);

const CASES: [Case; 30] = [
    ("POST /", "", "spend 1 1\n", "200 OK", "", "number 0\n"),
    ("POST /", "", "spend 1 1", "200 OK", "", "number 0\n"),
    ("POST /?a=b", "", "x\n", "200 OK", "", "number 0\n"),
    ("POST /", "", "", "200 OK", "", ""),
    ("POST /", "", "\n", "200 OK", "", "number 0\n"),
    (
        "POST /",
        "",
        "a\nb\nc",
        "200 OK",
        "",
        "number 0\nnumber 1\nnumber 2\n",
    ),
    (
        "POST /",
        "",
        "error BadCommand\n",
        "400 Bad Request",
        "",
        "error BadCommand\n",
    ),
    (
        "POST /",
        "",
        "error OutOfMemory",
        "503 Service Unavailable",
        "",
        "error OutOfMemory\n",
    ),
    (
        "POST /",
        "",
        "error Short\n",
        "409 Conflict",
        "",
        "error Short\n",
    ),
    (
        "POST /",
        "",
        "error Short\na\n",
        "200 OK",
        "",
        "error Short\nnumber 0\n",
    ),
    ("POST /", "", "lie\n", "200 OK", "", "error Short\n"),
    (
        "POST /",
        "Origin: http://h\r\n",
        "a\n",
        "403 Forbidden",
        "",
        "error Origin\n",
    ),
    (
        "POST /wait",
        "origin: null\r\n",
        "a\n",
        "403 Forbidden",
        "",
        "error Origin\n",
    ),
    (
        "POST /status",
        "ORIGIN: x\r\n",
        "",
        "403 Forbidden",
        "",
        "error Origin\n",
    ),
    (
        "POST /",
        "Sec-Fetch-Site: cross-site\r\n",
        "a\n",
        "403 Forbidden",
        "",
        "error Origin\n",
    ),
    (
        "POST /",
        "Sec-Fetch-Site: same-origin\r\n",
        "a\n",
        "200 OK",
        "",
        "number 0\n",
    ),
    (
        "POST http://evil.example/",
        "",
        "a\n",
        "421 Misdirected Request",
        "",
        "error Host\n",
    ),
    ("POST /wait", "", "a\n", "200 OK", "", "spent 0\n"),
    ("POST /wait", "", "a", "200 OK", "", "spent 0\n"),
    (
        "POST /wait",
        "",
        "error Short\n",
        "409 Conflict",
        "",
        "error Short\n",
    ),
    (
        "POST /wait",
        "",
        "",
        "400 Bad Request",
        "",
        "error BadCommand\n",
    ),
    (
        "POST /wait",
        "",
        "a\nb",
        "400 Bad Request",
        "",
        "error BadCommand\n",
    ),
    ("GET /healthz", "Origin: x\r\n", "", "200 OK", "", "ok\n"),
    (
        "GET /nothing",
        "",
        "",
        "404 Not Found",
        "",
        "error Target\n",
    ),
    (
        "PUT /",
        "",
        "a\n",
        "405 Method Not Allowed",
        "allow: GET, HEAD, POST\r\n",
        "error Method\n",
    ),
    (
        "GET /wait",
        "",
        "",
        "405 Method Not Allowed",
        "allow: POST\r\n",
        "error Method\n",
    ),
    (
        "POST /status",
        "",
        "",
        "405 Method Not Allowed",
        "allow: GET, HEAD\r\n",
        "error Method\n",
    ),
    (
        "POST /log?from=x",
        "",
        "",
        "405 Method Not Allowed",
        "allow: GET, HEAD\r\n",
        "error Method\n",
    ),
    ("GET /healthz?from=x", "", "", "200 OK", "", "ok\n"),
    (
        "DELETE /metrics",
        "",
        "",
        "405 Method Not Allowed",
        "allow: GET, HEAD\r\n",
        "error Method\n",
    ),
];

/// Whether the request gets its response from a new client, however the bytes are cut.
fn is_answered(rt: &HostRuntime, case: &Case, step: usize) -> Result<bool, Fail> {
    let alloc = rt.alloc();
    let asked = request(alloc, case.0, case.1, case.2)?;
    let expected = response(alloc, case.3, PLAIN, case.4, case.5)?;
    let mut service = ClientService::new(alloc, Counter::new(u8::MAX), &[]);
    let sent = said(rt, &mut service, asked.as_bytes(), step)?;
    Ok(sent.as_slice() == expected.as_bytes())
}

const PLAIN: &str = "text/plain; charset=utf-8";

/// The first case with another response.
fn first_wrong(rt: &HostRuntime, step: usize) -> Result<Option<&'static str>, Fail> {
    for case in CASES.iter() {
        if !is_answered(rt, case, step)? {
            return Ok(Some(case.2));
        }
    }
    Ok(None)
}

#[test]
fn each_request_gets_its_response(rt: HostRuntime) -> Result<(), Fail> {
    assert_eq!(rt; first_wrong(&rt, 10_000)?, None);
    Ok(())
}

#[test]
fn a_byte_at_a_time_makes_no_difference(rt: HostRuntime) -> Result<(), Fail> {
    assert_eq!(rt; first_wrong(&rt, 1)?, None);
    Ok(())
}

/// Targets of `GET`, and the content type and body of their responses.
const SHOWN: [(&str, &str, &str); 9] = [
    ("/status", "application/json", "{\"held\":0}\n"),
    (
        "/queue",
        "application/json",
        "{\"requests\":[],\"unread\":0}\n",
    ),
    ("/peers", "application/json", "{\"peers\":[],\"site\":1}\n"),
    ("/log", PLAIN, "from 0\n"),
    ("/log?from=0", PLAIN, "from 0\n"),
    ("/log?from=1001", PLAIN, "from 1001\n"),
    (
        "/log?from=18446744073709551615",
        PLAIN,
        "from 18446744073709551615\n",
    ),
    ("/metrics", "text/plain; version=0.0.4", "rights_held 0\n"),
    ("/healthz", "text/plain; charset=utf-8", "ok\n"),
];

/// Whether `GET` and `HEAD` of the target get this.
fn is_shown(rt: &HostRuntime, target: &str, content_type: &str, body: &str) -> Result<bool, Fail> {
    let alloc = rt.alloc();
    let got = format!(in alloc; "GET {target}")?;
    let headed = format!(in alloc; "HEAD {target}")?;
    let expected = response(alloc, "200 OK", content_type, "", body)?;
    let mut service = ClientService::new(alloc, Counter::new(u8::MAX), &[]);
    let get = request(alloc, got.as_str(), "", "")?;
    let head = request(alloc, headed.as_str(), "", "")?;
    let sent = said(rt, &mut service, get.as_bytes(), 100)?;
    let sent_head = said(rt, &mut service, head.as_bytes(), 100)?;
    let end = expected.len() - body.len().min(expected.len());
    Ok(
        sent.as_slice() == expected.as_bytes()
            && sent_head.as_slice() == &expected.as_bytes()[..end],
    )
}

#[test]
fn head_is_get_without_its_body(rt: HostRuntime) -> Result<(), Fail> {
    for (target, content_type, body) in SHOWN.iter() {
        assert!(rt; is_shown(&rt, *target, *content_type, *body)?);
    }
    Ok(())
}

/// Queries for which the log is not listed.
const BAD_QUERIES: [&str; 12] = [
    "",
    "from",
    "from=",
    "from=-1",
    "from=+1",
    "from=01",
    "from=1=",
    "from=1&from=2",
    "From=1",
    "to=1",
    "from=1x",
    "from=18446744073709551616",
];

/// Whether the log is not listed for this query.
fn is_refused(rt: &HostRuntime, query: &str) -> Result<bool, Fail> {
    let alloc = rt.alloc();
    let line = format!(in alloc; "GET /log?{query}")?;
    let asked = request(alloc, line.as_str(), "", "")?;
    let expected = response(alloc, "400 Bad Request", PLAIN, "", "error Query\n")?;
    let mut service = ClientService::new(alloc, Counter::new(u8::MAX), &[]);
    let sent = said(rt, &mut service, asked.as_bytes(), 100)?;
    Ok(sent.as_slice() == expected.as_bytes())
}

#[test]
fn other_queries_for_the_log_are_refused(rt: HostRuntime) -> Result<(), Fail> {
    for query in BAD_QUERIES.iter() {
        assert!(rt; is_refused(&rt, *query)?);
    }
    Ok(())
}

/// Whether a closed site says so.
fn is_told_closed(rt: &HostRuntime) -> Result<bool, Fail> {
    let alloc = rt.alloc();
    let asked = request(alloc, "GET /healthz", "", "")?;
    let expected = response(alloc, "503 Service Unavailable", PLAIN, "", "closed\n")?;
    let mut client = Counter::new(u8::MAX);
    client.closed = true;
    let mut service = ClientService::new(alloc, client, &[]);
    let sent = said(rt, &mut service, asked.as_bytes(), 100)?;
    Ok(sent.as_slice() == expected.as_bytes())
}

#[test]
fn a_closed_site_is_not_healthy(rt: HostRuntime) -> Result<(), Fail> {
    assert!(rt; is_told_closed(&rt)?);
    Ok(())
}

/// Whether the page is sent.
fn is_page_sent(rt: &HostRuntime) -> Result<bool, Fail> {
    let alloc = rt.alloc();
    let asked = request(alloc, "GET /", "", "")?;
    let mut service = ClientService::new(alloc, Counter::new(u8::MAX), &[]);
    let sent = said(rt, &mut service, asked.as_bytes(), 100)?;
    let head =
        "HTTP/1.1 200 OK\r\ncontent-type: text/html; charset=utf-8\r\ncache-control: no-store\r\n";
    Ok(sent.starts_with(head.as_bytes()) && sent.ends_with(b"</html>\n"))
}

#[test]
fn the_page_is_sent(rt: HostRuntime) -> Result<(), Fail> {
    assert!(rt; is_page_sent(&rt)?);
    Ok(())
}

/// Whether a request without a seat is turned away, and the connection closed.
fn is_turned_away(rt: &HostRuntime) -> Result<bool, Fail> {
    let alloc = rt.alloc();
    let asked = request(alloc, "POST /", "", "a\n")?;
    let extra = "retry-after: 1\r\nconnection: close\r\n";
    let expected = response(
        alloc,
        "503 Service Unavailable",
        PLAIN,
        extra,
        "error Busy\n",
    )?;
    let sent = said(rt, &mut Busy, asked.as_bytes(), 100)?;
    Ok(sent.as_slice() == expected.as_bytes())
}

#[test]
fn a_client_without_a_seat_is_turned_away(rt: HostRuntime) -> Result<(), Fail> {
    assert!(rt; is_turned_away(&rt)?);
    Ok(())
}

/// Whether requests in one write get their responses in order.
fn is_pipeline_answered(rt: &HostRuntime, step: usize) -> Result<bool, Fail> {
    let alloc = rt.alloc();
    let mut asked = String::new(alloc);
    let mut expected = String::new(alloc);
    for digit in 0..10 {
        asked.push_str(request(alloc, "POST /", "", "a")?.as_str())?;
        let reply = format!(in alloc; "number {digit}\n")?;
        expected.push_str(response(alloc, "200 OK", PLAIN, "", reply.as_str())?.as_str())?;
    }
    let mut service = ClientService::new(alloc, Counter::new(u8::MAX), &[]);
    let sent = said(rt, &mut service, asked.as_bytes(), step)?;
    Ok(sent.as_slice() == expected.as_bytes() && service.into_client().count == 10)
}

#[test]
fn a_pipeline_is_answered_in_order(rt: HostRuntime) -> Result<(), Fail> {
    assert!(rt; is_pipeline_answered(&rt, 10_000)?);
    assert!(rt; is_pipeline_answered(&rt, 7)?);
    Ok(())
}
