//! Which hosts a site answers to.

use super::counter::Counter;
use super::talk::said;
use site_http::ClientService;
use std::test::Fail;

/// Values of `Host` that a site with the name `Stock.example` answers to.
const OWN: [&str; 12] = [
    "127.0.0.1",
    "127.0.0.1:8001",
    "10.1.2.3:80",
    "[::1]",
    "[::1]:8001",
    "[2001:db8::7]:8001",
    "localhost",
    "LocalHost:8001",
    "stock.example",
    "STOCK.EXAMPLE:8001",
    "stock.example:",
    "0.0.0.0",
];

/// Values that it does not answer to.
const OTHER: [&str; 10] = [
    "evil.example",
    "evil.example:8001",
    "localhost.evil.example",
    "stock.example.",
    "stock.exampl",
    "xstock.example",
    "127.0.0.1.evil.example",
    "127.0.0.256",
    "127.1",
    "",
];

/// Whether the status of the response to a request for this host begins with this text.
fn is_answered(rt: &HostRuntime, host: &str, status: &[u8]) -> Result<bool, Fail> {
    let alloc = rt.alloc();
    let asked = format!(in alloc; "GET /healthz HTTP/1.1\r\nHost: {host}\r\n\r\n")?;
    let mut names = Vec::new(alloc);
    names.push(String::from_str(alloc, "Stock.example")?)?;
    let mut service = ClientService::new(alloc, Counter::new(u8::MAX), names.as_slice());
    let sent = said(rt, &mut service, asked.as_bytes(), 1_000)?;
    Ok(sent.starts_with(status))
}

#[test]
fn its_own_hosts_are_answered(rt: HostRuntime) -> Result<(), Fail> {
    for host in OWN.iter() {
        assert!(rt; is_answered(&rt, *host, b"HTTP/1.1 200 OK\r\n")?);
    }
    Ok(())
}

#[test]
fn other_hosts_are_misdirected(rt: HostRuntime) -> Result<(), Fail> {
    for host in OTHER.iter() {
        assert!(rt; is_answered(&rt, *host, b"HTTP/1.1 421 Misdirected Request\r\n")?);
    }
    Ok(())
}
