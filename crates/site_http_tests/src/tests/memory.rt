//! A client that runs out of memory in the middle of a body.

use super::counter::Counter;
use super::talk::{request, response, said};
use site_http::ClientService;
use std::test::Fail;

/// Whether a body of three lines, of which the client has memory for the first `last`, gets these replies, and only
/// those lines were carried out.
fn is_cut(rt: &HostRuntime, last: u8, status: &str, replies: &str) -> Result<bool, Fail> {
    let alloc = rt.alloc();
    let asked = request(alloc, "POST /", "", "a\nb\nc")?;
    let expected = response(alloc, status, "text/plain; charset=utf-8", "", replies)?;
    let mut service = ClientService::new(alloc, Counter::new(last), &[]);
    let sent = said(rt, &mut service, asked.as_bytes(), 100)?;
    Ok(sent.as_slice() == expected.as_bytes() && service.into_client().count == last.min(3))
}

/// The number of lines for which there is memory, the status, and the replies.
const CUT: [(u8, &str, &str); 4] = [
    (0, "503 Service Unavailable", "error OutOfMemory\n"),
    (
        1,
        "503 Service Unavailable",
        "number 0\nerror OutOfMemory\n",
    ),
    (
        2,
        "503 Service Unavailable",
        "number 0\nnumber 1\nerror OutOfMemory\n",
    ),
    (3, "200 OK", "number 0\nnumber 1\nnumber 2\n"),
];

/// Whether a body of three lines, whose response has room for two of them, ends there.
fn is_cut_by_room(rt: &HostRuntime) -> Result<bool, Fail> {
    let alloc = rt.alloc();
    let asked = request(alloc, "POST /", "", "a\nb\nc")?;
    let expected = response(
        alloc,
        "503 Service Unavailable",
        "text/plain; charset=utf-8",
        "",
        "number 0\nnumber 1\nerror OutOfMemory\n",
    )?;
    let mut client = Counter::new(u8::MAX);
    client.room = 10;
    let mut service = ClientService::new(alloc, client, &[]);
    let sent = said(rt, &mut service, asked.as_bytes(), 100)?;
    Ok(sent.as_slice() == expected.as_bytes() && service.into_client().count == 2)
}

#[test]
fn a_response_without_room_ends(rt: HostRuntime) -> Result<(), Fail> {
    assert!(rt; is_cut_by_room(&rt)?);
    Ok(())
}

#[test]
fn replies_made_before_memory_ran_out_are_sent(rt: HostRuntime) -> Result<(), Fail> {
    for (last, status, replies) in CUT.iter() {
        assert!(rt; is_cut(&rt, *last, *status, *replies)?);
    }
    Ok(())
}
