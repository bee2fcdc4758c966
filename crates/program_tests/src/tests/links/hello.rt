//! First lines.
use crate::tests::links::streams::{Failing, Interrupted};
use entry_codec::LineCutter;
use peer_links::{LinkFault, read_hello};
use refusing_allocator::Refusing;
use rights_types::SiteId;
use std::alloc::Global;
use std::io::Read;
use test_kit::{FewAtATime, requests_of};

/// The site that the first line from this reader names.
pub(crate) fn first_line<I: Read>(alloc: Global, reader: &mut I) -> Result<SiteId, LinkFault> {
    let mut cutter = LineCutter::new(alloc)?;
    read_hello(reader, &mut cutter)
}

/// Whether the first line of this text names the site, and the rest of the text is left, all of it
/// in the reader.
fn says(alloc: Global, text: &[u8], site: u64, rest: &[u8]) -> bool {
    let mut reader = FewAtATime {
        rest: text,
        step: 100,
    };
    let Ok(mut cutter) = LineCutter::new(alloc) else {
        return false;
    };
    let Ok(speaker) = read_hello(&mut reader, &mut cutter) else {
        return false;
    };
    speaker.number() == site && reader.rest == rest && !cutter.unfinished()
}

/// Whether the first line of this site names it.
fn is_said(alloc: Global, site: u64) -> bool {
    match format!(in alloc; "H {site}\nB 1 5\n") {
        Ok(text) => says(alloc, text.as_bytes(), site, b"B 1 5\n"),
        Err(_) => false,
    }
}

#[test]
fn a_first_line_says_who_speaks(rt: HostRuntime) {
    for site in 1..17 {
        assert!(rt; is_said(rt.alloc(), site), "site {site}");
    }
}

/// How many bytes are left after a first line that names no site, if each read returns at most
/// `step` bytes. `None` for any other result.
pub(crate) fn left_without_hello(alloc: Global, text: &[u8], step: usize) -> Option<usize> {
    let mut reader = FewAtATime { rest: text, step };
    match first_line(alloc, &mut reader) {
        Err(LinkFault::NoHello) => Some(reader.rest.len()),
        _ => None,
    }
}

const OTHER_FIRST_LINES: [(&str, usize); 8] = [
    ("B 1 5\nH 1\n", 4),
    ("H 17\n", 0),
    ("H 0\nx", 1),
    ("H 1 \n", 0),
    ("\nH 1\n", 4),
    ("H 1", 0),
    ("", 0),
    ("E 1 0 1 I:5\nH 1\n", 4),
];

#[test]
fn other_first_lines(rt: HostRuntime) {
    for (text, left) in &OTHER_FIRST_LINES {
        let found = left_without_hello(rt.alloc(), text.as_bytes(), 1);
        assert!(rt; found == Some(*left), "at {text:?}");
    }
}

#[test]
fn a_first_line_that_does_not_end(rt: HostRuntime) {
    let text = [b'x'; 20_000];
    let left = left_without_hello(rt.alloc(), &text, 100);
    assert_eq!(rt; left, Some(20_000 - 16_384));
}

#[test]
fn a_first_read_that_fails(rt: HostRuntime) {
    let mut reader = Failing {
        rest: b"H 1",
        step: 100,
    };
    let read = first_line(rt.alloc(), &mut reader);
    assert_eq!(rt; read, Err(LinkFault::ReadFailed));
}

#[test]
fn a_first_read_that_is_interrupted(rt: HostRuntime) {
    let mut reader = Interrupted {
        rest: b"H 2\n",
        step: 100,
        interrupted: false,
    };
    let read = first_line(rt.alloc(), &mut reader);
    assert_eq!(rt; read, Ok(SiteId::known(2)));
}

/// Whether the first line is read, or refused for lack of memory only.
fn hello_is_read(alloc: &Refusing<Global>) -> bool {
    let mut reader = FewAtATime {
        rest: b"H 2\n",
        step: 100,
    };
    let Ok(mut cutter) = LineCutter::new(alloc) else {
        return alloc.refused();
    };
    match read_hello(&mut reader, &mut cutter) {
        Ok(site) => site == SiteId::known(2),
        Err(fault) => fault == LinkFault::OutOfMemory && alloc.refused(),
    }
}

#[test]
fn each_growth_for_a_first_line_refused(rt: HostRuntime) {
    let requests = requests_of(rt.alloc(), hello_is_read);
    assert_eq!(rt; requests, Some(2));
}
