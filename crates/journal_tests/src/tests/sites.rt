//! Journals of sites: each command in a batch of its own, and the first records of all sites.
use super::kit::{append, new_journal, reads_as};
use journal_device::Memory;
use site_journal::Journal;
use std::alloc::{AllocError, AllocGlobal};
use std::process::Abort;

/// What site 1 of 3 keeps, a batch and its records: it begins, issues, asks, spends and gives, applies what its peer
/// granted it, grants, applies the closing of a peer, from which it takes back, and closes. The digests were made with
/// Python's hashlib.
const BATCHES: [(&[u8], &[u8]); 8] = [
    (b"= 13 ccefb4e27fda976e\nJ 1 1 3 sale\n", b"J 1 1 3 sale|"),
    (b"= 13 c7fd9c192c248038\nE 1 0 1 I:10\n", b"E 1 0 1 I:10|"),
    (b"= 10 1a6cf48759e02591\nW 1 2 1 5\n", b"W 1 2 1 5|"),
    (
        b"= 23 a1687c4d2d75f861\nE 1 1 3 S:4 R:2:6\nT 64\n",
        b"E 1 1 3 S:4 R:2:6|T 64|",
    ),
    (
        b"= 29 7a3e4697acabe91f\nE 2 0 1 I:20\nE 2 1 2 G:1:7:1\n",
        b"E 2 0 1 I:20|E 2 1 2 G:1:7:1|",
    ),
    (
        b"= 16 ad5ba1aba6c9fadb\nE 1 3 4 G:3:2:1\n",
        b"E 1 3 4 G:3:2:1|",
    ),
    (
        b"= 16 510fb1897de298a2\nE 3 0 1 K:0:0:0\n",
        b"E 3 0 1 K:0:0:0|",
    ),
    (
        b"= 22 c1c7709a6d2e462b\nE 1 5 7 R:2:7 K:0:2:1\n",
        b"E 1 5 7 R:2:7 K:0:2:1|",
    ),
];

/// Adds the batches so far, one behind another.
fn put_batches(file: &mut Vec<u8>, count: usize) -> Result<(), AllocError> {
    for (bytes, _) in BATCHES.iter().take(count) {
        file.extend_from_slice(bytes)?;
    }
    Ok(())
}

/// Adds their records.
fn put_records(texts: &mut Vec<u8>, count: usize) -> Result<(), AllocError> {
    for (_, records) in BATCHES.iter().take(count) {
        texts.extend_from_slice(records)?;
    }
    Ok(())
}

/// Whether the journal, to which so many batches were appended, has these bytes.
fn is_written(rt: &(impl Abort + AllocGlobal), journal: &Journal<Memory>, count: usize) -> bool {
    let mut file = Vec::new(rt.alloc());
    put_batches(&mut file, count).expect(rt, "memory");
    journal.device().bytes() == file.as_slice() && journal.len() == file.len()
}

/// Whether its file is opened with their records.
fn is_read(rt: &(impl Abort + AllocGlobal), journal: &Journal<Memory>, count: usize) -> bool {
    let mut texts = Vec::new(rt.alloc());
    put_records(&mut texts, count).expect(rt, "memory");
    reads_as(rt, journal.device().bytes(), &texts)
}

/// A journal that was written by hand is opened, and one that is appended to has the same bytes. A batch of no record
/// changes nothing.
#[test]
fn each_command(rt: HostRuntime) {
    let mut journal = new_journal(&rt);
    for (i, (_, texts)) in BATCHES.iter().enumerate() {
        append(&rt, &mut journal, texts);
        append(&rt, &mut journal, b"");
        assert!(rt; is_written(&rt, &journal, i + 1), "batch {i}");
        assert!(rt; is_read(&rt, &journal, i + 1), "batch {i}");
    }
}

/// Whether this record of a new journal is read again.
fn is_read_again(rt: &(impl Abort + AllocGlobal), text: &[u8]) -> bool {
    let mut journal = new_journal(rt);
    append(rt, &mut journal, text);
    reads_as(rt, journal.device().bytes(), text)
}

/// Whether the first record of a site is read again.
fn begins(rt: &(impl Abort + AllocGlobal), site: u64, sites: u64) -> bool {
    let text = format!(in rt.alloc(); "J 1 {site} {sites} sale|").expect(rt, "memory");
    is_read_again(rt, text.as_bytes())
}

/// The first record of each site of systems of 2 to 16 sites.
#[test]
fn first_records(rt: HostRuntime) {
    for sites in 2..=16 {
        for site in 1..=sites {
            assert!(rt; begins(&rt, site, sites), "site {site} of {sites}");
        }
    }
}
