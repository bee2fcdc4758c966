//! Worlds, runs and scripts over many sizes with ample memory. A body that gives up for one of them can be proved,
//! since it may always run out of memory; it is found here.
use crate::tests::is_replied;
use linked_list_allocator::LocalHeap;
use refusing_allocator::Refusing;
use rights_types::{Entry, OutOfMemory};
use std::alloc::{AllocError, Global};
use std::io;
use std::io::Write;
use std::process::Abort;
use std::test::Fail;
use test_kit::{is_entry, issue, site};
use transfer_world::{Event, Reply, World, WorldError, run_script};

/// A world of this number of sites.
fn world_of(rt: &impl Abort, alloc: Global, sites: u64) -> World {
    assert!(rt; 2 <= sites && sites <= 16);
    World::new(alloc, sites).expect(rt, "memory")
}

/// Whether each site of the world issues a right, and no site beyond them does.
fn is_a_world_of(world: &mut World, sites: u64) -> bool {
    for number in 1..=16u64 {
        let issued = match world.step(Event::Issue(site(number), 1)) {
            Ok(Reply::Number(1)) => number <= sites,
            Err(WorldError::NoSuchSite) => number > sites,
            _ => false,
        };
        if !issued {
            return false;
        }
    }
    true
}

#[test]
fn worlds_of_any_number_of_sites(rt: HostRuntime) {
    for sites in 2..=16u64 {
        let mut world = world_of(&rt, rt.alloc(), sites);
        assert!(rt; is_a_world_of(&mut world, sites), "{sites} sites");
    }
}

/// This number of rights is issued, one by one.
fn issues(alloc: Global, count: usize) -> Result<Vec<Event>, OutOfMemory> {
    let mut events = Vec::new(alloc);
    for _ in 0..count {
        events.push(Event::Issue(site(1), 1))?;
    }
    Ok(events)
}

/// Whether these are the replies to this number of issues.
fn are_numbered(outcomes: &[Result<Reply, WorldError>], count: usize) -> bool {
    outcomes.len() == count
        && outcomes.iter().enumerate().all(|(
            place,
            outcome,
        )| matches!(outcome, Ok(Reply::Number(own)) if *own == (place as u64).saturating_add(1)))
}

/// Whether these are the entries of this number of issues.
fn are_issues(entries: &[Entry], count: usize) -> bool {
    entries.len() == count
        && entries.iter().enumerate().all(|(place, entry)| is_entry(
            entry,
            1,
            place as u64,
            &[issue(1)],
        ))
}

/// Runs of 0 to 64 events, and copies of the logs that result.
#[test]
fn runs_and_logs_of_any_length(rt: HostRuntime) {
    for count in 0..=64usize {
        let mut world = world_of(&rt, rt.alloc(), 2);
        let events = issues(rt.alloc(), count).expect(&rt, "memory");
        let outcomes = world.run(&events).expect(&rt, "memory");
        assert!(rt; are_numbered(&outcomes, count), "{count} events");
        let log = world.log(site(1)).expect(&rt, "memory");
        assert!(rt; are_issues(&log, count), "{count} entries");
    }
}

const LETTERS: [u8; 2_000] = [b'x'; 2_000];

/// Lines that begin with this, followed by 0 to 2,000 letters.
fn lines_of_letters(alloc: Global, head: &[u8], front: &[u8]) -> Result<Vec<u8>, AllocError> {
    let mut text = Vec::from_slice(alloc, head)?;
    for count in 0..=LETTERS.len() {
        text.extend_from_slice(front)?;
        text.extend_from_slice(&LETTERS[..count])?;
        text.push(b'\n')?;
    }
    Ok(text)
}

/// The same reply to each of these lines.
fn replies_to_letters(alloc: Global, head: &[u8], reply: &[u8]) -> Result<Vec<u8>, AllocError> {
    let mut text = Vec::from_slice(alloc, head)?;
    for _ in 0..=LETTERS.len() {
        text.extend_from_slice(reply)?;
    }
    Ok(text)
}

/// Malformed lines, of 1 to 2,001 bytes with their line feed.
#[test]
fn lines_of_no_form_of_every_length(rt: HostRuntime) -> Result<(), Fail> {
    let script = lines_of_letters(rt.alloc(), b"", b"")?;
    let replies = replies_to_letters(rt.alloc(), b"", b"error BadCommand\n")?;
    assert!(rt; is_replied(rt.alloc(), &script, &replies));
    Ok(())
}

/// Noise of 0 to 2,000 bytes, of a kind that no line has.
#[test]
fn noise_of_every_length(rt: HostRuntime) -> Result<(), Fail> {
    let script = lines_of_letters(rt.alloc(), b"sites 2\n", b"noise 1 2 ")?;
    let replies = replies_to_letters(rt.alloc(), b"ok\n", b"refused 3\n")?;
    assert!(rt; is_replied(rt.alloc(), &script, &replies));
    Ok(())
}

/// The report of sites at which nothing has happened yet.
fn new_report(alloc: Global, sites: u64) -> Result<Vec<u8>, AllocError> {
    let mut text = String::from_str(alloc, "ok\n")?;
    put_sites(&mut text, sites)?;
    for number in 1..=sites {
        for origin in 1..=sites {
            put_pair(&mut text, number, origin)?;
        }
    }
    text.push_str("total issued 0 spent 0 held 0 way 0\n")?;
    Vec::from_slice(alloc, text.as_bytes())
}

fn put_sites(text: &mut String, sites: u64) -> Result<(), AllocError> {
    for number in 1..=sites {
        write!(
            text,
            "site {number} number 0 issued 0 spent 0 held 0 closed 0\n"
        )?;
    }
    Ok(())
}

fn put_pair(text: &mut String, number: u64, origin: u64) -> Result<(), AllocError> {
    if number != origin {
        write!(text, "pair {number} {origin} applied 0 put 0 way 0\n")?;
    }
    Ok(())
}

#[test]
fn reports_of_any_number_of_sites(rt: HostRuntime) -> Result<(), Fail> {
    for sites in 2..=16u64 {
        let script = format!(in rt.alloc(); "sites {sites}\nreport\n")?;
        let report = new_report(rt.alloc(), sites)?;
        assert!(rt;
            is_replied(rt.alloc(), script.as_bytes(), &report),
            "{sites} sites"
        );
    }
    Ok(())
}

/// A writer that counts the bytes that it takes.
#[derive(Drop)]
struct Counting(usize);

impl Write for Counting {
    fn write(&mut self, buf: &[u8]) -> io::Result<usize> {
        self.0 = self.0.saturating_add(buf.len());
        Ok(buf.len())
    }

    fn flush(&mut self) -> io::Result<()> {
        Ok(())
    }
}

/// How many bytes of replies a script of this number of reports gets on a heap of 4 MiB, with this number of requests
/// granted.
fn bytes_on_a_heap(alloc: Global, reports: usize, requests: u64) -> Option<usize> {
    let heap = LocalHeap::new(alloc, 1 << 22).ok()?;
    let memory = Refusing::new(&heap, requests);
    let mut script = Vec::from_slice(alloc, b"sites 16\n").ok()?;
    for _ in 0..reports {
        script.extend_from_slice(b"report\n").ok()?;
    }
    let mut reader = script.as_slice();
    let mut writer = Counting(0);
    run_script(&memory, &mut reader, &mut writer).ok()?;
    if memory.refused() {
        None
    } else {
        Some(writer.0)
    }
}

/// Replies of 10 MB are passed on block by block, on a heap of 4 MiB and with 1,000 memory requests, most of which
/// make the world.
#[test]
fn ten_megabytes_of_replies(rt: HostRuntime) {
    let bytes = bytes_on_a_heap(rt.alloc(), 1_250, 1_000);
    assert!(rt; bytes > Some(10_000_000), "{bytes:?}");
}

/// A script of long lines, and of more replies than are kept at a time.
fn long_script(alloc: Global) -> Result<Vec<u8>, AllocError> {
    let mut text = Vec::from_slice(alloc, b"sites 2\nissue 1 5\nnoise 1 2 ")?;
    for _ in 0..8 {
        text.extend_from_slice(&LETTERS)?;
    }
    text.push(b'\n')?;
    for _ in 0..10_000 {
        text.extend_from_slice(b"x\n")?;
    }
    Ok(text)
}

/// How many bytes of replies that script gets on a heap of 512 KiB.
fn bytes_on_a_small_heap(alloc: Global) -> Option<usize> {
    let heap = LocalHeap::new(alloc, 1 << 19).ok()?;
    let script = long_script(alloc).ok()?;
    let mut reader = script.as_slice();
    let mut writer = Counting(0);
    run_script(&heap, &mut reader, &mut writer).ok()?;
    Some(writer.0)
}

/// What a script takes besides its world: a block of input, the first bytes of a line, a block of replies, and the
/// line of noise.
#[test]
fn a_script_on_a_small_heap(rt: HostRuntime) {
    let replies = "ok\nnumber 1\nrefused 3\n".len() + 10_000 * "error BadCommand\n".len();
    assert_eq!(rt; bytes_on_a_small_heap(rt.alloc()), Some(replies));
}
