//! Scripts over readers that return a few bytes, over streams that fail, and over a reader and a writer
//! that share a record.
ghost use Rattle.std.specs.Prelude.{◌≤◌};

use memchr::memchr;
use std::alloc::{AllocError, Global};
use std::cell::Cell;
use std::io;
use std::io::{ErrorKind, Read, Write};
use test_kit::FewAtATime;
use transfer_world::{ScriptFault, run_script};

/// A reader that fails at the end of its bytes.
#[derive(Drop)]
struct Broken<'a>(&'a [u8]);

impl Read for Broken<'_> {
    fn read(&mut self, buf: &mut [u8]) -> io::Result<usize> {
        let mut rest = self.0;
        let count = rest.read(buf)?;
        self.0 = rest;
        if count == 0 {
            return Err(io::Error::from(ErrorKind::Other));
        }
        Ok(count)
    }
}

/// A writer that takes this number of bytes, one at a time, and then none.
#[derive(Drop)]
struct Full(u64);

impl Write for Full {
    fn write(&mut self, buf: &[u8]) -> io::Result<usize> {
        if self.0 == 0 || buf.is_empty() {
            return Ok(0);
        }
        self.0 -= 1;
        Ok(1)
    }

    fn flush(&mut self) -> io::Result<()> {
        Ok(())
    }
}

/// A stream of which every other call is interrupted, the first one too.
#[derive(Drop)]
struct Interrupted<S> {
    stream: S,
    was_interrupted: bool,
}

impl<S> Interrupted<S> {
    fn new(stream: S) -> Interrupted<S> {
        Interrupted {
            stream,
            was_interrupted: false,
        }
    }

    fn interrupt(&mut self) -> io::Result<()> {
        self.was_interrupted = !self.was_interrupted;
        if self.was_interrupted {
            return Err(io::Error::from(ErrorKind::Interrupted));
        }
        Ok(())
    }
}

impl<S: Read> Read for Interrupted<S> {
    fn read(&mut self, buf: &mut [u8]) -> io::Result<usize> {
        self.interrupt()?;
        self.stream.read(buf)
    }
}

impl<S: Write> Write for Interrupted<S> {
    fn write(&mut self, buf: &[u8]) -> io::Result<usize> {
        self.interrupt()?;
        self.stream.write(buf)
    }

    fn flush(&mut self) -> io::Result<()> {
        self.stream.flush()
    }
}

const SCRIPT: &[u8] =
    b"report\ntake 1 2\nnoise\nsites 1\nsites 17\nsites 02\nsites +2\nsites 2 2\nsites 2 \nsites\nsites 2\nsites 2\nsites 3\npost 3 I:5\npost 17 I:5\npost 0 I:5\npost 1 \npost  1 I:5\npost 1 I:0\npost\npublish 1 3\npublish 1 1\npublish 1\npublish 1 2 3\narrive 1 18446744073709551615\narrive 1 18446744073709551616\narrive 1 99999999999999999999\narrive 1 0\narrive 1 00\narrive 3 1\narrive 1\t1\narrive 1 1\r\n\ntake 2 1 \ntake 2 2\nTake 2 1\nreport 1\nreport";

const REPLIES: &[u8] =
    b"error NoWorld\nerror NoWorld\nerror BadCommand\nerror BadCommand\nerror BadCommand\nerror BadCommand\nerror BadCommand\nerror BadCommand\nerror BadCommand\nerror BadCommand\nok\nerror BadCommand\nerror BadCommand\nerror NoSuchSite\nerror BadCommand\nerror BadCommand\nerror BadCommand\nerror BadCommand\nerror BadCommand\nerror BadCommand\nerror NoSuchSite\nerror NoSuchSite\nerror BadCommand\nerror BadCommand\nerror NoPacket\nerror BadCommand\nerror BadCommand\nerror NoPacket\nerror BadCommand\nerror NoSuchSite\nerror BadCommand\nerror BadCommand\nerror BadCommand\nerror BadCommand\nerror NoSuchSite\nerror BadCommand\nerror BadCommand\nsite 1 number 0 issued 0 spent 0 held 0 closed 0\nsite 2 number 0 issued 0 spent 0 held 0 closed 0\npair 1 2 applied 0 put 0 way 0\npair 2 1 applied 0 put 0 way 0\ntotal issued 0 spent 0 held 0 way 0\n";

/// Whether the script, of which each read returns at most this number of bytes, runs to its end with these replies.
fn is_replied_slowly(alloc: Global, script: &[u8], step: usize, replies: &[u8]) -> bool {
    let mut reader = FewAtATime { rest: script, step };
    let mut out = Vec::new(alloc);
    let result = run_script(alloc, &mut reader, &mut out);
    result.is_ok() && out.as_slice() == replies
}

#[test]
fn replies(rt: HostRuntime) {
    for step in [1, 7, 100000] {
        assert!(rt; is_replied_slowly(rt.alloc(), SCRIPT, step, REPLIES));
    }
}

/// Adds a post whose line has this length, its line feed included.
fn add_long_post(script: &mut Vec<u8>, length: usize) -> Result<(), AllocError>
    requires { 7 ≤ length }
{
    script.extend_from_slice(b"post 16")?;
    for _ in 0..(length - 7) / 4 {
        script.extend_from_slice(b" I:5")?;
    }
    for _ in 0..(length - 7) % 4 {
        script.push(b'0')?;
    }
    script.push(b'\n')?;
    Ok(())
}

/// A script with lines of about the greatest length and of greater ones.
fn long_posts(alloc: Global) -> Result<Vec<u8>, AllocError> {
    let mut script = Vec::from_slice(alloc, b"sites 2\n")?;
    for length in [16383usize, 16384, 40000, 70000, 16384] {
        add_long_post(&mut script, length)?;
        script.extend_from_slice(b"arrive 3 1\n")?;
    }
    Ok(script)
}

/// Lines of 16,384 bytes, their line feed included, are the longest, wherever a read ends in them.
#[test]
fn long_lines(rt: HostRuntime) {
    let script = long_posts(rt.alloc()).expect(&rt, "memory");
    let expected =
        b"ok\nerror NoSuchSite\nerror NoSuchSite\nerror BadCommand\nerror NoSuchSite\nerror BadCommand\nerror NoSuchSite\nerror BadCommand\nerror NoSuchSite\nerror BadCommand\nerror NoSuchSite\n";
    for step in [16383, 16384, 16385, 65536] {
        assert!(rt; is_replied_slowly(rt.alloc(), &script, step, expected));
    }
}

#[test]
fn interrupted_calls_are_tried_again(rt: HostRuntime) {
    let mut reader = Interrupted::new(FewAtATime {
        rest: SCRIPT,
        step: 100,
    });
    let mut out = Interrupted::new(Vec::new(rt.alloc()));
    let result = run_script(rt.alloc(), &mut reader, &mut out);
    assert!(rt; result == Ok(()));
    assert!(rt; out.stream.as_slice() == REPLIES);
}

#[test]
fn read_failed(rt: HostRuntime) {
    let mut out = Vec::new(rt.alloc());
    let mut reader = Broken(b"sites 2\narrive 1 1\narrive");
    let result = run_script(rt.alloc(), &mut reader, &mut out);
    assert!(rt; result == Err(ScriptFault::ReadFailed));
    assert!(rt; out.as_slice() == b"ok\nerror NoPacket\n".as_slice());
}

#[test]
fn write_failed(rt: HostRuntime) {
    let mut reader = b"sites 2\nreport".as_slice();
    let result = run_script(rt.alloc(), &mut reader, &mut Full(4));
    assert!(rt; result == Err(ScriptFault::WriteFailed));
}

/// What a reader and a writer did.
#[derive(Drop)]
struct Talk {
    asked: Cell<u64>,
    answered: Cell<u64>,
    /// Whether a read came before all replies to the lines of the reads before.
    is_late: Cell<bool>,
    /// The greatest number of bytes that were written at once.
    longest: Cell<usize>,
}

impl Talk {
    fn new() -> Talk {
        Talk {
            asked: Cell::new(0),
            answered: Cell::new(0),
            is_late: Cell::new(false),
            longest: Cell::new(0),
        }
    }
}

/// A reader that returns this number of lines at a time, each of which has a reply of one line.
#[derive(Drop)]
struct Asker<'a> {
    rest: &'a [u8],
    lines: u64,
    talk: &'a Talk,
}

impl Read for Asker<'_> {
    fn read(&mut self, buf: &mut [u8]) -> io::Result<usize> {
        if self.talk.answered.get() < self.talk.asked.get() {
            self.talk.is_late.set(true);
        }
        let mut text = self.rest;
        let mut count = 0usize;
        for _ in 0..self.lines {
            let Some(length) = memchr(b'\n', text) else {
                break;
            };
            if count.saturating_add(length) >= buf.len() {
                break;
            }
            count += length + 1;
            text = &text[length + 1..];
            self.talk.asked.set(self.talk.asked.get().saturating_add(1));
        }
        let count = count.min(buf.len()).min(self.rest.len());
        buf[..count].copy_from_slice(&self.rest[..count]);
        self.rest = text;
        Ok(count)
    }
}

/// A writer that takes all bytes, and counts the lines.
#[derive(Drop)]
struct Listener<'a>(&'a Talk);

impl Write for Listener<'_> {
    fn write(&mut self, buf: &[u8]) -> io::Result<usize> {
        let mut answered = self.0.answered.get();
        for byte in buf {
            if *byte == b'\n' {
                answered = answered.saturating_add(1);
            }
        }
        self.0.answered.set(answered);
        self.0.longest.set(self.0.longest.get().max(buf.len()));
        Ok(buf.len())
    }

    fn flush(&mut self) -> io::Result<()> {
        Ok(())
    }
}

/// This number of lines has replies of several blocks.
const LINES: u64 = 20_000;

/// The first line makes a world, and the others are refused.
fn many_lines(alloc: Global) -> Result<Vec<u8>, AllocError> {
    let mut script = Vec::from_slice(alloc, b"sites 2\n")?;
    for _ in 1..LINES {
        script.extend_from_slice(b"x\n")?;
    }
    Ok(script)
}

/// Whether the script runs to its end over this record, with this number of lines at a time.
fn is_talked(alloc: Global, script: &[u8], lines: u64, talk: &Talk) -> bool {
    let mut asker = Asker {
        rest: script,
        lines,
        talk,
    };
    run_script(alloc, &mut asker, &mut Listener(talk)).is_ok()
}

/// All replies to the lines of a read are written before the next read, however many lines a read returns,
/// and at most a block and a reply at a time.
#[test]
fn replies_come_before_the_next_read(rt: HostRuntime) {
    let script = many_lines(rt.alloc()).expect(&rt, "memory");
    for lines in [1, 7, LINES] {
        let talk = Talk::new();
        assert!(rt; is_talked(rt.alloc(), &script, lines, &talk));
        assert!(rt; (talk.asked.get(), talk.answered.get()) == (LINES, LINES));
        assert!(rt; !talk.is_late.get(), "with {lines} lines at a time");
        assert!(rt; talk.longest.get() < 65536 + b"error BadCommand\n".len());
    }
}
