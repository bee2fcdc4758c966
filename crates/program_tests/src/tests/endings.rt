//! How the program ends, depending on its site, and if there is no memory for its words; and the texts of faults.
use refusing_allocator::Refusing;
use rights_program::{VERSION, run_given, run_words};
use site_words::{CheckFault, Command, Config, JournalCheck, SiteFault, read_words};
use std::alloc::Global;
use std::env::{Env, FillError};
use std::io;
use std::io::Write;
use test_kit::Slow;

/// A writer that accepts no byte.
#[derive(Drop)]
struct Full;

impl Write for Full {
    fn write(&mut self, _buf: &[u8]) -> io::Result<usize> {
        Ok(0)
    }

    fn flush(&mut self) -> io::Result<()> {
        Ok(())
    }
}

/// The words of a process, its name included.
#[derive(Drop)]
struct Words<'a>(&'a [&'a [u8]]);

impl Env for Words<'_> {
    fn arg(&self, i: usize, buf: &mut [u8]) -> Result<usize, FillError> {
        let Some(word) = self.0.get(i) else {
            return Err(FillError::NotPresent);
        };
        if word.len() > buf.len() {
            return Err(FillError::TooLong);
        }
        buf[..word.len()].copy_from_slice(word);
        Ok(word.len())
    }

    fn var(&self, _name: &str, _buf: &mut [u8]) -> Result<usize, FillError> {
        Err(FillError::NotPresent)
    }

    fn var_at(&self, _i: usize, _buf: &mut [u8]) -> Result<usize, FillError> {
        Err(FillError::NotPresent)
    }
}

/// Whether a fault of a site has this text.
fn has_text(alloc: Global, fault: SiteFault, text: &str) -> bool {
    match fault.to_string(alloc) {
        Ok(said) => said.as_str() == text,
        Err(_) => false,
    }
}

/// Each fault of a site, and its text, but the one that is said elsewhere.
const FAULTS: [(SiteFault, &str); 7] = [
    (SiteFault::StartedBefore, "was started before"),
    (
        SiteFault::CannotCreateStartFile,
        "cannot create the start file",
    ),
    (SiteFault::CannotListen, "cannot listen"),
    (SiteFault::ReadFailed, "read failed"),
    (SiteFault::WriteFailed, "write failed"),
    (SiteFault::OutOfMemory, "out of memory"),
    (SiteFault::TooManyLines, "too many lines"),
];

/// Each fault of a site has its text.
#[test]
fn faults_have_their_texts(rt: HostRuntime) {
    for (fault, text) in &FAULTS {
        let right = has_text(rt.alloc(), *fault, *text);
        assert!(rt; right, "for {text:?}");
    }
}

const REFUSED: &str = "rights-site: bad command line\n";

const OUT_OF_MEMORY: &str = "rights-site: out of memory\n";

const OF_SITE: [&str; 8] = [
    "run",
    "--id",
    "1",
    "--sites",
    "2",
    "--listen",
    ":0",
    "2=other:1",
];

/// Whether the program ends with this status and this line if its site ends in this way.
fn ends_with(alloc: Global, of_site: Result<(), SiteFault>, status: u8, line: &str) -> bool {
    let mut errors = Vec::new(alloc);
    let answer = run_words(
        alloc,
        |_config, _reader, _writer| of_site,
        no_check,
        &OF_SITE,
        &mut b"".as_slice(),
        &mut Full,
        &mut errors,
    );
    answer.status == status && errors.as_slice() == line.as_bytes()
}

/// Whether the program ends with status 1 and a line of this text if its site ends with this fault.
fn ends_with_fault(alloc: Global, fault: SiteFault, text: &str) -> bool {
    match format!(in alloc; "rights-site: {text}\n") {
        Ok(line) => ends_with(alloc, Err(fault), 1, line.as_str()),
        Err(_) => false,
    }
}

/// The program ends as its site does.
#[test]
fn the_program_ends_as_its_site(rt: HostRuntime) {
    assert!(rt; ends_with(rt.alloc(), Ok(()), 0, ""));
    assert!(rt; ends_with(rt.alloc(), Err(SiteFault::Explained), 1, ""));
    for (fault, text) in &FAULTS {
        let right = ends_with_fault(rt.alloc(), *fault, *text);
        assert!(rt; right, "for {text:?}");
    }
}

/// Whether the program ends with this status and this line if its check ends in this way, and says what the check was
/// asked for.
fn ends_as_check(alloc: Global, of_check: Result<(), CheckFault>, status: u8, line: &str) -> bool {
    let mut writer = Vec::new(alloc);
    let mut errors = Vec::new(alloc);
    let answer = run_words(
        alloc,
        no_site,
        |check, writer| {
            let _ = writer.write(check.path().as_bytes());
            of_check
        },
        &["check-journal", "a/b"],
        &mut b"".as_slice(),
        &mut writer,
        &mut errors,
    );
    answer.status == status
        && writer.as_slice() == b"a/b".as_slice()
        && errors.as_slice() == line.as_bytes()
}

/// How a check ends, and the program's status and line then.
const ENDS_OF_CHECK: [(Result<(), CheckFault>, u8, &str); 4] = [
    (Ok(()), 0, ""),
    (Err(CheckFault::Explained), 1, ""),
    (
        Err(CheckFault::WriteFailed),
        1,
        "rights-site: write failed\n",
    ),
    (Err(CheckFault::OutOfMemory), 1, OUT_OF_MEMORY),
];

/// The program ends as its check does, and says nothing where the check said why.
#[test]
fn the_program_ends_as_its_check(rt: HostRuntime) {
    for (of_check, status, line) in &ENDS_OF_CHECK {
        let right = ends_as_check(rt.alloc(), *of_check, *status, *line);
        assert!(rt; right, "with {status} and {line:?}");
    }
}

/// Stands for a site that the words do not ask for: with it, the program would end with its fault.
fn no_site<R, W>(_config: Config, _reader: &mut R, _writer: &mut W) -> Result<(), SiteFault> {
    Err(SiteFault::ReadFailed)
}

/// Stands for a check that the words do not ask for.
fn no_check<W>(_check: JournalCheck, _writer: &mut W) -> Result<(), CheckFault> {
    Err(CheckFault::Explained)
}

/// The status with which the program ends on these words.
fn status_of(
    alloc: Global,
    words: &[&str],
    writer: &mut Slow<Global>,
    errors: &mut Slow<Global>,
) -> u8 {
    let answer = run_words(
        alloc,
        no_site,
        no_check,
        words,
        &mut b"".as_slice(),
        writer,
        errors,
    );
    answer.status
}

/// A writer that takes seven bytes at a time.
fn slow(alloc: Global) -> Slow<Global> {
    Slow {
        text: Vec::new(alloc),
        step: 7,
    }
}

/// Whether the program ends with this status on these words, and all of this text and of this line is written,
/// however few bytes a write takes.
fn writes_slowly(alloc: Global, words: &[&str], status: u8, text: &[u8], line: &str) -> bool {
    let mut writer = slow(alloc);
    let mut errors = slow(alloc);
    status_of(alloc, words, &mut writer, &mut errors) == status
        && writer.text.as_slice() == text
        && errors.text.as_slice() == line.as_bytes()
}

/// The same for words that ask for help, with its text.
fn writes_help(alloc: Global, words: &[&str]) -> bool {
    match read_words(alloc, words) {
        Ok(Command::Help(text)) => writes_slowly(alloc, words, 0, text.as_bytes(), ""),
        _ => false,
    }
}

const HELPS: [&[&str]; 4] = [
    &["--help"],
    &["sim", "--help"],
    &["run", "--id", "1", "-h"],
    &["check-journal", "-h"],
];

/// The same holds for help texts and for the line of a fault.
#[test]
fn slow_writers_get_all(rt: HostRuntime) {
    let alloc = rt.alloc();
    for words in &HELPS {
        assert!(rt; writes_help(alloc, *words));
    }
    assert!(rt; writes_slowly(alloc, &["--version"], 0, VERSION, ""));
    assert!(rt; writes_slowly(alloc, &["walk"], 2, b"", REFUSED));
}

/// The result for the words of a process, with some memory requests granted and the next one refused.
enum Ending {
    /// Lack of memory stopped the program, and it said so.
    Stopped,
    /// It continued without the memory that was refused.
    Managed,
    /// No request was refused.
    Whole,
    /// Neither its status and line are those of lack of memory, nor those that the words ask for.
    Wrong,
}

/// How a process with these words ends, if it has this status and line with ample memory.
fn ending_with(alloc: Global, words: &[&[u8]], granted: u64, status: u8, line: &str) -> Ending {
    let refusing = Refusing::new(alloc, granted);
    let mut errors = Vec::new(alloc);
    let env = (&Words(words), &refusing);
    let answer = run_given(
        alloc,
        no_site,
        no_check,
        &env,
        &mut b"".as_slice(),
        &mut Full,
        &mut errors,
    );
    let refused = refusing.refused();
    if answer.status == 1 && refused && errors.as_slice() == OUT_OF_MEMORY.as_bytes() {
        Ending::Stopped
    } else if answer.status != status || errors.as_slice() != line.as_bytes() {
        Ending::Wrong
    } else if refused {
        Ending::Managed
    } else {
        Ending::Whole
    }
}

/// How many of the requests that the words make stop the program if they are refused. `None` if some
/// run does not end as it should.
fn stops(alloc: Global, words: &[&[u8]], status: u8, line: &str) -> Option<u64> {
    let mut stopped = 0u64;
    for granted in 0..100 {
        match ending_with(alloc, words, granted, status, line) {
            Ending::Stopped => stopped = stopped.saturating_add(1),
            // It can continue without some of the memory that it requests.
            Ending::Managed => {}
            Ending::Whole => return Some(stopped),
            Ending::Wrong => return None,
        }
    }
    None
}

/// Whether the words end as they should, and some of the requests that they make stop the program.
fn may_stop(alloc: Global, words: &[&[u8]], status: u8, line: &str) -> bool {
    stops(alloc, words, status, line).is_some_and(|stopped| stopped > 2)
}

/// Words of a process, and the status and the line with which it ends.
const GIVEN: [(&[&[u8]], u8, &str); 6] = [
    (&[b"rights-site", b"sim"], 0, ""),
    (&[b"rights-site"], 2, REFUSED),
    (&[b"rights-site", b"sim", b"7"], 2, REFUSED),
    (&[b"rights-site", b"\xff"], 2, REFUSED),
    (&[b"rights-site", b"run", b"--id"], 2, REFUSED),
    (&[b"rights-site", b"run", b"2=\xff"], 2, REFUSED),
];

/// Each memory request that the words make is refused in turn: if the program cannot continue without it, it ends for
/// lack of memory, else as the words ask.
#[test]
fn each_growth_for_the_words_refused(rt: HostRuntime) {
    for (words, status, line) in &GIVEN {
        let right = may_stop(rt.alloc(), *words, *status, *line);
        assert!(rt; right, "{words:?}");
    }
}
