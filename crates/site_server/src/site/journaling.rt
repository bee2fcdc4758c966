//! The journal of a site: how it is opened at the start, and what is said if that fails.
ghost use Rattle.std.specs.Prelude.{IfOk};
ghost use Rattle.site_server.specs.Starting.{IsUntouched};

use journal_check::{Reading, put_cause};
use journal_file::{FileDevice, OpenError, Start, open_file};
use line_streams::{Replies, write_whole};
use rights_types::OutOfMemory;
use site_words::SiteFault;
use std::alloc::{AllocError, Global};
use std::fs::{File, Files};
use std::io::Write;

/// Opens the journal at this path. If that fails, the cause is written to `errors`, as one line.
pub(crate) fn open_journal<S: Start, R: Files<File = File> + AllocGlobal, E: Write>(
    rt: &R,
    path: &str,
    start: S,
    errors: &mut E,
) -> Result<FileDevice<S>, SiteFault>
    ensures { IfOk result (λ device. IsUntouched S.first device) }
{
    match open_file(rt, path, start) {
        Ok(device) => Ok(device),
        Err(error) => Err(say_unopened(rt.alloc(), path, error, errors)),
    }
}

/// Says why the file cannot be opened.
fn say_unopened<E: Write>(
    alloc: Global,
    path: &str,
    error: OpenError,
    errors: &mut E,
) -> SiteFault {
    let line = match error {
        OpenError::Locked => format!(in alloc;
            "rights-site: journal {path}: another process has it open; end that process first\n"
        ),
        OpenError::System(error) => format!(in alloc;
            "rights-site: journal {path}: it cannot be opened: {error}\n"
        ),
    };
    say(line, errors)
}

/// Says why the file could not be read, written or synced.
pub(crate) fn say_failed<S: Start, E: Write>(
    alloc: Global,
    path: &str,
    device: &FileDevice<S>,
    errors: &mut E,
) -> SiteFault {
    let line = match device.cause() {
        Some(cause) => format!(in alloc;
            "rights-site: journal {path}: {cause}; once that is mended the same command goes on\n"
        ),
        None => format!(in alloc; "rights-site: journal {path}: it cannot be written\n"),
    };
    say(line, errors)
}

/// Says that the rest of an append was cut off, which a crash left, if it was.
pub(crate) fn say_cut<E: Write>(alloc: Global, path: &str, was_cut: bool, errors: &mut E) {
    if !was_cut {
        return;
    }
    let line = format!(in alloc;
        "rights-site: journal {path}: the rest of an append that was never told was cut off\n"
    );
    say(line, errors);
}

fn say<E: Write>(line: Result<String, AllocError>, errors: &mut E) -> SiteFault {
    match line {
        Ok(line) => {
            let _ = write_whole(errors, line.as_bytes());
            SiteFault::Explained
        }
        Err(AllocError) => SiteFault::OutOfMemory,
    }
}

/// Says what is wrong in the journal.
pub(crate) fn say_refused<E: Write>(
    alloc: Global,
    path: &str,
    reading: Reading,
    errors: &mut E,
) -> SiteFault {
    let mut line = Replies::new(alloc);
    match put_refused(&mut line, path, reading) {
        Ok(()) => {
            let _ = write_whole(errors, line.whole());
            SiteFault::Explained
        }
        Err(OutOfMemory) => SiteFault::OutOfMemory,
    }
}

fn put_refused(
    line: &mut Replies<Global>,
    path: &str,
    reading: Reading,
) -> Result<(), OutOfMemory> {
    line.put(b"rights-site: journal ")?;
    line.put(path.as_bytes())?;
    line.put(b": ")?;
    put_cause(line, reading)?;
    line.put(b"; nothing was changed, and check-journal prints what stands before it")?;
    line.finish()
}
