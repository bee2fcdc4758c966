//! The commands of the program, and how it ends.
ghost use Rattle.std.specs.Prelude.{◌≡◌, false, Result, Err};
ghost use Rattle.std.specs.declared.alloc.Global.{Global};
ghost use Rattle.clap.specs.Walk.{texts};
ghost use Rattle.site_words.specs.Asked.{asked_by, nothing, script, version};
ghost use Rattle.rights_program.specs.Commands.{ChecksOn, Does, EndsAsCheck, EndsAsSite, Prints, ReadsNone};
ghost use Rattle.rights_program.specs.Commands.{RunsOn};
ghost use Rattle.rights_program.specs.Endings.{IsCheck, IsRun, MayEnd, Says, reads};
ghost use Rattle.rights_program.specs.Faults.{line_of, status_of};
ghost use Rattle.rights_program.specs.Runs.{Ends};
ghost use Rattle.rights_program.specs.Scripts.{Answered};
ghost use Rattle.site_words.specs.Words.{MayRefuse};
ghost use Rattle.rights_program.specs.declared.fault.ProgramError.{ProgramError};
ghost use Rattle.rights_program.specs.declared.version.TheConstants.{VERSION as VERSION_LINE};

use crate::fault::ProgramError;
use crate::version::VERSION;
use line_streams::{OutputError, write_whole};
use site_words::{CheckFault, Command, Config, JournalCheck, SiteFault, read_words};
use std::alloc::Global;
use std::io::{Read, Write};
use transfer_world::run_last_script;

/// How the program ended.
#[derive(Clone, Copy, Debug, PartialEq, Eq)]
pub struct Ended {
    /// The exit status: 0 to 2.
    pub status: u8,
    /// Whether the line with the cause was written whole. If the program did not stop for a cause, there is no such
    /// line.
    pub said: Result<(), OutputError>,
}

/// Prints why the program stops. If a write fails, the rest of the line is left out.
pub(crate) fn report<E: Write>(errors: &mut E, fault: ProgramError) -> Ended
    ensures status { result.status ≡ status_of fault }
    ensures says { Says (E.contents errors.old) (E.contents errors.new) (line_of fault) result.said }
{
    Ended {
        status: fault.status(),
        said: write_whole(errors, fault.line()),
    }
}

/// Runs a site with this configuration on these streams.
fn run_site<F: FnOnce(Config, &mut R, &mut W) -> Result<(), SiteFault>, R: Read, W: Write>(
    run: F,
    config: Config,
    reader: &mut R,
    writer: &mut W,
) -> Result<(), SiteFault>
    requires { F.IsAlwaysCallable run }
    ensures { RunsOn F.FnOnce run reader.old reader.new writer.old writer.new config result }
{
    run(config, reader, writer)
}

/// Checks a journal, and prints the result on this stream.
fn check_journal<G: FnOnce(JournalCheck, &mut W) -> Result<(), CheckFault>, W: Write>(
    check: G,
    journal: JournalCheck,
    writer: &mut W,
) -> Result<(), CheckFault>
    requires { G.IsAlwaysCallable check }
    ensures { ChecksOn G.FnOnce check writer.old writer.new journal result }
{
    check(journal, writer)
}

/// Carries out a command: runs a script, runs a site by `run`, checks a journal by `check`, or prints a help text or
/// the version whole.
#[tactic(auto, using(crate::proofs::Commands::commands))]
fn carry_out<
    F: FnOnce(Config, &mut R, &mut W) -> Result<(), SiteFault>,
    G: FnOnce(JournalCheck, &mut W) -> Result<(), CheckFault>,
    R: Read,
    W: Write,
>(
    alloc: Global,
    run: F,
    check: G,
    command: Command,
    reader: &mut R,
    writer: &mut W,
) -> Result<(), ProgramError>
    requires run { F.IsAlwaysCallable run }
    requires check { G.IsAlwaysCallable check }
    ensures does { Does Global (RunsOn F.FnOnce run reader.old reader.new writer.old writer.new)
        (ChecksOn G.FnOnce check writer.old writer.new) command
        (R.remaining reader.old) (R.remaining reader.new) (W.contents writer.old) (W.contents writer.new) result }
    ensures unread { ReadsNone command → reader.new ≡ reader.old }
{
    match command {
        Command::Sim => Ok(run_last_script(alloc, reader, writer)?),
        Command::Run(config) => Ok(run_site(run, config, reader, writer)?),
        Command::CheckJournal(journal) => Ok(check_journal(check, journal, writer)?),
        Command::Help(text) => Ok(write_whole(writer, text.as_bytes())?),
        Command::Version => Ok(write_whole(writer, VERSION)?),
    }
}

/// Carries out what the words ask for.
#[tactic(auto, using(crate::proofs::Commands::commands, crate::proofs::Endings::words_may_stop))]
fn run_command<
    F: FnOnce(Config, &mut R, &mut W) -> Result<(), SiteFault>,
    G: FnOnce(JournalCheck, &mut W) -> Result<(), CheckFault>,
    R: Read,
    W: Write,
>(
    alloc: Global,
    run: F,
    check: G,
    words: &[&str],
    reader: &mut R,
    writer: &mut W,
) -> Result<(), ProgramError>
    requires run { F.IsAlwaysCallable run }
    requires check { G.IsAlwaysCallable check }
    ensures may { MayEnd (asked_by (texts words.now)) result }
    ensures answered { asked_by (texts words.now) ≡ script
        → Answered Global (R.remaining reader.old) (R.remaining reader.new) (W.contents writer.old)
        (W.contents writer.new) result }
    ensures version { asked_by (texts words.now) ≡ version
        → Prints (W.contents writer.old) (W.contents writer.new) VERSION_LINE.now result }
    ensures site { IsRun (asked_by (texts words.now))
        → EndsAsSite (RunsOn F.FnOnce run reader.old reader.new writer.old writer.new)
        ((reader.new ≡ reader.old) × (writer.new ≡ writer.old)) (asked_by (texts words.now)) result }
    ensures journal { IsCheck (asked_by (texts words.now))
        → EndsAsCheck (ChecksOn G.FnOnce check writer.old writer.new)
        ((reader.new ≡ reader.old) × (writer.new ≡ writer.old)) (asked_by (texts words.now)) result }
    ensures unread { reads (asked_by (texts words.now)) ≡ false → reader.new ≡ reader.old }
    ensures unwritten { asked_by (texts words.now) ≡ nothing → writer.new ≡ writer.old }
    ensures refused { result ≡ Err ProgramError.BadCommandLine → (reader.new ≡ reader.old) × (writer.new ≡ writer.old) }
{
    let command = read_words(alloc, words)?;
    carry_out(alloc, run, check, command, reader, writer)
}

/// Runs the program on its words, without its name: does what they ask for, runs a site by `run`, checks a journal by
/// `check`, and prints to `errors` what stopped it, unless it was explained already.
pub fn run_words<
    F: FnOnce(Config, &mut R, &mut W) -> Result<(), SiteFault>,
    G: FnOnce(JournalCheck, &mut W) -> Result<(), CheckFault>,
    R: Read,
    W: Write,
    E: Write,
>(
    alloc: Global,
    run: F,
    check: G,
    words: &[&str],
    reader: &mut R,
    writer: &mut W,
    errors: &mut E,
) -> Ended
    requires run { F.IsAlwaysCallable run }
    requires check { G.IsAlwaysCallable check }
    // The status and the line on `errors` are those of one ending, which the words allow. If the words ask for a
    // script, the script was answered, and ended in that way. If they ask for the version, it was printed, and only a
    // failed write may have stopped that. If they give a configuration, `run` was called with it on these streams, and
    // ended in that way, or memory ran out before; and so `check`, if they name a journal.
    ensures ends { Ends Global (RunsOn F.FnOnce run reader.old reader.new writer.old writer.new)
        (ChecksOn G.FnOnce check writer.old writer.new)
        ((reader.new ≡ reader.old) × (writer.new ≡ writer.old)) (asked_by (texts words.now))
        (R.remaining reader.old) (R.remaining reader.new) (W.contents writer.old) (W.contents writer.new)
        (E.contents errors.old) (E.contents errors.new) result }
    ensures refused { result.status ≡ 2 → MayRefuse (asked_by (texts words.now)) × (reader.new ≡ reader.old)
        × (writer.new ≡ writer.old) }
    ensures unread { reads (asked_by (texts words.now)) ≡ false → reader.new ≡ reader.old }
    ensures unwritten { asked_by (texts words.now) ≡ nothing → writer.new ≡ writer.old }
    ensures quiet { result.status ≡ 0 → errors.new ≡ errors.old }
{
    match run_command(alloc, run, check, words, reader, writer) {
        Ok(()) => Ended {
            status: 0,
            said: Ok(()),
        },
        Err(fault) => report(errors, fault),
    }
}
