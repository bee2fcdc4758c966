//! The command-line arguments of the process.
ghost use Rattle.std.specs.Prelude.{◌≡◌, ◌⊎◌, Err, IfErr, IfOk, List, drop, false, map};
ghost use Rattle.std.specs.IoError.{error_kind};
ghost use Rattle.std.specs.String.{string_bytes};
ghost use Rattle.std.specs.declared.alloc.Global.{Global};
ghost use Rattle.clap.specs.Walk.{Text, texts};
ghost use Rattle.site_words.specs.Asked.{asked_by, nothing};
ghost use Rattle.site_words.specs.Words.{MayRefuse};
ghost use Rattle.rights_program.specs.Arguments.{arguments};
ghost use Rattle.rights_program.specs.Commands.{ChecksOn, RunsOn};
ghost use Rattle.rights_program.specs.Endings.{EndsWith, MayStop, reads};
ghost use Rattle.rights_program.specs.Faults.{fault_of_given};
ghost use Rattle.rights_program.specs.Runs.{Ends};
ghost use Rattle.rights_program.specs.declared.fault.ProgramError.{ProgramError};

use crate::fault::ProgramError;
use crate::run::{Ended, report, run_words};
use site_words::{CheckFault, Config, JournalCheck, SiteFault};
use std::alloc::{AllocError, Allocator, Global};
use std::env::Env;
use std::io::{ErrorKind, Read, Write};
use std::{env, io};

/// Why the arguments cannot be read: one is not UTF-8 text, or memory for them was refused.
fn fault_of_given(error: io::Error) -> ProgramError
    ensures { result ≡ fault_of_given (error_kind error) }
{
    match error.kind() {
        ErrorKind::InvalidData => ProgramError::BadCommandLine,
        _ => ProgramError::OutOfMemory,
    }
}

/// The arguments of the process, with its name.
fn given_words<V: Env + Alloc>(env: &V) -> Result<Vec<String<V::A>, V::A>, ProgramError>
    ensures { IfErr result (λ fault. MayStop nothing fault) }
{
    match env::args(env) {
        Ok(given) => Ok(given.collect(env.alloc())?),
        Err(error) => Err(fault_of_given(error)),
    }
}

/// The texts of these arguments.
fn texts_of<'a, A: Allocator>(
    alloc: Global,
    words: &'a [String<A>],
) -> Result<Vec<&'a str>, AllocError>
    ensures { IfOk result (λ found. texts found.items ≡ map string_bytes words.now) }
{
    words.iter().map(|word| word.as_str()).collect(alloc)
}

/// The arguments after the name.
fn behind_name<'a>(words: &'a [&'a str]) -> &'a [&'a str]
    ensures { texts result.now ≡ drop 1 (texts words.now) }
{
    match words {
        [_name, rest @ ..] => rest,
        [] => words,
    }
}

/// Runs the program on the arguments of its process, the first of which is its name: the same as `run_words` on the
/// others.
pub fn run_arguments<
    F: FnOnce(Config, &mut R, &mut W) -> Result<(), SiteFault>,
    G: FnOnce(JournalCheck, &mut W) -> Result<(), CheckFault>,
    A: Allocator,
    R: Read,
    W: Write,
    E: Write,
>(
    alloc: Global,
    run: F,
    check: G,
    words: &[String<A>],
    reader: &mut R,
    writer: &mut W,
    errors: &mut E,
) -> Ended
    requires run { F.IsAlwaysCallable run }
    requires check { G.IsAlwaysCallable check }
    ensures ends { Ends Global (RunsOn F.FnOnce run reader.old reader.new writer.old writer.new)
        (ChecksOn G.FnOnce check writer.old writer.new)
        ((reader.new ≡ reader.old) × (writer.new ≡ writer.old)) (asked_by (arguments words.now))
        (R.remaining reader.old) (R.remaining reader.new) (W.contents writer.old) (W.contents writer.new)
        (E.contents errors.old) (E.contents errors.new) result
        ⊎ (EndsWith result (E.contents errors.old) (E.contents errors.new) (Err ProgramError.OutOfMemory)
        × (reader.new ≡ reader.old) × (writer.new ≡ writer.old)) }
    ensures refused { result.status ≡ 2 → MayRefuse (asked_by (arguments words.now)) × (reader.new ≡ reader.old)
        × (writer.new ≡ writer.old) }
    ensures unread { reads (asked_by (arguments words.now)) ≡ false → reader.new ≡ reader.old }
    ensures unwritten { asked_by (arguments words.now) ≡ nothing → writer.new ≡ writer.old }
    ensures quiet { result.status ≡ 0 → errors.new ≡ errors.old }
{
    let texts = match texts_of(alloc, words) {
        Ok(texts) => texts,
        Err(AllocError) => return report(errors, ProgramError::OutOfMemory),
    };
    let behind = behind_name(&texts);
    run_words(alloc, run, check, behind, reader, writer, errors)
}

/// Runs the program on the arguments of its process: the same as `run_arguments` on some arguments, since no contract
/// says what they are. If they cannot be read, the cause is printed to `errors`, and nothing is read or written.
pub fn run_given<
    F: FnOnce(Config, &mut R, &mut W) -> Result<(), SiteFault>,
    G: FnOnce(JournalCheck, &mut W) -> Result<(), CheckFault>,
    V: Env + Alloc,
    R: Read,
    W: Write,
    E: Write,
>(alloc: Global, run: F, check: G, env: &V, reader: &mut R, writer: &mut W, errors: &mut E) -> Ended
    requires run { F.IsAlwaysCallable run }
    requires check { G.IsAlwaysCallable check }
    ensures { ((words : List Text) × Ends Global (RunsOn F.FnOnce run reader.old reader.new writer.old writer.new)
        (ChecksOn G.FnOnce check writer.old writer.new)
        ((reader.new ≡ reader.old) × (writer.new ≡ writer.old)) (asked_by words)
        (R.remaining reader.old) (R.remaining reader.new) (W.contents writer.old) (W.contents writer.new)
        (E.contents errors.old) (E.contents errors.new) result)
        ⊎ ((fault : ProgramError) × MayStop nothing fault
        × EndsWith result (E.contents errors.old) (E.contents errors.new) (Err fault)
        × (reader.new ≡ reader.old) × (writer.new ≡ writer.old)) }
{
    match given_words(env) {
        Ok(words) => run_arguments(alloc, run, check, &words, reader, writer, errors),
        Err(fault) => report(errors, fault),
    }
}
