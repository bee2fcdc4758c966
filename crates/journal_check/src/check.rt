//! A journal is read, and what it holds is printed.
ghost use Rattle.std.specs.Prelude.{◌≡◌, ◌<◌, ◌++◌, [], ℕ, IfErr, IfOk, List, OnOk};
ghost use Rattle.site_words.specs.declared.fault.CheckFault.TheVariants.{Explained};
ghost use Rattle.journal_check.specs.Checks.{Checks, Describes, EndsBy, IsSaid, IsWhole};
ghost use Rattle.journal_check.specs.Texts.{nobody_text, site_text, why_front, why_line};

use crate::first::{First, Owner, read_first};
use crate::json::{put_empty_object, put_object};
use crate::reading::{Reading, Restored, restore};
use crate::table::{put_empty_table, put_table};
use crate::texts::put_cause;
use journal_device::Device;
use journal_file::{FileDevice, Start, open_to_read};
use line_streams::{OutputError, Replies, write_whole};
use rights_types::OutOfMemory;
use site_words::CheckFault;
use std::alloc::Global;
use std::fs::{File, Files};
use std::io::Write;

/// Opens the journal at this path, to read it only. If the system refuses that, the cause is written to `errors`.
pub fn open_journal<R: Files<File = File> + AllocGlobal, S: Start, E: Write>(
    rt: &R,
    start: S,
    path: &str,
    errors: &mut E,
) -> Result<FileDevice<S>, CheckFault>
    ensures opened { IfOk result (λ device. (device.log.events ≡ []) × (errors.new ≡ errors.old)) }
    ensures refused { IfErr result (λ fault. fault ≡ Explained) }
{
    match open_to_read(rt, path, start) {
        Ok(device) => Ok(device),
        Err(error) => {
            let line = format!(in rt.alloc(); "rights-site: cannot read the journal: {error}\n");
            if let Ok(line) = line {
                let _ = write_whole(errors, line.as_bytes());
            }
            Err(CheckFault::Explained)
        }
    }
}

/// Reads the journal on this device, and prints what it holds, as a table or as an object of JSON; if that is not all of
/// the file, why, to `errors`.
pub fn check_device<D: Device, W: Write, E: Write>(
    alloc: Global,
    device: &mut D,
    json: bool,
    writer: &mut W,
    errors: &mut E,
) -> Result<(), CheckFault>
    ensures { D.is_honest device.new → Checks (D.faults device.old < D.faults device.new) (D.seen device.old) json
        (W.contents writer.old) (W.contents writer.new) (E.contents errors.old) (E.contents errors.new) result }
{
    let mut out = Replies::new(alloc);
    let reading = put_journal(alloc, device, json, &mut out)?;
    out.finish()?;
    match write_whole(writer, out.whole()) {
        Ok(()) => end_by(alloc, reading, errors),
        Err(OutputError) => Err(CheckFault::WriteFailed),
    }
}

#[tactic(auto, using(crate::proofs::CheckLaws::ends_unsaid))]
/// How a check of a journal ends that is printed.
fn end_by<E: Write>(alloc: Global, reading: Reading, errors: &mut E) -> Result<(), CheckFault>
    ensures { EndsBy reading (E.contents errors.old) (E.contents errors.new) result }
{
    match reading {
        Reading::Whole { .. } => Ok(()),
        _ => match say_why(alloc, reading, errors) {
            Ok(()) => Err(CheckFault::Explained),
            Err(fault) => Err(fault),
        },
    }
}

/// Prints why the journal is not read to its end.
fn say_why<E: Write>(alloc: Global, reading: Reading, errors: &mut E) -> Result<(), CheckFault>
    requires { IsWhole reading → ⊥ }
    ensures { IsSaid (E.contents errors.old) (E.contents errors.new) (why_line reading) result }
{
    let mut out = Replies::new(alloc);
    put_why_front(&mut out)?;
    put_cause(&mut out, reading)?;
    out.finish()?;
    Ok(write_whole(errors, out.whole())?)
}

#[tactic(auto, unfolding(crate::specs::Texts::why_front))]
fn put_why_front(out: &mut Replies<Global>) -> Result<(), OutOfMemory>
    ensures ok { OnOk result (out.new.part ≡ out.old.part ++ why_front) }
    ensures kept { out.new.whole ≡ out.old.whole }
{
    out.put(b"rights-site: journal: ")
}

/// Reads a journal, and appends what it holds.
fn put_journal<D: Device>(
    alloc: Global,
    device: &mut D,
    json: bool,
    out: &mut Replies<Global>,
) -> Result<Reading, OutOfMemory>
    ensures says { IfOk result (λ reading. D.is_honest device.new → (text : List ℕ)
        × Describes (D.faults device.old < D.faults device.new) (D.seen device.old) json reading text
        × (out.new.part ≡ out.old.part ++ text)) }
    ensures kept { out.new.whole ≡ out.old.whole }
{
    match read_first(alloc, device)? {
        First::Of(owner) => {
            let restored = restore(alloc, device, &owner)?;
            put_site(out, json, &owner, &restored)?;
            Ok(restored.reading)
        }
        First::Without(reading) => {
            put_nobody(out, json, reading)?;
            Ok(reading)
        }
    }
}

#[tactic(auto, unfolding(crate::specs::Texts::site_text))]
fn put_site(
    out: &mut Replies<Global>,
    json: bool,
    owner: &Owner,
    restored: &Restored,
) -> Result<(), OutOfMemory>
    ensures ok { OnOk result (out.new.part ≡ out.old.part ++ site_text json owner.now restored.now) }
    ensures kept { out.new.whole ≡ out.old.whole }
{
    if json {
        put_object(out, owner, restored)
    } else {
        put_table(out, owner, restored)
    }
}

#[tactic(auto, unfolding(crate::specs::Texts::nobody_text))]
fn put_nobody(out: &mut Replies<Global>, json: bool, reading: Reading) -> Result<(), OutOfMemory>
    ensures ok { OnOk result (out.new.part ≡ out.old.part ++ nobody_text json reading) }
    ensures kept { out.new.whole ≡ out.old.whole }
{
    if json {
        put_empty_object(out, reading)
    } else {
        put_empty_table(out, reading)
    }
}
