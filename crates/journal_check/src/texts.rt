//! What is said of a journal in words.
ghost use Rattle.std.specs.Prelude.{◌≡◌, ◌++◌, OnOk, codes, decimal};
ghost use Rattle.reply_texts.specs.Texts.{desk_error_name};
ghost use Rattle.journal_check.specs.Texts.{cause_text, fault_text, replay_text};

use crate::reading::Reading;
use line_streams::Replies;
use reply_texts::desk_error_name;
use rights_types::OutOfMemory;
use site_core::{DeskError, ReplayError};
use site_records::RecordFault;
use std::alloc::Global;

#[tactic(auto, unfolding(crate::specs::Texts::fault_text))]
/// Appends why a record is refused.
fn put_fault(out: &mut Replies<Global>, fault: RecordFault) -> Result<(), OutOfMemory>
    ensures ok { OnOk result (out.new.part ≡ out.old.part ++ fault_text fault) }
    ensures kept { out.new.whole ≡ out.old.whole }
{
    match fault {
        RecordFault::NoOpening => out.put(b"it does not say whose journal this is"),
        RecordFault::OtherSite => out.put(b"it is the journal of another site"),
        RecordFault::OtherSize => out.put(b"it is the journal of a system of another size"),
        RecordFault::OtherSystem => out.put(b"it is the journal of another system"),
        RecordFault::Unreadable(_) => out.put(b"it spells no record"),
        RecordFault::NoKeyEntry => out.put(
            b"the log has no entry of a client's command with this number",
        ),
        RecordFault::NotPermitted(error) => put_replay_error(out, error),
        RecordFault::OutOfMemory => out.put(b"there is no memory for it"),
    }
}

#[tactic(auto, unfolding(crate::specs::Texts::replay_text))]
/// Appends why a site may not take a step.
fn put_replay_error(out: &mut Replies<Global>, error: ReplayError) -> Result<(), OutOfMemory>
    ensures ok { OnOk result (out.new.part ≡ out.old.part ++ replay_text error) }
    ensures kept { out.new.whole ≡ out.old.whole }
{
    match error {
        ReplayError::OutOfOrder => out.put(b"it is not the next one"),
        ReplayError::GrantedBefore => out.put(b"it grants what was granted before"),
        ReplayError::OtherClosing => out.put(
            b"it closes the site in another way than the site does",
        ),
        ReplayError::NotPermitted(error) => put_desk_error(out, error),
        ReplayError::NoRecord => out.put(b"it is a message that no journal has"),
    }
}

fn put_desk_error(out: &mut Replies<Global>, error: DeskError) -> Result<(), OutOfMemory>
    ensures ok { OnOk result (out.new.part ≡ out.old.part ++ (codes "denied: " ++ desk_error_name error)) }
    ensures kept { out.new.whole ≡ out.old.whole }
{
    out.put(b"denied: ")?;
    out.put(desk_error_name(error))
}

#[tactic(auto, unfolding(crate::specs::Texts::cause_text))]
/// Appends what is wrong; nothing if the whole journal was read.
pub fn put_cause(out: &mut Replies<Global>, reading: Reading) -> Result<(), OutOfMemory>
    ensures ok { OnOk result (out.new.part ≡ out.old.part ++ cause_text reading) }
    ensures kept { out.new.whole ≡ out.old.whole }
{
    match reading {
        Reading::Whole { .. } => Ok(()),
        Reading::Refused { number, fault } => put_refusal(out, number, fault),
        Reading::Damaged { at_byte } => put_damage(out, at_byte as u64),
        Reading::TooLong => out.put(b"it is longer than a journal can be"),
        Reading::Failed => out.put(b"it cannot be read"),
    }
}

fn put_refusal(
    out: &mut Replies<Global>,
    number: u64,
    fault: RecordFault,
) -> Result<(), OutOfMemory>
    ensures ok { OnOk result (out.new.part
        ≡ out.old.part ++ (codes "record " ++ decimal number ++ codes " refused: " ++ fault_text fault)) }
    ensures kept { out.new.whole ≡ out.old.whole }
{
    out.put_field(b"record ", number)?;
    out.put(b" refused: ")?;
    put_fault(out, fault)
}

fn put_damage(out: &mut Replies<Global>, at_byte: u64) -> Result<(), OutOfMemory>
    ensures ok { OnOk result (out.new.part ≡ out.old.part ++ (codes "damage at byte " ++ decimal at_byte)) }
    ensures kept { out.new.whole ≡ out.old.whole }
{
    out.put_field(b"damage at byte ", at_byte)
}
