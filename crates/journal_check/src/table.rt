//! What a journal holds, as a table for people.
ghost use Rattle.std.specs.Prelude.{◌≡◌, ◌++◌, OnOk, option_map};
ghost use Rattle.rights_types.specs.Ranges.{IsSite};
ghost use Rattle.rights_book.specs.Books.{sites};
ghost use Rattle.journal_check.specs.Texts.{closed_row, empty_table, held_rows, owner_rows, own_rows, peer_row};
ghost use Rattle.journal_check.specs.Texts.{peer_rows};
ghost use Rattle.journal_check.specs.Texts.{rest_row, system_row, table, told_row};

use crate::first::Owner;
use crate::reading::{Reading, Restored, is_closed};
use line_streams::Replies;
use rights_types::{OutOfMemory, SiteId};
use site_core::Desk;
use std::alloc::Global;

/// Appends the table of a journal with an opening.
pub(crate) fn put_table(
    out: &mut Replies<Global>,
    owner: &Owner,
    restored: &Restored,
) -> Result<(), OutOfMemory>
    ensures ok { OnOk result (out.new.part ≡ out.old.part ++ table owner.now restored.now) }
    ensures kept { out.new.whole ≡ out.old.whole }
{
    put_owner(out, owner)?;
    out.put_field(b"\nrecords ", restored.records)?;
    put_own(out, &restored.desk)?;
    put_held(out, &restored.desk)?;
    put_peers(out, &restored.desk)?;
    put_rest(out, restored.reading)
}

/// Appends the table of a journal with no record that was taken.
pub(crate) fn put_empty_table(
    out: &mut Replies<Global>,
    reading: Reading,
) -> Result<(), OutOfMemory>
    ensures ok { OnOk result (out.new.part ≡ out.old.part ++ empty_table reading) }
    ensures kept { out.new.whole ≡ out.old.whole }
{
    out.put(b"records 0")?;
    put_rest(out, reading)
}

fn put_owner(out: &mut Replies<Global>, owner: &Owner) -> Result<(), OutOfMemory>
    ensures ok { OnOk result (out.new.part ≡ out.old.part ++ owner_rows owner.now) }
    ensures kept { out.new.whole ≡ out.old.whole }
{
    out.put_field(b"site ", owner.site().number())?;
    out.put_field(b" of ", owner.sites())?;
    put_system(out, owner.system())
}

#[tactic(auto, unfolding(crate::specs::Texts::system_row))]
fn put_system(out: &mut Replies<Global>, system: Option<&[u8]>) -> Result<(), OutOfMemory>
    ensures ok { OnOk result (out.new.part ≡ out.old.part ++ system_row (option_map (λ name. name.now) system.entry)) }
    ensures kept { out.new.whole ≡ out.old.whole }
{
    match system {
        Some(name) => {
            out.put(b"\nsystem ")?;
            out.put(name)
        }
        None => Ok(()),
    }
}

fn put_own(out: &mut Replies<Global>, desk: &Desk) -> Result<(), OutOfMemory>
    ensures ok { OnOk result (out.new.part ≡ out.old.part ++ own_rows desk.now) }
    ensures kept { out.new.whole ≡ out.old.whole }
{
    out.put_field(b"\nnumber ", desk.number())?;
    out.put_field(b"\nissued ", desk.issued())?;
    out.put_field(b"\nspent ", desk.spent())?;
    out.put_field(b"\ngiven ", desk.given())
}

fn put_held(out: &mut Replies<Global>, desk: &Desk) -> Result<(), OutOfMemory>
    ensures ok { OnOk result (out.new.part ≡ out.old.part ++ held_rows desk.now) }
    ensures kept { out.new.whole ≡ out.old.whole }
{
    out.put_field(b"\nreceived ", desk.received())?;
    out.put_field(b"\nback ", desk.taken_back())?;
    out.put_field(b"\nheld ", desk.held())?;
    put_closed(out, is_closed(desk))
}

#[tactic(auto, unfolding(crate::specs::Texts::closed_row))]
fn put_closed(out: &mut Replies<Global>, is_closed: bool) -> Result<(), OutOfMemory>
    ensures ok { OnOk result (out.new.part ≡ out.old.part ++ closed_row is_closed) }
    ensures kept { out.new.whole ≡ out.old.whole }
{
    if is_closed {
        out.put(b"\nclosed yes")
    } else {
        out.put(b"\nclosed no")
    }
}

/// Appends how far the log of each peer was applied.
fn put_peers(out: &mut Replies<Global>, desk: &Desk) -> Result<(), OutOfMemory>
    ensures ok { OnOk result (out.new.part ≡ out.old.part ++ peer_rows desk.now (sites desk.now.ledger.book)) }
    ensures kept { out.new.whole ≡ out.old.whole }
{
    for index in 0..desk.sites() {
        put_peer(out, desk, index + 1)?;
    }
    Ok(())
}

#[tactic(auto, unfolding(crate::specs::Texts::peer_row))]
fn put_peer(out: &mut Replies<Global>, desk: &Desk, number: u64) -> Result<(), OutOfMemory>
    requires { IsSite number }
    ensures ok { OnOk result (out.new.part ≡ out.old.part ++ peer_row desk.now number) }
    ensures kept { out.new.whole ≡ out.old.whole }
{
    let own = desk.site().number();
    if number == own {
        return Ok(());
    }
    out.put_field(b"\npeer ", number)?;
    out.put_field(b" applied ", desk.applied(SiteId::known(number)))
}

#[tactic(auto, unfolding(crate::specs::Texts::rest_row))]
fn put_rest(out: &mut Replies<Global>, reading: Reading) -> Result<(), OutOfMemory>
    ensures ok { OnOk result (out.new.part ≡ out.old.part ++ rest_row reading) }
    ensures kept { out.new.whole ≡ out.old.whole }
{
    match reading {
        Reading::Whole { has_rest } => put_told(out, has_rest),
        _ => Ok(()),
    }
}

#[tactic(auto, unfolding(crate::specs::Texts::told_row))]
fn put_told(out: &mut Replies<Global>, has_rest: bool) -> Result<(), OutOfMemory>
    ensures ok { OnOk result (out.new.part ≡ out.old.part ++ told_row has_rest) }
    ensures kept { out.new.whole ≡ out.old.whole }
{
    if has_rest {
        out.put(b"\nbehind the records: the rest of an append that was never told")
    } else {
        Ok(())
    }
}
