//! What a journal holds, as an object of JSON on one line, whose keys are in alphabetical order. Nothing in it needs an
//! escape: the name of a system has letters, digits and hyphens.
ghost use Rattle.std.specs.Prelude.{◌≡◌, ◌++◌, OnOk, codes, decimal, option_map};
ghost use Rattle.rights_types.specs.Ranges.{IsSite};
ghost use Rattle.rights_book.specs.Books.{sites};
ghost use Rattle.journal_check.specs.Texts.{cause_text, closed_member, comma_before, damaged_member, empty_object};
ghost use Rattle.journal_check.specs.Texts.{object, owner_members, peer_item, peer_items, peers_member};
ghost use Rattle.journal_check.specs.Texts.{received_member, records_member, records_members, refused_member};
ghost use Rattle.journal_check.specs.Texts.{refused_number, rest_member, rights_members, system_member};
ghost use Rattle.journal_check.specs.Texts.{told_member, why_member};

use crate::first::Owner;
use crate::reading::{Reading, Restored, is_closed};
use crate::texts::put_cause;
use line_streams::Replies;
use rights_types::{OutOfMemory, SiteId};
use site_core::Desk;
use std::alloc::Global;

/// Appends the object of a journal with an opening.
pub(crate) fn put_object(
    out: &mut Replies<Global>,
    owner: &Owner,
    restored: &Restored,
) -> Result<(), OutOfMemory>
    ensures ok { OnOk result (out.new.part ≡ out.old.part ++ object owner.now restored.now) }
    ensures kept { out.new.whole ≡ out.old.whole }
{
    out.put_field(b"{\"back\":", restored.desk.taken_back())?;
    put_closed(out, is_closed(&restored.desk))?;
    put_damaged(out, restored.reading)?;
    put_rights(out, &restored.desk)?;
    put_peers(out, &restored.desk)?;
    put_records(out, restored)?;
    put_owner(out, owner, &restored.desk)?;
    put_why(out, restored.reading)
}

/// Appends the object of a journal with no record that was taken.
pub(crate) fn put_empty_object(
    out: &mut Replies<Global>,
    reading: Reading,
) -> Result<(), OutOfMemory>
    ensures ok { OnOk result (out.new.part ≡ out.old.part ++ empty_object reading) }
    ensures kept { out.new.whole ≡ out.old.whole }
{
    out.put(b"{")?;
    put_damaged(out, reading)?;
    put_count(out, 0)?;
    put_refused(out, reading)?;
    put_rest(out, reading)?;
    put_why(out, reading)
}

#[tactic(auto, unfolding(crate::specs::Texts::closed_member))]
fn put_closed(out: &mut Replies<Global>, is_closed: bool) -> Result<(), OutOfMemory>
    ensures ok { OnOk result (out.new.part ≡ out.old.part ++ closed_member is_closed) }
    ensures kept { out.new.whole ≡ out.old.whole }
{
    if is_closed {
        out.put(b",\"closed\":true,")
    } else {
        out.put(b",\"closed\":false,")
    }
}

#[tactic(auto, unfolding(crate::specs::Texts::damaged_member))]
fn put_damaged(out: &mut Replies<Global>, reading: Reading) -> Result<(), OutOfMemory>
    ensures ok { OnOk result (out.new.part ≡ out.old.part ++ damaged_member reading) }
    ensures kept { out.new.whole ≡ out.old.whole }
{
    match reading {
        Reading::Damaged { at_byte } => out.put_field(b"\"damaged\":", at_byte as u64),
        _ => out.put(b"\"damaged\":null"),
    }
}

fn put_rights(out: &mut Replies<Global>, desk: &Desk) -> Result<(), OutOfMemory>
    ensures ok { OnOk result (out.new.part ≡ out.old.part ++ rights_members desk.now) }
    ensures kept { out.new.whole ≡ out.old.whole }
{
    out.put_field(b",\"given\":", desk.given())?;
    out.put_field(b",\"held\":", desk.held())?;
    out.put_field(b",\"issued\":", desk.issued())?;
    out.put_field(b",\"number\":", desk.number())
}

/// Appends how far the log of each peer was applied.
fn put_peers(out: &mut Replies<Global>, desk: &Desk) -> Result<(), OutOfMemory>
    ensures ok { OnOk result (out.new.part ≡ out.old.part ++ peers_member desk.now) }
    ensures kept { out.new.whole ≡ out.old.whole }
{
    out.put(b",\"peers\":[")?;
    put_items(out, desk)?;
    out.put(b"]")
}

fn put_items(out: &mut Replies<Global>, desk: &Desk) -> Result<(), OutOfMemory>
    ensures ok { OnOk result (out.new.part ≡ out.old.part ++ peer_items desk.now (sites desk.now.ledger.book)) }
    ensures kept { out.new.whole ≡ out.old.whole }
{
    for index in 0..desk.sites() {
        put_item(out, desk, index + 1)?;
    }
    Ok(())
}

#[tactic(auto, unfolding(crate::specs::Texts::peer_item))]
fn put_item(out: &mut Replies<Global>, desk: &Desk, number: u64) -> Result<(), OutOfMemory>
    requires { IsSite number }
    ensures ok { OnOk result (out.new.part ≡ out.old.part ++ peer_item desk.now number) }
    ensures kept { out.new.whole ≡ out.old.whole }
{
    let own = desk.site().number();
    if number == own {
        return Ok(());
    }
    put_comma(out, own, number)?;
    out.put_field(b"{\"applied\":", desk.applied(SiteId::known(number)))?;
    out.put_field(b",\"site\":", number)?;
    out.put(b"}")
}

/// Appends the comma before this peer, if it is not the first one.
fn put_comma(out: &mut Replies<Global>, own: u64, number: u64) -> Result<(), OutOfMemory>
    ensures ok { OnOk result (out.new.part ≡ out.old.part ++ comma_before own number) }
    ensures kept { out.new.whole ≡ out.old.whole }
{
    let first = if own == 1 { 2 } else { 1 };
    if number == first {
        Ok(())
    } else {
        out.put(b",")
    }
}

#[tactic(auto, unfolding(crate::specs::Texts::refused_member))]
fn put_refused(out: &mut Replies<Global>, reading: Reading) -> Result<(), OutOfMemory>
    ensures ok { OnOk result (out.new.part ≡ out.old.part ++ refused_member reading) }
    ensures kept { out.new.whole ≡ out.old.whole }
{
    match reading {
        Reading::Refused { number, fault: _ } => put_refused_number(out, number),
        _ => out.put(b",\"refused\":null"),
    }
}

#[tactic(auto, unfolding(crate::specs::Texts::refused_number))]
fn put_refused_number(out: &mut Replies<Global>, number: u64) -> Result<(), OutOfMemory>
    ensures ok { OnOk result (out.new.part ≡ out.old.part ++ refused_number number) }
    ensures kept { out.new.whole ≡ out.old.whole }
{
    out.put_field(b",\"refused\":", number)
}

#[tactic(auto, unfolding(crate::specs::Texts::rest_member))]
fn put_rest(out: &mut Replies<Global>, reading: Reading) -> Result<(), OutOfMemory>
    ensures ok { OnOk result (out.new.part ≡ out.old.part ++ rest_member reading) }
    ensures kept { out.new.whole ≡ out.old.whole }
{
    match reading {
        Reading::Whole { has_rest } => put_told(out, has_rest),
        _ => put_told(out, false),
    }
}

#[tactic(auto, unfolding(crate::specs::Texts::told_member))]
fn put_told(out: &mut Replies<Global>, has_rest: bool) -> Result<(), OutOfMemory>
    ensures ok { OnOk result (out.new.part ≡ out.old.part ++ told_member has_rest) }
    ensures kept { out.new.whole ≡ out.old.whole }
{
    if has_rest {
        out.put(b",\"rest\":true")
    } else {
        out.put(b",\"rest\":false")
    }
}

#[tactic(auto, unfolding(crate::specs::Texts::received_member))]
fn put_received(out: &mut Replies<Global>, rights: u64) -> Result<(), OutOfMemory>
    ensures ok { OnOk result (out.new.part ≡ out.old.part ++ received_member rights) }
    ensures kept { out.new.whole ≡ out.old.whole }
{
    out.put_field(b",\"received\":", rights)
}

#[tactic(auto, unfolding(crate::specs::Texts::records_member))]
fn put_count(out: &mut Replies<Global>, records: u64) -> Result<(), OutOfMemory>
    ensures ok { OnOk result (out.new.part ≡ out.old.part ++ records_member records) }
    ensures kept { out.new.whole ≡ out.old.whole }
{
    out.put_field(b",\"records\":", records)
}

fn put_records(out: &mut Replies<Global>, restored: &Restored) -> Result<(), OutOfMemory>
    ensures ok { OnOk result (out.new.part ≡ out.old.part ++ records_members restored.now) }
    ensures kept { out.new.whole ≡ out.old.whole }
{
    put_received(out, restored.desk.received())?;
    put_count(out, restored.records)?;
    put_refused(out, restored.reading)?;
    put_rest(out, restored.reading)
}

fn put_owner(out: &mut Replies<Global>, owner: &Owner, desk: &Desk) -> Result<(), OutOfMemory>
    ensures ok { OnOk result (out.new.part ≡ out.old.part ++ owner_members owner.now desk.now) }
    ensures kept { out.new.whole ≡ out.old.whole }
{
    out.put_field(b",\"site\":", owner.site().number())?;
    out.put_field(b",\"sites\":", owner.sites())?;
    out.put_field(b",\"spent\":", desk.spent())?;
    put_system(out, owner.system())
}

#[tactic(auto, unfolding(crate::specs::Texts::system_member))]
fn put_system(out: &mut Replies<Global>, system: Option<&[u8]>) -> Result<(), OutOfMemory>
    ensures ok { OnOk result (out.new.part
        ≡ out.old.part ++ system_member (option_map (λ name. name.now) system.entry)) }
    ensures kept { out.new.whole ≡ out.old.whole }
{
    match system {
        Some(name) => {
            out.put(b",\"system\":\"")?;
            out.put(name)?;
            out.put(b"\"")
        }
        None => out.put(b",\"system\":null"),
    }
}

#[tactic(auto, unfolding(crate::specs::Texts::why_member))]
/// Appends what is wrong, and the end of the object.
fn put_why(out: &mut Replies<Global>, reading: Reading) -> Result<(), OutOfMemory>
    ensures ok { OnOk result (out.new.part ≡ out.old.part ++ why_member reading) }
    ensures kept { out.new.whole ≡ out.old.whole }
{
    match reading {
        Reading::Whole { .. } => out.put(b",\"why\":null}"),
        _ => put_cause_member(out, reading),
    }
}

fn put_cause_member(out: &mut Replies<Global>, reading: Reading) -> Result<(), OutOfMemory>
    ensures ok { OnOk result (out.new.part
        ≡ out.old.part ++ (codes ",\"why\":\"" ++ cause_text reading ++ codes "\"}")) }
    ensures kept { out.new.whole ≡ out.old.whole }
{
    out.put(b",\"why\":\"")?;
    put_cause(out, reading)?;
    out.put(b"\"}")
}
