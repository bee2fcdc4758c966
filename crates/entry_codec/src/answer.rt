//! An answer and its parts.
ghost use Rattle.std.specs.Prelude.{◌≡◌, ◌≢◌, ◌+◌, ◌<◌, ◌≤◌, [], ◌∷◌, ◌++◌, length, take, List, Err, IfOk, IfSome};
ghost use Rattle.std.specs.Prelude.{OnOk};
ghost use Rattle.std.specs.List.{All};
ghost use Rattle.rights_types.specs.Ranges.{IsSite};
ghost use Rattle.rights_types.specs.Entries.{EntryValue, IsEntry};
ghost use Rattle.rights_types.specs.Messages.MessageValue.{AnAnswer};
ghost use Rattle.entry_codec.specs.Parts.{ReadsAs, Tells, Gives, parts_left, fields_left};
ghost use Rattle.entry_codec.specs.Kept.{CountsEntries};
ghost use Rattle.entry_codec.specs.Reading.{entries_of, answer_sites_of, answer_entries_of, answer_of};

use crate::entry::{SLOTS, entry_with, listed_entry_in};
use crate::fault::{LineError, Place};
use crate::format::PART_BREAK;
use crate::parts::{number_in, split_far};
use crate::short::other_site_in;
use rights_types::{Answer, Entry, MAX_ANSWER, MAX_LINE, MAX_SITES, Move, OutOfMemory, SiteId};
use std::alloc::Allocator;

#[tactic(auto, unfolding(crate::specs::Reading::answer_sites_of))]
fn sites_in(fields: Option<&[u8]>) -> Result<(u64, u64), LineError>
    ensures sites { ReadsAs (λ x. (x.0, x.1)) result (answer_sites_of (fields_left fields.entry)) }
    ensures origin { IfOk result (λ x. IsSite x.0) }
    ensures asker { IfOk result (λ x. IsSite x.1 × (x.1 ≢ x.0)) }
{
    let (origin, rest) = number_in(fields, 1, MAX_SITES, Place { part: 0, field: 1 })?;
    let (asker, rest) = other_site_in(rest, origin, Place { part: 0, field: 2 })?;
    if rest.is_some() {
        return Err(LineError::TrailingBytes);
    }
    Ok((origin, asker))
}

// Checks the entries without allocating, and returns how many there are.
fn entry_count(origin: u64, parts: Option<&[u8]>) -> Result<usize, LineError>
    requires site { IsSite origin }
    requires short { IfSome parts (λ text. length text.now ≤ MAX_LINE) }
    ensures { CountsEntries result (entries_of 1 origin (parts_left parts.entry)) }
{
    let mut kept = [Move::Close; SLOTS];
    let mut count: usize = 0;
    let mut rest = parts;
    while let Some(text) = rest {
        let (first, more) = split_far(text, PART_BREAK);
        listed_entry_in(first, origin, 1 + count as u16, &mut kept)?;
        count += 1;
        rest = more;
    }
    Ok(count)
}

// Drops an entry beyond the last slot: the answer has too many.
fn add_entry<A: Allocator + Copy>(
    alloc: A,
    entries: &mut Vec<Entry<A>, A>,
    origin: u64,
    prev: u64,
    moves: &[Move],
) -> Result<(), OutOfMemory>
    requires { IsEntry (record { origin = origin; prev = prev; moves = moves.now }) }
    ensures { OnOk result (
        let e : EntryValue = record { origin = origin; prev = prev; moves = moves.now } in
        length entries.old.items ≤ MAX_ANSWER
        → entries.new.items ≡ take MAX_ANSWER (entries.old.items ++ e ∷ [])) }
{
    if entries.len() < MAX_ANSWER {
        entries.push(entry_with(alloc, origin, prev, moves)?)?;
    }
    Ok(())
}

// Space for the most entries that an answer has, if there are any.
fn no_entries<A: Allocator + Copy>(alloc: A, are_any: bool) -> Result<Vec<Entry<A>, A>, OutOfMemory>
    ensures { IfOk result (λ entries. entries.items ≡ []) }
{
    let room = if are_any { MAX_ANSWER } else { 0 };
    Ok(Vec::with_capacity(alloc, room)?)
}

// Reads the entries. It stops if memory is refused, so it may miss a later fault.
fn built_entries<A: Allocator + Copy>(
    alloc: A,
    origin: u64,
    parts: Option<&[u8]>,
) -> Result<Vec<Entry<A>, A>, LineError>
    requires site { IsSite origin }
    requires short { IfSome parts (λ text. length text.now ≤ MAX_LINE) }
    ensures { Tells (λ v. v.items) result (answer_entries_of origin (parts_left parts.entry)) }
{
    let mut kept = [Move::Close; SLOTS];
    let mut entries = no_entries(alloc, parts.is_some())?;
    let mut count: usize = 0;
    let mut rest = parts;
    while let Some(text) = rest {
        let (first, more) = split_far(text, PART_BREAK);
        let (prev, moves) = listed_entry_in(first, origin, 1 + count as u16, &mut kept)?;
        add_entry(alloc, &mut entries, origin, prev, &kept[..moves])?;
        count += 1;
        rest = more;
    }
    if count > MAX_ANSWER {
        return Err(LineError::CountWrong);
    }
    Ok(entries)
}

// The error of entries for which memory was refused: their first fault, if there is one.
fn refusal(origin: u64, parts: Option<&[u8]>) -> LineError
    requires site { IsSite origin }
    requires short { IfSome parts (λ text. length text.now ≤ MAX_LINE) }
    ensures { Gives (λ (es : List EntryValue). es) (Err result)
        (answer_entries_of origin (parts_left parts.entry)) }
{
    match entry_count(origin, parts) {
        Ok(count) => {
            if count > MAX_ANSWER {
                LineError::CountWrong
            } else {
                LineError::OutOfMemory
            }
        }
        Err(fault) => fault,
    }
}

fn entries_in<A: Allocator + Copy>(
    alloc: A,
    origin: u64,
    parts: Option<&[u8]>,
) -> Result<Vec<Entry<A>, A>, LineError>
    requires site { IsSite origin }
    requires short { IfSome parts (λ text. length text.now ≤ MAX_LINE) }
    ensures { Gives (λ v. v.items) result (answer_entries_of origin (parts_left parts.entry)) }
{
    match built_entries(alloc, origin, parts) {
        Ok(entries) => Ok(entries),
        Err(LineError::OutOfMemory) => Err(refusal(origin, parts)),
        Err(fault) => Err(fault),
    }
}

/// Reads an answer, from the field after its letter on, and its further parts.
pub(crate) fn answer_in<A: Allocator + Copy>(
    alloc: A,
    fields: Option<&[u8]>,
    others: Option<&[u8]>,
) -> Result<Answer<A>, LineError>
    requires { IfSome others (λ text. length text.now ≤ MAX_LINE) }
    ensures { Gives (λ a. AnAnswer a) result
        (answer_of (fields_left fields.entry) (parts_left others.entry)) }
{
    let (origin, asker) = sites_in(fields)?;
    let entries = entries_in(alloc, origin, others)?;
    let (origin, asker) = (SiteId::known(origin), SiteId::known(asker));
    Ok(Answer::known(origin, asker, entries))
}
