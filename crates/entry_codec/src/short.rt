//! Messages without entries.
ghost use Rattle.std.specs.Prelude.{◌≡◌, ◌≢◌, ◌==◌, ◌<◌, ◌≤◌, length, is_none, IfOk};
ghost use Rattle.rights_types.specs.Ranges.{IsSite};
ghost use Rattle.rights_types.specs.Messages.MessageValue.{AQuery, ABeat, AnAsk, ADenial, AHello};
ghost use Rattle.rights_types.specs.Values.{value_of};
ghost use Rattle.entry_codec.specs.Parts.{ReadsAs, parts_left, fields_left};
ghost use Rattle.entry_codec.specs.Reading.{other_site_at, trails, query_of, beat_of, ask_of, denial_of, hello_of};
ghost use Rattle.entry_codec.specs.Reading.{short_of};

use crate::fault::{LineError, Place};
use crate::format::{ASK_LETTER, BEAT_LETTER, DENIAL_LETTER, HELLO_LETTER, QUERY_LETTER};
use crate::parts::{is_letter, number_in};
use rights_types::{
    Amount, Ask, AskNumber, Beat, Deny, MAX_AMOUNT, MAX_ASK, MAX_NUMBER, MAX_SITES, Message, Query,
    SiteId,
};
use std::alloc::Allocator;

/// The site in a field, which must differ from another one, and the fields after it.
#[tactic(auto, unfolding(crate::specs::Reading::other_site_at))]
pub(crate) fn other_site_in(
    fields: Option<&[u8]>,
    other: u64,
    place: Place,
) -> Result<(u64, Option<&[u8]>), LineError>
    ensures value { ReadsAs (λ x. (x.0, fields_left x.1)) result
        (other_site_at other place (fields_left fields.entry)) }
    ensures range { IfOk result (λ x. IsSite x.0) }
    ensures differs { IfOk result (λ x. x.0 ≢ other) }
    ensures last { IfOk result (λ x. is_none x.1 ≡ (length (fields_left x.1) == 0)) }
{
    let (site, rest) = number_in(fields, 1, MAX_SITES, place)?;
    if site == other {
        return Err(LineError::BadField(place));
    }
    Ok((site, rest))
}

// Whether there are more fields or parts than the kind has.
fn trails(fields: Option<&[u8]>, others: Option<&[u8]>) -> bool
    ensures { result ≡ trails (fields_left fields.entry) (parts_left others.entry) }
{
    fields.is_some() || others.is_some()
}

#[tactic(auto, unfolding(crate::specs::Reading::query_of))]
fn query_in(fields: Option<&[u8]>, others: Option<&[u8]>) -> Result<Query, LineError>
    ensures { ReadsAs (λ q. AQuery q) result
        (query_of (fields_left fields.entry) (parts_left others.entry)) }
{
    let (asker, rest) = number_in(fields, 1, MAX_SITES, Place { part: 0, field: 1 })?;
    let (origin, rest) = other_site_in(rest, asker, Place { part: 0, field: 2 })?;
    let (first, rest) = number_in(rest, 0, MAX_NUMBER, Place { part: 0, field: 3 })?;
    let (last, rest) = number_in(rest, 0, MAX_NUMBER, Place { part: 0, field: 4 })?;
    if trails(rest, others) {
        return Err(LineError::TrailingBytes);
    }
    let (asker, origin) = (SiteId::known(asker), SiteId::known(origin));
    Ok(Query::known(asker, origin, first, last))
}

#[tactic(auto, unfolding(crate::specs::Reading::beat_of))]
fn beat_in(fields: Option<&[u8]>, others: Option<&[u8]>) -> Result<Beat, LineError>
    ensures { ReadsAs (λ b. ABeat b) result
        (beat_of (fields_left fields.entry) (parts_left others.entry)) }
{
    let (origin, rest) = number_in(fields, 1, MAX_SITES, Place { part: 0, field: 1 })?;
    let (number, rest) = number_in(rest, 0, MAX_NUMBER, Place { part: 0, field: 2 })?;
    if trails(rest, others) {
        return Err(LineError::TrailingBytes);
    }
    Ok(Beat::known(SiteId::known(origin), number))
}

#[tactic(auto, unfolding(crate::specs::Reading::ask_of))]
fn ask_in(fields: Option<&[u8]>, others: Option<&[u8]>) -> Result<Ask, LineError>
    ensures { ReadsAs (λ a. AnAsk a) result
        (ask_of (fields_left fields.entry) (parts_left others.entry)) }
{
    let (asker, rest) = number_in(fields, 1, MAX_SITES, Place { part: 0, field: 1 })?;
    let (asked, rest) = other_site_in(rest, asker, Place { part: 0, field: 2 })?;
    let (ask, rest) = number_in(rest, 1, MAX_ASK, Place { part: 0, field: 3 })?;
    let (amount, rest) = number_in(rest, 1, MAX_AMOUNT, Place { part: 0, field: 4 })?;
    if trails(rest, others) {
        return Err(LineError::TrailingBytes);
    }
    let (asker, asked) = (SiteId::known(asker), SiteId::known(asked));
    let (ask, amount) = (AskNumber::known(ask), Amount::known(amount));
    Ok(Ask::known(asker, asked, ask, amount))
}

#[tactic(auto, unfolding(crate::specs::Reading::denial_of))]
fn denial_in(fields: Option<&[u8]>, others: Option<&[u8]>) -> Result<Deny, LineError>
    ensures { ReadsAs (λ d. ADenial d) result
        (denial_of (fields_left fields.entry) (parts_left others.entry)) }
{
    let (denier, rest) = number_in(fields, 1, MAX_SITES, Place { part: 0, field: 1 })?;
    let (asker, rest) = other_site_in(rest, denier, Place { part: 0, field: 2 })?;
    let (ask, rest) = number_in(rest, 1, MAX_ASK, Place { part: 0, field: 3 })?;
    if trails(rest, others) {
        return Err(LineError::TrailingBytes);
    }
    let (denier, asker) = (SiteId::known(denier), SiteId::known(asker));
    Ok(Deny::known(denier, asker, AskNumber::known(ask)))
}

#[tactic(auto, unfolding(crate::specs::Reading::hello_of))]
fn hello_in(fields: Option<&[u8]>, others: Option<&[u8]>) -> Result<SiteId, LineError>
    ensures { ReadsAs (λ s. AHello s) result
        (hello_of (fields_left fields.entry) (parts_left others.entry)) }
{
    let (site, rest) = number_in(fields, 1, MAX_SITES, Place { part: 0, field: 1 })?;
    if trails(rest, others) {
        return Err(LineError::TrailingBytes);
    }
    Ok(SiteId::known(site))
}

/// Reads a message without entries, by its letter, the fields after it and the further parts.
#[tactic(auto, unfolding(crate::specs::Reading::short_of))]
pub(crate) fn short_in<A: Allocator>(
    letter: &[u8],
    fields: Option<&[u8]>,
    others: Option<&[u8]>,
) -> Result<Message<A>, LineError>
    ensures { ReadsAs value_of result
        (short_of letter.now (fields_left fields.entry) (parts_left others.entry)) }
{
    if is_letter(letter, QUERY_LETTER) {
        Ok(Message::Query(query_in(fields, others)?))
    } else if is_letter(letter, BEAT_LETTER) {
        Ok(Message::Beat(beat_in(fields, others)?))
    } else if is_letter(letter, ASK_LETTER) {
        Ok(Message::Ask(ask_in(fields, others)?))
    } else if is_letter(letter, DENIAL_LETTER) {
        Ok(Message::Deny(denial_in(fields, others)?))
    } else if is_letter(letter, HELLO_LETTER) {
        Ok(Message::Hello(hello_in(fields, others)?))
    } else {
        Err(LineError::BadKind)
    }
}
