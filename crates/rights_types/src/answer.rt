//! Answers to queries.
ghost use Rattle.std.specs.Prelude.{◌≡◌, ◌≤◌, ◌==◌, not, length};
ghost use Rattle.std.specs.List.{list_any, All};
ghost use Rattle.rights_types.specs.Entries.{EntryValue, IsEntry};
ghost use Rattle.rights_types.specs.Messages.{AnswerMade, IsAnswer};

use crate::entry::Entry;
use crate::fault::TypeError;
use crate::limits::MAX_ANSWER;
use crate::site::SiteId;
use std::alloc::{Allocator, Global};
use std::marker::Model;

/// Up to 16 entries of the origin's log, for the site that asked for them.
#[derive(Drop)]
pub struct Answer<A: Allocator = Global> {
    origin: SiteId,
    asker: SiteId,
    entries: Vec<Entry<A>, A>,
}

impl<A: Allocator> Model for Answer<A> {
    ghost use Rattle.rights_types.specs.Messages.{AnswerValue, IsAnswer};

    ghost Value = { AnswerValue };

    ghost view = { λ a. record { origin = a.origin; asker = a.asker; entries = a.entries.items } };

    ghost invariant = { λ a. IsAnswer (record { origin = a.origin; asker = a.asker; entries = a.entries.items }) };
}

impl<A: Allocator> Answer<A> {
    /// Errors, in this order: `BadSite` if an entry is of another origin, `BadCount` for more than 16 entries,
    /// `SameSite` if the origin answers itself. On an error the entries are dropped.
    pub fn new(
        origin: SiteId,
        asker: SiteId,
        entries: Vec<Entry<A>, A>,
    ) -> Result<Answer<A>, TypeError>
        ensures { AnswerMade (record { origin = origin; asker = asker; entries = entries.items }) result }
    {
        // For the proof: the ranges of both sites.
        let _ = (origin.number(), asker.number());
        if any_foreign(&entries, origin) {
            return Err(TypeError::BadSite);
        }
        if entries.len() > MAX_ANSWER {
            return Err(TypeError::BadCount);
        }
        if asker == origin {
            return Err(TypeError::SameSite);
        }
        all_valid(&entries);
        Ok(Answer::known(origin, asker, entries))
    }

    /// The answer of these values, which must be within the limits: a precondition, not a check.
    pub fn known(origin: SiteId, asker: SiteId, entries: Vec<Entry<A>, A>) -> Answer<A>
        requires { IsAnswer (record { origin = origin; asker = asker; entries = entries.items }) }
        ensures { result ≡ record { origin = origin; asker = asker; entries = entries.items } }
    {
        Answer {
            origin,
            asker,
            entries,
        }
    }

    /// The site whose entries these are.
    pub fn origin(&self) -> SiteId
        ensures value { result ≡ self.now.origin }
        ensures valid { IsAnswer self.now }
    {
        self.origin
    }

    /// The site that asked.
    pub fn asker(&self) -> SiteId
        ensures value { result ≡ self.now.asker }
        ensures valid { IsAnswer self.now }
    {
        self.asker
    }

    /// The entries, in the order of the log.
    pub fn entries(&self) -> &[Entry<A>]
        ensures value { result.now ≡ self.now.entries }
        ensures valid { IsAnswer self.now }
    {
        &self.entries
    }

    /// The entries, owned by the caller from now on. There are at most 16.
    pub fn into_entries(self) -> Vec<Entry<A>, A>
        ensures value { result.items ≡ self.entries }
        ensures valid { IsAnswer self }
        ensures few { length result.items ≤ MAX_ANSWER }
    {
        self.entries
    }
}

fn any_foreign<A: Allocator>(entries: &[Entry<A>], origin: SiteId) -> bool
    ensures { result ≡ list_any (λ (e : EntryValue). not (e.origin == origin)) entries.now }
{
    entries.iter().any(|entry| entry.origin() != origin)
}

// For the proof: each entry is within its limits, as its type guarantees.
fn all_valid<A: Allocator>(entries: &[Entry<A>])
    ensures { All IsEntry entries.now }
{
    for entry in entries {
        let _ = entry.prev();
    }
}
