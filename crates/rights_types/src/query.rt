//! Queries for missing entries.
ghost use Rattle.std.specs.Prelude.{◌≡◌, ◌≢◌};
ghost use Rattle.rights_types.specs.Messages.{QueryMade, IsQuery};

use crate::fault::TypeError;
use crate::limits::MAX_NUMBER;
use crate::site::SiteId;
use std::marker::Model;

/// The asker wants the entries of the origin's log that contain its numbers from `first` to `last`.
#[derive(Clone, Copy, Debug, PartialEq, Eq)]
pub struct Query {
    asker: SiteId,
    origin: SiteId,
    first: u32,
    last: u32,
}

impl Model for Query {
    ghost use Rattle.rights_types.specs.Messages.{QueryValue, IsQuery};

    ghost Value = { QueryValue };

    ghost view = { λ q. record { asker = q.asker; origin = q.origin; first = q.first; last = q.last } };

    ghost invariant = { λ q. IsQuery (record { asker = q.asker; origin = q.origin; first = q.first; last = q.last }) };

    ghost inverse = { λ v. record { asker = v.asker; origin = v.origin; first = v.first; last = v.last } };
}

impl Query {
    /// Errors, in this order: `BadNumber` if a number is above 10^9, `SameSite` if the asker is the origin. An empty
    /// range is accepted here; the log's reader refuses it.
    pub fn new(asker: SiteId, origin: SiteId, first: u64, last: u64) -> Result<Query, TypeError>
        ensures { QueryMade (record { asker = asker; origin = origin; first = first; last = last }) result }
    {
        // For the proof: the ranges of both sites.
        let _ = (asker.number(), origin.number());
        if first > MAX_NUMBER || last > MAX_NUMBER {
            return Err(TypeError::BadNumber);
        }
        if origin == asker {
            return Err(TypeError::SameSite);
        }
        Ok(Query::known(asker, origin, first, last))
    }

    /// The query of these values, which must be within the limits: a precondition, not a check.
    pub fn known(asker: SiteId, origin: SiteId, first: u64, last: u64) -> Query
        requires { IsQuery (record { asker = asker; origin = origin; first = first; last = last }) }
        ensures { result ≡ record { asker = asker; origin = origin; first = first; last = last } }
    {
        Query {
            asker,
            origin,
            first: first as u32,
            last: last as u32,
        }
    }

    /// The site that asks.
    pub fn asker(&self) -> SiteId
        ensures value { result ≡ self.now.asker }
        ensures valid { IsQuery self.now }
    {
        self.asker
    }

    /// The site whose log is asked for.
    pub fn origin(&self) -> SiteId
        ensures value { result ≡ self.now.origin }
        ensures valid { IsQuery self.now }
    {
        self.origin
    }

    /// The first number wanted.
    pub fn first(&self) -> u64
        ensures value { result ≡ self.now.first }
        ensures valid { IsQuery self.now }
    {
        self.first as u64
    }

    /// The last number wanted.
    pub fn last(&self) -> u64
        ensures value { result ≡ self.now.last }
        ensures valid { IsQuery self.now }
    {
        self.last as u64
    }
}
