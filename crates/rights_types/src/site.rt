//! The numbers of sites.
ghost use Rattle.std.specs.Prelude.{◌≡◌, ◌+◌, ◌<◌, IfErr};
ghost use Rattle.std.specs.Result.{OkIff};
ghost use Rattle.rights_types.specs.Ranges.{IsSite};

use crate::fault::TypeError;
use crate::limits::MAX_SITES;
use std::marker::Model;

/// A site's number, from 1 to 16.
#[derive(Clone, Copy, Debug, PartialEq, Eq, PartialOrd, Ord)]
pub struct SiteId {
    number: u8,
}

impl Model for SiteId {
    ghost use Rattle.std.specs.Prelude.{ℕ};
    ghost use Rattle.rights_types.specs.Ranges.{IsSite};

    ghost Value = { ℕ };

    ghost view = { λ s. s.number };

    ghost invariant = { λ s. IsSite s.number };

    ghost inverse = { λ n. record { number = n } };
}

impl SiteId {
    /// The site with this number. `BadSite` outside 1 to 16.
    pub fn new(number: u64) -> Result<SiteId, TypeError>
        ensures ok { OkIff result (IsSite number) number }
        ensures err { IfErr result (λ fault. fault ≡ TypeError.BadSite) }
    {
        if number < 1 || number > MAX_SITES {
            return Err(TypeError::BadSite);
        }
        Ok(SiteId::known(number))
    }

    /// The site with this number, which must be 1 to 16: a precondition, not a check.
    pub fn known(number: u64) -> SiteId
        requires { IsSite number }
        ensures { result ≡ number }
    {
        SiteId {
            number: number as u8,
        }
    }

    /// The number, from 1 to 16.
    pub fn number(self) -> u64
        ensures value { result ≡ self }
        ensures range { IsSite self }
    {
        self.number as u64
    }

    /// The index of this site in a list that begins with site 1.
    pub fn index(self) -> usize
        ensures value { result + 1 ≡ self }
        ensures range { result < MAX_SITES }
    {
        self.number as usize - 1
    }
}
