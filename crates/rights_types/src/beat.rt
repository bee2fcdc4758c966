//! Beats: the end of a log.
ghost use Rattle.std.specs.Prelude.{◌≡◌, ◌≢◌};
ghost use Rattle.rights_types.specs.Ranges.{IsNumber};
ghost use Rattle.rights_types.specs.Messages.{BeatMade, IsBeat};

use crate::fault::TypeError;
use crate::limits::MAX_NUMBER;
use crate::site::SiteId;
use std::marker::Model;

/// The last number of the origin's log.
#[derive(Clone, Copy, Debug, PartialEq, Eq)]
pub struct Beat {
    origin: SiteId,
    number: u32,
}

impl Model for Beat {
    ghost use Rattle.rights_types.specs.Messages.{BeatValue, IsBeat};

    ghost Value = { BeatValue };

    ghost view = { λ b. record { origin = b.origin; number = b.number } };

    ghost invariant = { λ b. IsBeat (record { origin = b.origin; number = b.number }) };

    ghost inverse = { λ v. record { origin = v.origin; number = v.number } };
}

impl Beat {
    /// `BadNumber` if the number is above 10^9.
    pub fn new(origin: SiteId, number: u64) -> Result<Beat, TypeError>
        ensures { BeatMade (record { origin = origin; number = number }) result }
    {
        // For the proof: the range of the site.
        let _ = origin.number();
        if number > MAX_NUMBER {
            return Err(TypeError::BadNumber);
        }
        Ok(Beat::known(origin, number))
    }

    /// The beat with this number, at most 10^9: a precondition, not a check.
    pub fn known(origin: SiteId, number: u64) -> Beat
        requires { IsNumber number }
        ensures { result ≡ record { origin = origin; number = number } }
    {
        // For the proof: the range of the site.
        let _ = origin.number();
        Beat {
            origin,
            number: number as u32,
        }
    }

    /// The site whose log it is.
    pub fn origin(&self) -> SiteId
        ensures value { result ≡ self.now.origin }
        ensures valid { IsBeat self.now }
    {
        self.origin
    }

    /// The log's last number, 0 for an empty log.
    pub fn number(&self) -> u64
        ensures value { result ≡ self.now.number }
        ensures valid { IsBeat self.now }
    {
        self.number as u64
    }
}
