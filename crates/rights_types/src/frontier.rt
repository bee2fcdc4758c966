//! What a closing site had applied of each other site's log.
ghost use Rattle.std.specs.Prelude.{◌≡◌, ℕ, ◌-◌, ◌<◌, ◌≤◌, ◌↔◌, length, IfOk, IsErrOf, slice_get, Result, Ok, Err};
ghost use Rattle.rights_types.specs.Ranges.{IsFrontier};
ghost use Rattle.rights_types.specs.Frontiers.{FrontierMade};

use crate::fault::TypeError;
use crate::limits::{MAX_NUMBER, MAX_SITES, MIN_SITES};
use crate::site::SiteId;
use std::marker::Model;

/// For each site of a system of 2 to 16, the last number of its log that the closing site had applied.
#[derive(Clone, Copy, Debug, PartialEq, Eq)]
pub struct Frontier {
    numbers: [u32; 16],
    count: u8,
}

impl Model for Frontier {
    ghost use Rattle.std.specs.Prelude.{ℕ, List, take, length, replicate, ◌-◌, ◌++◌};
    ghost use Rattle.rights_types.specs.Ranges.{IsFrontier};
    ghost use Rattle.rights_types.specs.Frontiers.{IsPadded, padded};

    ghost Value = { List ℕ };

    ghost view = { λ f. take f.count f.numbers };

    ghost invariant = { λ f. IsFrontier (take f.count f.numbers) × IsPadded f.count f.numbers };

    ghost inverse = { λ numbers. record { numbers = padded numbers; count = length numbers } };

    ghost use Rattle.rights_types.specs.FrontierInverse.{padded_again};

    ghost inverse_ok = { λ a h. padded_again a h.1 };
}

impl Frontier {
    /// `BadCount` if there are not 2 to 16 numbers, else `BadNumber` if one is above 10^9.
    pub fn new(numbers: &[u64]) -> Result<Frontier, TypeError>
        ensures { FrontierMade numbers.now result }
    {
        let count = numbers.len() as u64;
        if count < MIN_SITES || count > MAX_SITES {
            return Err(TypeError::BadCount);
        }
        let mut kept = [0u32; 16];
        for i in 0..numbers.len() {
            if numbers[i] > MAX_NUMBER {
                return Err(TypeError::BadNumber);
            }
            kept[i] = numbers[i] as u32;
        }
        Ok(Frontier {
            numbers: kept,
            count: numbers.len() as u8,
        })
    }

    /// The number for a site, or None if the system does not have it.
    pub fn at(&self, site: SiteId) -> Option<u64>
        ensures { result ≡ slice_get self.now (site - 1) }
    {
        if site.index() < self.count() {
            Some(self.numbers[site.index()] as u64)
        } else {
            None
        }
    }

    /// How many sites the system has, from 2 to 16.
    pub fn count(&self) -> usize
        ensures value { result ≡ length self.now }
        ensures valid { IsFrontier self.now }
    {
        self.count as usize
    }
}
