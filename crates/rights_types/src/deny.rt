//! Denials of asks.
ghost use Rattle.std.specs.Prelude.{◌≡◌, ◌≢◌};
ghost use Rattle.rights_types.specs.Messages.{DenialMade, IsDenial};

use crate::amount::AskNumber;
use crate::fault::TypeError;
use crate::site::SiteId;
use std::marker::Model;

/// The denier grants nothing for this ask.
#[derive(Clone, Copy, Debug, PartialEq, Eq)]
pub struct Deny {
    denier: SiteId,
    asker: SiteId,
    ask: AskNumber,
}

impl Model for Deny {
    ghost use Rattle.rights_types.specs.Messages.{DenyValue, IsDenial};

    ghost Value = { DenyValue };

    ghost view = { λ d. record { denier = d.denier; asker = d.asker; ask = d.ask } };

    ghost invariant = { λ d. IsDenial (record { denier = d.denier; asker = d.asker; ask = d.ask }) };

    ghost inverse = { λ v. record { denier = v.denier; asker = v.asker; ask = v.ask } };
}

impl Deny {
    /// `SameSite` if a site denies itself.
    pub fn new(denier: SiteId, asker: SiteId, ask: AskNumber) -> Result<Deny, TypeError>
        ensures { DenialMade (record { denier = denier; asker = asker; ask = ask }) result }
    {
        // For the proof: the ranges of all three.
        let _ = (denier.number(), asker.number(), ask.value());
        if asker == denier {
            return Err(TypeError::SameSite);
        }
        Ok(Deny::known(denier, asker, ask))
    }

    /// The denial of two sites, which must differ: a precondition, not a check.
    pub fn known(denier: SiteId, asker: SiteId, ask: AskNumber) -> Deny
        requires { asker ≢ denier }
        ensures { result ≡ record { denier = denier; asker = asker; ask = ask } }
    {
        // For the proof: the ranges of all three.
        let _ = (denier.number(), asker.number(), ask.value());
        Deny { denier, asker, ask }
    }

    /// The site that was asked.
    pub fn denier(&self) -> SiteId
        ensures value { result ≡ self.now.denier }
        ensures valid { IsDenial self.now }
    {
        self.denier
    }

    /// The site that asked.
    pub fn asker(&self) -> SiteId
        ensures value { result ≡ self.now.asker }
        ensures valid { IsDenial self.now }
    {
        self.asker
    }

    /// The number of the ask.
    pub fn ask(&self) -> AskNumber
        ensures value { result ≡ self.now.ask }
        ensures valid { IsDenial self.now }
    {
        self.ask
    }
}
