//! Asks for rights.
ghost use Rattle.std.specs.Prelude.{◌≡◌, ◌≢◌};
ghost use Rattle.rights_types.specs.Messages.{AskMade, IsAsk};

use crate::amount::{Amount, AskNumber};
use crate::fault::TypeError;
use crate::site::SiteId;
use std::marker::Model;

/// The asker lacks rights and asks a peer for some.
#[derive(Clone, Copy, Debug, PartialEq, Eq)]
pub struct Ask {
    asker: SiteId,
    asked: SiteId,
    ask: AskNumber,
    amount: Amount,
}

impl Model for Ask {
    ghost use Rattle.rights_types.specs.Messages.{AskValue, IsAsk};

    ghost Value = { AskValue };

    ghost view = { λ a. record { asker = a.asker; asked = a.asked; ask = a.ask; amount = a.amount } };

    ghost invariant = { λ a. IsAsk (record { asker = a.asker; asked = a.asked; ask = a.ask; amount = a.amount }) };

    ghost inverse = { λ v. record { asker = v.asker; asked = v.asked; ask = v.ask; amount = v.amount } };
}

impl Ask {
    /// `SameSite` if a site asks itself.
    pub fn new(
        asker: SiteId,
        asked: SiteId,
        ask: AskNumber,
        amount: Amount,
    ) -> Result<Ask, TypeError>
        ensures { AskMade (record { asker = asker; asked = asked; ask = ask; amount = amount }) result }
    {
        // For the proof: the ranges of all four.
        let _ = (asker.number(), asked.number(), ask.value(), amount.value());
        if asked == asker {
            return Err(TypeError::SameSite);
        }
        Ok(Ask::known(asker, asked, ask, amount))
    }

    /// The ask of two sites, which must differ: a precondition, not a check.
    pub fn known(asker: SiteId, asked: SiteId, ask: AskNumber, amount: Amount) -> Ask
        requires { asked ≢ asker }
        ensures { result ≡ record { asker = asker; asked = asked; ask = ask; amount = amount } }
    {
        // For the proof: the ranges of all four.
        let _ = (asker.number(), asked.number(), ask.value(), amount.value());
        Ask {
            asker,
            asked,
            ask,
            amount,
        }
    }

    /// The site that lacks rights.
    pub fn asker(&self) -> SiteId
        ensures value { result ≡ self.now.asker }
        ensures valid { IsAsk self.now }
    {
        self.asker
    }

    /// The site that is asked.
    pub fn asked(&self) -> SiteId
        ensures value { result ≡ self.now.asked }
        ensures valid { IsAsk self.now }
    {
        self.asked
    }

    /// The ask's number between these two sites.
    pub fn ask(&self) -> AskNumber
        ensures value { result ≡ self.now.ask }
        ensures valid { IsAsk self.now }
    {
        self.ask
    }

    /// The rights that are asked for.
    pub fn amount(&self) -> Amount
        ensures value { result ≡ self.now.amount }
        ensures valid { IsAsk self.now }
    {
        self.amount
    }
}
