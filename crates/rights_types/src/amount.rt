//! Numbers in their ranges.
ghost use Rattle.std.specs.Prelude.{◌≡◌, ◌<◌, ◌≤◌, IfErr};
ghost use Rattle.std.specs.Result.{OkIff};
ghost use Rattle.rights_types.specs.Ranges.{IsAmount, IsAskNumber, IsTotal};

use crate::fault::TypeError;
use crate::limits::{MAX_AMOUNT, MAX_ASK, MAX_TOTAL};
use std::marker::Model;

/// An amount of rights in one move or request, from 1 to 10^9.
#[derive(Clone, Copy, Debug, PartialEq, Eq, PartialOrd, Ord)]
pub struct Amount {
    rights: u32,
}

impl Model for Amount {
    ghost use Rattle.std.specs.Prelude.{ℕ};
    ghost use Rattle.rights_types.specs.Ranges.{IsAmount};

    ghost Value = { ℕ };

    ghost view = { λ a. a.rights };

    ghost invariant = { λ a. IsAmount a.rights };

    ghost inverse = { λ n. record { rights = n } };
}

impl Amount {
    /// `BadAmount` outside 1 to 10^9.
    pub fn new(value: u64) -> Result<Amount, TypeError>
        ensures ok { OkIff result (IsAmount value) value }
        ensures err { IfErr result (λ fault. fault ≡ TypeError.BadAmount) }
    {
        if value < 1 || value > MAX_AMOUNT {
            return Err(TypeError::BadAmount);
        }
        Ok(Amount::known(value))
    }

    /// The amount with this number, which must be in range: a precondition, not a check.
    pub fn known(value: u64) -> Amount
        requires { IsAmount value }
        ensures { result ≡ value }
    {
        Amount {
            rights: value as u32,
        }
    }

    /// The rights, from 1 to 10^9.
    pub fn value(self) -> u64
        ensures value { result ≡ self }
        ensures range { IsAmount self }
    {
        self.rights as u64
    }
}

/// The number of an ask, counted per asker and asked site, from 1 to 10^9.
#[derive(Clone, Copy, Debug, PartialEq, Eq, PartialOrd, Ord)]
pub struct AskNumber {
    number: u32,
}

impl Model for AskNumber {
    ghost use Rattle.std.specs.Prelude.{ℕ};
    ghost use Rattle.rights_types.specs.Ranges.{IsAskNumber};

    ghost Value = { ℕ };

    ghost view = { λ a. a.number };

    ghost invariant = { λ a. IsAskNumber a.number };

    ghost inverse = { λ n. record { number = n } };
}

impl AskNumber {
    /// `BadNumber` outside 1 to 10^9.
    pub fn new(value: u64) -> Result<AskNumber, TypeError>
        ensures ok { OkIff result (IsAskNumber value) value }
        ensures err { IfErr result (λ fault. fault ≡ TypeError.BadNumber) }
    {
        if value < 1 || value > MAX_ASK {
            return Err(TypeError::BadNumber);
        }
        Ok(AskNumber::known(value))
    }

    /// The ask number with this number, which must be in range: a precondition, not a check.
    pub fn known(value: u64) -> AskNumber
        requires { IsAskNumber value }
        ensures { result ≡ value }
    {
        AskNumber {
            number: value as u32,
        }
    }

    /// The number, from 1 to 10^9.
    pub fn value(self) -> u64
        ensures value { result ≡ self }
        ensures range { IsAskNumber self }
    {
        self.number as u64
    }
}

/// What a site reclaims in one move from a site that has closed, from 1 to 10^18.
#[derive(Clone, Copy, Debug, PartialEq, Eq, PartialOrd, Ord)]
pub struct Total {
    total: u64,
}

impl Model for Total {
    ghost use Rattle.std.specs.Prelude.{ℕ};
    ghost use Rattle.rights_types.specs.Ranges.{IsTotal};

    ghost Value = { ℕ };

    ghost view = { λ t. t.total };

    ghost invariant = { λ t. IsTotal t.total };

    ghost inverse = { λ n. record { total = n } };
}

impl Total {
    /// `BadAmount` outside 1 to 10^18.
    pub fn new(value: u64) -> Result<Total, TypeError>
        ensures ok { OkIff result (IsTotal value) value }
        ensures err { IfErr result (λ fault. fault ≡ TypeError.BadAmount) }
    {
        if value < 1 || value > MAX_TOTAL {
            return Err(TypeError::BadAmount);
        }
        Ok(Total::known(value))
    }

    /// The total with this number, which must be in range: a precondition, not a check.
    pub fn known(value: u64) -> Total
        requires { IsTotal value }
        ensures { result ≡ value }
    {
        Total { total: value }
    }

    /// The rights, from 1 to 10^18.
    pub fn value(self) -> u64
        ensures value { result ≡ self }
        ensures range { IsTotal self }
    {
        self.total
    }
}
