//! The records of a desk's steps, for clauses to name.
ghost use Rattle.std.specs.Prelude.{◌≡◌, List, [], ◌++◌};
ghost use Rattle.std.specs.Borrow.{ftrue};
ghost use Rattle.rights_protocol.specs.Crashes.{Record};

use std::marker::{Model, PhantomData};

mod noted;

pub(crate) use noted::{Again, Answered, Noted, Nothing, Planned, asked_sites, put_line};

/// A list for proofs only: it has no bytes, and its methods do nothing when they run.
#[derive(Drop)]
pub(crate) struct Records {
    marker: PhantomData<u8>,
    pub ghost items: { List Record },
}

impl Model for Records {
    ghost also_owns = { λ _. ftrue };
}

impl Records {
    pub(crate) fn new() -> Records
        ensures { result.items ≡ [] }
    {
        Records {
            marker: PhantomData,
        }
    }

    /// The list with the records of this.
    pub(crate) fn and<N: Noted>(&self, of: &N) -> Records
        ensures { result.items ≡ self.now.items ++ N.records of.now }
    {
        Records {
            marker: PhantomData,
        }
    }
}

// A struct with `also_owns` has no `Send` by itself. This one owns nothing.
unsafe impl Send for Records {}
