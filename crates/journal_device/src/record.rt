//! A list of calls that only clauses read.
ghost use Rattle.std.specs.Prelude.{◌≡◌, List, [], ◌∷◌};
ghost use Rattle.std.specs.Borrow.{ftrue};
ghost use Rattle.journal_device.specs.Calls.{Event};
ghost use Rattle.journal_device.specs.Note.{event_of, event_by};

use crate::Call;
use std::marker::{Model, PhantomData};

/// The calls so far, the newest first. It takes no memory.
#[derive(Drop)]
pub struct Record {
    marker: PhantomData<u8>,
    pub ghost events: { List Event },
}

impl Model for Record {
    ghost also_owns = { λ _. ftrue };
}

impl Record {
    pub fn new() -> Record
        ensures { result.events ≡ [] }
    {
        Record {
            marker: PhantomData,
        }
    }

    /// Notes a call: at which offset or to which length, whether it succeeded, and its bytes.
    pub fn note(&mut self, call: Call, at: usize, done: bool, bytes: &[u8])
        ensures { self.new.events ≡ event_of call at done bytes.now ∷ self.old.events }
    {
        let success = if done { 1 } else { 0 };
        match call {
            Call::Read => self.set(&[0, at as u64, success], bytes),
            Call::Write => self.set(&[1, at as u64, success], bytes),
            Call::Shorten => self.set(&[2, at as u64, success], bytes),
            Call::Sync => self.set(&[3, at as u64, success], bytes),
        }
    }

    // Proved by hand, since it changes what no memory holds. The numbers are those of `event_by`.
    fn set(&mut self, _numbers: &[u64], _bytes: &[u8])
        ensures { self.new.events ≡ event_by _numbers.now _bytes.now ∷ self.old.events }
    {}
}

// A struct with `also_owns` has no `Send` by itself. This one owns nothing.
unsafe impl Send for Record {}
