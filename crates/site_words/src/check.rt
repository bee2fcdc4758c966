//! What `check-journal` is asked for.
ghost use Rattle.std.specs.Prelude.{◌≡◌, IfOk};

use std::alloc::{AllocError, Global};
use std::marker::Model;

/// Which journal is to be checked, and how the result is printed.
#[derive(Drop)]
pub struct JournalCheck {
    path: String,
    json: bool,
}

impl Model for JournalCheck {
    ghost use Rattle.std.specs.String.{string_bytes};
    ghost use Rattle.site_words.specs.Checks.{Check};

    ghost Value = { Check };

    ghost view = { λ check. record { path = string_bytes check.path; json = check.json } };
}

impl JournalCheck {
    /// The path of the journal, as the words have it.
    pub fn path(&self) -> &str
        ensures { result.now ≡ self.now.path }
    {
        self.path.as_str()
    }

    /// Whether the result is printed as an object of JSON.
    pub fn json(&self) -> bool
        ensures { result ≡ self.now.json }
    {
        self.json
    }

    pub(crate) fn new(alloc: Global, path: &str, json: bool) -> Result<JournalCheck, AllocError>
        ensures { IfOk result (λ check. check ≡ record { path = path.now; json = json }) }
    {
        Ok(JournalCheck {
            path: String::from_str(alloc, path)?,
            json,
        })
    }
}
