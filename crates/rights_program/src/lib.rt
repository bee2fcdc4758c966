//! What the program `rights-site` does with the arguments and the streams of its process: its command line, its
//! commands and its exit status. The program itself is a `main` that passes these on.
#![tactic(auto)]

mod fault;
mod given;
mod run;
mod version;

pub use fault::ProgramError;
pub use given::{run_arguments, run_given};
pub use run::{Ended, run_words};
pub use version::VERSION;
