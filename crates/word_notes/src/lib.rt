//! Notes to people on the words of a command line: which of them is wrong, and why; and which peers have addresses that
//! cannot be meant. Whether words are refused is decided in site_words; a note never decides anything.
#![tactic(auto)]

mod explanation;
mod notes;
mod options;
mod reading;

pub use explanation::{Explanation, USAGE};
pub use notes::{explain_listening, explain_refusal, is_due, note_peers};
pub use reading::explain;
