//! Lines of text over readers and writers: the words of a line, a buffer of replies, writing a whole text, and the loop
//! that answers the lines of a client through any handler.
#![tactic(auto)]

mod fault;
mod handler;
mod limit;
mod lines;
mod put;
mod read;
mod replies;
mod words;
mod write;

pub use fault::ConversationError;
pub use handler::{EndedBy, Goes, LineHandler};
pub use limit::{LINE_LIMIT, TooManyLines, count_line};
pub use lines::answer_lines;
pub use put::MAX_DIGITS;
pub use read::{InputError, read_some};
pub use replies::{BLOCK, Replies};
pub use words::{
    alone, first_number, first_site, named, only_in, only_number, only_site, optional_site,
    site_and_number, split_word,
};
pub use write::{OutputError, write_some, write_whole};
