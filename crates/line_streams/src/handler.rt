//! The handler of a client's lines.
ghost use Rattle.std.specs.Prelude.{◌≡◌, ℕ, ◌<◌, List, [], Option, length, IfOk, OnOk, OnErr};
ghost use Rattle.line_streams.specs.Handling.{IsGiven, LineGets};

use crate::replies::{BLOCK, Replies};
use rights_types::OutOfMemory;
use std::alloc::Allocator;

/// Whether the conversation continues after a line.
#[derive(Clone, Copy, Debug, PartialEq, Eq)]
pub enum Goes {
    On,
    Ends,
}

/// How a conversation without a fault ended.
#[derive(Clone, Copy, Debug, PartialEq, Eq)]
pub enum EndedBy {
    /// The end of the input.
    Input,
    /// A line: its handler ended the conversation.
    Handler,
}

/// Answers the lines of a client, one after another.
pub trait LineHandler {
    // In the first state, this line, with its line feed, gets this reply and leads to the second state. There is no
    // reply if the line ends the conversation.
    ghost answers: { Self → List ℕ → Option (List ℕ) → Self → Type 0 };

    // A handler in the first state may be left in the second one if it runs out of memory.
    ghost fails: { Self → Self → Type 0 };

    /// Whether it can answer more lines. Called before each read, which may block.
    fn can_go_on(&self) -> bool;

    /// Answers a line, given without its line feed; `None` stands for a line of more than `MAX_LINE` bytes. The reply
    /// and a line feed are appended to the whole replies, unless the line ends the conversation.
    fn answer<A: Allocator>(
        &mut self,
        text: Option<&[u8]>,
        replies: &mut Replies<A>,
    ) -> Result<Goes, OutOfMemory>
        requires ready { replies.old.part ≡ [] }
        // So at most a block and this reply wait to be written.
        requires room { length replies.old.whole < BLOCK }
        ensures ok { IfOk result (λ goes. (line : List ℕ) → IsGiven line text.entry
            → LineGets answers goes self.old line self.new replies.old replies.new) }
        ensures ready { OnOk result (replies.new.part ≡ []) }
        ensures kept { OnErr result (replies.new.whole ≡ replies.old.whole) }
        ensures err { OnErr result (fails self.old self.new) };
}
