//! The client of a connection's requests.
ghost use Rattle.std.specs.Prelude.{◌≡◌, ℕ, ◌≤◌, ◌⊎◌, Bool, List, Option, ◌++◌, length, IfOk, OnOk, OnErr};
ghost use Rattle.line_streams.specs.Handling.{IsGiven};
ghost use Rattle.line_streams.specs.Waiting.{IsEmpty, AddsReply};
ghost use Rattle.refusals.specs.Refusals.{LineAnswer};

use command_keys::Key;
use line_streams::Replies;
use refusals::Answered;
use rights_types::OutOfMemory;
use std::alloc::Global;

/// The longest reply to a command that changes a site, with its line feed, in bytes.
pub const LONGEST_REPLY: usize = 128;

/// A client of a site, which carries out what the requests of one connection ask for.
///
/// A call that returns `OutOfMemory` has changed nothing.
pub trait Backend {
    // By the key of the command, if it has one, and by whether the client waits for its outcome: in the first state,
    // this line with its line feed gets this answer, and leads to the second state.
    ghost answers: { Option (List ℕ) → Bool → Self → List ℕ → LineAnswer → Self → Type 0 };

    // The text is the site's status object.
    ghost status: { Self → List ℕ → Type 0 };

    // The text is the report of the spends that wait.
    ghost queue: { Self → List ℕ → Type 0 };

    // The text is the report of what is known of each other site.
    ghost known: { Self → List ℕ → Type 0 };

    // The text is the export of the site's log from this number on.
    ghost listed: { Self → ℕ → List ℕ → Type 0 };

    // The text is the site's metrics, up to and including the line feed at their end.
    ghost metrics: { Self → List ℕ → Type 0 };

    // Whether the site has closed.
    ghost closed: { Self → Bool → Type 0 };

    /// The lines of a request that has no key are about to be answered.
    fn begin(&self);

    /// Answers a line like one on standard input, except that no line ends a connection: `quit` is `error BadCommand`.
    /// With a key, the line is the command of this key. If the client waits, the reply to a spend is its outcome, for
    /// which this call waits, and not `queued T`. The line is given without its line feed; `None` stands for a line of
    /// more than `MAX_LINE` bytes. The reply and a line feed are appended to the whole replies.
    fn reply(
        &mut self,
        key: Option<Key>,
        waits: bool,
        text: Option<&[u8]>,
        replies: &mut Replies<Global>,
    ) -> Result<Answered, OutOfMemory>
        requires { IsEmpty replies.old }
        ensures ok { IfOk result (λ how. (line : List ℕ) → IsGiven line text.entry
            → (text : List ℕ) × answers key waits self.old line (record { text = text; how = how }) self.new
            × AddsReply replies.old replies.new text) }
        // So memory for it can be reserved before a command is carried out.
        ensures short { OnOk result ((length replies.new.whole ≤ LONGEST_REPLY) ⊎ (self.new ≡ self.old)) }
        ensures err { OnErr result (self.new ≡ self.old) };

    /// Whether the site has memory for a response to this client that has so many bytes so far. If not, the next line of
    /// a body is not carried out.
    fn has_room(&self, len: usize) -> bool;

    /// Appends the status object and a line feed to the whole replies.
    fn put_status(&self, replies: &mut Replies<Global>) -> Result<(), OutOfMemory>
        requires { IsEmpty replies.old }
        ensures { OnOk result ((text : List ℕ) × status self.now text × AddsReply replies.old replies.new text) };

    /// Appends the report of the spends that wait and a line feed to the whole replies.
    fn put_queue(&self, replies: &mut Replies<Global>) -> Result<(), OutOfMemory>
        requires { IsEmpty replies.old }
        ensures { OnOk result ((text : List ℕ) × queue self.now text × AddsReply replies.old replies.new text) };

    /// Appends the report of what is known of each other site and a line feed to the whole replies.
    fn put_peers(&self, replies: &mut Replies<Global>) -> Result<(), OutOfMemory>
        requires { IsEmpty replies.old }
        ensures { OnOk result ((text : List ℕ) × known self.now text × AddsReply replies.old replies.new text) };

    /// Appends the export of the log from this number on, whose lines end in a line feed each, to the whole replies.
    fn put_log(&self, first: u64, replies: &mut Replies<Global>) -> Result<(), OutOfMemory>
        requires { IsEmpty replies.old }
        ensures { OnOk result ((text : List ℕ) × listed self.now first text
            × (replies.new.whole ≡ replies.old.whole ++ text)) };

    /// Appends the metrics, which end in a line feed, to the whole replies.
    fn put_metrics(&self, replies: &mut Replies<Global>) -> Result<(), OutOfMemory>
        requires { IsEmpty replies.old }
        ensures { OnOk result ((text : List ℕ) × metrics self.now text
            × (replies.new.whole ≡ replies.old.whole ++ text)) };

    fn is_closed(&self) -> bool
        ensures { closed self.now result };
}
