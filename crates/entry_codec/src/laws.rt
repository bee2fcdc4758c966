//! Laws of the definitions of lines. The functions do nothing.
ghost use Rattle.std.specs.Prelude.{◌≡◌, ℕ, ◌≤◌, List, [], ◌∷◌, ◌++◌, length, Ok};
ghost use Rattle.rights_types.specs.Messages.{MessageValue, IsMessage};
ghost use Rattle.entry_codec.specs.Spelling.{line, Spells};
ghost use Rattle.entry_codec.specs.Pieces.{pieces, IsLine};
ghost use Rattle.entry_codec.specs.Reading.{reading};

use rights_types::MAX_LINE;

/// A message that was written reads back.
pub fn reads_back()
    ensures { (m : MessageValue) → IsMessage m → reading (line m) ≡ Ok m }
{}

/// A text whose reading is a message spells that message.
pub fn read_is_spelled()
    ensures { (m : MessageValue) (text : List ℕ) → reading text ≡ Ok m → Spells m text }
{}

/// A message's line has one line feed, which is its last byte.
pub fn ends_once()
    ensures { (m : MessageValue) (text : List ℕ) → Spells m text → IsLine text }
{}

/// A text spells one message, and a message has one spelling.
pub fn spelled_once()
    ensures message { (m n : MessageValue) (text : List ℕ)
        → Spells m text → Spells n text → m ≡ n }
    ensures text { (m : MessageValue) (text other : List ℕ)
        → Spells m text → Spells m other → text ≡ other }
{}

/// A message that was written reads back whatever follows it: its line is the first piece of any stream that begins
/// with it, and is not too long.
pub fn reads_on()
    ensures piece { (m : MessageValue) (rest : List ℕ)
        → IsMessage m → pieces (line m ++ rest) ≡ line m ∷ pieces rest }
    ensures fits { (m : MessageValue) → IsMessage m → length (line m) ≤ MAX_LINE }
{}

/// No spelling is a proper prefix of another.
pub fn no_prefix()
    ensures { (m n : MessageValue) (text rest : List ℕ)
        → Spells m text → Spells n (text ++ rest) → rest ≡ [] }
{}
