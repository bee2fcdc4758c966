//! A message, read from its line.
ghost use Rattle.std.specs.Prelude.{◌≡◌, ◌∷◌, ◌++◌, [], ◌≤◌, length, IfOk, IfSome, Ok};
ghost use Rattle.rights_types.specs.Messages.{MessageValue};
ghost use Rattle.rights_types.specs.Values.{value_of};
ghost use Rattle.entry_codec.specs.Spelling.{Spells, text_of};
ghost use Rattle.entry_codec.specs.Parts.{parts_in, Gives, parts_left, fields_left};
ghost use Rattle.entry_codec.specs.Reading.{push_of, answer_of, message_of, reading, WantsRoom};

use crate::answer::answer_in;
use crate::entry::{SLOTS, entry_in, entry_of_one, entry_with, one_move_in, whole_entry_in};
use crate::fault::LineError;
use crate::format::{ANSWER_LETTER, ENTRY_LETTER, FIELD_BREAK, LINE_END, MAX_FIELDS, PART_BREAK};
use crate::parts::{is_letter, split_far, split_first};
use crate::short::short_in;
use rights_types::{MAX_LINE, Message, Move};
use std::alloc::Allocator;

// An entry that is read without the slots does not pay for them: see `whole_entry_in`.
#[inline(never)]
fn push_in<A: Allocator>(
    alloc: A,
    fields: Option<&[u8]>,
    others: Option<&[u8]>,
) -> Result<Message<A>, LineError>
    requires { length (fields_left fields) ≤ MAX_FIELDS }
    ensures { Gives value_of result (push_of (fields_left fields.entry) (parts_left others.entry)) }
{
    let mut kept = [Move::Close; SLOTS];
    let (origin, prev, count) = entry_in(fields, 0, &mut kept)?;
    if others.is_some() {
        return Err(LineError::TrailingBytes);
    }
    Ok(Message::Push(entry_with(alloc, origin, prev, &kept[..count])?))
}

fn answer_message_in<A: Allocator + Copy>(
    alloc: A,
    fields: Option<&[u8]>,
    others: Option<&[u8]>,
) -> Result<Message<A>, LineError>
    requires { IfSome others (λ text. length text.now ≤ MAX_LINE) }
    ensures { Gives value_of result (answer_of (fields_left fields.entry) (parts_left others.entry)) }
{
    Ok(Message::Answer(answer_in(alloc, fields, others)?))
}

// The text after the letter of an entry.
fn behind_entry_letter(text: &[u8]) -> Option<&[u8]>
    ensures { IfSome result (λ fields. text.now ≡ ENTRY_LETTER ∷ (FIELD_BREAK ∷ fields.now)) }
{
    match text {
        [ENTRY_LETTER, FIELD_BREAK, fields @ ..] => Some(fields),
        _ => None,
    }
}

// An entry of one move, the most frequent message, is built where it is returned: a message that passes through several
// results is copied for each of them.
#[inline(always)]
fn message_in<A: Allocator + Copy>(alloc: A, text: &[u8]) -> Result<Message<A>, LineError>
    requires { length text.now ≤ MAX_LINE }
    ensures value { Gives value_of result (message_of (parts_in text.now)) }
    ensures memory { WantsRoom result (message_of (parts_in text.now)) }
{
    if let Some(fields) = behind_entry_letter(text) {
        let mut only = Move::Close;
        if let Some((origin, prev)) = one_move_in(fields, &mut only) {
            return Ok(Message::Push(entry_of_one(alloc, origin, prev, only)?));
        }
    }
    other_message_in(alloc, text)
}

// The same, for any message. A text that reads as one entry has no further part, so it is not searched for one.
#[inline(always)]
fn other_message_in<A: Allocator + Copy>(alloc: A, text: &[u8]) -> Result<Message<A>, LineError>
    requires { length text.now ≤ MAX_LINE }
    ensures value { Gives value_of result (message_of (parts_in text.now)) }
    ensures memory { WantsRoom result (message_of (parts_in text.now)) }
{
    if let Some(fields) = behind_entry_letter(text) {
        match whole_entry_in(alloc, fields) {
            Ok(entry) => return Ok(Message::Push(entry)),
            Err(LineError::OutOfMemory) => return Err(LineError::OutOfMemory),
            Err(_) => {}
        }
    }
    message_of_parts(alloc, text)
}

#[tactic(auto, unfolding(crate::specs::Reading::message_of))]
fn message_of_parts<A: Allocator + Copy>(alloc: A, text: &[u8]) -> Result<Message<A>, LineError>
    requires { length text.now ≤ MAX_LINE }
    ensures value { Gives value_of result (message_of (parts_in text.now)) }
    ensures memory { WantsRoom result (message_of (parts_in text.now)) }
{
    let (first, others) = split_far(text, PART_BREAK);
    let (letter, fields) = split_first(first, FIELD_BREAK);
    if is_letter(letter, ENTRY_LETTER) {
        push_in(alloc, fields, others)
    } else if is_letter(letter, ANSWER_LETTER) {
        answer_message_in(alloc, fields, others)
    } else {
        short_in(letter, fields, others)
    }
}

#[tactic(auto, unfolding(crate::specs::Reading::reading))]
fn message_of_line<A: Allocator + Copy>(alloc: A, line: &[u8]) -> Result<Message<A>, LineError>
    ensures value { Gives value_of result (reading line.now) }
    ensures memory { WantsRoom result (reading line.now) }
{
    if line.len() > MAX_LINE {
        return Err(LineError::TooLong);
    }
    match line {
        [text @ .., LINE_END] => message_in(alloc, text),
        _ => Err(LineError::NoEnd),
    }
}

/// The message that a line spells. A line with a fault is refused for its first fault, even if memory is refused too.
/// Errors: see `LineError`.
pub fn read_line<A: Allocator + Copy>(alloc: A, line: &[u8]) -> Result<Message<A>, LineError>
    // A message is returned only if the line spells it.
    ensures found { IfOk result (λ m. Spells (value_of m) line.now) }
    // If the line spells a message, that is returned, or `OutOfMemory`.
    ensures only { (m : MessageValue) → Spells m line.now → Gives value_of result (Ok m) }
    // The exact result, by the definition.
    ensures exact { Gives value_of result (reading line.now) }
    // Only messages with entries allocate.
    ensures memory { WantsRoom result (reading line.now) }
{
    message_of_line(alloc, line)
}

#[inline(always)]
#[tactic(auto, unfolding(crate::specs::Reading::reading))]
fn message_of_text<A: Allocator + Copy>(alloc: A, text: &[u8]) -> Result<Message<A>, LineError>
    ensures value { Gives value_of result (reading (text.now ++ LINE_END ∷ [])) }
    ensures memory { WantsRoom result (reading (text.now ++ LINE_END ∷ [])) }
{
    if text.len() >= MAX_LINE {
        return Err(LineError::TooLong);
    }
    message_in(alloc, text)
}

/// The same of a line that is given without its line feed.
pub fn read_text<A: Allocator + Copy>(alloc: A, text: &[u8]) -> Result<Message<A>, LineError>
    ensures found { IfOk result (λ m. text.now ≡ text_of (value_of m)) }
    ensures exact { Gives value_of result (reading (text.now ++ LINE_END ∷ [])) }
    ensures memory { WantsRoom result (reading (text.now ++ LINE_END ∷ [])) }
{
    message_of_text(alloc, text)
}
