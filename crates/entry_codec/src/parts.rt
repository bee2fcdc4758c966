//! Walking over the parts of a text that a byte separates.
ghost use Rattle.std.specs.Prelude.{◌≡◌, ◌∷◌, ◌==◌, ◌<◌, ◌≤◌, ◌^◌, ◌⊎◌, length, position, is_none, decimal, IfSome};
ghost use Rattle.std.specs.Prelude.{IfOk};
ghost use Rattle.entry_codec.specs.Letters.{is_letter};
ghost use Rattle.entry_codec.specs.Parts.{split_at, left, Finds, ReadsAs, fields_left};
ghost use Rattle.entry_codec.specs.Moves.{first_number, only_number};
ghost use Rattle.entry_codec.specs.Reading.{value_at};

use crate::fault::{LineError, Place};
use crate::format::FIELD_BREAK;
use crate::number::{SAFE_DIGITS, checked, digit, leading_digits, read_decimal};
use memchr::memchr;

fn position_of(text: &[u8], at: u8) -> Option<usize>
    ensures { result ≡ position (λ b. b == at) text.now }
{
    for (place, byte) in text.iter().enumerate() {
        if *byte == at {
            return Some(place);
        }
    }
    None
}

/// The position of the first such byte, in a text that is mostly long.
pub(crate) fn far_position(text: &[u8], at: u8) -> Option<usize>
    ensures { result ≡ position (λ b. b == at) text.now }
{
    memchr(at, text)
}

/// Whether a field is exactly this letter.
pub(crate) fn is_letter(field: &[u8], letter: u8) -> bool
    ensures { result ≡ is_letter letter field.now }
{
    match field {
        [byte] => *byte == letter,
        _ => false,
    }
}

/// The text before the first such byte, and what comes after it, if there is one.
#[inline(always)]
pub fn split_first(text: &[u8], at: u8) -> (&[u8], Option<&[u8]>)
    ensures parts { split_at at text.now ≡ result.0.now ∷ left at result.1 }
    ensures last { is_none result.1 ≡ (length (left at result.1) == 0) }
    ensures within { length result.0.now ≤ length text.now }
    ensures shorter { IfSome result.1 (λ rest. length rest.now < length text.now) }
{
    match position_of(text, at) {
        None => (text, None),
        Some(i) => (&text[..i], Some(&text[i + 1..])),
    }
}

/// The same, for a part that is mostly long: it searches with `memchr`, where the other one goes byte by byte.
pub(crate) fn split_far(text: &[u8], at: u8) -> (&[u8], Option<&[u8]>)
    ensures parts { split_at at text.now ≡ result.0.now ∷ left at result.1 }
    ensures last { is_none result.1 ≡ (length (left at result.1) == 0) }
    ensures within { length result.0.now ≤ length text.now }
    ensures shorter { IfSome result.1 (λ rest. length rest.now < length text.now) }
{
    match far_position(text, at) {
        None => (text, None),
        Some(i) => (&text[..i], Some(&text[i + 1..])),
    }
}

// The digit that is the whole first part, and what comes after it; None if that part is anything else.
#[inline(always)]
fn digit_part(text: &[u8], at: u8) -> Option<(u64, Option<&[u8]>)>
    requires apart { (at < 48) ⊎ (57 < at) }
    ensures digit { IfSome result (λ x. x.0 < 10) }
    ensures parts { IfSome result (λ x. split_at at text.now ≡ decimal x.0 ∷ left at x.1) }
    ensures last { IfSome result (λ x. is_none x.1 ≡ (length (left at x.1) == 0)) }
{
    match text {
        [byte] => Some((digit(*byte)?, None)),
        [byte, next, rest @ ..] => {
            if *next != at {
                return None;
            }
            Some((digit(*byte)?, Some(rest)))
        }
        [] => None,
    }
}

// The result of `first_number` if the first part is one digit. Most numbers are those of sites and small amounts, and
// one digit needs neither a loop nor a check for leading zeros.
#[inline(always)]
fn first_digit(text: &[u8], at: u8, low: u64, high: u64) -> Option<Option<(u64, Option<&[u8]>)>>
    requires apart { (at < 48) ⊎ (57 < at) }
    ensures value { IfSome result (λ found. Finds (λ x. (x.0, left at x.1)) found
        (first_number low high (split_at at text.now))) }
    ensures range { IfSome result (λ found. IfSome found (λ x. (low ≤ x.0) × (x.0 ≤ high))) }
    ensures last { IfSome result (λ found. IfSome found (λ x. is_none x.1 ≡ (length (left at x.1) == 0))) }
    ensures shorter { IfSome result
        (λ found. IfSome found (λ x. length (left at x.1) < length (split_at at text.now))) }
{
    let (value, rest) = digit_part(text, at)?;
    if value < low || high < value {
        return Some(None);
    }
    Some(Some((value, rest)))
}

/// The number that the first part spells, and what comes after it. The separator must not be a digit.
#[inline(always)]
pub(crate) fn first_number(
    parts: Option<&[u8]>,
    at: u8,
    low: u64,
    high: u64,
) -> Option<(u64, Option<&[u8]>)>
    requires apart { (at < 48) ⊎ (57 < at) }
    requires high { high < 10 ^ SAFE_DIGITS }
    ensures value { Finds (λ x. (x.0, left at x.1)) result
        (first_number low high (left at parts.entry)) }
    ensures range { IfSome result (λ x. (low ≤ x.0) × (x.0 ≤ high)) }
    ensures last { IfSome result (λ x. is_none x.1 ≡ (length (left at x.1) == 0)) }
    ensures shorter { IfSome result (λ x. length (left at x.1) < length (left at parts.entry)) }
{
    let text = parts?;
    if let Some(found) = first_digit(text, at, low, high) {
        return found;
    }
    let (value, count) = leading_digits(text);
    if count == text.len() {
        return Some((checked(text, value, low, high)?, None));
    }
    if text[count] != at {
        return None;
    }
    let value = checked(&text[..count], value, low, high)?;
    Some((value, Some(&text[count + 1..])))
}

/// The number in a range that the first part spells, and what comes after it, for any range and for other crates. The
/// separator must not be a digit.
#[inline(always)]
#[tactic(auto, unfolding(crate::specs::Moves::first_number))]
pub fn first_decimal(
    parts: Option<&[u8]>,
    at: u8,
    low: u64,
    high: u64,
) -> Option<(u64, Option<&[u8]>)>
    requires apart { (at < 48) ⊎ (57 < at) }
    ensures value { Finds (λ x. (x.0, left at x.1)) result
        (first_number low high (left at parts.entry)) }
    ensures range { IfSome result (λ x. (low ≤ x.0) × (x.0 ≤ high)) }
    ensures last { IfSome result (λ x. is_none x.1 ≡ (length (left at x.1) == 0)) }
{
    let text = parts?;
    if let Some(found) = first_digit(text, at, low, high) {
        return found;
    }
    let (value, count) = leading_digits(text);
    if count == text.len() {
        return Some((checked(text, value, low, high)?, None));
    }
    if text[count] == at {
        let value = checked(&text[..count], value, low, high)?;
        let rest = &text[count + 1..];
        return Some((value, Some(rest)));
    }
    // More digits than `SAFE_DIGITS`, or none that spell a number.
    let (word, rest) = split_first(text, at);
    Some((read_decimal(word, low, high)?, rest))
}

/// The number that the only part spells.
#[tactic(auto, unfolding(crate::specs::Moves::only_number))]
pub(crate) fn only_number(parts: Option<&[u8]>, at: u8, low: u64, high: u64) -> Option<u64>
    requires apart { (at < 48) ⊎ (57 < at) }
    requires high { high < 10 ^ SAFE_DIGITS }
    ensures value { result ≡ only_number low high (left at parts.entry) }
    ensures range { IfSome result (λ n. (low ≤ n) × (n ≤ high)) }
{
    let (number, rest) = first_number(parts, at, low, high)?;
    match rest {
        None => Some(number),
        Some(_) => None,
    }
}

/// The number in a fixed field, and the fields after it.
#[inline(always)]
#[tactic(auto, unfolding(crate::specs::Reading::value_at))]
pub(crate) fn number_in(
    fields: Option<&[u8]>,
    low: u64,
    high: u64,
    place: Place,
) -> Result<(u64, Option<&[u8]>), LineError>
    requires { high < 10 ^ SAFE_DIGITS }
    ensures value { ReadsAs (λ x. (x.0, fields_left x.1)) result
        (value_at low high place (fields_left fields.entry)) }
    ensures range { IfOk result (λ x. (low ≤ x.0) × (x.0 ≤ high)) }
    ensures last { IfOk result (λ x. is_none x.1 ≡ (length (fields_left x.1) == 0)) }
    ensures shorter { IfOk result (λ x. length (fields_left x.1) < length (fields_left fields.entry)) }
{
    match first_number(fields, FIELD_BREAK, low, high) {
        Some(found) => Ok(found),
        None => Err(LineError::BadField(place)),
    }
}
