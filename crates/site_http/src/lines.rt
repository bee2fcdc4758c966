//! The lines of a body.
ghost use Rattle.std.specs.Prelude.{◌≡◌, ◌≢◌, ◌<◌, [], ◌∷◌, ◌++◌, length, IfSome, IfNone};
ghost use Rattle.line_streams.specs.Handling.{IsGiven};
ghost use Rattle.line_streams.specs.Talk.{lines_of};

use memchr::memchr;
use rights_types::MAX_LINE;

/// The text of the first line, and the lines after it. The last line may lack its line feed.
pub(crate) fn split_line(lines: &[u8]) -> Option<(&[u8], &[u8])>
    ensures first { IfSome result (λ parts. lines_of lines.now ≡ (parts.0.now ++ 10 ∷ []) ∷ lines_of parts.1.now) }
    ensures fewer { IfSome result (λ parts. length parts.1.now < length lines.now) }
    ensures none { IfNone result (lines_of lines.now ≡ []) }
{
    if lines.is_empty() {
        return None;
    }
    match memchr(b'\n', lines) {
        Some(at) => Some((&lines[..at], &lines[at + 1..])),
        None => Some((lines, &[])),
    }
}

/// The text of the line, if there is exactly one.
pub(crate) fn only_line(lines: &[u8]) -> Option<&[u8]>
    ensures one { IfSome result (λ text. lines_of lines.now ≡ (text.now ++ 10 ∷ []) ∷ []) }
    ensures other { IfNone result (length (lines_of lines.now) ≢ 1) }
{
    let (text, rest) = split_line(lines)?;
    if rest.is_empty() { Some(text) } else { None }
}

/// The text of a line, or None if the line is too long.
pub(crate) fn within_limit(text: &[u8]) -> Option<&[u8]>
    ensures { IsGiven (text.now ++ 10 ∷ []) result }
{
    if text.len() < MAX_LINE {
        Some(text)
    } else {
        None
    }
}
