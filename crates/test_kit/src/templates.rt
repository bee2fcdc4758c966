//! Text with holes for numbers: `$1` is for the first one, `$9` for the ninth.

use std::alloc::AllocError;

// The number for a hole, by its digit, else 0.
fn number_at(digit: u8, numbers: &[u64]) -> u64 {
    let index = usize::from(digit).wrapping_sub(usize::from(b'1'));
    *numbers.get(index).unwrap_or(&0)
}

// Adds the number for a hole, and what follows it up to the next one.
fn fill_hole(text: &mut String, piece: &str, numbers: &[u64]) -> Result<(), AllocError> {
    let digit = *piece.as_bytes().first().unwrap_or(&b'1');
    let number = number_at(digit, numbers);
    write!(text, "{number}")?;
    text.push_str(piece.strip_prefix(char::from(digit)).unwrap_or(""))
}

/// Adds a template with these numbers at its holes.
pub fn fill(text: &mut String, template: &str, numbers: &[u64]) -> Result<(), AllocError> {
    let (front, rest) = template.split_once('$').unwrap_or((template, ""));
    text.push_str(front)?;
    if front.len() < template.len() {
        for piece in rest.split('$') {
            fill_hole(text, piece, numbers)?;
        }
    }
    Ok(())
}
