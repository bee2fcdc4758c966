//! Decimals: no sign, and no leading zero except in `0` itself.
ghost use Rattle.std.specs.Prelude.{◌≡◌, ℕ, ◌<◌, ◌≤◌, ◌^◌, length, slice_index, decimal, MatchOption, IfSome, Some};
ghost use Rattle.std.specs.Char.{digit_value};
ghost use Rattle.std.specs.Str.Parse.{AllDigits, digits_value};
ghost use Rattle.entry_codec.specs.Digits.{IsReadUpTo};
ghost use Rattle.entry_codec.specs.Moves.{number_of};
ghost use Rattle.entry_codec.specs.Texts.{is_canonical};

// This many digits are read without an overflow check: their value fits a `u64`.
pub(crate) const SAFE_DIGITS: usize = 19;

/// The number from `least` to `most` that a text spells, or None.
pub fn read_decimal(text: &[u8], least: u64, most: u64) -> Option<u64>
    // What is read is what the text spells.
    ensures found { IfSome result (λ n. (least ≤ n) × (n ≤ most) × (text.now ≡ decimal n)) }
    // What is spelled is read.
    ensures only { (n : ℕ) → least ≤ n → n ≤ most → text.now ≡ decimal n → result ≡ Some n }
    // The same, as a function of the text.
    ensures exact { result ≡ number_of least most text.now }
{
    decimal_of(text, least, most)
}

// A number has at most one digit more than `SAFE_DIGITS`.
fn decimal_of(text: &[u8], least: u64, most: u64) -> Option<u64>
    ensures { result ≡ number_of least most text.now }
{
    let (front, count) = leading_digits(text);
    match &text[count..] {
        [] => checked(text, front, least, most),
        [last] => {
            let last = digit(*last)?;
            checked(text, front.checked_mul(10)?.checked_add(last)?, least, most)
        }
        _ => None,
    }
}

/// The value of a digit.
pub(crate) fn digit(byte: u8) -> Option<u64>
    ensures { MatchOption result (10 ≤ digit_value byte) (λ d. (d < 10) × (d ≡ digit_value byte)) }
{
    match byte {
        b'0'..=b'9' => Some((byte - b'0') as u64),
        _ => None,
    }
}

/// The value of the digits that a text begins with, and how many there are, at most `SAFE_DIGITS`.
pub(crate) fn leading_digits(text: &[u8]) -> (u64, usize)
    ensures read { IsReadUpTo text.now result.1 result.0 }
    ensures few { result.1 ≤ SAFE_DIGITS }
    ensures within { result.1 ≤ length text.now }
    ensures stop { result.1 < length text.now → result.1 < SAFE_DIGITS
        → 10 ≤ digit_value (slice_index text.now result.1) }
{
    let front = &text[..text.len().min(SAFE_DIGITS)];
    let mut value: u64 = 0;
    for (count, byte) in front.iter().enumerate() {
        match digit(*byte) {
            Some(digit) => value = value * 10 + digit,
            None => return (value, count),
        }
    }
    (value, front.len())
}

// Whether these digits are the canonical form of a number: no leading zero.
fn is_canonical(digits: &[u8]) -> bool
    ensures { result ≡ is_canonical digits.now }
{
    match digits {
        [] => false,
        [_] => true,
        [first, ..] => *first != b'0',
    }
}

/// The value of these digits, if they are canonical and it is in the range.
pub(crate) fn checked(digits: &[u8], value: u64, low: u64, high: u64) -> Option<u64>
    requires digits { AllDigits 10 digits.now }
    requires value { value ≡ digits_value 10 digits.now }
    ensures value { result ≡ number_of low high digits.now }
    ensures range { IfSome result (λ n. (low ≤ n) × (n ≤ high)) }
{
    if !is_canonical(digits) {
        return None;
    }
    if value < low {
        return None;
    }
    if value > high {
        return None;
    }
    Some(value)
}
