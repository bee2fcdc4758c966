//! Writing into a slice that has enough space, from a given position on. Each call returns the position after what it
//! wrote.
ghost use Rattle.std.specs.Prelude.{◌≡◌, ◌+◌, ◌<◌, ◌≤◌, ◌^◌, [], ◌∷◌, ◌++◌, length, take, decimal};
ghost use Rattle.entry_codec.specs.Digits.{two_digits, four_digits, eight_digits};

/// The two digits of each number below 100.
static PAIRS: [u8; 200] =
    *b"00010203040506070809101112131415161718192021222324252627282930313233343536373839404142434445464748495051525354555657585960616263646566676869707172737475767778798081828384858687888990919293949596979899";

const FOUR_DIGITS: u64 = 10_000;

const EIGHT_DIGITS: u64 = 100_000_000;

pub(crate) fn put_byte(buffer: &mut [u8], at: usize, byte: u8) -> usize
    requires { at < length buffer.old }
    ensures end { result ≡ at + 1 }
    ensures text { take result buffer.new ≡ take at buffer.old ++ byte ∷ [] }
{
    buffer[at] = byte;
    at + 1
}

/// Writes a number's digits, without leading zeros, into bytes that have space for them (20 at most), from `at` on,
/// and returns the position after them.
#[tactic(auto, using(std::proofs::lemmas::Fmt::decimal_digit))]
pub fn put_decimal(buffer: &mut [u8], at: usize, number: u64) -> usize
    requires { at + length (decimal number) ≤ length buffer.old }
    ensures end { result ≡ at + length (decimal number) }
    ensures text { take result buffer.new ≡ take at buffer.old ++ decimal number }
{
    // Many numbers have one digit, such as those of sites.
    if number < 10 {
        return put_byte(buffer, at, b'0' + number as u8);
    }
    put_digits(buffer, at, number)
}

// From the left: after the leading part comes a fixed number of digits, so none has to be counted first.
fn put_digits(buffer: &mut [u8], at: usize, number: u64) -> usize
    requires { at + length (decimal number) ≤ length buffer.old }
    ensures end { result ≡ at + length (decimal number) }
    ensures text { take result buffer.new ≡ take at buffer.old ++ decimal number }
{
    if number < EIGHT_DIGITS {
        return put_up_to_eight(buffer, at, number);
    }
    let at = put_up_to_twelve(buffer, at, number / EIGHT_DIGITS);
    put_eight(buffer, at, number % EIGHT_DIGITS)
}

// A number of at most 12 digits.
fn put_up_to_twelve(buffer: &mut [u8], at: usize, number: u64) -> usize
    requires small { number < 10 ^ 12 }
    requires room { at + length (decimal number) ≤ length buffer.old }
    ensures end { result ≡ at + length (decimal number) }
    ensures text { take result buffer.new ≡ take at buffer.old ++ decimal number }
{
    if number < EIGHT_DIGITS {
        return put_up_to_eight(buffer, at, number);
    }
    let at = put_up_to_four(buffer, at, number / EIGHT_DIGITS);
    put_eight(buffer, at, number % EIGHT_DIGITS)
}

fn put_up_to_eight(buffer: &mut [u8], at: usize, number: u64) -> usize
    requires small { number < EIGHT_DIGITS }
    requires room { at + length (decimal number) ≤ length buffer.old }
    ensures end { result ≡ at + length (decimal number) }
    ensures text { take result buffer.new ≡ take at buffer.old ++ decimal number }
{
    if number < FOUR_DIGITS {
        return put_up_to_four(buffer, at, number);
    }
    let at = put_up_to_four(buffer, at, number / FOUR_DIGITS);
    put_four(buffer, at, number % FOUR_DIGITS)
}

fn put_up_to_four(buffer: &mut [u8], at: usize, number: u64) -> usize
    requires small { number < FOUR_DIGITS }
    requires room { at + length (decimal number) ≤ length buffer.old }
    ensures end { result ≡ at + length (decimal number) }
    ensures text { take result buffer.new ≡ take at buffer.old ++ decimal number }
{
    if number < 100 {
        return put_up_to_two(buffer, at, number);
    }
    let at = put_up_to_two(buffer, at, number / 100);
    put_two(buffer, at, number % 100)
}

fn put_up_to_two(buffer: &mut [u8], at: usize, number: u64) -> usize
    requires small { number < 100 }
    requires room { at + length (decimal number) ≤ length buffer.old }
    ensures end { result ≡ at + length (decimal number) }
    ensures text { take result buffer.new ≡ take at buffer.old ++ decimal number }
{
    if number < 10 {
        return put_byte(buffer, at, b'0' + number as u8);
    }
    put_two(buffer, at, number)
}

// Exactly 8 digits, of which the first may be zeros.
fn put_eight(buffer: &mut [u8], at: usize, digits: u64) -> usize
    requires small { digits < EIGHT_DIGITS }
    requires room { at + 8 ≤ length buffer.old }
    ensures end { result ≡ at + 8 }
    ensures text { take result buffer.new ≡ take at buffer.old ++ eight_digits digits }
{
    let at = put_four(buffer, at, digits / FOUR_DIGITS);
    put_four(buffer, at, digits % FOUR_DIGITS)
}

fn put_four(buffer: &mut [u8], at: usize, digits: u64) -> usize
    requires small { digits < FOUR_DIGITS }
    requires room { at + 4 ≤ length buffer.old }
    ensures end { result ≡ at + 4 }
    ensures text { take result buffer.new ≡ take at buffer.old ++ four_digits digits }
{
    let at = put_two(buffer, at, digits / 100);
    put_two(buffer, at, digits % 100)
}

fn put_two(buffer: &mut [u8], at: usize, digits: u64) -> usize
    requires small { digits < 100 }
    requires room { at + 2 ≤ length buffer.old }
    ensures end { result ≡ at + 2 }
    ensures text { take result buffer.new ≡ take at buffer.old ++ two_digits digits }
{
    let pair = digits as usize * 2;
    let (tens, ones) = (PAIRS[pair], PAIRS[pair + 1]);
    let at = put_byte(buffer, at, tens);
    put_byte(buffer, at, ones)
}
