//! Writing texts into a buffer that has space for them, from a given position on. Each call returns the position after
//! the text.
ghost use Rattle.std.specs.Prelude.{◌≡◌, ◌+◌, ◌<◌, ◌≤◌, ◌++◌, length, take, vec_len, decimal, OnOk, IsOk};

use entry_codec::put_decimal;
use rights_types::OutOfMemory;
use std::alloc::Allocator;

/// Digits of a 64-bit number, at most.
pub const MAX_DIGITS: usize = 20;

/// Makes sure that there is space for this many bytes after `end`.
#[inline(always)]
pub(crate) fn make_room<A: Allocator>(
    bytes: &mut Vec<u8, A>,
    end: usize,
    count: usize,
) -> Result<(), OutOfMemory>
    requires { end ≤ vec_len bytes.old }
    ensures kept { take end bytes.new.items ≡ take end bytes.old.items }
    ensures longer { vec_len bytes.old ≤ vec_len bytes.new }
    ensures ok { OnOk result (end + count ≤ vec_len bytes.new) }
    ensures room { end + count ≤ vec_len bytes.old → IsOk result }
{
    if count <= bytes.len() - end {
        return Ok(());
    }
    grow(bytes, count)
}

/// Fills all the memory that it gets, so that it is rarely called.
#[cold]
#[inline(never)]
fn grow<A: Allocator>(bytes: &mut Vec<u8, A>, count: usize) -> Result<(), OutOfMemory>
    ensures kept { take (vec_len bytes.old) bytes.new.items ≡ bytes.old.items }
    ensures longer { vec_len bytes.old ≤ vec_len bytes.new }
    ensures ok { OnOk result (vec_len bytes.old + count ≤ vec_len bytes.new) }
{
    bytes.reserve(count)?;
    let room = bytes.capacity();
    bytes.resize(room, 0)?;
    Ok(())
}

#[inline(always)]
pub(crate) fn put_text(bytes: &mut [u8], at: usize, text: &[u8]) -> usize
    requires { at + length text.now ≤ length bytes.old }
    ensures end { result ≡ at + length text.now }
    ensures text { take result bytes.new ≡ take at bytes.old ++ text.now }
{
    let end = at + text.len();
    bytes[at..end].copy_from_slice(text);
    end
}

/// Writes a word whose length the compiler knows, which makes this a store or two.
#[inline(always)]
fn put_word<const N: usize>(bytes: &mut [u8], at: usize, word: &[u8; N]) -> usize
    requires { at + N ≤ length bytes.old }
    ensures end { result ≡ at + N }
    ensures text { take result bytes.new ≡ take at bytes.old ++ word.now }
{
    for index in 0..N {
        bytes[at + index] = word[index];
    }
    at + N
}

/// Writes a word and a number.
#[inline(always)]
pub(crate) fn put_field<const N: usize>(
    bytes: &mut [u8],
    at: usize,
    word: &[u8; N],
    number: u64,
) -> usize
    requires { at + (N + MAX_DIGITS) ≤ length bytes.old }
    ensures end { result ≡ at + (N + length (decimal number)) }
    ensures room { result ≤ length bytes.old }
    ensures short { result ≤ at + (N + MAX_DIGITS) }
    ensures text { take result bytes.new ≡ take at bytes.old ++ (word.now ++ decimal number) }
{
    let at = put_word(bytes, at, word);
    put_decimal(bytes, at, number)
}
