//! The words of a line, read one after another. They are separated by single spaces.
ghost use Rattle.std.specs.Prelude.{◌≡◌, ◌∷◌, ◌==◌, ◌≤◌, bytes_eq, length, is_none, IfSome};
ghost use Rattle.std.specs.List.{slice_split};
ghost use Rattle.rights_types.specs.Ranges.{IsSite};
ghost use Rattle.entry_codec.specs.Moves.{first_number as first_in, only_number as only_in};
ghost use Rattle.entry_codec.specs.Parts.{Finds};
ghost use Rattle.line_streams.specs.Words.{words_left, named, names_of, alone, first_site, only_site, optional_site};
ghost use Rattle.line_streams.specs.Words.{first_number, only_number, site_and_number};

use entry_codec::{first_decimal, split_first};
use rights_types::{MAX_SITES, SiteId};

/// The first word, and the text of the words after it.
#[inline(always)]
pub fn split_word(text: &[u8]) -> (&[u8], Option<&[u8]>)
    ensures words { slice_split (λ b. b == 32) text.now ≡ result.0.now ∷ words_left result.1 }
    ensures last { is_none result.1 ≡ (length (words_left result.1) == 0) }
{
    split_first(text, b' ')
}

/// Whether two words are the same. They are short: that takes less time byte by byte than as slices, which are compared in
/// groups of bytes.
fn is_same(one: &[u8], other: &[u8]) -> bool
    ensures { result ≡ bytes_eq one.now other.now }
{
    let (mut left, mut others) = (one, other);
    'bytes: while let ([a, more @ ..], [b, rest @ ..]) = (left, others) {
        if *a != *b {
            return false;
        }
        left = more;
        others = rest;
    }
    left.is_empty() && others.is_empty()
}

/// The meaning of a word, looked up in a table.
pub fn named<X: Copy>(table: &[(&[u8], X)], text: &[u8]) -> Option<X>
    ensures { result ≡ named (names_of table.now) text.now }
{
    for (name, meaning) in table {
        if is_same(text, name) {
            return Some(*meaning);
        }
    }
    None
}

/// The meaning of a name, if no words follow it.
pub fn alone<X: Drop>(meaning: X, words: Option<&[u8]>) -> Option<X>
    ensures { result ≡ alone meaning (words_left words.entry) }
{
    match words {
        None => Some(meaning),
        Some(_) => None,
    }
}

/// The number in the range that the first word spells, and the words after it.
#[inline(always)]
fn first_in(words: Option<&[u8]>, low: u64, high: u64) -> Option<(u64, Option<&[u8]>)>
    ensures value { Finds (λ x. (x.0, words_left x.1)) result (first_in low high (words_left words.entry)) }
    ensures range { IfSome result (λ x. (low ≤ x.0) × (x.0 ≤ high)) }
    ensures last { IfSome result (λ x. is_none x.1 ≡ (length (words_left x.1) == 0)) }
{
    first_decimal(words, b' ', low, high)
}

/// The number in the range that the only word spells: a decimal with no sign and no leading zero, like all numbers
/// here.
#[inline(always)]
#[tactic(auto, unfolding(entry_codec::specs::Moves::only_number))]
pub fn only_in(words: Option<&[u8]>, low: u64, high: u64) -> Option<u64>
    ensures value { result ≡ only_in low high (words_left words.entry) }
    ensures range { IfSome result (λ n. (low ≤ n) × (n ≤ high)) }
{
    let (number, rest) = first_in(words, low, high)?;
    match rest {
        None => Some(number),
        Some(_) => None,
    }
}

/// The site number that the first word spells, and the words after it.
#[inline(always)]
pub fn first_site(words: Option<&[u8]>) -> Option<(u64, Option<&[u8]>)>
    ensures value { Finds (λ x. (x.0, words_left x.1)) result (first_site (words_left words.entry)) }
    ensures range { IfSome result (λ x. IsSite x.0) }
{
    first_in(words, 1, MAX_SITES)
}

/// The site that the only word spells.
#[inline(always)]
pub fn only_site(words: Option<&[u8]>) -> Option<SiteId>
    ensures { result ≡ only_site (words_left words.entry) }
{
    Some(SiteId::known(only_in(words, 1, MAX_SITES)?))
}

/// The site that the only word spells, if there is a word.
pub fn optional_site(words: Option<&[u8]>) -> Option<Option<SiteId>>
    ensures { result ≡ optional_site (words_left words.entry) }
{
    match words {
        None => Some(None),
        Some(_) => Some(Some(only_site(words)?)),
    }
}

/// The number that the first word spells, and the words after it.
#[inline(always)]
pub fn first_number(words: Option<&[u8]>) -> Option<(u64, Option<&[u8]>)>
    ensures { Finds (λ x. (x.0, words_left x.1)) result (first_number (words_left words.entry)) }
{
    first_in(words, 0, u64::MAX)
}

/// The number that the only word spells.
#[inline(always)]
pub fn only_number(words: Option<&[u8]>) -> Option<u64>
    ensures { result ≡ only_number (words_left words.entry) }
{
    only_in(words, 0, u64::MAX)
}

/// The site and the number that the two words spell.
#[inline(always)]
#[tactic(auto, unfolding(crate::specs::Words::site_and_number))]
pub fn site_and_number(words: Option<&[u8]>) -> Option<(SiteId, u64)>
    ensures { result ≡ site_and_number (words_left words.entry) }
{
    let (site, rest) = first_site(words)?;
    Some((SiteId::known(site), only_number(rest)?))
}
