//! A move and the field that spells it.
ghost use Rattle.std.specs.Prelude.{◌≡◌, ◌∷◌, ◌<◌, ◌≤◌, IfSome, Some};
ghost use Rattle.rights_types.specs.Moves.{IsMove};
ghost use Rattle.rights_types.specs.declared.moves.Move.{Move};
ghost use Rattle.entry_codec.specs.Spelling.{move_text};
ghost use Rattle.entry_codec.specs.Parts.{split_at, values_left};
ghost use Rattle.entry_codec.specs.Kept.{FindsMove};
ghost use Rattle.entry_codec.specs.Moves.{only_number, grant_in, give_in, take_back_in, frontier_in, move_of};
ghost use Rattle.entry_codec.specs.Moves.{first_move};

use crate::format::{
    CLOSE_AT_LETTER, CLOSE_LETTER, FIELD_BREAK, GIVE_LETTER, GRANT_LETTER, ISSUE_LETTER,
    SPEND_LETTER, TAKE_BACK_LETTER, VALUE_BREAK,
};
use crate::parts::{first_number, is_letter, only_number, split_first};
use rights_types::{
    Amount, AskNumber, Frontier, MAX_AMOUNT, MAX_ASK, MAX_NUMBER, MAX_SITES, MAX_TOTAL, Move,
    SiteId, Total,
};

/// The move that a field spells, or None. The field does not name the origin, so whether an entry may have the move is
/// not checked here.
pub fn read_move(field: &[u8]) -> Option<Move>
    // What is read is what the field spells.
    ensures found { IfSome result (λ m. IsMove m × (field.now ≡ move_text m)) }
    // What is spelled is read.
    ensures only { (m : Move) → IsMove m → field.now ≡ move_text m → result ≡ Some m }
    // The same, as a function of the field.
    ensures exact { result ≡ move_of field.now }
{
    move_of_field(field)
}

#[tactic(auto, unfolding(crate::specs::Moves::move_of))]
fn move_of_field(field: &[u8]) -> Option<Move>
    ensures { result ≡ move_of field.now }
{
    let (letter, values) = split_first(field, VALUE_BREAK);
    if is_letter(letter, ISSUE_LETTER) {
        Some(Move::Issue(amount_in(values)?))
    } else if is_letter(letter, SPEND_LETTER) {
        Some(Move::Spend(amount_in(values)?))
    } else if is_letter(letter, GRANT_LETTER) {
        grant_in(values)
    } else if is_letter(letter, GIVE_LETTER) {
        give_in(values)
    } else if is_letter(letter, CLOSE_LETTER) {
        match values {
            None => Some(Move::Close),
            Some(_) => None,
        }
    } else if is_letter(letter, CLOSE_AT_LETTER) {
        Some(Move::CloseAt(frontier_in(values)?))
    } else if is_letter(letter, TAKE_BACK_LETTER) {
        take_back_in(values)
    } else {
        None
    }
}

fn amount_in(values: Option<&[u8]>) -> Option<Amount>
    ensures { result ≡ only_number 1 MAX_AMOUNT (values_left values.entry) }
{
    Some(Amount::known(only_number(values, VALUE_BREAK, 1, MAX_AMOUNT)?))
}

#[tactic(auto, unfolding(crate::specs::Moves::grant_in))]
fn grant_in(values: Option<&[u8]>) -> Option<Move>
    ensures { result ≡ grant_in (values_left values.entry) }
{
    let (peer, rest) = first_number(values, VALUE_BREAK, 1, MAX_SITES)?;
    let (amount, rest) = first_number(rest, VALUE_BREAK, 1, MAX_AMOUNT)?;
    let ask = only_number(rest, VALUE_BREAK, 1, MAX_ASK)?;
    Some(Move::Grant {
        peer: SiteId::known(peer),
        amount: Amount::known(amount),
        ask: AskNumber::known(ask),
    })
}

#[tactic(auto, unfolding(crate::specs::Moves::give_in))]
fn give_in(values: Option<&[u8]>) -> Option<Move>
    ensures { result ≡ give_in (values_left values.entry) }
{
    let (peer, rest) = first_number(values, VALUE_BREAK, 1, MAX_SITES)?;
    let amount = only_number(rest, VALUE_BREAK, 1, MAX_AMOUNT)?;
    Some(Move::Give {
        peer: SiteId::known(peer),
        amount: Amount::known(amount),
    })
}

#[tactic(auto, unfolding(crate::specs::Moves::take_back_in))]
fn take_back_in(values: Option<&[u8]>) -> Option<Move>
    ensures { result ≡ take_back_in (values_left values.entry) }
{
    let (peer, rest) = first_number(values, VALUE_BREAK, 1, MAX_SITES)?;
    let amount = only_number(rest, VALUE_BREAK, 1, MAX_TOTAL)?;
    Some(Move::TakeBack {
        peer: SiteId::known(peer),
        amount: Total::known(amount),
    })
}

fn frontier_in(values: Option<&[u8]>) -> Option<Frontier>
    ensures { result ≡ frontier_in (values_left values.entry) }
{
    let mut numbers = [0u64; MAX_SITES as usize];
    let mut count: usize = 0;
    let mut rest = values;
    while rest.is_some() {
        if count >= numbers.len() {
            return None;
        }
        let (number, more) = first_number(rest, VALUE_BREAK, 0, MAX_NUMBER)?;
        numbers[count] = number;
        count += 1;
        rest = more;
    }
    match Frontier::new(&numbers[..count]) {
        Ok(frontier) => Some(frontier),
        Err(_) => None,
    }
}

// The letter of a move that has values, and the text after its colon.
fn letter_of(text: &[u8]) -> Option<(u8, &[u8])>
    ensures { IfSome result (λ x. text.now ≡ x.0 ∷ (VALUE_BREAK ∷ x.1.now)) }
{
    match text {
        [letter, VALUE_BREAK, values @ ..] => Some((*letter, values)),
        _ => None,
    }
}

/// Reads the move of the first field into a slot, and returns what comes after the field. Frequent moves are read in
/// one pass.
#[inline(always)]
pub(crate) fn first_move<'a>(fields: &'a [u8], slot: &mut Move) -> Option<Option<&'a [u8]>>
    ensures { FindsMove slot.new result (first_move (split_at FIELD_BREAK fields.now)) }
{
    let Some((letter, values)) = letter_of(fields) else {
        return other_move(fields, slot);
    };
    if letter == ISSUE_LETTER {
        let (amount, rest) = first_number(Some(values), FIELD_BREAK, 1, MAX_AMOUNT)?;
        *slot = Move::Issue(Amount::known(amount));
        return Some(rest);
    }
    if letter == SPEND_LETTER {
        let (amount, rest) = first_number(Some(values), FIELD_BREAK, 1, MAX_AMOUNT)?;
        *slot = Move::Spend(Amount::known(amount));
        return Some(rest);
    }
    if letter == GRANT_LETTER {
        return first_grant(values, slot);
    }
    if letter == GIVE_LETTER {
        return first_give(values, slot);
    }
    other_move(fields, slot)
}

fn first_grant<'a>(values: &'a [u8], slot: &mut Move) -> Option<Option<&'a [u8]>>
    ensures { FindsMove slot.new result
        (first_move (split_at FIELD_BREAK (GRANT_LETTER ∷ (VALUE_BREAK ∷ values.now)))) }
{
    let (peer, rest) = first_number(Some(values), VALUE_BREAK, 1, MAX_SITES)?;
    let (amount, rest) = first_number(rest, VALUE_BREAK, 1, MAX_AMOUNT)?;
    let (ask, rest) = first_number(rest, FIELD_BREAK, 1, MAX_ASK)?;
    *slot = Move::Grant {
        peer: SiteId::known(peer),
        amount: Amount::known(amount),
        ask: AskNumber::known(ask),
    };
    Some(rest)
}

fn first_give<'a>(values: &'a [u8], slot: &mut Move) -> Option<Option<&'a [u8]>>
    ensures { FindsMove slot.new result
        (first_move (split_at FIELD_BREAK (GIVE_LETTER ∷ (VALUE_BREAK ∷ values.now)))) }
{
    let (peer, rest) = first_number(Some(values), VALUE_BREAK, 1, MAX_SITES)?;
    let (amount, rest) = first_number(rest, FIELD_BREAK, 1, MAX_AMOUNT)?;
    *slot = Move::Give {
        peer: SiteId::known(peer),
        amount: Amount::known(amount),
    };
    Some(rest)
}

#[inline(never)]
#[tactic(auto, unfolding(crate::specs::Moves::first_move))]
fn other_move<'a>(fields: &'a [u8], slot: &mut Move) -> Option<Option<&'a [u8]>>
    ensures { FindsMove slot.new result (first_move (split_at FIELD_BREAK fields.now)) }
{
    let (field, rest) = split_first(fields, FIELD_BREAK);
    *slot = read_move(field)?;
    Some(rest)
}
