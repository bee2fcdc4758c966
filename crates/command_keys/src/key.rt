//! A key: the name that a client gives to one command.
ghost use Rattle.std.specs.Prelude.{◌≡◌};
ghost use Rattle.command_keys.specs.Key.{IsKey, key_in, has_hidden_byte, is_visible};

use std::hash::{Hash, Hasher};
use std::marker::Model;

/// The longest key, in bytes.
pub const MAX_KEY: usize = 64;

/// The key of a command: 1 to 64 bytes of visible ASCII, 0x21 to 0x7e.
#[derive(Clone, Copy)]
pub struct Key {
    places: [u8; 64],
    count: u8,
}

impl Model for Key {
    ghost use Rattle.std.specs.Prelude.{ℕ, List, take, length};
    ghost use Rattle.command_keys.specs.Key.{IsKey};
    ghost use Rattle.command_keys.specs.Places.{IsPadded, padded};

    ghost Value = { List ℕ };

    ghost view = { λ k. take k.count k.places };

    ghost invariant = { λ k. IsKey (take k.count k.places) × IsPadded k.count k.places };

    ghost inverse = { λ text. record { places = padded text; count = length text } };

    ghost use Rattle.command_keys.specs.KeyInverse.{padded_again};

    ghost inverse_ok = { λ a h. padded_again a h.1 };
}

impl Key {
    /// The key that this text spells. None if it is empty, longer than 64 bytes, or has a byte outside 0x21 to 0x7e.
    pub fn read(text: &[u8]) -> Option<Key>
        ensures { result ≡ key_in text.now }
    {
        if text.is_empty() || text.len() > MAX_KEY || has_hidden_byte(text) {
            return None;
        }
        Some(Key::known(text))
    }

    // The key of a text that is one.
    fn known(text: &[u8]) -> Key
        requires { IsKey text.now }
        ensures { result ≡ text.now }
    {
        let mut places = [0u8; 64];
        for i in 0..text.len() {
            places[i] = text[i];
        }
        Key {
            places,
            count: text.len() as u8,
        }
    }

    /// The text of the key.
    pub fn bytes(&self) -> &[u8]
        ensures value { result.now ≡ self.now }
        ensures valid { IsKey self.now }
    {
        &self.places[..self.count as usize]
    }
}

fn has_hidden_byte(text: &[u8]) -> bool
    ensures { result ≡ has_hidden_byte text.now }
{
    text.iter().any(|byte| !is_visible(*byte))
}

fn is_visible(byte: u8) -> bool
    ensures { result ≡ is_visible byte }
{
    matches!(byte, 0x21..=0x7e)
}

impl PartialEq for Key {
    ghost use Rattle.std.specs.Str.{bytes_eq};
    ghost use Rattle.std.specs.Cmp.{partial_equiv_from_equiv};
    ghost use Rattle.std.specs.Cmp.Lexicographic.{nat_list_eq_equiv};

    ghost eq = { bytes_eq };

    ghost laws = { partial_equiv_from_equiv nat_list_eq_equiv };

    fn eq(&self, other: &Key) -> bool {
        self.bytes() == other.bytes()
    }
}

impl Eq for Key {
    ghost use Rattle.std.specs.Cmp.Lexicographic.{nat_list_eq_equiv};

    ghost laws = { nat_list_eq_equiv };
}

impl Hash for Key {
    ghost use Rattle.std.specs.Prelude.{[], ◌∷◌};
    ghost use Rattle.command_keys.specs.Key.{same_writes};

    ghost hash_input = { λ key. key ∷ [] };

    ghost respects_eq = { same_writes };

    fn hash<H: Hasher>(&self, state: &mut H) {
        state.write(self.bytes());
    }
}
