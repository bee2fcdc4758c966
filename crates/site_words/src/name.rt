//! The names that a system may have.
ghost use Rattle.std.specs.Prelude.{◌≡◌};
ghost use Rattle.site_words.specs.Names.{has_other_byte, is_name_byte, is_system_name};

/// The longest name of a system, in bytes.
pub const MAX_SYSTEM: usize = 32;

/// Whether a system may have this name: 1 to 32 letters, digits and hyphens.
pub fn is_system_name(text: &[u8]) -> bool
    ensures { result ≡ is_system_name text.now }
{
    if text.is_empty() || text.len() > MAX_SYSTEM {
        return false;
    }
    !has_other_byte(text)
}

fn has_other_byte(text: &[u8]) -> bool
    ensures { result ≡ has_other_byte text.now }
{
    text.iter().any(|byte| !is_name_byte(*byte))
}

fn is_name_byte(byte: u8) -> bool
    ensures { result ≡ is_name_byte byte }
{
    matches!(byte, b'0'..=b'9' | b'A'..=b'Z' | b'a'..=b'z' | b'-')
}
