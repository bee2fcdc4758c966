//! Reading once, and again after an interruption.
ghost use Rattle.std.specs.Prelude.{◌≡◌, ◌↔◌, length, IsTrue};
ghost use Rattle.std.specs.Io.{ReadsAtMost};
ghost use Rattle.std.specs.Io.KnownBytes.{ReadConsumes};
ghost use Rattle.std.specs.IoError.{error_kind};

use std::io;
use std::io::{ErrorKind, Read};

/// A read failed.
#[derive(Clone, Copy, Debug, PartialEq, Eq)]
pub struct InputError;

/// Reads once, and again if it was interrupted. Returns how many bytes were read; 0 means the end, if the buffer is
/// not empty.
pub fn read_some<R: Read>(reader: &mut R, room: &mut [u8]) -> Result<usize, InputError>
    ensures same { length room.new ≡ length room.old }
    ensures bound { ReadsAtMost result room.new }
    ensures bytes { ReadConsumes (R.remaining reader.old) (R.remaining reader.new) result room.new }
{
    'tries: for _ in 0..u64::MAX {
        match reader.read(room) {
            Ok(length) => return Ok(length),
            Err(error) => {
                if !is_interrupted(&error) {
                    return Err(InputError);
                }
            }
        }
    }
    Err(InputError)
}

/// Whether a read or a write was interrupted and should be retried.
pub(crate) fn is_interrupted(error: &io::Error) -> bool
    ensures { IsTrue result ↔ (error_kind error.now ≡ ErrorKind.Interrupted) }
{
    error.kind() == ErrorKind::Interrupted
}
