//! Writing a text whole.
ghost use Rattle.std.specs.Prelude.{OnOk, OnErr, length, take, ◌<◌, ◌≤◌};
ghost use Rattle.std.specs.Io.KnownBytes.{Appends};
ghost use Rattle.line_streams.specs.Fronts.{FallsShort};

use crate::read::is_interrupted;
use std::io::Write;

/// A write failed, or took no byte.
#[derive(Clone, Copy, Debug, PartialEq, Eq)]
pub struct OutputError;

/// Writes once, and again if it was interrupted. Returns how many bytes were taken; 0 if the write failed.
pub fn write_some<W: Write>(writer: &mut W, text: &[u8]) -> usize
    ensures within { result ≤ length text.now }
    ensures bytes { Appends (W.contents writer.old) (W.contents writer.new) (take result text.now) }
{
    'tries: for _ in 0..u64::MAX {
        match writer.write(text) {
            Ok(count) => return count,
            Err(error) => {
                if !is_interrupted(&error) {
                    return 0;
                }
            }
        }
    }
    0
}

/// Writes the whole text, in as many writes as it takes. On `Err` a proper prefix of it was written.
pub fn write_whole<W: Write>(writer: &mut W, text: &[u8]) -> Result<(), OutputError>
    ensures whole { OnOk result (Appends (W.contents writer.old) (W.contents writer.new) text.now) }
    ensures front { OnErr result (FallsShort (W.contents writer.old) (W.contents writer.new) text.now) }
{
    let mut done = 0;
    while done < text.len() {
        let count = write_some(writer, &text[done..]);
        if count == 0 {
            return Err(OutputError);
        }
        done += count;
    }
    Ok(())
}
