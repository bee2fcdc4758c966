//! How many lines a stream may have.
ghost use Rattle.std.specs.Prelude.{◌≡◌, ◌+◌, ◌<◌, OnOk, OnErr};

/// A stream is aborted once its lines, and the reads that end no line, reach this number together.
pub const LINE_LIMIT: u64 = 1_000_000_000;

/// The count of a stream's lines has reached `LINE_LIMIT`.
#[derive(Clone, Copy, Debug, PartialEq, Eq)]
pub struct TooManyLines;

/// Counts one more line, or one more read that ends no line. Fails if the count reaches the limit.
pub fn count_line(count: &mut u64) -> Result<(), TooManyLines>
    requires { count.old < LINE_LIMIT }
    ensures more { count.new ≡ count.old + 1 }
    ensures few { OnOk result (count.new < LINE_LIMIT) }
    ensures many { OnErr result (count.new ≡ LINE_LIMIT) }
{
    *count += 1;
    if *count == LINE_LIMIT {
        return Err(TooManyLines);
    }
    Ok(())
}
