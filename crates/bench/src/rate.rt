//! Rates, from counts and times.

/// The rate per second, or 0 if no time was measured.
pub(crate) fn per_second(count: u64, nanos: u128) -> u128 {
    (count as u128)
        .saturating_mul(1_000_000_000)
        .checked_div(nanos)
        .unwrap_or(0)
}
