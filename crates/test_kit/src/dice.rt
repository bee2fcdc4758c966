//! Pseudo-random numbers.

/// Pseudo-random numbers, the same in each run from the same seed.
#[derive(Clone, Copy)]
pub struct Dice {
    state: u64,
}

impl Dice {
    /// The sequence for the game with this number.
    pub fn new(seed: u64) -> Dice {
        Dice { state: seed }
    }

    /// A number below the count of sides, or 0 if that is 0.
    pub fn roll(&mut self, sides: u64) -> u64 {
        self.state = self
            .state
            .wrapping_mul(6_364_136_223_846_793_005)
            .wrapping_add(1_442_695_040_888_963_407);
        (self.state >> 33).checked_rem(sides).unwrap_or(0)
    }
}
