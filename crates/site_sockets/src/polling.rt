//! Which waits of a thread poll before they sleep.

/// How many waits at most sleep at once, after polling was in vain.
const LONGEST_PAUSE: u32 = 1023;

/// Which waits of a thread poll: all, as long as what it waits for comes soon. Each time polling is in vain, twice as
/// many waits do not poll.
#[derive(Clone, Copy, Debug)]
pub(crate) struct Polling {
    pause: u32,
    left: u32,
}

impl Polling {
    pub(crate) fn new() -> Polling {
        Polling { pause: 0, left: 0 }
    }

    /// Whether the next wait polls.
    pub(crate) fn is_due(&mut self) -> bool {
        if self.left == 0 {
            return true;
        }
        self.left -= 1;
        false
    }

    /// Notes whether polling found something.
    pub(crate) fn note(&mut self, found: bool) {
        self.pause = if found {
            0
        } else {
            self.pause
                .saturating_mul(2)
                .saturating_add(1)
                .min(LONGEST_PAUSE)
        };
        self.left = self.pause;
    }
}
