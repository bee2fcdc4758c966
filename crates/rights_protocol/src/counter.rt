//! The Bounded Counter, alone and as formed by the lists of a system: laws on functions that do nothing.
ghost use Rattle.rights_protocol.specs.CounterLaws.{OwnRowOnly, CounterIsSafe, KeptCounts, StepOperates, RunOperates};
ghost use Rattle.rights_protocol.specs.CounterLaws.{SmallCounter};

/// An operation of a site changes only its own row of R and its own entry of U.
pub fn own_row_only()
    ensures { OwnRowOnly }
{}

/// After any operations of the sites from the start, neither local rights nor the value are negative.
pub fn counter_is_safe()
    ensures { CounterIsSafe }
{}

/// Lists that satisfy the invariant form such a counter. What a site holds is its local rights according to what it
/// has; according to all logs it also has what is in transit to it; and the value is what was issued less what was
/// spent.
pub fn kept_counts()
    ensures { KeptCounts }
{}

/// Each change consists of operations of one site, each within its guard.
pub fn step_operates()
    ensures { StepOperates }
{}

/// Each run of the protocol from the start is a run of the counter's operations.
pub fn run_operates()
    ensures { RunOperates }
{}

/// Site 1 issues 10, spends 4 and gives 3 to site 2: each has 3 rights, and the value is 6.
pub fn small_counter()
    ensures { SmallCounter }
{}
