//! The site's own clock.
ghost use Rattle.std.specs.Prelude.{◌≡◌, ◌-◌, ◌≤◌, max};

/// The time of a site, in milliseconds since 1970.
#[derive(Clone, Copy, Debug, PartialEq, Eq)]
pub struct SiteTime {
    /// The site's time.
    pub now: u64,
    /// How far the wall clock is behind it.
    pub behind: u64,
}

/// The site's time when the wall clock shows `wall`, after it was `last`: the wall clock's, but never less than before.
/// If the wall clock goes back, the site's time stands still until it is caught up.
pub fn site_time(last: u64, wall: u64) -> SiteTime
    ensures now { result.now ≡ max last wall }
    ensures behind { result.behind ≡ last - wall }
    ensures forward { last ≤ result.now }
{
    SiteTime {
        now: last.max(wall),
        behind: last.saturating_sub(wall),
    }
}
