//! Which peers are silent.
ghost use Rattle.std.specs.Prelude.{◌≡◌, if◌then◌else◌, true};
ghost use Rattle.rights_types.specs.Places.{set_site};
ghost use Rattle.site_node.specs.Silence.{is_silent};

use rights_types::SiteId;
use transfer_manager::SiteSet;

/// Whether a peer is silent of which nothing was read for so many milliseconds. `after` says when a peer counts as
/// silent; `None` if never.
pub fn is_silent(after: Option<u64>, unheard: u64) -> bool
    ensures { result ≡ is_silent after unheard }
{
    match after {
        Some(after) => after <= unheard,
        None => false,
    }
}

/// Puts a peer into a set if it is silent, and returns whether it is.
pub fn note_silent(silent: &mut SiteSet, peer: SiteId, after: Option<u64>, unheard: u64) -> bool
    ensures told { result ≡ is_silent after unheard }
    ensures noted { silent.new ≡ if result then set_site silent.old peer true else silent.old }
{
    let is_silent = is_silent(after, unheard);
    if is_silent {
        silent.insert(peer);
    }
    is_silent
}
