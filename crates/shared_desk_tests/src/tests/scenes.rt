//! A shared desk for a test, with the names of its ledgers.
ghost use Rattle.std.specs.Prelude.{◌≡◌, ◌≤◌};
ghost use Rattle.apply_lanes.specs.Names.{id_of, AreBlank, IsUnused};

use crate::tests::desks::desk_among;
use apply_lanes::{Blanks, DeskNames, SharedDesk};
use site_core::Desk;
use std::alloc::AllocGlobal;
use std::marker::Brand;
use std::process::Abort;
use std::sync::Wait;
use std::time::Clock;

/// What a scene needs of the runtime.
pub(crate) trait Host: Wait + Clock + Abort + AllocGlobal {}

impl<R: Wait + Clock + Abort + AllocGlobal> Host for R {}

/// What a test does with a shared desk. It starts no threads: the borrow checker does not cover them in the method of a
/// trait.
pub(crate) trait Scene {
    /// What it saw.
    type Seen: Drop;

    fn play<D: DeskNames, R: Host>(self, rt: &R, desk: SharedDesk<D>) -> Self::Seen;
}

// Plays the scene with that desk.
fn play_with<D: DeskNames, S: Scene, R: Host>(
    rt: &R,
    scene: S,
    desk: Desk,
    blanks: Blanks,
) -> S::Seen
    requires id { D.id ≡ id_of desk blanks }
    requires blanks { AreBlank blanks }
    requires unused { IsUnused desk }
{
    scene.play(rt, SharedDesk::<D>::new(desk, blanks))
}

/// Plays the scene with a desk of site 1 of this many, at which nothing has happened.
pub(crate) fn play<S: Scene, R: Host>(rt: &R, sites: u64, scene: S) -> S::Seen
    requires { (2 ≤ sites) × (sites ≤ 16) }
{
    let desk = desk_among(rt, rt.alloc(), sites);
    play_with::<Brand, S, R>(rt, scene, desk, Blanks::new())
}
