//! Which of the entries that its sites have applied a world keeps.
ghost use Rattle.std.specs.Prelude.{◌≡◌, Bool, true, false};

/// Whether the entries that reached a site are kept after they were applied.
pub trait Keeping {
    ghost keeps: { Bool };

    fn keeps() -> bool
        ensures { result ≡ keeps };
}

/// They are kept, so that a world's readers can lend them.
#[derive(Drop)]
pub struct ForReaders {}

impl Keeping for ForReaders {
    ghost keeps = { true };

    fn keeps() -> bool {
        true
    }
}

/// They are dropped: no reply mentions them again, and from then on they exist only as ghost state.
#[derive(Drop)]
pub struct ForReplies {}

impl Keeping for ForReplies {
    ghost keeps = { false };

    fn keeps() -> bool
        ensures { result ≡ false }
    {
        false
    }
}
