//! Laws of keys, with no program in them. The functions do nothing.
ghost use Rattle.command_keys.specs.Calls.{LastAreRemembered};

/// After any calls, the keys that wrote entries and are remembered are the last of all that ever wrote one, at most as
/// many as the cap, each with its last entry; and no key occurs twice. How many were remembered when they wrote makes no
/// difference.
pub fn last_are_remembered()
    ensures { LastAreRemembered }
{}
