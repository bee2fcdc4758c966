//! Laws of the definitions, with no program in them. The functions do nothing.
ghost use Rattle.transfer_manager.specs.Outliving.{AsksOutlive, AsksUnrecorded};

/// What a manager that was made again from a journal has lost is lost on purpose: it asks under the same numbers, has at
/// least the same asks outstanding, and takes no new ask for one that was answered.
pub fn asks_outlive()
    ensures { AsksOutlive }
{}

/// A denial that came, an ask that ended since its peer has closed, and an ask that was denied are what a journal has no
/// record of.
pub fn asks_unrecorded()
    ensures { AsksUnrecorded }
{}
