//! The names of refusals, by their places.
ghost use Rattle.std.specs.Prelude.{◌≡◌, ◌<◌, ◌≤◌, get_or, length, []};
ghost use Rattle.refusals.specs.Refusals.{refusal_names};

use refusals::{REFUSAL_COUNT, Refusal};

/// The name of the refusal at this place.
#[tactic(auto, using(crate::proofs::RefusalLaws::name_at))]
pub(crate) fn refusal_name(index: usize) -> &'static [u8]
    requires { index < REFUSAL_COUNT }
    ensures name { result.now ≡ get_or refusal_names index [] }
    ensures short { length result.now ≤ 16 }
{
    Refusal::at(index).name()
}
