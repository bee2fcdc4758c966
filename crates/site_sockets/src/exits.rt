//! The durability of the site's records, for its exits: the writers whose bytes leave the process.
ghost use Rattle.std.specs.Prelude.{◌≡◌, is_some, IfOk};

use durability::Durability;
use rights_types::OutOfMemory;
use std::sync::Arc;

/// The durability of the site's records, if the site has a journal.
pub(crate) fn shared(durability: &Option<Arc<Durability>>) -> Option<&Durability>
    ensures { is_some result ≡ is_some durability.now }
{
    match durability {
        Some(durability) => Some(&**durability),
        None => None,
    }
}

/// The same for a further part of the site.
pub(crate) fn share_of(
    durability: &Option<Arc<Durability>>,
) -> Result<Option<Arc<Durability>>, OutOfMemory>
    ensures { IfOk result (λ share. is_some share ≡ is_some durability.now) }
{
    match durability {
        Some(durability) => Ok(Some(durability.clone()?)),
        None => Ok(None),
    }
}
