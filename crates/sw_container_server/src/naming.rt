ghost use Rattle.std.specs.Prelude.{◌≡◌, IfOk};
ghost use Rattle.sw_container_server.specs.Places.{IsNamed, has_good_object as has_good_object_of};

use crate::target::Target;
use crate::verb::Verb;
use std::alloc::Global;
use sw_hashpath::{NameError, Place, first_fault};
use sw_outside::NoMemory;
use sw_ring::Ring;

/// The place that a target names under the ring's secrets. It answers `None` where something is wrong with the names, that of the row among them.
pub(crate) fn place_of(
    alloc: Global,
    ring: &Ring,
    verb: Verb,
    target: &Target,
) -> Result<Option<Place>, NoMemory>
    ensures { IfOk result (IsNamed ring.now verb target.now) }
{
    let (account, container) = (target.account.as_slice(), target.container.as_slice());
    match Place::new(alloc, &ring.secrets, account, container) {
        Ok(place) => {
            if has_good_object(verb, target) {
                Ok(Some(place))
            } else {
                Ok(None)
            }
        }
        Err(NameError::Bad(_)) => Ok(None),
        Err(NameError::NoMemory) => Err(NoMemory),
    }
}

/// Whether the verb is none of a row's, or nothing is wrong with the names of the row.
fn has_good_object(verb: Verb, target: &Target) -> bool
    ensures { result ≡ has_good_object_of verb target.now }
{
    let (account, container) = (target.account.as_slice(), target.container.as_slice());
    !verb.names_row()
        || first_fault(account, Some(container), Some(target.object.as_slice())).is_none()
}
