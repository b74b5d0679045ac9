ghost use Rattle.std.specs.Prelude.{◌≡◌};
ghost use Rattle.sw_keeper.specs.Places.{place_cmp};

use std::cmp::Ordering;
use sw_hashpath::Place;

/// Places in byte order of account, container and hash.
pub(crate) fn compare(one: &Place, other: &Place) -> Ordering
    ensures { result ≡ place_cmp one.now other.now }
{
    one.account
        .as_slice()
        .cmp(other.account.as_slice())
        .then(one.container.as_slice().cmp(other.container.as_slice()))
        .then(one.hash.as_slice().cmp(other.hash.as_slice()))
}
