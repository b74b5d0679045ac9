ghost use Rattle.std.specs.Prelude.{◌≡◌, ◌↔◌, ◌||◌, Err, IfOk, None, Some, if◌then◌else◌};
ghost use Rattle.sw_hashpath.specs.BadNames.{bad_name, has_slash};
ghost use Rattle.sw_hashpath.specs.Paths.{hash_of};
ghost use Rattle.sw_hashpath.specs.declared.bad_name.BadName.{BadName};
ghost use Rattle.sw_hashpath.specs.declared.bad_name.BadName.TheVariants.{Slash, TooLong};
ghost use Rattle.sw_shard_range.specs.ShardNames.{shard_account, shard_container};

use crate::texts::{account_text, container_text};
use std::alloc::Global;
use sw_hashpath::{BadName, NameError, Place, Secrets};
use sw_timestamp::Timestamp;

/// The place of a shard of this container: the account is `.shards_` and the container's account, and the container is `CONTAINER-MD5-TIME-INDEX`, where
/// `MD5` is that of the container's name in 32 lower-case hexadecimal digits, `TIME` the normal form of the time, and `INDEX` a decimal number.
///
/// The error is [`NameError::Bad`] with the first thing that is wrong with these names, and [`NameError::NoMemory`] only over good ones.
pub fn shard_name(
    alloc: Global,
    secrets: &Secrets,
    place: &Place,
    time: Timestamp,
    index: u32,
) -> Result<Place, NameError>
    ensures shard { let a = shard_account place.now.account in let c = shard_container place.now.container time index in
        IfOk result (λ shard. shard ≡ record { account = a; container = c; hash = hash_of secrets.now a (Some c) None }) }
    ensures good { IfOk result (λ _. bad_name (shard_account place.now.account) (Some (shard_container place.now.container time index)) None ≡ None) }
    ensures bad { (bad : BadName) → (result ≡ Err (NameError.Bad bad))
        ↔ (bad_name (shard_account place.now.account) (Some (shard_container place.now.container time index)) None ≡ Some bad) }
{
    let Some(account) = account_text(place.account.as_slice()) else {
        return Err(NameError::Bad(long_fault(place)));
    };
    let Some(container) = container_text(place.container.as_slice(), time, index) else {
        return Err(NameError::Bad(long_fault(place)));
    };
    Place::new(alloc, secrets, account.as_slice(), container.as_slice())
}

/// What is wrong with the names of a shard one of which is too long: a slash comes before that, and stands in them where one stands in what they are made of.
fn long_fault(place: &Place) -> BadName
    ensures { result ≡ (if has_slash place.now.account || has_slash place.now.container then Slash else TooLong) }
{
    if place.account.as_slice().contains(&b'/') || place.container.as_slice().contains(&b'/') {
        BadName::Slash
    } else {
        BadName::TooLong
    }
}
