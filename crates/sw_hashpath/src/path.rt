ghost use Rattle.std.specs.Prelude.{◌≡◌, ℕ, List, ◌++◌, IsSome};
ghost use Rattle.std.specs.Option.{option_copied};
ghost use Rattle.md5.specs.Md5.{Holds};
ghost use Rattle.sw_hashpath.specs.BadNames.{bad_name};
ghost use Rattle.sw_hashpath.specs.Paths.{hash_of, segment, unless_bad};

use crate::bad_name::{BadName, first_fault};
use crate::secrets::Secrets;
use md5::{Digest, Md5};

/// The hash of the path of an account, of a container, or of an object: the MD5 of the names with a slash before each,
/// between the secrets' prefix and suffix.
///
/// An object is given only with a container. The error is the first thing that is wrong with the names. It takes no
/// memory.
pub fn hash_path(
    secrets: &Secrets,
    account: &[u8],
    container: Option<&[u8]>,
    object: Option<&[u8]>,
) -> Result<[u8; 16], BadName>
    requires { IsSome object → IsSome container }
    ensures { let c = option_copied container.entry in let o = option_copied object.entry in
        result ≡ unless_bad (bad_name account.now c o) (hash_of secrets.now account.now c o) }
{
    match first_fault(account, container, object) {
        Some(bad) => Err(bad),
        None => Ok(digest_of(secrets, account, container, object)),
    }
}

fn digest_of(
    secrets: &Secrets,
    account: &[u8],
    container: Option<&[u8]>,
    object: Option<&[u8]>,
) -> [u8; 16]
    ensures { result ≡ hash_of secrets.now account.now (option_copied container.entry) (option_copied object.entry) }
{
    let mut hasher = Md5::new();
    hasher.update(secrets.prefix.as_slice());
    add_name(&mut hasher, Some(account));
    add_name(&mut hasher, container);
    add_name(&mut hasher, object);
    hasher.update(secrets.suffix.as_slice());
    hasher.finalize()
}

/// Adds a slash and the name, where there is one.
fn add_name(hasher: &mut Md5, name: Option<&[u8]>)
    ensures { (m : List ℕ) → Holds hasher.old m → Holds hasher.new (m ++ segment (option_copied name.entry)) }
{
    if let Some(name) = name {
        hasher.update(b"/");
        hasher.update(name);
    }
}
