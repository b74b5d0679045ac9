ghost use Rattle.std.specs.Prelude.{◌≡◌, ◌≤◌, true, IfOk, OnOk};
ghost use Rattle.sw_hashdir.specs.Places.{dir_text, is_place};

use crate::folder::suffix_dir;
use std::alloc::Global;
use sw_hashpath::{hex_text, partition, suffix};
use sw_outside::NoMemory;

/// The directory of a hash in a ring of this part power: `objects/<partition>/<last three digits>/<digits>`.
pub fn dir_of(alloc: Global, hash: &[u8; 16], power: u8) -> Result<Vec<u8>, NoMemory>
    requires least { 1 ≤ power }
    requires greatest { power ≤ 32 }
    ensures text { IfOk result (λ dir. dir.items ≡ dir_text power hash.now) }
    ensures place { OnOk result (is_place power hash.now ≡ true) }
{
    let mut dir = suffix_dir(alloc, partition(hash, power), suffix(hash))?;
    dir.push(b'/')?;
    dir.extend_from_slice(&hex_text(hash))?;
    Ok(dir)
}
