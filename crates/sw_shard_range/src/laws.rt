//! Laws of shard ranges. Each function does nothing: its clause is the law.

ghost use Rattle.std.specs.Prelude.{◌≡◌};
ghost use Rattle.sw_shard_range.specs.Laws.{BoundsRise, IsInARange, IsInOneRange, ShardNamesDiffer};

use crate::state::{ACTIVE, CLEAVED, CREATED, FOUND, SHARDED, SHARDING, SHRINKING, SHRUNK};

/// The states are numbered as OpenStack Swift numbers them.
pub fn states_are_swifts()
    ensures found { FOUND ≡ 10 }
    ensures created { CREATED ≡ 20 }
    ensures cleaved { CLEAVED ≡ 30 }
    ensures active { ACTIVE ≡ 40 }
    ensures shrinking { SHRINKING ≡ 50 }
    ensures sharding { SHARDING ≡ 60 }
    ensures sharded { SHARDED ≡ 70 }
    ensures shrunk { SHRUNK ≡ 80 }
{}

/// The index of a name among ranges that are all names, each once, is that of one of them.
pub fn name_is_in_a_range()
    ensures { IsInARange }
{}

/// A range of these has a name exactly where its index is the name's: its lower bound is none or below the name, its upper bound is none or not below
/// the name, and so is that of no other range.
pub fn name_is_in_one_range()
    ensures { IsInOneRange }
{}

/// Each inner bound is above the one before it.
pub fn bounds_rise()
    ensures { BoundsRise }
{}

/// Two shards of one container and time with two indexes have two names.
pub fn shard_names_differ()
    ensures { ShardNamesDiffer }
{}
