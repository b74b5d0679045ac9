ghost use Rattle.std.specs.Prelude.{◌≡◌, ◌<◌, length, IfOk, OnErr};
ghost use Rattle.std.specs.List.{All};
ghost use Rattle.std.specs.List.Sorted.{IsStrictlySortedBy};
ghost use Rattle.std.specs.Ordering.{nat_cmp};

use std::alloc::Global;
use std::collections::BTreeSet;
use std::marker::Model;
use sw_outside::NoMemory;

/// Suffixes in ascending order, each once and below 4,096. Contracts see the list of them.
#[derive(Debug, Drop)]
pub struct SuffixList {
    vec: Vec<u16>,
}

impl Model for SuffixList {
    ghost use Rattle.std.specs.Prelude.{ℕ, List};
    ghost use Rattle.sw_replica_server.specs.Suffixes.{AreInOrder};

    ghost Value = { List ℕ };

    ghost view = { λ l. l.vec.items };

    ghost invariant = { λ l. AreInOrder l.vec.items };
}

impl SuffixList {
    pub fn as_slice(&self) -> &[u16]
        ensures value { result.now ≡ self.now }
        ensures ascending { IsStrictlySortedBy nat_cmp self.now }
        ensures below { All (λ suffix. suffix < 4096) self.now }
    {
        &self.vec
    }

    /// The suffixes of a set, each of them below 4,096.
    pub(crate) fn of_set(alloc: Global, set: BTreeSet<u16>) -> Result<SuffixList, NoMemory>
        requires { All (λ suffix. suffix < 4096) set.keys }
        ensures same { IfOk result (λ list. list ≡ set.keys) }
        ensures ascending { IfOk result (IsStrictlySortedBy nat_cmp) }
        ensures for_some { OnErr result (0 < length set.keys) }
    {
        let mut vec = Vec::with_capacity(alloc, set.len())?;
        for suffix in set {
            vec.push(suffix)?;
        }
        Ok(SuffixList { vec })
    }
}
