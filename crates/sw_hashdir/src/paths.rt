ghost use Rattle.std.specs.Prelude.{◌≡◌, [], IfOk, OnOk};
ghost use Rattle.std.specs.Cmp.Lexicographic.{slice_cmp};
ghost use Rattle.std.specs.List.Sorted.{IsStrictlySortedBy};
ghost use Rattle.std.specs.Ordering.{nat_cmp};
ghost use Rattle.sw_hashdir.specs.Walks.{Adds};

use std::alloc::Global;
use std::collections::BTreeSet;
use std::marker::Model;
use sw_outside::{Bytes, BytesList, NoMemory};

/// Paths in byte order, each once.
#[derive(Debug, Drop)]
pub struct Paths {
    set: BTreeSet<Vec<u8>>,
}

impl Model for Paths {
    ghost use Rattle.std.specs.Prelude.{ℕ, List, map};

    ghost Value = { List (List ℕ) };

    ghost view = { λ p. map (λ k. k.items) p.set.keys };
}

impl Paths {
    pub fn new(alloc: Global) -> Paths
        ensures { result ≡ [] }
    {
        Paths {
            set: BTreeSet::new(alloc),
        }
    }

    /// Adds a path, where it isn't there yet.
    pub fn add(&mut self, path: Vec<u8>) -> Result<(), NoMemory>
        ensures { OnOk result (Adds self.old self.new (λ p. p ≡ path.items)) }
    {
        self.set.insert(path)?;
        Ok(())
    }

    /// All paths, in byte order.
    pub fn into_list(self, alloc: Global) -> Result<BytesList, NoMemory>
        ensures all { IfOk result (λ list. list ≡ self) }
        ensures ordered { IfOk result (λ list. IsStrictlySortedBy (slice_cmp nat_cmp) list) }
    {
        let Paths { set } = self;
        let mut list = Vec::with_capacity(alloc, set.len())?;
        for path in set {
            list.push(Bytes::from(path))?;
        }
        Ok(list.into())
    }
}
