ghost use Rattle.std.specs.Prelude.{◌≡◌, true, [], length};
ghost use Rattle.sw_container_db.specs.ContDirs.{cont_history_of};
ghost use Rattle.sw_container_db.specs.LoadedList.{IsBounded};
ghost use Rattle.sw_container_steps.specs.Rules.{cont_rules};
ghost use Rattle.sw_step.specs.Rules.{CanStand};
ghost use Rattle.sw_hashpath.specs.declared.place.Place.{Place};

use crate::loaded_list::LoadedList;
use crate::sign::Doubt;
use std::alloc::Global;
use std::marker::Model;
use std::mem;
use std::snapshot::Snapshot;
use sw_container_steps::{ContEntry, ContEntryList};
use sw_history::Seen;
use sw_keeper::Keeper;

/// What one container lock holds: a keeper, what was entered since the lock began, and the entries of a step that failed in
/// its commit, if one did and isn't settled.
///
/// Of what was entered only contracts see all. The entries themselves are kept until they are taken. The tables that were
/// used last are kept too, as long as they are what the keeper holds.
#[derive(Drop)]
pub struct ContDir<K: Keeper + Drop> {
    pub(crate) keeper: K,
    opening: Snapshot<K>,
    pub(crate) loaded: LoadedList,
    pub(crate) entries: Vec<Seen<ContEntry>>,
    pub(crate) fresh: Vec<ContEntry>,
    pub(crate) doubt: Option<Doubt>,
    pub(crate) max_entries: u64,
}

impl<K: Keeper + Drop> Model for ContDir<K> {
    ghost use Rattle.sw_container_db.specs.ContDirs.{ContKept, IsContDir, doubts_in};

    ghost Value = { ContKept K };

    ghost view = { λ n. record {
      keeper = n.keeper;
      began = n.opening.value;
      loaded = n.loaded;
      fresh = n.fresh.items;
      journal = record { entries = n.entries.items; doubts = doubts_in n.doubt; max_entries = n.max_entries; max_bytes = 0 };
    } };

    ghost invariant = { λ n. IsContDir K.tells K.holds K.faults (record {
      keeper = n.keeper;
      began = n.opening.value;
      loaded = n.loaded;
      fresh = n.fresh.items;
      journal = record { entries = n.entries.items; doubts = doubts_in n.doubt; max_entries = n.max_entries; max_bytes = 0 };
    }) n.doubt };
}

impl<K: Keeper + Drop> ContDir<K> {
    /// Begins over a keeper, with an empty journal that has room for so many entries. It takes no memory.
    pub fn start(alloc: Global, keeper: K, max_entries: u64) -> ContDir<K>
        ensures keeper { result.keeper ≡ keeper }
        ensures began { result.began ≡ keeper }
        ensures journal { result.journal ≡ record { entries = []; doubts = []; max_entries = max_entries; max_bytes = 0 } }
        ensures fresh { result.fresh ≡ [] }
        ensures loaded { result.loaded ≡ [] }
    {
        ContDir {
            opening: Snapshot::of(&keeper),
            keeper,
            loaded: LoadedList::new(alloc),
            entries: Vec::new(alloc),
            fresh: Vec::new(alloc),
            doubt: None,
            max_entries,
        }
    }

    /// What is held at each place is what the place may stand for. It does nothing: its clause tells it.
    pub fn may_stand(&self)
        ensures { K.tells self.now.began ≡ true → (place : Place)
            → CanStand cont_rules (cont_history_of K.tells K.holds K.faults self.now) place (K.holds self.now.keeper place) }
    {
        let _ = &self.keeper;
    }

    /// The tables of at most 64 containers are loaded, with at most 262,144 rows, or those of one container alone. It does nothing: its clause tells it.
    pub fn stays_bounded(&self)
        ensures { IsBounded self.now.loaded }
    {
        self.loaded.stay_bounded();
    }

    /// The front: how many entries the journal has.
    pub fn front(&self) -> u64
        ensures { result ≡ length self.now.journal.entries }
    {
        self.entries.len() as u64
    }

    /// Takes out what was entered since this was last called, or since the lock began: the entries in order, those of settled doubts too. It takes
    /// no memory.
    pub fn take_fresh(&mut self, alloc: Global) -> ContEntryList
        ensures entries { result ≡ self.old.fresh }
        ensures after { self.new ≡ record self.old { fresh = [] } }
    {
        mem::replace(&mut self.fresh, Vec::new(alloc)).into()
    }

    /// Ends it, and gives the keeper back. Who begins anew on it has every batch that was entered, and the one in doubt whole or not at all. It
    /// takes no memory.
    pub fn into_keeper(self) -> K
        ensures same { result ≡ self.keeper }
        ensures told { K.tells result ≡ K.tells self.began }
        ensures stands { K.tells self.began ≡ true → (place : Place)
            → CanStand cont_rules (cont_history_of K.tells K.holds K.faults self) place (K.holds result place) }
    {
        self.keeper
    }
}
