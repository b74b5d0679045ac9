ghost use Rattle.std.specs.Prelude.{◌≡◌, ◌≢◌, true, [], IsSome, IfOk, IfErr, OnOk};
ghost use Rattle.sw_container_db.specs.Calling.{NamesCalled, SameTables};
ghost use Rattle.sw_container_db.specs.ContDirs.{cont_history_of};
ghost use Rattle.sw_container_db.specs.Stepping.{IsSameDir};
ghost use Rattle.sw_container_steps.specs.Rules.{cont_ending, cont_rules, look_by};
ghost use Rattle.sw_step.specs.Rules.{stands};
ghost use Rattle.sw_step.specs.Steps.{OnlySettles, Tells};
ghost use Rattle.sw_keeper.specs.Keeping.{ListsPlaces};
ghost use Rattle.sw_history.specs.Halves.{GrowsOf};

use crate::cont_dir::ContDir;
use std::alloc::Global;
use sw_container_steps::ContAnswer;
use sw_hashpath::Place;
use sw_keeper::{Keeper, KeeperError};

impl<K: Keeper + Drop> ContDir<K> {
    /// The places that are held, deleted containers too, each once, in byte order of account, container and hash. It settles the doubt where there
    /// is one. No tables change.
    pub fn names(&mut self, alloc: Global) -> Result<Vec<Place>, ContAnswer>
        ensures same { IsSameDir K.tells K.holds K.faults self.old self.new }
        ensures tables { SameTables K.tells K.holds K.faults K.calls self.old self.new }
        ensures grows { GrowsOf (cont_history_of K.tells K.holds K.faults self.old) (cont_history_of K.tells K.holds K.faults self.new) }
        ensures settles { OnlySettles cont_rules (λ place. true) (cont_history_of K.tells K.holds K.faults self.old)
            (cont_history_of K.tells K.holds K.faults self.new) }
        ensures settled { OnOk result (self.new.journal.doubts ≡ []) }
        ensures places { IfOk result (λ places. K.tells self.old.began ≡ true
            → ListsPlaces places.items (λ place. IsSome (stands cont_rules (cont_history_of K.tells K.holds K.faults self.new) place))) }
        ensures fault { IfErr result (λ answer. look_by (cont_ending answer) ≢ Tells) }
        ensures called { NamesCalled K.tells K.holds K.faults K.calls self.old result self.new }
    {
        match self.settle(alloc) {
            Ok(()) => {}
            Err(KeeperError::Failed) => return Err(ContAnswer::Failed),
            Err(KeeperError::NoMemory) => return Err(ContAnswer::NoMemory),
        }
        match self.keeper.names(alloc) {
            Ok(places) => Ok(places),
            Err(KeeperError::Failed) => Err(ContAnswer::Failed),
            Err(KeeperError::NoMemory) => Err(ContAnswer::NoMemory),
        }
    }
}
