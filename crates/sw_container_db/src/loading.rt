ghost use Rattle.std.specs.Prelude.{◌≡◌, ◌≢◌, true, List, ◌++◌, IfErr, OnOk, OnErr};
ghost use Rattle.sw_container_db.specs.Calling.{OfNone, ReadCalled, ReadWants, load_for, raised_by};
ghost use Rattle.sw_container_db.specs.ContDirs.{cont_history_of};
ghost use Rattle.sw_container_db.specs.LoadedList.{trimmed};
ghost use Rattle.sw_container_db.specs.Loading.{Loads};
ghost use Rattle.sw_container_steps.specs.Rules.{cont_ending, cont_rules, look_by};
ghost use Rattle.sw_step.specs.Rules.{CanStand, Fails};
ghost use Rattle.sw_step.specs.Steps.{OnlySettles, Tells};
ghost use Rattle.sw_container_steps.specs.declared.cont_entry.ContEntry.{ContEntry};
ghost use Rattle.sw_hashpath.specs.declared.place.Place.{Place};
ghost use Rattle.sw_history.specs.Halves.{GrowsOf};
ghost use Rattle.sw_keeper.specs.Keeping.{HasCause};
ghost use Rattle.sw_outside.specs.Faults.{HasRisen};

use crate::cont_dir::ContDir;
use std::alloc::Global;
use sw_container_steps::ContAnswer;
use sw_hashpath::Place;
use sw_keeper::{Keeper, KeeperError};

impl<K: Keeper + Drop> ContDir<K> {
    /// Settles the doubt where there is one, and then loads the tables of the place where they aren't loaded. No tables change.
    pub(crate) fn ready(&mut self, alloc: Global, place: &Place) -> Result<(), ContAnswer>
        ensures began { self.new.began ≡ self.old.began }
        ensures told { K.tells self.new.keeper ≡ K.tells self.old.keeper }
        ensures tied { K.tells self.old.keeper ≡ K.tells self.old.began }
        ensures fresh { (added : List ContEntry) → self.new.journal.entries ≡ self.old.journal.entries ++ added → self.new.fresh ≡ self.old.fresh ++ added }
        ensures same { K.tells self.old.keeper ≡ true → (p : Place) → K.holds self.new.keeper p ≡ K.holds self.old.keeper p }
        ensures grows { GrowsOf (cont_history_of K.tells K.holds K.faults self.old) (cont_history_of K.tells K.holds K.faults self.new) }
        ensures settles { OnlySettles cont_rules (λ place. true) (cont_history_of K.tells K.holds K.faults self.old)
            (cont_history_of K.tells K.holds K.faults self.new) }
        ensures fits { K.tells self.new.began ≡ true → (p : Place)
            → CanStand cont_rules (cont_history_of K.tells K.holds K.faults self.new) p (K.holds self.new.keeper p) }
        ensures fault { IfErr result (λ answer. look_by (cont_ending answer) ≢ Tells) }
        ensures cause { IfErr result (λ answer. cont_ending answer ≡ Fails → HasRisen (K.faults self.old.keeper) (K.faults self.new.keeper)) }
        ensures called { ReadCalled K.tells K.holds K.faults K.calls self.old place.now result self.new }
        ensures wanted { ReadWants K.tells K.holds K.faults K.calls OfNone self.old place.now result self.new }
    {
        let looked = self.look(alloc, place);
        self.may_stand();
        looked
    }

    /// The same, of the calls alone.
    fn look(&mut self, alloc: Global, place: &Place) -> Result<(), ContAnswer>
        ensures began { self.new.began ≡ self.old.began }
        ensures told { K.tells self.new.keeper ≡ K.tells self.old.keeper }
        ensures tied { K.tells self.old.keeper ≡ K.tells self.old.began }
        ensures fresh { (added : List ContEntry) → self.new.journal.entries ≡ self.old.journal.entries ++ added → self.new.fresh ≡ self.old.fresh ++ added }
        ensures same { K.tells self.old.keeper ≡ true → (p : Place) → K.holds self.new.keeper p ≡ K.holds self.old.keeper p }
        ensures grows { GrowsOf (cont_history_of K.tells K.holds K.faults self.old) (cont_history_of K.tells K.holds K.faults self.new) }
        ensures settles { OnlySettles cont_rules (λ place. true) (cont_history_of K.tells K.holds K.faults self.old)
            (cont_history_of K.tells K.holds K.faults self.new) }
        ensures fault { IfErr result (λ answer. look_by (cont_ending answer) ≢ Tells) }
        ensures cause { IfErr result (λ answer. cont_ending answer ≡ Fails → HasRisen (K.faults self.old.keeper) (K.faults self.new.keeper)) }
        ensures called { ReadCalled K.tells K.holds K.faults K.calls self.old place.now result self.new }
        ensures wanted { ReadWants K.tells K.holds K.faults K.calls OfNone self.old place.now result self.new }
    {
        match self.settle(alloc) {
            Ok(()) => {}
            Err(KeeperError::Failed) => return Err(ContAnswer::Failed),
            Err(KeeperError::NoMemory) => return Err(ContAnswer::NoMemory),
        }
        match self.load(alloc, place) {
            Ok(()) => Ok(()),
            Err(KeeperError::Failed) => Err(ContAnswer::Failed),
            Err(KeeperError::NoMemory) => Err(ContAnswer::NoMemory),
        }
    }

    /// Loads the tables of the place where they aren't loaded. Those used longest ago go before, until there is room for one more.
    fn load(&mut self, alloc: Global, place: &Place) -> Result<(), KeeperError>
        ensures began { self.new.began ≡ self.old.began }
        ensures journal { self.new.journal ≡ self.old.journal }
        ensures fresh { self.new.fresh ≡ self.old.fresh }
        ensures told { K.tells self.new.keeper ≡ K.tells self.old.keeper }
        ensures same { K.tells self.old.keeper ≡ true → (p : Place) → K.holds self.new.keeper p ≡ K.holds self.old.keeper p }
        ensures loaded { OnOk result (Loads K.tells K.holds self.old place.now self.new) }
        ensures unloaded { OnErr result (self.new.loaded ≡ trimmed 0 self.old.loaded) }
        ensures needed { OnErr result (load_for self.old.loaded place.now ≡ 1) }
        ensures cause { HasCause (K.faults self.old.keeper) (K.faults self.new.keeper) result }
        ensures calls { K.calls self.new.keeper ≡ raised_by (load_for self.old.loaded place.now) (K.calls self.old.keeper) }
    {
        if self.loaded.touch(place) {
            return Ok(());
        }
        self.loaded.leave_room();
        let tables = self.keeper.load(alloc, place)?;
        self.loaded.push(alloc, place, tables)?;
        Ok(())
    }
}
