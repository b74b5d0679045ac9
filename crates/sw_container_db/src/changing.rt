ghost use Rattle.std.specs.Prelude.{◌≡◌, ◌≢◌, ◌+◌, ◌<◌, ◌^◌, true, List, [], ◌∷◌, ◌++◌, Option, length, nat_le, ◌&&◌};
ghost use Rattle.sw_container_db.specs.Calling.{Called, CalledBy, EntersOn, StepWants};
ghost use Rattle.sw_container_db.specs.ContDirs.{cont_history_of};
ghost use Rattle.sw_container_db.specs.LoadedList.{tables_at, IsLast};
ghost use Rattle.sw_container_db.specs.Stepping.{IsStep};
ghost use Rattle.sw_container_steps.specs.Rules.{ChangesContainer};
ghost use Rattle.sw_container_steps.specs.declared.cont_entry.ContEntry.{ContEntry};
ghost use Rattle.sw_container_db.specs.declared.loaded_list.Loaded.{Loaded};
ghost use Rattle.sw_hashpath.specs.declared.place.Place.{Place};
ghost use Rattle.sw_keeper.specs.declared.tables.Tables.{Tables};

use crate::cont_dir::ContDir;
use crate::entering::{enter, make_room};
use crate::sign::Doubt;
use std::alloc::Global;
use sw_container_steps::{
    ContAnswer, ContChange, ContEntry, Decision, batch_of, decide, has_numbers, is_present,
    made_answer, sign_of,
};
use sw_hashpath::Place;
use sw_keeper::{Keeper, KeeperError};
use sw_outside::NoMemory;

impl<K: Keeper + Drop> ContDir<K> {
    /// Makes a step that may change the container.
    ///
    /// It settles the doubt where there is one, and loads the container's tables where they aren't loaded. What stands refuses the step, or the journal
    /// has no room for its entries, or their batch is committed. A step that has nothing to change commits nothing.
    ///
    /// [`ContAnswer::Failed`] comes only where a call of the keeper failed: after a load nothing was done, and after the commit the entries are in
    /// doubt. [`ContAnswer::NoMemory`] leaves all tables as they are, and once the tables were read it comes only of a step that isn't refused and
    /// enters something.
    pub fn change(&mut self, alloc: Global, place: &Place, change: &ContChange) -> ContAnswer
        ensures made { IsStep K.tells K.holds K.faults self.old place.now change.now result self.new }
        ensures called { Called K.tells K.holds K.faults K.calls self.old place.now change.now result self.new }
        ensures wanted { StepWants K.tells K.holds K.faults K.calls self.old place.now change.now result self.new }
    {
        match self.ready(alloc, place) {
            Ok(()) => self.make(alloc, place, change),
            Err(answer) => answer,
        }
    }

    /// The same, with no doubt left and the tables the last that are loaded. Room for the entries is taken before the commit, and the tables are taken
    /// apart only for it.
    fn make(&mut self, alloc: Global, place: &Place, change: &ContChange) -> ContAnswer
        requires doubt { self.old.journal.doubts ≡ [] }
        requires loaded { IsLast place.now self.old.loaded }
        ensures began { self.new.began ≡ self.old.began }
        ensures told { K.tells self.new.keeper ≡ K.tells self.old.keeper }
        ensures fresh { (added : List ContEntry) → self.new.journal.entries ≡ self.old.journal.entries ++ added → self.new.fresh ≡ self.old.fresh ++ added }
        ensures others { K.tells self.old.keeper ≡ true → (p : Place) → p ≢ place.now → K.holds self.new.keeper p ≡ K.holds self.old.keeper p }
        ensures made { ChangesContainer true (cont_history_of K.tells K.holds K.faults self.old) (K.holds self.old.keeper) place.now change.now
            result (cont_history_of K.tells K.holds K.faults self.new) (K.holds self.new.keeper place.now) }
        ensures called { (others : List Loaded) → (read : Option Tables) → self.old.loaded ≡ others ++ tables_at place.now read ∷ []
            → CalledBy K.tells K.holds K.faults K.calls 0 others read self.old place.now change.now result self.new }
        ensures wanted { (others : List Loaded) → (read : Option Tables) → self.old.loaded ≡ others ++ tables_at place.now read ∷ []
            → EntersOn result place.now change.now read }
    {
        let tables = self.loaded.last();
        let entries = match decide(alloc, tables, place, change) {
            Ok(Decision::Refused(answer)) => return answer,
            Ok(Decision::Makes(entries)) => entries,
            Err(NoMemory) => return ContAnswer::NoMemory,
        };
        let batch: Vec<ContEntry> = entries.into();
        let count = count_of(&self.entries);
        let more = count_of(&batch);
        let was_there = is_present(tables);
        if more == 0 {
            return made_answer(was_there, change, count + more);
        }
        if !has_room(count, more, self.max_entries, has_numbers(tables, &batch)) {
            return ContAnswer::JournalFull;
        }
        let sign = sign_of(&batch, tables);
        if make_room(&mut self.entries, &mut self.fresh, batch.len()).is_err() {
            return ContAnswer::NoMemory;
        }
        let tables = self.loaded.take_last();
        let Ok(made) = batch_of(alloc, tables, &batch) else {
            let _ = self.loaded.let_go();
            return ContAnswer::NoMemory;
        };
        match self.keeper.commit(alloc, place, &made.batch) {
            Ok(()) => {
                enter(&mut self.entries, &mut self.fresh, batch);
                self.loaded.put_last(made.tables);
                made_answer(was_there, change, count + more)
            }
            Err(KeeperError::NoMemory) => {
                let _ = self.loaded.let_go();
                ContAnswer::NoMemory
            }
            Err(KeeperError::Failed) => {
                drop(made);
                self.doubt = Some(Doubt {
                    place: self.loaded.let_go(),
                    batch,
                    sign,
                });
                ContAnswer::Failed
            }
        }
    }
}

/// How many entries there are.
fn count_of<T>(entries: &Vec<T>) -> u64
    ensures length { result ≡ length entries.now.items }
    ensures within { result < 2 ^ 63 }
{
    entries.len() as u64
}

/// Whether there is room for so many entries more.
fn has_room(count: u64, more: u64, max_entries: u64, numbers: bool) -> bool
    requires count { count < 2 ^ 63 }
    requires more { more < 2 ^ 63 }
    ensures { result ≡ (nat_le (count + more) max_entries && numbers) }
{
    count + more <= max_entries && numbers
}
