ghost use Rattle.std.specs.Prelude.{◌≡◌, ◌≢◌, true, false, List, [], ◌++◌, IfOk, OnOk, OnErr};
ghost use Rattle.sw_container_db.specs.Calling.{call_for, loaded_after, raised_by};
ghost use Rattle.sw_container_db.specs.ContDirs.{cont_history_of};
ghost use Rattle.sw_container_steps.specs.Rules.{cont_rules};
ghost use Rattle.sw_step.specs.Steps.{OnlySettles};
ghost use Rattle.sw_container_steps.specs.Laws.{sign_of};
ghost use Rattle.sw_container_steps.specs.declared.cont_entry.ContEntry.{ContEntry};
ghost use Rattle.sw_hashpath.specs.declared.place.Place.{Place};
ghost use Rattle.sw_keeper.specs.Keeping.{HasCause};
ghost use Rattle.sw_outside.specs.Counts.{raised};
ghost use Rattle.sw_history.specs.Halves.{GrowsOf};

use crate::cont_dir::ContDir;
use crate::entering::{enter, make_room};
use crate::sign::{Doubt, is_same_sign};
use std::alloc::Global;
use std::mem;
use sw_container_steps::sign_of;
use sw_keeper::{Keeper, KeeperError};

impl<K: Keeper + Drop> ContDir<K> {
    /// Settles the doubt, where there is one: its entries are entered where they were made, and it goes. Whether they were made is seen by a load, for
    /// which room is made.
    pub(crate) fn settle(&mut self, alloc: Global) -> Result<(), KeeperError>
        ensures began { self.new.began ≡ self.old.began }
        ensures grows { GrowsOf (cont_history_of K.tells K.holds K.faults self.old) (cont_history_of K.tells K.holds K.faults self.new) }
        ensures fresh { (added : List ContEntry) → self.new.journal.entries ≡ self.old.journal.entries ++ added → self.new.fresh ≡ self.old.fresh ++ added }
        ensures settles { OnlySettles cont_rules (λ place. true) (cont_history_of K.tells K.holds K.faults self.old)
            (cont_history_of K.tells K.holds K.faults self.new) }
        ensures same { K.tells self.old.keeper ≡ true → (p : Place) → K.holds self.new.keeper p ≡ K.holds self.old.keeper p }
        ensures told { K.tells self.new.keeper ≡ K.tells self.old.keeper }
        ensures tied { K.tells self.old.keeper ≡ K.tells self.old.began }
        ensures none { OnOk result (self.new.journal.doubts ≡ []) }
        ensures unsettled { OnErr result (self.new.journal ≡ self.old.journal) }
        ensures in_doubt { OnErr result (call_for self.old.journal.doubts ≡ 1) }
        ensures cause { HasCause (K.faults self.old.keeper) (K.faults self.new.keeper) result }
        ensures loaded { self.new.loaded ≡ loaded_after self.old.journal.doubts self.old.loaded }
        ensures calls { K.calls self.new.keeper ≡ raised_by (call_for self.old.journal.doubts) (K.calls self.old.keeper) }
    {
        let Some(doubt) = mem::replace(&mut self.doubt, None) else {
            return Ok(());
        };
        self.loaded.leave_room();
        match was_made(alloc, &mut self.keeper, &doubt) {
            Ok(true) => {
                if make_room(&mut self.entries, &mut self.fresh, doubt.batch.len()).is_err() {
                    self.doubt = Some(doubt);
                    return Err(KeeperError::NoMemory);
                }
                let Doubt { batch, .. } = doubt;
                enter(&mut self.entries, &mut self.fresh, batch);
                Ok(())
            }
            Ok(false) => Ok(()),
            Err(error) => {
                self.doubt = Some(doubt);
                Err(error)
            }
        }
    }
}

/// Whether the entries of a doubt were made: the sign of its tables isn't what it was.
fn was_made<K: Keeper>(alloc: Global, keeper: &mut K, doubt: &Doubt) -> Result<bool, KeeperError>
    ensures made { IfOk result (λ made. K.tells keeper.old ≡ true → made ≡ true
        → sign_of doubt.now.batch.items (K.holds keeper.old doubt.now.place) ≢ doubt.now.sign) }
    ensures unmade { IfOk result (λ made. K.tells keeper.old ≡ true → made ≡ false
        → sign_of doubt.now.batch.items (K.holds keeper.old doubt.now.place) ≡ doubt.now.sign) }
    ensures same { K.tells keeper.old ≡ true → (p : Place) → K.holds keeper.new p ≡ K.holds keeper.old p }
    ensures told { K.tells keeper.new ≡ K.tells keeper.old }
    ensures cause { HasCause (K.faults keeper.old) (K.faults keeper.new) result }
    ensures calls { K.calls keeper.new ≡ raised (K.calls keeper.old) }
{
    let tables = keeper.load(alloc, &doubt.place)?;
    Ok(!is_same_sign(&sign_of(&doubt.batch, &tables), &doubt.sign))
}
