ghost use Rattle.std.specs.Prelude.{◌≡◌, ◌≢◌, ◌↔◌, ℕ, ◌+◌, ◌<◌, ◌≤◌, [], length, IsTrue, IfOk, IfErr, OnErr};
ghost use Rattle.sw_container_locks.specs.Halves.{MayStand};
ghost use Rattle.sw_container_locks.specs.Slots.{AreLocks, AreSetDown, IsOpen, Lifts, keepers_of, opened};

use crate::cont_slot::ContSlot;
use crate::slots::{is_open_slot, keepers_in, lift_slots, open_slots, set_down_slots};
use std::alloc::Global;
use std::marker::Model;
use sw_keeper::Keeper;
use sw_outside::NoMemory;

/// The container locks of all devices, each with a keeper of its own. Contracts see the list of them.
#[derive(Drop)]
pub struct ContLocks<K: Keeper + Drop> {
    pub(crate) slots: Vec<ContSlot<K>>,
    /// Empty, with room for all keepers, so that giving them back takes no memory.
    room: Vec<K>,
}

impl<K: Keeper + Drop> Model for ContLocks<K> {
    ghost use Rattle.std.specs.Prelude.{List};
    ghost use Rattle.sw_container_locks.specs.Slots.{AreLocks, HasRoom};
    ghost use Rattle.sw_container_locks.specs.declared.cont_slot.ContSlot.{ContSlot};

    ghost Value = { List (ContSlot K) };

    ghost view = { λ l. l.slots.items };

    ghost invariant = { λ l. AreLocks K.tells l.slots.items × HasRoom l.slots.items l.room };
}

impl<K: Keeper + Drop> ContLocks<K> {
    /// The locks over these keepers, in their order. The journal of each begins. Where memory runs out the keepers come back; where there are none it
    /// doesn't.
    pub fn open(alloc: Global, keepers: Vec<K>) -> Result<ContLocks<K>, Vec<K>>
        ensures opens { IfOk result (λ locks. locks ≡ opened keepers.items) }
        ensures back { IfErr result (λ given. given ≡ keepers) }
        ensures some { OnErr result (keepers.items ≢ []) }
    {
        let Ok(room) = Vec::with_capacity(alloc, keepers.len()) else {
            return Err(keepers);
        };
        let Ok(slots) = Vec::with_capacity(alloc, keepers.len()) else {
            return Err(keepers);
        };
        Ok(ContLocks {
            slots: open_slots(alloc, keepers, slots),
            room,
        })
    }

    /// Whether there is such a lock and its keeper isn't out, so that steps can be made there.
    pub fn is_open(&self, lock: usize) -> bool
        ensures { IsTrue result ↔ IsOpen self.now lock }
    {
        lock < self.slots.len() && is_open_slot(&self.slots[lock])
    }

    /// What is held under this lock is, at each place, what the place may stand for. It does nothing: its clause tells it.
    pub fn may_stand(&self, lock: usize)
        requires is_open { IsOpen self.now lock }
        ensures { MayStand K.tells K.holds K.faults self.now lock }
    {
        let ContSlot::Open(dir) = &self.slots[lock] else {
            unreachable!()
        };
        dir.may_stand();
    }

    /// Ends all locks, and gives their keepers back, in the order of the locks; those that are out are not among them. It takes no memory.
    pub fn stop(self) -> Vec<K>
        ensures all { result.items ≡ keepers_of self }
        ensures locks { AreLocks K.tells self }
    {
        keepers_in(self.slots, self.room)
    }

    /// Takes the locks from `first` on, up to `past`, out, and gives their keepers. Until they are set down again no step can be made there. Memory is
    /// wanted only where there are any.
    pub fn lift(&mut self, alloc: Global, first: usize, past: usize) -> Result<Vec<K>, NoMemory>
        requires order { first ≤ past }
        requires within { past ≤ length self.old }
        requires are_open { (l : ℕ) → first ≤ l → l < past → IsOpen self.old l }
        ensures ok { IfOk result (λ keepers. Lifts K.tells first past self.old self.new keepers.items) }
        ensures err { OnErr result (self.new ≡ self.old) }
        ensures starved { OnErr result (first < past) }
    {
        let mut keepers = Vec::with_capacity(alloc, past - first)?;
        lift_slots(&mut self.slots, first, past, &mut keepers);
        Ok(keepers)
    }

    /// Puts keepers in from the lock `first` on: each lock that is out begins anew over its keeper, with an empty journal. A lock that isn't out stays
    /// as it is, and its keeper is let go. It takes no memory.
    pub fn set_down(&mut self, alloc: Global, first: usize, keepers: Vec<K>)
        requires within { first + length keepers.items ≤ length self.old }
        ensures { AreSetDown first keepers.items self.old self.new }
    {
        set_down_slots(alloc, &mut self.slots, first, keepers);
    }
}
