ghost use Rattle.std.specs.Prelude.{◌≡◌, ℕ, ◌≤◌, length};
ghost use Rattle.sw_container_locks.specs.Restarting.{AreRestarted, IsRestarted};
ghost use Rattle.sw_container_locks.specs.Slots.{AreLocks};

use crate::cont_locks::ContLocks;
use crate::cont_slot::ContSlot;
use crate::slots::open_slot;
use std::alloc::Global;
use std::mem;
use sw_keeper::Keeper;

impl<K: Keeper + Drop> ContLocks<K> {
    /// Restarts the locks from `first` on, up to `past`: each that is open begins anew over the keeper that it has, with an empty journal. It takes no
    /// memory.
    pub fn restart(&mut self, alloc: Global, first: usize, past: usize)
        requires order { first ≤ past }
        requires within { past ≤ length self.old }
        ensures { AreRestarted K.tells first past self.old self.new }
    {
        restart_slots(alloc, &mut self.slots, first, past);
    }
}

/// Restarts the locks of these slots from `first` on, up to `past`.
fn restart_slots<K: Keeper + Drop>(
    alloc: Global,
    slots: &mut Vec<ContSlot<K>>,
    first: usize,
    past: usize,
)
    requires order { first ≤ past }
    requires within { past ≤ length slots.old.items }
    requires locks { AreLocks K.tells slots.old.items }
    ensures { AreRestarted K.tells first past slots.old.items slots.new.items }
{
    for at in first..past {
        restart_slot(alloc, &mut slots[at]);
    }
}

/// Restarts the lock of a slot, where it is open.
fn restart_slot<K: Keeper + Drop>(alloc: Global, slot: &mut ContSlot<K>)
    ensures { IsRestarted slot.old slot.new }
{
    match mem::replace(slot, ContSlot::Empty) {
        ContSlot::Open(dir) => *slot = open_slot(alloc, dir.into_keeper()),
        other => *slot = other,
    }
}
