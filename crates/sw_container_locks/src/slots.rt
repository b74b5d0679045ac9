//! The keepers of a range of locks, taken out and put in.

ghost use Rattle.std.specs.Prelude.{◌≡◌, ◌≢◌, ℕ, ◌+◌, ◌<◌, ◌≤◌, true, false, [], length, Some, option_to_list};
ghost use Rattle.std.specs.List.{slice_get};
ghost use Rattle.sw_container_db.specs.ContDirs.{ContKept};
ghost use Rattle.sw_container_locks.specs.Slots.{AreLifted, AreSetDown, IsOpen, IsSetDown, begun, keeper_in, keepers_of, opened};
ghost use Rattle.sw_container_locks.specs.declared.cont_slot.ContSlot.TheVariants as slots;

use crate::cont_slot::ContSlot;
use crate::limits::JOURNAL_ENTRIES;
use std::alloc::Global;
use std::mem;
use sw_container_db::ContDir;
use sw_keeper::Keeper;

/// Begins a lock over each keeper, in a list that has room for them.
pub(crate) fn open_slots<K: Keeper + Drop>(
    alloc: Global,
    keepers: Vec<K>,
    room: Vec<ContSlot<K>>,
) -> Vec<ContSlot<K>>
    requires none { room.items ≡ [] }
    requires room { length keepers.items ≤ room.cap }
    ensures { result.items ≡ opened keepers.items }
{
    let mut slots = room;
    for keeper in keepers {
        slots.push_reserved(open_slot(alloc, keeper));
    }
    slots
}

/// A lock that begins over a keeper.
pub(crate) fn open_slot<K: Keeper + Drop>(alloc: Global, keeper: K) -> ContSlot<K>
    ensures { result ≡ slots.Open (begun keeper) }
{
    ContSlot::Open(ContDir::start(alloc, keeper, JOURNAL_ENTRIES))
}

/// Puts keepers in from the lock `first` on: where one is out, the lock begins anew over it.
pub(crate) fn set_down_slots<K: Keeper + Drop>(
    alloc: Global,
    slots: &mut Vec<ContSlot<K>>,
    first: usize,
    keepers: Vec<K>,
)
    requires within { first + length keepers.items ≤ length slots.old.items }
    ensures { AreSetDown first keepers.items slots.old.items slots.new.items }
{
    let mut at = first;
    for keeper in keepers {
        set_down_slot(alloc, &mut slots[at], keeper);
        at += 1;
    }
}

/// Puts a keeper in, where one is out.
fn set_down_slot<K: Keeper + Drop>(alloc: Global, slot: &mut ContSlot<K>, keeper: K)
    ensures { IsSetDown keeper slot.old slot.new }
{
    match mem::replace(slot, ContSlot::Empty) {
        ContSlot::Lifted => *slot = open_slot(alloc, keeper),
        other => *slot = other,
    }
}

/// Whether the keeper of a lock is there.
pub(crate) fn is_open_slot<K: Keeper + Drop>(slot: &ContSlot<K>) -> bool
    ensures there { result ≡ true → (k : ContKept K) × (slot.now ≡ slots.Open k) }
    ensures out { result ≡ false → (k : ContKept K) → slot.now ≢ slots.Open k }
{
    match slot {
        ContSlot::Open(_) => true,
        _ => false,
    }
}

/// Takes the locks from `first` on, up to `past`, out, and adds their keepers to `keepers`, which has room for them.
pub(crate) fn lift_slots<K: Keeper + Drop>(
    slots: &mut Vec<ContSlot<K>>,
    first: usize,
    past: usize,
    keepers: &mut Vec<K>,
)
    requires order { first ≤ past }
    requires within { past ≤ length slots.old.items }
    requires are_open { (l : ℕ) → first ≤ l → l < past → IsOpen slots.old.items l }
    requires none { keepers.old.items ≡ [] }
    requires room { past ≤ first + keepers.old.cap }
    ensures { AreLifted first past slots.old.items slots.new.items keepers.new.items }
{
    for at in first..past {
        keepers.push_reserved(lift_slot(&mut slots[at]));
    }
}

/// Takes a lock out, and gives its keeper.
fn lift_slot<K: Keeper + Drop>(slot: &mut ContSlot<K>) -> K
    requires is_open { (k : ContKept K) × (slot.old ≡ slots.Open k) }
    ensures keeper { (k : ContKept K) → slot.old ≡ slots.Open k → result ≡ k.keeper }
    ensures lifted { slot.new ≡ slots.Lifted }
{
    let ContSlot::Open(dir) = mem::replace(slot, ContSlot::Lifted) else {
        unreachable!()
    };
    dir.into_keeper()
}

/// The keepers that are there, in their order, moved into a list that has room for them.
pub(crate) fn keepers_in<K: Keeper + Drop>(slots: Vec<ContSlot<K>>, room: Vec<K>) -> Vec<K>
    requires none { room.items ≡ [] }
    requires room { length slots.items ≤ room.cap }
    ensures { result.items ≡ keepers_of slots.items }
{
    let mut keepers = room;
    for slot in slots {
        if let Some(keeper) = keeper_at(slot) {
            keepers.push_reserved(keeper);
        }
    }
    keepers
}

/// The keeper of a lock, where it is there.
fn keeper_at<K: Keeper + Drop>(slot: ContSlot<K>) -> Option<K>
    ensures { option_to_list result ≡ keeper_in slot }
{
    match slot {
        ContSlot::Open(dir) => Some(dir.into_keeper()),
        _ => None,
    }
}
