ghost use Rattle.std.specs.Prelude.{◌≡◌, ℕ, ◌*◌, ◌^◌, ◌<◌, ◌≤◌, false, true, List, length, All, Some, IfOk, IfErr, OnOk, OnErr};
ghost use Rattle.std.specs.List.{slice_get};
ghost use Rattle.sw_container_db.specs.ContDirs.{ContKept};
ghost use Rattle.sw_container_locks.specs.Slots.{AreLocks};
ghost use Rattle.sw_container_locks.specs.declared.cont_slot.ContSlot.TheVariants as cont_slots;
ghost use Rattle.sw_core.specs.Stopping.{gap_first, gap_past};
ghost use Rattle.sw_core.specs.Worlds.{AreContainers, IsWorld, SlotTellsOn, opened};
ghost use Rattle.sw_core.specs.declared.slot.Slot.TheVariants as slots;
ghost use Rattle.sw_objdir.specs.Directories.{Kept};
ghost use Rattle.sw_stores.specs.Places.{at_place};
ghost use Rattle.sw_stores.specs.Starting.{AreStarted};
ghost use Rattle.sw_volume.specs.Volume.{raised_by};
ghost use Rattle.sw_cluster.specs.Ending.{AreUnstarted, start_status};
ghost use Rattle.sw_nodes.specs.Nodes.{out_but, places_at, places_of};
ghost use Rattle.sw_cluster.specs.Told.{counts};

use crate::status::{NO_MEMORY, STORE_FAULT};
use std::alloc::Global;
use sw_core::World;
use sw_outside::StoreError;
use sw_ring::Ring;
use sw_stores::Stores;
use sw_stores::ranges::{give_around, give_range, start_range};

/// Opens the nodes of a ring over the volumes and keepers of all its locks, which the stores start, those of a lock by one call. Where that can't be
/// done, those that were started rest in the stores again. The bodies in the journal of an object lock have at most `max_bytes` together.
pub fn open_nodes<S: Stores>(
    alloc: Global,
    ring: &Ring,
    max_bytes: u64,
    stores: &mut S,
) -> Result<World<S::V, S::K>, StoreError>
    requires home { (d s : ℕ) → S.out stores.old d s ≡ false }
    ensures begun { IfOk result (λ world. (parts : List (S.V × S.K)) × AreStarted S.first (S.rests stores.old) (2 ^ ring.now.lock_bits) 0 parts
        × (length parts ≡ length ring.now.devices * 2 ^ ring.now.lock_bits) × (world ≡ opened max_bytes ring.now parts)) }
    ensures out { OnOk result ((d s : ℕ) → S.out stores.new d s ≡ places_of ring.now d s) }
    ensures calls { OnOk result (S.calls stores.new ≡ raised_by (length ring.now.devices * 2 ^ ring.now.lock_bits) (S.calls stores.old)) }
    ensures kept { OnOk result (S.faults stores.new ≡ S.faults stores.old) }
    ensures home { OnErr result ((d s : ℕ) → S.out stores.new d s ≡ false) }
    ensures unstarted { IfErr result (λ error. AreUnstarted S.first ring.now (S.rests stores.old) (S.rests stores.new)
        (counts S.calls S.faults stores.old) (counts S.calls S.faults stores.new) (start_status error)) }
{
    let stripes = ring.stripes();
    let count = ring.devices.as_slice().len() * usize::from(stripes);
    let parts = match start_range(alloc, stores, stripes, 0, count) {
        Ok(parts) => parts,
        Err(error) => return Err(error),
    };
    match World::open(alloc, ring, max_bytes, parts) {
        Ok(world) => Ok(world),
        Err(parts) => {
            give_range(stores, stripes, 0, parts);
            Err(StoreError::NoMemory)
        }
    }
}

/// The status of a command whose volumes and keepers couldn't be started.
pub fn status_of_start(error: StoreError) -> u8
    ensures { result ≡ start_status error }
{
    match error {
        StoreError::Failed => STORE_FAULT,
        StoreError::NoMemory => NO_MEMORY,
    }
}

/// Gives the volumes and keepers of all nodes back to the stores, but those of a device that is out, which rest there.
pub fn give_back<S: Stores>(ring: &Ring, world: World<S::V, S::K>, stores: &mut S)
    requires devices { world.devices ≡ length ring.now.devices }
    requires lock_bits { world.lock_bits ≡ ring.now.lock_bits }
    requires lifted { (device : ℕ) → world.lifted ≡ Some device → device < length ring.now.devices }
    requires out { (d s : ℕ) → S.out stores.old d s ≡ out_but ring.now world.lifted d s }
    ensures world { IsWorld world }
    ensures home { (d s : ℕ) → S.out stores.new d s ≡ false }
    ensures rests { (l : ℕ) (k : Kept S.V) (c : ContKept S.K) → slice_get world.slots l ≡ Some (slots.Open k)
        → slice_get world.containers l ≡ Some (cont_slots.Open c)
        → at_place (S.rests stores.new) (2 ^ ring.now.lock_bits) l ≡ Some (k.volume, c.keeper) }
    ensures others { (device : ℕ) → world.lifted ≡ Some device → (d s : ℕ) → places_at ring.now device d s ≡ true
        → S.rests stores.new d s ≡ S.rests stores.old d s }
    ensures told { All (SlotTellsOn S.V.tells S.V.holds S.V.faults) world.slots }
    ensures containers { AreContainers world.devices world.lock_bits world.lifted world.containers }
    ensures locks { AreLocks S.K.tells world.containers }
    ensures faults { S.faults stores.new ≡ S.faults stores.old }
    ensures calls { S.calls stores.new ≡ S.calls stores.old }
{
    let stripes = ring.stripes();
    let count = ring.devices.as_slice().len() * usize::from(stripes);
    let (first, past) = gap_of(world.lifted(), stripes);
    give_around(stores, stripes, first, past, count, world.stop());
}

/// Where the locks of a device that is out begin and end, among those of all devices.
fn gap_of(lifted: Option<u8>, stripes: u8) -> (usize, usize)
    requires { stripes ≤ 16 }
    ensures { (bits : ℕ) → stripes ≡ 2 ^ bits → (result.0 ≡ gap_first bits lifted) × (result.1 ≡ gap_past bits lifted) }
{
    match lifted {
        Some(device) => {
            let first = usize::from(device) * usize::from(stripes);
            (first, first + usize::from(stripes))
        }
        None => (0, 0),
    }
}
