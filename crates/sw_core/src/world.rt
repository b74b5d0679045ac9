ghost use Rattle.std.specs.Prelude.{◌≡◌, ◌*◌, ◌<◌, ◌≤◌, ◌^◌, ◌⊎◌, false, [], length, All, Err, IfOk, IfErr, OnErr, None, Some};
ghost use Rattle.sw_container_locks.specs.Slots.{AreLocks};
ghost use Rattle.sw_core.specs.Listing.{AreCalm, ListsFiles, is_failed};
ghost use Rattle.sw_core.specs.Stopping.{Gives};
ghost use Rattle.sw_core.specs.Worlds.{AreContainers, IsWorld, IsSameWorld, Lifts, SetsDown, SlotTellsOn, keeper_seen, lock_of, opened, part_lock_of, parts_of};
ghost use Rattle.sw_core.specs.Worlds.{stripe_lock_of};
ghost use Rattle.sw_core.specs.Worlds.{sight_of, without_lines};
ghost use Rattle.sw_peer.specs.Sights.{IsListed};
ghost use Rattle.sw_volume.specs.declared.errors.VolumeError.TheVariants.{NoMemory as Wanting};

mod containers;
mod door;
mod listing;
mod pending;
mod slots;

use crate::slot::Slot;
use crate::trail::LineList;
use crate::world::listing::files_in;
use crate::world::slots::{
    lift_slots, lifted_slots, line_of_listing, line_of_restart, make_room, open_slots, volumes_in,
};
use std::alloc::Global;
use std::marker::Model;
use std::mem;
use sw_container_locks::ContLocks;
use sw_hashpath::{Secrets, partition};
use sw_keeper::Keeper;
use sw_outside::{BytesList, NoMemory};
use sw_peer::KeptLine;
use sw_ring::Ring;
use sw_stores::Parts;
use sw_volume::{Volume, VolumeError};

/// All nodes of all devices of a ring, which nobody else changes, and the lines of what came to them.
///
/// A device has 2 to the `lock_bits` object locks, each with a volume of its own, and a name belongs to the one of its stripe. Beside each stands a lock
/// of containers, with a keeper of its own.
#[derive(Drop)]
pub struct World<V: Volume + Drop, K: Keeper + Drop> {
    devices: u16,
    lock_bits: u8,
    power: u8,
    secrets: Secrets,
    slots: Vec<Slot<V>>,
    lines: Vec<KeptLine>,
    /// How many bytes the bodies in the journal of an object lock have at most, together.
    max_bytes: u64,
    /// How many messages asked for hashes or files.
    asks: u64,
    lifted: Option<u8>,
    /// One lock of containers beside each slot. Those of a device that is out are lifted, as its slots are.
    containers: ContLocks<K>,
    /// Empty, with room for all volumes, so that giving them back takes no memory.
    room: Vec<V>,
    /// Empty, with room for one line while a device is out, so that setting it down takes none either.
    spare: Vec<KeptLine>,
}

impl<V: Volume + Drop, K: Keeper + Drop> Model for World<V, K> {
    ghost use Rattle.sw_core.specs.Stopping.{Gives};
    ghost use Rattle.sw_core.specs.Worlds.{AllNodes, AreContainers, HasRoom, IsWorld};

    ghost Value = { AllNodes V K };

    ghost view = { λ w. record {
      devices = w.devices;
      lock_bits = w.lock_bits;
      power = w.power;
      secrets = w.secrets;
      slots = w.slots.items;
      lines = w.lines.items;
      max_bytes = w.max_bytes;
      asks = w.asks;
      lifted = w.lifted;
      containers = w.containers;
    } };

    ghost invariant = { λ w. IsWorld (record {
      devices = w.devices;
      lock_bits = w.lock_bits;
      power = w.power;
      secrets = w.secrets;
      slots = w.slots.items;
      lines = w.lines.items;
      max_bytes = w.max_bytes;
      asks = w.asks;
      lifted = w.lifted;
      containers = w.containers;
    })
        × HasRoom w.slots.items w.room w.lines w.spare w.lifted
        × AreContainers w.devices w.lock_bits w.lifted w.containers };
}

impl<V: Volume + Drop, K: Keeper + Drop> World<V, K> {
    /// The nodes of a ring over these volumes and keepers: those of the first device, one of each a stripe, then those of the next. Each lock begins with
    /// what its volume's files stand for, or with the tables that its keeper has. The bodies in the journal of an object lock have at most `max_bytes`
    /// together. Where memory runs out all come back.
    pub fn open(
        alloc: Global,
        ring: &Ring,
        max_bytes: u64,
        parts: Parts<V, K>,
    ) -> Result<World<V, K>, Parts<V, K>>
        requires parts { length parts ≡ length ring.now.devices * 2 ^ ring.now.lock_bits }
        ensures opens { IfOk result (λ w. w ≡ opened max_bytes ring.now parts) }
        ensures back { IfErr result (λ p. p ≡ parts) }
    {
        let count = parts.len();
        let Ok(secrets) = ring.secrets.copy(alloc) else {
            return Err(parts);
        };
        let Ok(room) = Vec::with_capacity(alloc, count) else {
            return Err(parts);
        };
        let Ok(mut slots) = lifted_slots(alloc, &ring.secrets, count) else {
            return Err(parts);
        };
        let (volumes, keepers) = parts.into_lists();
        let containers = match ContLocks::open(alloc, keepers) {
            Ok(containers) => containers,
            Err(keepers) => return Err(Parts::of(volumes, keepers)),
        };
        open_slots(alloc, &mut slots, 0, ring.power, max_bytes, volumes);
        Ok(World {
            devices: ring.devices.as_slice().len() as u16,
            lock_bits: ring.lock_bits,
            power: ring.power,
            secrets,
            slots,
            lines: Vec::new(alloc),
            max_bytes,
            asks: 0,
            lifted: None,
            containers,
            room,
            spare: Vec::new(alloc),
        })
    }

    /// Ends all nodes, and gives their volumes and keepers back, in the order in which they were given; those of a device that is out are not among
    /// them. It takes no memory.
    pub fn stop(self) -> Parts<V, K>
        ensures all { result ≡ parts_of self }
        ensures gives { Gives self.lifted self result }
        ensures world { IsWorld self }
        ensures told { All (SlotTellsOn V.tells V.holds V.faults) self.slots }
        ensures containers { AreContainers self.devices self.lock_bits self.lifted self.containers }
        ensures locks { AreLocks K.tells self.containers }
    {
        Parts::of(volumes_in(self.slots, self.room), self.containers.stop())
    }

    /// The lines of what came since they were last taken.
    pub fn lines(&self) -> &[KeptLine]
        ensures { result.now ≡ self.now.lines }
    {
        &self.lines
    }

    /// Gives the lines kept so far and leaves none. The journals go on. It takes no memory.
    pub fn take_trail(&mut self, alloc: Global) -> LineList
        ensures lines { result ≡ self.old.lines }
        ensures after { self.new ≡ without_lines self.old }
    {
        LineList::from(mem::replace(&mut self.lines, Vec::new(alloc)))
    }

    /// Takes the volumes and the keepers of a device out, one of each a stripe. Until it is set down again no step can be made.
    pub fn lift(&mut self, alloc: Global, device: u8) -> Result<Parts<V, K>, NoMemory>
        requires device { device < self.old.devices }
        requires whole { self.old.lifted ≡ None }
        ensures ok { IfOk result (λ parts. Lifts V.tells V.holds V.faults (keeper_seen K.tells K.holds K.faults) self.old device parts self.new) }
        ensures err { OnErr result (self.new ≡ self.old) }
    {
        let count = stripes(self.lock_bits);
        let first = usize::from(device) * count;
        let spare = Vec::with_capacity(alloc, 1)?;
        let mut volumes = Vec::with_capacity(alloc, count)?;
        self.lines.reserve(1)?;
        let keepers = self.containers.lift(alloc, first, first + count)?;
        lift_slots(&mut self.slots, first, first + count, &mut volumes);
        self.spare = spare;
        self.lifted = Some(device);
        Ok(Parts::of(volumes, keepers))
    }

    /// Sets the lifted device down over these volumes and keepers, one of each a stripe: the journal of each of its locks begins anew with what its
    /// volume's files stand for, or with the tables that its keeper has. It takes no memory.
    pub fn set_down(&mut self, alloc: Global, device: u8, parts: Parts<V, K>)
        requires lifted { self.old.lifted ≡ Some device }
        requires parts { length parts ≡ 2 ^ self.old.lock_bits }
        ensures { SetsDown self.old device parts self.new }
    {
        let (volumes, keepers) = parts.into_lists();
        let count = stripes(self.lock_bits);
        let first = usize::from(device) * count;
        open_slots(
            alloc,
            &mut self.slots,
            first,
            self.power,
            self.max_bytes,
            volumes,
        );
        self.containers.set_down(alloc, first, keepers);
        make_room(alloc, &mut self.lines, &mut self.spare);
        self.lines.push_reserved(line_of_restart(alloc, device));
        self.lifted = None;
    }

    /// The paths of all files below `objects` of a device, in byte order, each once. No journal changes.
    pub fn files(&mut self, alloc: Global, device: u8) -> Result<BytesList, VolumeError>
        requires device { device < self.old.devices }
        requires whole { self.old.lifted ≡ None }
        ensures listed { IsListed device (is_failed result)
            (sight_of V.tells V.holds V.faults (keeper_seen K.tells K.holds K.faults) self.old)
            (sight_of V.tells V.holds V.faults (keeper_seen K.tells K.holds K.faults) self.new)
            ⊎ ((result ≡ Err Wanting) × (self.new ≡ self.old)) }
        ensures paths { IfOk result (ListsFiles V.tells V.holds self.old device) }
        ensures calm { is_failed result ≡ false → AreCalm V.tells V.holds V.faults self.old.slots self.new.slots }
        ensures same { IsSameWorld self.old self.new }
    {
        self.lines.reserve(1)?;
        let count = stripes(self.lock_bits);
        let first = usize::from(device) * count;
        let paths = files_in(alloc, &mut self.slots, first, first + count);
        self.lines
            .push_reserved(line_of_listing(alloc, device, &paths));
        paths
    }

    /// There are 2 to this power partitions, and so each of them has a hash.
    pub fn power(&self) -> u8
        ensures value { result ≡ self.now.power }
        ensures most { result ≤ 32 }
    {
        self.power
    }

    /// The device whose volumes and keepers are out.
    pub fn lifted(&self) -> Option<u8>
        ensures { result ≡ self.now.lifted }
    {
        self.lifted
    }

    /// The place of the lock of a hash at a device.
    pub(crate) fn lock(&self, device: u8, hash: &[u8; 16]) -> usize
        requires { device < self.now.devices }
        ensures lock { result ≡ lock_of self.now.lock_bits self.now.power device hash.now }
        ensures within { result < length self.now.slots }
    {
        self.lock_of_part(device, partition(hash, self.power))
    }

    /// The place of the lock of a partition at a device: its stripe is its first bits.
    pub(crate) fn lock_of_part(&self, device: u8, part: u32) -> usize
        requires device { device < self.now.devices }
        requires part { part < 2 ^ self.now.power }
        ensures lock { result ≡ part_lock_of self.now.lock_bits self.now.power device part }
        ensures within { result < length self.now.slots }
    {
        let stripe = u64::from(part) >> (self.power - self.lock_bits);
        usize::from(device) * stripes(self.lock_bits) + stripe as usize
    }

    /// The place of the lock of a stripe at a device.
    pub(crate) fn lock_of_stripe(&self, device: u8, stripe: u8) -> usize
        requires device { device < self.now.devices }
        requires stripe { stripe < 2 ^ self.now.lock_bits }
        ensures lock { result ≡ stripe_lock_of self.now.lock_bits device stripe }
        ensures within { result < length self.now.slots }
    {
        usize::from(device) * stripes(self.lock_bits) + usize::from(stripe)
    }
}

/// How many locks a device has.
fn stripes(lock_bits: u8) -> usize
    requires { lock_bits ≤ 4 }
    ensures value { result ≡ 2 ^ lock_bits }
    ensures within { result ≤ 16 }
{
    1 << lock_bits
}
