ghost use Rattle.std.specs.Prelude.{◌≡◌, ◌*◌, ◌<◌, ◌≤◌, ◌^◌, [], length, All, IfOk, IfErr, OnErr, None, Some};
ghost use Rattle.sw_container_locks.specs.Slots.{AreLocks};
ghost use Rattle.sw_core.specs.Stopping.{Gives};
ghost use Rattle.sw_core.specs.Worlds.{IsWorld, Lifts, SlotTellsOn, keeper_seen, opened, parts_of, without_lines};
ghost use Rattle.sw_quiet.specs.Quiet.{SetsDownQuietly};

mod containers;
mod door;
mod pending;

use std::alloc::Global;
use std::marker::Model;
use sw_core::World;
use sw_keeper::Keeper;
use sw_outside::NoMemory;
use sw_ring::Ring;
use sw_stores::Parts;
use sw_volume::Volume;

/// All nodes of a ring, which nobody else changes, as a door that keeps no trail.
#[derive(Drop)]
pub struct QuietWorld<V: Volume + Drop, K: Keeper + Drop> {
    /// It has no lines, but while a call is made.
    world: World<V, K>,
}

impl<V: Volume + Drop, K: Keeper + Drop> Model for QuietWorld<V, K> {
    ghost use Rattle.std.specs.Prelude.{◌≡◌, []};
    ghost use Rattle.sw_core.specs.Worlds.{AllNodes};

    ghost Value = { AllNodes V K };

    ghost view = { λ q. q.world };

    ghost invariant = { λ q. q.world.lines ≡ [] };
}

impl<V: Volume + Drop, K: Keeper + Drop> QuietWorld<V, K> {
    /// The nodes of a ring over these volumes and keepers: those of the first device, one of each a stripe, then those of the next. Each lock begins with
    /// what its volume's files stand for, or with the tables that its keeper has. The bodies in the journal of an object lock have at most `max_bytes`
    /// together. Where memory runs out all come back.
    pub fn open(
        alloc: Global,
        ring: &Ring,
        max_bytes: u64,
        parts: Parts<V, K>,
    ) -> Result<QuietWorld<V, K>, Parts<V, K>>
        requires parts { length parts ≡ length ring.now.devices * 2 ^ ring.now.lock_bits }
        ensures opens { IfOk result (λ w. w ≡ opened max_bytes ring.now parts) }
        ensures back { IfErr result (λ p. p ≡ parts) }
    {
        let world = World::open(alloc, ring, max_bytes, parts)?;
        Ok(QuietWorld { world })
    }

    /// Ends all nodes, and gives their volumes and keepers back, in the order in which they were given; those of a device that is out are not among
    /// them. It takes no memory.
    pub fn stop(self) -> Parts<V, K>
        ensures all { result ≡ parts_of self }
        ensures gives { Gives self.lifted self result }
        ensures world { IsWorld self }
        ensures told { All (SlotTellsOn V.tells V.holds V.faults) self.slots }
        ensures locks { AreLocks K.tells self.containers }
    {
        let QuietWorld { world } = self;
        world.stop()
    }

    /// These nodes, which keep no trail from now on: the lines that they have are let go.
    pub fn over(alloc: Global, world: World<V, K>) -> QuietWorld<V, K>
        ensures { result ≡ without_lines world }
    {
        let mut world = world;
        let _ = world.take_trail(alloc);
        QuietWorld { world }
    }

    /// The nodes, which may keep a trail from now on. It takes no memory.
    pub fn into_world(self) -> World<V, K>
        ensures { result ≡ self }
    {
        self.world
    }

    /// Takes the volumes and the keepers of a device out, one of each a stripe. Until it is set down again no step can be made.
    pub fn lift(&mut self, alloc: Global, device: u8) -> Result<Parts<V, K>, NoMemory>
        requires device { device < self.old.devices }
        requires whole { self.old.lifted ≡ None }
        ensures ok { IfOk result (λ parts. Lifts V.tells V.holds V.faults (keeper_seen K.tells K.holds K.faults) self.old device parts self.new) }
        ensures err { OnErr result (self.new ≡ self.old) }
    {
        self.world.lift(alloc, device)
    }

    /// Sets the lifted device down over these volumes and keepers, one of each a stripe: the journal of each of its locks begins anew with what its
    /// volume's files stand for, or with the tables that its keeper has. It takes no memory.
    pub fn set_down(&mut self, alloc: Global, device: u8, parts: Parts<V, K>)
        requires lifted { self.old.lifted ≡ Some device }
        requires parts { length parts ≡ 2 ^ self.old.lock_bits }
        ensures { SetsDownQuietly self.old device parts self.new }
    {
        self.world.set_down(alloc, device, parts);
        let _ = self.world.take_trail(alloc);
    }

    /// The device whose volumes and keepers are out.
    pub fn lifted(&self) -> Option<u8>
        ensures value { result ≡ self.now.lifted }
        ensures quiet { self.now.lines ≡ [] }
    {
        self.world.lifted()
    }

    /// There are 2 to this power partitions, and so each of them has a hash.
    pub fn power(&self) -> u8
        ensures value { result ≡ self.now.power }
        ensures most { result ≤ 32 }
    {
        self.world.power()
    }
}
