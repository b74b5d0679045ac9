ghost use Rattle.sw_core.specs.Worlds.{keeper_seen};
ghost use Rattle.sw_quiet.specs.Quiet.{quiet_sight_of};

use crate::quiet_world::QuietWorld;
use std::alloc::Global;
use sw_diskfile::FileName;
use sw_hashpath::Name;
use sw_keeper::Keeper;
use sw_object_steps::{Answer, Change, DirFault, Got, Stored};
use sw_peer::{Door, FaithfulDoor, Link, Lost, ObjectDoor, ReplicaDoor};
use sw_suffix::{DirLine, SuffixHash};
use sw_volume::Volume;

/// All nodes, of which nobody else changes one, with no trail. No message is lost.
impl<V: Volume + Drop, K: Keeper + Drop> Door for QuietWorld<V, K> {
    ghost sight = { quiet_sight_of V.tells V.holds V.faults (keeper_seen K.tells K.holds K.faults) };
}

impl<V: Volume + Drop, K: Keeper + Drop> FaithfulDoor for QuietWorld<V, K> {
    ghost use Rattle.std.specs.Prelude.{refl};

    ghost carries = { λ w. refl };
}

impl<V: Volume + Drop, K: Keeper + Drop> ObjectDoor for QuietWorld<V, K> {
    fn may_stand(&self, device: u8, hash: &[u8; 16]) {
        self.world.may_stand(device, hash)
    }

    fn change(
        &mut self,
        alloc: Global,
        link: Link,
        device: u8,
        name: &Name,
        change: Change,
    ) -> Result<Answer, Lost> {
        let answer = self.world.change(alloc, link, device, name, change);
        let _ = self.world.take_trail(alloc);
        answer
    }

    fn get(&mut self, alloc: Global, link: Link, device: u8, name: &Name) -> Result<Got, Lost> {
        let got = self.world.get(alloc, link, device, name);
        let _ = self.world.take_trail(alloc);
        got
    }
}

impl<V: Volume + Drop, K: Keeper + Drop> ReplicaDoor for QuietWorld<V, K> {
    fn hashes(
        &mut self,
        alloc: Global,
        link: Link,
        device: u8,
        part: u32,
    ) -> Result<Result<Vec<SuffixHash>, DirFault>, Lost> {
        let hashes = self.world.hashes(alloc, link, device, part);
        let _ = self.world.take_trail(alloc);
        hashes
    }

    fn files_of(
        &mut self,
        alloc: Global,
        link: Link,
        device: u8,
        part: u32,
        suffix: u16,
    ) -> Result<Result<Vec<DirLine>, DirFault>, Lost> {
        let files = self.world.files_of(alloc, link, device, part, suffix);
        let _ = self.world.take_trail(alloc);
        files
    }

    fn read_write(
        &mut self,
        alloc: Global,
        link: Link,
        device: u8,
        part: u32,
        hash: &[u8; 16],
        file: &FileName,
    ) -> Result<Result<Option<Stored>, DirFault>, Lost> {
        let stored = self.world.read_write(alloc, link, device, part, hash, file);
        let _ = self.world.take_trail(alloc);
        stored
    }
}
