ghost use Rattle.sw_shared.specs.Doors.{shared_sight};

use crate::shared_door::SharedDoor;
use std::alloc::Global;
use std::sync::Wait;
use sw_diskfile::FileName;
use sw_hashpath::Name;
use sw_object_steps::{Answer, Change, DirFault, Got, Stored};
use sw_peer::{Door, FaithfulDoor, Link, Lost, ObjectDoor, ReplicaDoor};
use sw_suffix::{DirLine, SuffixHash};
use sw_volume::Volume;

/// What is known of each lock is what its pass has seen last. No message is lost, and no trail is kept.
impl<'a, V: Volume + Drop, R: Wait> Door for SharedDoor<'a, V, R> {
    ghost sight = { shared_sight V.tells V.holds V.faults };
}

impl<'a, V: Volume + Drop, R: Wait> FaithfulDoor for SharedDoor<'a, V, R> {
    ghost use Rattle.std.specs.Prelude.{refl};

    ghost carries = { λ w. refl };
}

impl<'a, V: Volume + Drop, R: Wait> ObjectDoor for SharedDoor<'a, V, R> {
    fn may_stand(&self, device: u8, hash: &[u8; 16]) {
        self.are_shared()
    }

    fn change(
        &mut self,
        alloc: Global,
        link: Link,
        device: u8,
        name: &Name,
        change: Change,
    ) -> Result<Answer, Lost> {
        let answer = self.change_at(alloc, device, name, change);
        Ok(answer)
    }

    fn get(&mut self, alloc: Global, link: Link, device: u8, name: &Name) -> Result<Got, Lost> {
        let got = self.get_at(alloc, device, name);
        Ok(got)
    }
}

impl<'a, V: Volume + Drop, R: Wait> ReplicaDoor for SharedDoor<'a, V, R> {
    fn hashes(
        &mut self,
        alloc: Global,
        link: Link,
        device: u8,
        part: u32,
    ) -> Result<Result<Vec<SuffixHash>, DirFault>, Lost> {
        let got = self.hashes_at(alloc, device, part);
        self.count(link);
        Ok(got)
    }

    fn files_of(
        &mut self,
        alloc: Global,
        link: Link,
        device: u8,
        part: u32,
        suffix: u16,
    ) -> Result<Result<Vec<DirLine>, DirFault>, Lost> {
        let got = self.files_at(alloc, device, part, suffix);
        self.count(link);
        Ok(got)
    }

    fn read_write(
        &mut self,
        alloc: Global,
        link: Link,
        device: u8,
        part: u32,
        hash: &[u8; 16],
        file: &FileName,
    ) -> Result<Result<Option<Stored>, DirFault>, Lost> {
        let stored = self.write_at(alloc, device, part, hash, file);
        Ok(stored)
    }
}
