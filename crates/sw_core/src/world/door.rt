ghost use Rattle.std.specs.Prelude.{◌≡◌, ◌<◌, Some, true};
ghost use Rattle.std.specs.List.{slice_get};
ghost use Rattle.sw_core.specs.Worlds.{keeper_seen, sight_of};
ghost use Rattle.sw_peer.specs.Sights.{asked};

use crate::making::{change_in, doubted_in, files_in, get_in, hashes_in, write_in};
use crate::slot::Slot;
use crate::world::World;
use std::alloc::Global;
use sw_diskfile::FileName;
use sw_hashpath::Name;
use sw_keeper::Keeper;
use sw_object_steps::{Answer, Change, DirFault, Got, Stored};
use sw_peer::{Door, FaithfulDoor, Link, Lost, ObjectDoor, ReplicaDoor};
use sw_suffix::{DirLine, SuffixHash};
use sw_volume::Volume;

/// All nodes, of which nobody else changes one. No message is lost. A step that wants memory for its line, before it is made, is no step
/// and has no line: each hash holds what it may stand for, as before.
impl<V: Volume + Drop, K: Keeper + Drop> Door for World<V, K> {
    ghost sight = { sight_of V.tells V.holds V.faults (keeper_seen K.tells K.holds K.faults) };
}

impl<V: Volume + Drop, K: Keeper + Drop> FaithfulDoor for World<V, K> {
    ghost use Rattle.std.specs.Prelude.{refl};

    ghost carries = { λ w. refl };
}

impl<V: Volume + Drop, K: Keeper + Drop> ObjectDoor for World<V, K> {
    fn may_stand(&self, device: u8, hash: &[u8; 16]) {
        let place = self.lock(device, hash);
        self.slots[place].may_stand();
    }

    fn change(
        &mut self,
        alloc: Global,
        link: Link,
        device: u8,
        name: &Name,
        change: Change,
    ) -> Result<Answer, Lost> {
        let place = self.lock(device, &name.hash);
        self.slots[place].may_stand();
        if self.lines.reserve(1).is_err() {
            return Ok(Answer::NoMemory);
        }
        let Ok(line_name) = name.copy(alloc) else {
            return Ok(Answer::NoMemory);
        };
        let Slot::Open(dir) = &mut self.slots[place] else {
            unreachable!()
        };
        let (answer, line) = change_in(alloc, dir, link, device, name, line_name, change);
        self.lines.push_reserved(line);
        Ok(answer)
    }

    fn get(&mut self, alloc: Global, link: Link, device: u8, name: &Name) -> Result<Got, Lost> {
        let place = self.lock(device, &name.hash);
        self.slots[place].may_stand();
        if self.lines.reserve(1).is_err() {
            return Ok(Got::NoMemory);
        }
        let Ok(doubted) = doubted_in(alloc, &self.slots[place], &name.hash) else {
            return Ok(Got::NoMemory);
        };
        let Slot::Open(dir) = &mut self.slots[place] else {
            unreachable!()
        };
        let (got, line) = get_in(alloc, dir, link, device, name, doubted);
        self.lines.push_reserved(line);
        Ok(got)
    }
}

impl<V: Volume + Drop, K: Keeper + Drop> ReplicaDoor for World<V, K> {
    fn hashes(
        &mut self,
        alloc: Global,
        link: Link,
        device: u8,
        part: u32,
    ) -> Result<Result<Vec<SuffixHash>, DirFault>, Lost> {
        let place = self.lock_of_part(device, part);
        self.slots[place].may_stand();
        self.asks = asked_after(link, self.asks);
        if self.lines.reserve(1).is_err() {
            return Ok(Err(DirFault::NoMemory));
        }
        let Slot::Open(dir) = &mut self.slots[place] else {
            unreachable!()
        };
        let (got, line) = hashes_in(alloc, dir, link, device, part);
        self.lines.push_reserved(line);
        Ok(got)
    }

    fn files_of(
        &mut self,
        alloc: Global,
        link: Link,
        device: u8,
        part: u32,
        suffix: u16,
    ) -> Result<Result<Vec<DirLine>, DirFault>, Lost> {
        let place = self.lock_of_part(device, part);
        self.slots[place].may_stand();
        self.asks = asked_after(link, self.asks);
        if self.lines.reserve(1).is_err() {
            return Ok(Err(DirFault::NoMemory));
        }
        let Slot::Open(dir) = &mut self.slots[place] else {
            unreachable!()
        };
        let (got, line) = files_in(alloc, dir, link, device, part, suffix);
        self.lines.push_reserved(line);
        Ok(got)
    }

    fn read_write(
        &mut self,
        alloc: Global,
        link: Link,
        device: u8,
        part: u32,
        hash: &[u8; 16],
        file: &FileName,
    ) -> Result<Result<Option<Stored>, DirFault>, Lost> {
        let place = self.lock_of_part(device, part);
        self.slots[place].may_stand();
        if self.lines.reserve(1).is_err() {
            return Ok(Err(DirFault::NoMemory));
        }
        let Slot::Open(dir) = &mut self.slots[place] else {
            unreachable!()
        };
        let (got, line) = write_in(alloc, dir, link, device, part, hash, file);
        self.lines.push_reserved(line);
        Ok(got)
    }
}

/// The count of messages that ask, after a read that is said so.
fn asked_after(link: Link, asks: u64) -> u64
    ensures { result ≡ asked asks link }
{
    match link {
        Link::Local => asks,
        Link::Sent => asks.saturating_add(1),
    }
}
