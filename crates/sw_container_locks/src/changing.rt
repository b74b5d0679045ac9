ghost use Rattle.sw_container_locks.specs.Making.{IsChangedAt};
ghost use Rattle.sw_container_locks.specs.Slots.{IsOpen};

use crate::cont_locks::ContLocks;
use crate::cont_slot::ContSlot;
use crate::making::change_in;
use std::alloc::Global;
use sw_container_steps::{ContAnswer, ContChange};
use sw_hashpath::Place;
use sw_keeper::Keeper;
use sw_peer::{KeptLine, Link};

impl<K: Keeper + Drop> ContLocks<K> {
    /// Makes a step that may change the container of the place, at an open lock, and its line. `device` and `link` are what the line tells of where
    /// the step came to, and how. Once the step is made, nothing takes memory.
    pub fn change(
        &mut self,
        alloc: Global,
        lock: usize,
        link: Link,
        device: u8,
        place: &Place,
        change: &ContChange,
    ) -> (ContAnswer, KeptLine)
        requires is_open { IsOpen self.old lock }
        ensures { IsChangedAt K.tells K.holds K.faults K.calls lock link device place.now change.now self.old result.0 self.new result.1 }
    {
        let ContSlot::Open(dir) = &mut self.slots[lock] else {
            unreachable!()
        };
        change_in(alloc, dir, link, device, place, change)
    }
}
