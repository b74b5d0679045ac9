use crate::making::{base_in, records_in};
use crate::slot::Slot;
use crate::world::World;
use std::alloc::Global;
use sw_keeper::Keeper;
use sw_object_steps::DirFault;
use sw_peer::{Link, Lost, PendingDoor};
use sw_pending::Filed;
use sw_rows::Row;
use sw_volume::Volume;

/// A read that wants memory for its line, before it is made, is no step and has no line.
impl<V: Volume + Drop, K: Keeper + Drop> PendingDoor for World<V, K> {
    fn records(
        &mut self,
        alloc: Global,
        link: Link,
        device: u8,
        stripe: u8,
    ) -> Result<Result<Vec<Filed>, DirFault>, Lost> {
        let place = self.lock_of_stripe(device, stripe);
        self.slots[place].may_stand();
        if self.lines.reserve(1).is_err() {
            return Ok(Err(DirFault::NoMemory));
        }
        let (lock_bits, power) = (self.lock_bits, self.power);
        let Slot::Open(dir) = &mut self.slots[place] else {
            unreachable!()
        };
        let (got, line) = records_in(alloc, dir, link, device, lock_bits, power, stripe);
        self.lines.push_reserved(line);
        Ok(got)
    }

    fn base_for(
        &mut self,
        alloc: Global,
        link: Link,
        device: u8,
        filed: &Filed,
    ) -> Result<Result<Option<Row>, DirFault>, Lost> {
        let place = self.lock(device, &filed.name.hash);
        self.slots[place].may_stand();
        if self.lines.reserve(1).is_err() {
            return Ok(Err(DirFault::NoMemory));
        }
        let Slot::Open(dir) = &mut self.slots[place] else {
            unreachable!()
        };
        let (got, line) = base_in(alloc, dir, link, device, filed);
        self.lines.push_reserved(line);
        Ok(got)
    }
}
