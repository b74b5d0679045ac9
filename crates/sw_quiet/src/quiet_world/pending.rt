use crate::quiet_world::QuietWorld;
use std::alloc::Global;
use sw_keeper::Keeper;
use sw_object_steps::DirFault;
use sw_peer::{Link, Lost, PendingDoor};
use sw_pending::Filed;
use sw_rows::Row;
use sw_volume::Volume;

impl<V: Volume + Drop, K: Keeper + Drop> PendingDoor for QuietWorld<V, K> {
    fn records(
        &mut self,
        alloc: Global,
        link: Link,
        device: u8,
        stripe: u8,
    ) -> Result<Result<Vec<Filed>, DirFault>, Lost> {
        let records = self.world.records(alloc, link, device, stripe);
        let _ = self.world.take_trail(alloc);
        records
    }

    fn base_for(
        &mut self,
        alloc: Global,
        link: Link,
        device: u8,
        filed: &Filed,
    ) -> Result<Result<Option<Row>, DirFault>, Lost> {
        let row = self.world.base_for(alloc, link, device, filed);
        let _ = self.world.take_trail(alloc);
        row
    }
}
