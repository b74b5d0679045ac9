use crate::shared_door::SharedDoor;
use std::alloc::Global;
use std::sync::Wait;
use sw_object_steps::DirFault;
use sw_peer::{Link, Lost, PendingDoor};
use sw_pending::Filed;
use sw_rows::Row;
use sw_volume::Volume;

impl<'a, V: Volume + Drop, R: Wait> PendingDoor for SharedDoor<'a, V, R> {
    fn records(
        &mut self,
        alloc: Global,
        link: Link,
        device: u8,
        stripe: u8,
    ) -> Result<Result<Vec<Filed>, DirFault>, Lost> {
        let records = self.records_at(alloc, device, stripe);
        Ok(records)
    }

    fn base_for(
        &mut self,
        alloc: Global,
        link: Link,
        device: u8,
        filed: &Filed,
    ) -> Result<Result<Option<Row>, DirFault>, Lost> {
        let row = self.base_at(alloc, device, filed);
        Ok(row)
    }
}
