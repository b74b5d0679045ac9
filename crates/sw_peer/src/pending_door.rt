ghost use Rattle.std.specs.Prelude.{◌≡◌, ◌<◌, ◌^◌, true};
ghost use Rattle.sw_peer.specs.Sights.{Calls, IsBaseRead, IsRecordsRead, Sight};

use crate::door::ReplicaDoor;
use crate::link::{Link, Lost};
use std::alloc::Global;
use sw_object_steps::DirFault;
use sw_pending::Filed;
use sw_rows::Row;

/// Object nodes that also answer what the records of updates ask for. A record is marked and dropped by a change like the others.
pub trait PendingDoor: ReplicaDoor {
    /// The records that are filed under the hashes of a stripe, which is one of the 2 to the `lock_bits` locks of the device, in order of folder and name.
    fn records(
        &mut self,
        alloc: Global,
        link: Link,
        device: u8,
        stripe: u8,
    ) -> Result<Result<Vec<Filed>, DirFault>, Lost>
        requires device { device < (Self.sight self.old).nodes.devices }
        requires stripe { stripe < 2 ^ (Self.sight self.old).nodes.lock_bits }
        ensures read { Calls (IsRecordsRead link device stripe) (Self.sight self.old) link result (Self.sight self.new) }
        ensures asks { (Self.sight self.new).asks ≡ (Self.sight self.old).asks };

    /// The row that tells what stands under the name of a record: `None` exactly where nothing stands there that is as late as the record.
    fn base_for(
        &mut self,
        alloc: Global,
        link: Link,
        device: u8,
        filed: &Filed,
    ) -> Result<Result<Option<Row>, DirFault>, Lost>
        requires device { device < (Self.sight self.old).nodes.devices }
        requires fits { (Self.sight self.old).nodes.fits filed.now.name ≡ true }
        ensures read { Calls (IsBaseRead link device filed.now) (Self.sight self.old) link result (Self.sight self.new) }
        ensures asks { (Self.sight self.new).asks ≡ (Self.sight self.old).asks };
}
