ghost use Rattle.std.specs.Prelude.{◌≡◌, ◌<◌, ◌^◌, true};
ghost use Rattle.sw_lossy.specs.Losses.{Happens, around, fate_of, faults_after, messages_after};
ghost use Rattle.sw_peer.specs.Sights.{Calls, IsBaseRead, IsRecordsRead};

use crate::acts::Fate;
use crate::lossy::Lossy;
use std::alloc::Global;
use sw_object_steps::DirFault;
use sw_peer::{FaithfulDoor, Link, Lost, PendingDoor};
use sw_pending::Filed;
use sw_rows::Row;

impl<D: PendingDoor + FaithfulDoor + Drop> PendingDoor for Lossy<D> {
    fn records(
        &mut self,
        alloc: Global,
        link: Link,
        device: u8,
        stripe: u8,
    ) -> Result<Result<Vec<Filed>, DirFault>, Lost>
        requires device { device < (D.sight self.old.door).nodes.devices }
        requires stripe { stripe < 2 ^ (D.sight self.old.door).nodes.lock_bits }
        ensures read { Calls (IsRecordsRead link device stripe) (around (D.sight self.old.door) self.old.acts self.old.messages self.old.faults self.old.asks)
            link result (around (D.sight self.new.door) self.new.acts self.new.messages self.new.faults self.new.asks) }
        ensures asks { self.new.asks ≡ self.old.asks }
        ensures inside { (D.sight self.new.door).asks ≡ (D.sight self.old.door).asks }
        ensures happens { Happens D.sight (IsRecordsRead link device stripe) link (fate_of self.old.acts link self.old.messages) self.old.door result
            self.new.door }
        ensures acts { self.new.acts ≡ self.old.acts }
        ensures messages { self.new.messages ≡ messages_after link self.old.messages }
        ensures faults { self.new.faults ≡ faults_after (fate_of self.old.acts link self.old.messages) self.old.faults }
    {
        match self.next(link) {
            Fate::Goes => self.door.records(alloc, link, device, stripe),
            Fate::IsLost => Err(Lost),
            Fate::LosesReply => {
                let _ = self.door.records(alloc, link, device, stripe);
                Err(Lost)
            }
            Fate::ComesTwice => {
                let _ = self.door.records(alloc, link, device, stripe);
                self.door.records(alloc, link, device, stripe)
            }
        }
    }

    fn base_for(
        &mut self,
        alloc: Global,
        link: Link,
        device: u8,
        filed: &Filed,
    ) -> Result<Result<Option<Row>, DirFault>, Lost>
        requires device { device < (D.sight self.old.door).nodes.devices }
        requires fits { (D.sight self.old.door).nodes.fits filed.now.name ≡ true }
        ensures read { Calls (IsBaseRead link device filed.now) (around (D.sight self.old.door) self.old.acts self.old.messages self.old.faults self.old.asks)
            link result (around (D.sight self.new.door) self.new.acts self.new.messages self.new.faults self.new.asks) }
        ensures asks { self.new.asks ≡ self.old.asks }
        ensures inside { (D.sight self.new.door).asks ≡ (D.sight self.old.door).asks }
        ensures happens { Happens D.sight (IsBaseRead link device filed.now) link (fate_of self.old.acts link self.old.messages) self.old.door result
            self.new.door }
        ensures acts { self.new.acts ≡ self.old.acts }
        ensures messages { self.new.messages ≡ messages_after link self.old.messages }
        ensures faults { self.new.faults ≡ faults_after (fate_of self.old.acts link self.old.messages) self.old.faults }
    {
        match self.next(link) {
            Fate::Goes => self.door.base_for(alloc, link, device, filed),
            Fate::IsLost => Err(Lost),
            Fate::LosesReply => {
                let _ = self.door.base_for(alloc, link, device, filed);
                Err(Lost)
            }
            Fate::ComesTwice => {
                let _ = self.door.base_for(alloc, link, device, filed);
                self.door.base_for(alloc, link, device, filed)
            }
        }
    }
}
