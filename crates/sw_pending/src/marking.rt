ghost use Rattle.std.specs.Prelude.{◌≡◌, ◌≤◌, false, length, nat_lt, IfOk, OnOk, OnErr};
ghost use Rattle.std.specs.List.{prefix_len};
ghost use Rattle.sw_pending.specs.Rules.{are_done, is_done, with_device};
ghost use Rattle.sw_pending.specs.Records.{marked, new_record};

use crate::filed::{DeviceList, Filed};
use std::alloc::Global;
use sw_hashpath::Name;
use sw_outside::NoMemory;
use sw_timestamp::Timestamp;

impl Filed {
    /// That of a write at this time, which no device has been told of yet, and which is none of the expirer's queue. It takes no memory.
    pub fn new(alloc: Global, name: Name, time: Timestamp) -> Filed
        ensures { result ≡ new_record name time }
    {
        Filed {
            name,
            time,
            queue: false,
            done: DeviceList::new(alloc),
        }
    }

    /// Whether this device has been told.
    pub fn is_done(&self, device: u8) -> bool
        ensures { result ≡ is_done device self.now.done }
    {
        self.done.as_slice().contains(&device)
    }

    /// Whether all these devices have been told.
    pub fn are_done(&self, devices: &[u8]) -> bool
        ensures { result ≡ are_done devices.now self.now.done }
    {
        devices.iter().all(|device| self.is_done(*device))
    }

    /// Notes that this device has been told. One that is noted already takes no memory; after [`NoMemory`] the record is
    /// what it was.
    pub fn mark(&mut self, alloc: Global, device: u8) -> Result<(), NoMemory>
        ensures ok { OnOk result (self.new ≡ marked self.old device) }
        ensures err { OnErr result (self.new ≡ self.old) }
        ensures cause { OnErr result (is_done device self.old.done ≡ false) }
    {
        if self.is_done(device) {
            return Ok(());
        }
        self.done = with_device(alloc, self.done.as_slice(), device)?;
        Ok(())
    }
}

/// The devices with one more, that isn't among them, in its place.
fn with_device(alloc: Global, done: &[u8], device: u8) -> Result<DeviceList, NoMemory>
    requires { is_done device done.now ≡ false }
    ensures { IfOk result (λ list. list ≡ with_device device done.now) }
{
    let mut list = Vec::from_slice(alloc, done)?;
    list.insert(place_of(done, device), device)?;
    Ok(DeviceList::from(list))
}

/// How many devices come before this one.
fn place_of(done: &[u8], device: u8) -> usize
    ensures place { result ≡ prefix_len (λ d. nat_lt d device) done.now }
    ensures bound { result ≤ length done.now }
{
    done.iter().take_while(|other| **other < device).count()
}
