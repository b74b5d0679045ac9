ghost use Rattle.std.specs.Prelude.{◌≡◌, ℕ, ◌^◌, ◌≤◌, ◌<◌, length, false, bytes_eq, slice_index_or, IfSome, IfNone, Contains};
ghost use Rattle.sw_ring.specs.Faults.{has_repeat};
ghost use Rattle.sw_ring.specs.Rows.{AreGood};

use crate::RowTable;
use std::alloc::Global;
use sw_hashpath::Secrets;
use sw_outside::{Bytes, BytesList, NoMemory};

/// Which table of a ring.
#[derive(Clone, Copy, Debug, PartialEq, Eq)]
pub enum Which {
    /// Who keeps the objects of a partition.
    Object,
    /// Who keeps the containers of a partition.
    Container,
}

/// A ring: 1 to 8 devices of distinct names, and two tables that have a row of 1 to 3 distinct devices for each partition.
#[derive(Debug, Drop)]
pub struct Ring {
    /// The names of the devices. Elsewhere a device is its place in this list, counted from 0.
    pub devices: BytesList,
    /// There are 2 to this power partitions: 1 to 16.
    pub power: u8,
    /// A device has 2 to this many locks for objects: 0 to 4, and at most the power.
    pub lock_bits: u8,
    /// How many devices keep a partition: 1 to 3.
    pub replicas: u8,
    pub secrets: Secrets,
    pub object: RowTable,
    pub container: RowTable,
    pub ghost few_devices: { length devices ≤ 8 },
    pub ghost distinct_names: { has_repeat bytes_eq devices ≡ false },
    pub ghost least_power: { 1 ≤ power },
    pub ghost greatest_power: { power ≤ 16 },
    pub ghost few_lock_bits: { lock_bits ≤ 4 },
    pub ghost lock_bits_within_power: { lock_bits ≤ power },
    pub ghost least_replicas: { 1 ≤ replicas },
    pub ghost greatest_replicas: { replicas ≤ 3 },
    pub ghost object_count: { length object ≡ 2 ^ power },
    pub ghost container_count: { length container ≡ 2 ^ power },
    pub ghost object_rows: { AreGood (length devices) replicas object },
    pub ghost container_rows: { AreGood (length devices) replicas container },
}

impl Ring {
    ghost use Rattle.std.specs.Prelude.{◌↔◌, Some, None, IfOk, All, nat_eq, slice_get};
    ghost use Rattle.sw_ring.specs.Tables.{table_of};

    /// The devices that keep a partition, which is below 2 to the part power.
    pub fn row(&self, which: Which, part: u32) -> &[u8]
        requires { part < 2 ^ self.now.power }
        ensures row { slice_get (table_of which self.now) part ≡ Some result.now }
        ensures count { length result.now ≡ self.now.replicas }
        ensures known { All (λ device. device < length self.now.devices) result.now }
        ensures distinct { has_repeat nat_eq result.now ≡ false }
    {
        let table = match which {
            Which::Object => &self.object,
            Which::Container => &self.container,
        };
        table.as_slice()[part as usize].as_slice()
    }

    /// The device of this name, as its place in the list of devices. `None` comes exactly where no device has the name.
    pub fn device(&self, name: &[u8]) -> Option<u8>
        ensures unknown { (result ≡ None) ↔ ¬ (Contains self.now.devices name.now) }
        ensures known { (i : ℕ) → (result ≡ Some i) ↔ (slice_get self.now.devices i ≡ Some name.now) }
    {
        let place = place_of(self.devices.as_slice(), name)?;
        Some(place as u8)
    }

    /// How many locks for objects a device has.
    pub fn stripes(&self) -> u8
        ensures value { result ≡ 2 ^ self.now.lock_bits }
        ensures least { 1 ≤ result }
        ensures most { result ≤ 16 }
    {
        1 << self.lock_bits
    }

    /// A ring that is equal to this one, or [`NoMemory`].
    pub fn copy(&self, alloc: Global) -> Result<Ring, NoMemory>
        ensures { IfOk result (λ copy. copy ≡ self.now) }
    {
        Ok(Ring {
            devices: self.devices.copy(alloc)?,
            power: self.power,
            lock_bits: self.lock_bits,
            replicas: self.replicas,
            secrets: self.secrets.copy(alloc)?,
            object: self.object.copy(alloc)?,
            container: self.container.copy(alloc)?,
        })
    }
}

/// Where a name stands in a list.
fn place_of(devices: &[Bytes], name: &[u8]) -> Option<usize>
    ensures here { IfSome result (λ i. (i < length devices.now) × (slice_index_or devices.now i name.now ≡ name.now)) }
    ensures nowhere { IfNone result (¬ Contains devices.now name.now) }
{
    devices.iter().position(|device| device.as_slice() == name)
}
