ghost use Rattle.std.specs.Prelude.{◌≡◌, true, None, IfOk, IfSome};
ghost use Rattle.serde_json.specs.View.{view};
ghost use Rattle.sw_ring.specs.Faults.{first_fault};
ghost use Rattle.sw_ring.specs.Shapes.{is_sound, ring_in};
ghost use Rattle.sw_ring.specs.Tables.{data_of};

use crate::NumberRow;
use crate::bad_ring::BadRing;
use crate::fields::{has_key_count, names_at, number_at, secrets_of, table_at};
use crate::narrowing::narrow_table;
use crate::ring::Ring;
use crate::row_checks::{has_equal_names, has_row_with_repeat, has_unknown_device, have_length};
use serde_json::Value;
use std::alloc::Global;
use std::marker::Model;
use sw_hashpath::Secrets;
use sw_outside::{BytesList, NoMemory};

/// A ring has so many keys.
const KEYS: usize = 8;

/// At most so many lock bits.
const LOCK_BITS_LIMIT: u64 = 4;

/// At most so many bits of a partition.
const POWER_LIMIT: u64 = 16;

/// At most so many devices.
const DEVICE_LIMIT: usize = 8;

/// At most so many replicas.
const REPLICA_LIMIT: u64 = 3;

/// A ring of a right shape, whose names and numbers aren't tested yet. Contracts see what it says.
#[derive(Drop)]
pub(crate) struct Draft {
    devices: BytesList,
    power: u64,
    lock_bits: u64,
    replicas: u64,
    secrets: Secrets,
    object: Vec<NumberRow>,
    container: Vec<NumberRow>,
}

impl Model for Draft {
    ghost use Rattle.sw_ring.specs.RingData.{RingData};

    ghost Value = { RingData };

    ghost view = { λ d. record {
      devices = d.devices;
      power = d.power;
      lock_bits = d.lock_bits;
      replicas = d.replicas;
      secrets = d.secrets;
      object = d.object.items;
      container = d.container.items;
    } };
}

impl Draft {
    /// The ring that a JSON value is. `None` where it hasn't the shape of one.
    #[tactic(auto, unfolding(crate::specs::Shapes::fields_in, crate::specs::Shapes::ring_in))]
    pub(crate) fn read(alloc: Global, value: &Value) -> Result<Option<Draft>, NoMemory>
        ensures draft { IfOk result (λ draft. draft ≡ ring_in (view value.now)) }
        ensures sound { IfOk result (λ draft. IfSome draft (λ ring. is_sound ring ≡ true)) }
    {
        if !has_key_count(value, KEYS) {
            return Ok(None);
        }
        let Some(devices) = names_at(alloc, value, "devices")? else {
            return Ok(None);
        };
        let Some(power) = number_at(value, "part_power") else {
            return Ok(None);
        };
        let Some(lock_bits) = number_at(value, "lock_bits") else {
            return Ok(None);
        };
        let Some(replicas) = number_at(value, "replicas") else {
            return Ok(None);
        };
        let Some(secrets) = secrets_of(alloc, value)? else {
            return Ok(None);
        };
        let Some(object) = table_at(alloc, value, "object")? else {
            return Ok(None);
        };
        let Some(container) = table_at(alloc, value, "container")? else {
            return Ok(None);
        };
        let draft = Draft {
            devices,
            power,
            lock_bits,
            replicas,
            secrets,
            object,
            container,
        };
        if draft.is_sound() {
            Ok(Some(draft))
        } else {
            Ok(None)
        }
    }

    /// Whether the lock bits, the replicas and the length of each row are in their grammar.
    fn is_sound(&self) -> bool
        ensures { result ≡ is_sound self.now }
    {
        self.lock_bits <= LOCK_BITS_LIMIT
            && (self.power == 0 || self.lock_bits <= self.power)
            && self.replicas > 0
            && have_length(&self.object, self.replicas)
            && have_length(&self.container, self.replicas)
    }

    /// The first thing that is wrong with this ring. The time is quadratic in the number of devices and in that of
    /// replicas: both are small in each ring that is accepted, and the text is the operator's own.
    #[tactic(auto, unfolding(crate::specs::Faults::first_fault))]
    pub(crate) fn first_fault(&self) -> Option<BadRing>
        ensures { result ≡ first_fault self.now }
    {
        if self.power == 0 || self.power > POWER_LIMIT {
            return Some(BadRing::BadPower);
        }
        if has_equal_names(self.devices.as_slice()) {
            return Some(BadRing::SameName);
        }
        let devices = self.devices.as_slice().len();
        if has_unknown_device(&self.object, devices)
            || has_unknown_device(&self.container, devices)
        {
            return Some(BadRing::UnknownDevice);
        }
        let partitions = 1u64 << self.power;
        if self.object.len() as u64 != partitions || self.container.len() as u64 != partitions {
            return Some(BadRing::RowCount);
        }
        if has_row_with_repeat(&self.object) || has_row_with_repeat(&self.container) {
            return Some(BadRing::SameDevice);
        }
        if devices > DEVICE_LIMIT || self.replicas > REPLICA_LIMIT {
            return Some(BadRing::TooLarge);
        }
        None
    }

    /// The ring, where nothing is wrong with it.
    pub(crate) fn into_ring(self, alloc: Global) -> Result<Ring, NoMemory>
        requires sound { is_sound self ≡ true }
        requires faultless { first_fault self ≡ None }
        ensures { IfOk result (λ ring. data_of ring ≡ self) }
    {
        let devices = self.devices.as_slice().len();
        let object = narrow_table(alloc, &self.object, devices)?;
        let container = narrow_table(alloc, &self.container, devices)?;
        Ok(Ring {
            devices: self.devices,
            power: self.power as u8,
            lock_bits: self.lock_bits as u8,
            replicas: self.replicas as u8,
            secrets: self.secrets,
            object,
            container,
        })
    }
}
