//! A door to all object nodes, which threads may share: each has a door of its own.
ghost use Rattle.std.specs.Prelude.{◌≡◌, ◌==◌, ◌*◌, ◌<◌, ◌≤◌, ◌^◌, ◌&&◌, ◌∷◌, ◌++◌, [], Some, true, false, length, map, slice_get, slice_set};
ghost use Rattle.std.specs.Str.{bytes_eq};
ghost use Rattle.sw_core.specs.Worlds.{lock_of, part_lock_of, stripe_in, stripe_lock_of};
ghost use Rattle.sw_hashdir.specs.Steps.{is_hashed};
ghost use Rattle.sw_hashpath.specs.HashParts.{partition_of, suffix_of};
ghost use Rattle.sw_objdir.specs.Filings.{IsFilingsStep};
ghost use Rattle.sw_objdir.specs.Stepping.{IsPartStep, IsReadStep, IsStep};
ghost use Rattle.sw_object_steps.specs.BaseRows.{IsBaseFor};
ghost use Rattle.sw_object_steps.specs.Filings.{AreFiled};
ghost use Rattle.sw_object_steps.specs.Parts.{AreHashes, AreLines, IsFile, IsOfPart};
ghost use Rattle.sw_peer.specs.Sights.{asked};
ghost use Rattle.sw_shared.specs.Doors.{HasTurn, IsShared, KeepsOf};
ghost use Rattle.sw_shared.specs.Turning.{HasSeen, ObjView};
ghost use Rattle.sw_turn.specs.Known.{Grows, first_of, later, rest_of};
ghost use Rattle.sw_turn.specs.Rule.{idle};

mod door;
mod pending;

use crate::booked::BookedObjects;
use crate::lane::Lane;
use std::alloc::Global;
use std::marker::Model;
use std::snapshot::Snapshot;
use std::sync::Wait;
use sw_diskfile::FileName;
use sw_hashpath::{Name, Secrets, partition};
use sw_object_steps::{Answer, Change, DirFault, Got, Stored};
use sw_peer::Link;
use sw_pending::Filed;
use sw_rows::Row;
use sw_suffix::{DirLine, SuffixHash};
use sw_volume::Volume;

/// All object nodes of a ring, as one thread reaches them: by a lane to each lock. Its calls wait for their turn at the lock.
pub struct SharedDoor<'a, V: Volume + Drop, R: Wait> {
    rt: &'a R,
    /// One a lock: those of a device stand together.
    lanes: Vec<Lane<'a, BookedObjects<V>>>,
    devices: u16,
    lock_bits: u8,
    power: u8,
    secrets: Snapshot<Secrets>,
    asks: u64,
}

impl<'a, V: Volume + Drop, R: Wait> Model for SharedDoor<'a, V, R> {
    ghost use Rattle.std.specs.Prelude.{map};
    ghost use Rattle.sw_shared.specs.Doors.{IsShared, SharedNodes};

    ghost Value = { SharedNodes V };

    ghost view = { λ d. record {
      devices = d.devices;
      lock_bits = d.lock_bits;
      power = d.power;
      secrets = d.secrets.value;
      asks = d.asks;
      locks = map (λ l. l.pass.table_id) d.lanes.items;
      lanes = map (λ l. l.pass.me.0) d.lanes.items;
    } };

    ghost invariant = { λ d. IsShared V.tells V.holds V.faults (record {
      devices = d.devices;
      lock_bits = d.lock_bits;
      power = d.power;
      secrets = d.secrets.value;
      asks = d.asks;
      locks = map (λ l. l.pass.table_id) d.lanes.items;
      lanes = map (λ l. l.pass.me.0) d.lanes.items;
    }) };
}

impl<'a, V: Volume + Drop, R: Wait> SharedDoor<'a, V, R> {
    /// A door over these lanes, one a lock: those of a device stand together. Each has seen a directory of these secrets and this part power. It is alone
    /// at the nodes where each of them owns all numbers of its lock.
    pub fn new(
        rt: &'a R,
        lanes: Vec<Lane<'a, BookedObjects<V>>>,
        devices: u16,
        lock_bits: u8,
        power: u8,
        secrets: &Secrets,
    ) -> SharedDoor<'a, V, R>
        requires { IsShared V.tells V.holds V.faults (record {
          devices = devices;
          lock_bits = lock_bits;
          power = power;
          secrets = secrets.now;
          asks = 0;
          locks = map (λ l. l.pass.table_id) lanes.items;
          lanes = map (λ l. l.pass.me.0) lanes.items;
        }) }
        ensures { result ≡ record {
          devices = devices;
          lock_bits = lock_bits;
          power = power;
          secrets = secrets.now;
          asks = 0;
          locks = map (λ l. l.pass.table_id) lanes.entry.items;
          lanes = map (λ l. l.pass.me.0) lanes.entry.items;
        } }
    {
        SharedDoor {
            rt,
            lanes,
            devices,
            lock_bits,
            power,
            secrets: Snapshot::of(secrets),
            asks: 0,
        }
    }

    /// Gives its lanes back, in their order.
    pub fn into_lanes(self) -> Vec<Lane<'a, BookedObjects<V>>>
        ensures locks { map (λ l. l.pass.table_id) result.items ≡ self.entry.locks }
        ensures lanes { map (λ l. l.pass.me.0) result.items ≡ self.entry.lanes }
    {
        let SharedDoor {
            rt: _,
            lanes,
            devices: _,
            lock_bits: _,
            power: _,
            secrets: _,
            asks: _,
        } = self;
        lanes
    }

    /// Splits the lane of one lock: the new one has its first number, and knows the same. With one of each lock another thread has a door of its own.
    pub fn split_at(&mut self, place: usize) -> Lane<'a, BookedObjects<V>>
        requires within { place < length self.old.lanes }
        requires two { (v : ObjView V) → slice_get self.old.lanes place ≡ Some v → 2 ≤ length v.numbers }
        ensures lock { slice_get self.old.locks place ≡ Some result.pass.table_id }
        ensures parted { (v : ObjView V) × (slice_get self.old.lanes place ≡ Some v)
            × (self.new ≡ record self.old { lanes = slice_set self.old.lanes place (idle v.known v.seats (rest_of v.numbers)) })
            × (result.pass.me ≡ (idle v.known v.seats (first_of v.numbers ∷ []), [])) }
    {
        self.lanes[place].split()
    }

    /// Takes in another lane of one of its locks, with its numbers. What is known of the lock is then what the later of the two knew.
    pub fn join_at(&mut self, place: usize, other: Lane<'a, BookedObjects<V>>)
        requires within { place < length self.old.lanes }
        requires lock { slice_get self.old.locks place ≡ Some other.pass.table_id }
        requires seen { HasSeen V.tells V.holds V.faults self.old.secrets self.old.power other.pass.me.0 }
        ensures joined { (v : ObjView V) × (slice_get self.old.lanes place ≡ Some v)
            × (self.new ≡ record self.old {
              lanes = slice_set self.old.lanes place
                  (idle (later v.known other.entry.pass.me.0.known) v.seats (v.numbers ++ other.entry.pass.me.0.numbers));
            })
            × Grows v.seats v.numbers v.known (later v.known other.entry.pass.me.0.known)
            × Grows v.seats other.entry.pass.me.0.numbers other.entry.pass.me.0.known (later v.known other.entry.pass.me.0.known) }
    {
        self.lanes[place].join(other);
    }

    /// A step that may change the object of the name, which is one turn at the lock of its hash.
    pub fn change_at(&mut self, alloc: Global, device: u8, name: &Name, change: Change) -> Answer
        requires device { device < self.old.devices }
        requires fits { is_hashed self.old.secrets name.now ≡ true }
        ensures shared { IsShared V.tells V.holds V.faults self.old }
        ensures turn { HasTurn V.tells V.holds V.faults self.old (lock_of self.old.lock_bits self.old.power device name.now.hash)
            (λ k n. IsStep V.tells V.holds V.faults k name.now change result n) self.new }
    {
        let place = self.lane_of(device, &name.hash);
        self.lanes[place].change(self.rt, alloc, name, change)
    }

    /// A read of the object of the name, in the same way.
    pub fn get_at(&mut self, alloc: Global, device: u8, name: &Name) -> Got
        requires device { device < self.old.devices }
        requires fits { is_hashed self.old.secrets name.now ≡ true }
        ensures shared { IsShared V.tells V.holds V.faults self.old }
        ensures turn { HasTurn V.tells V.holds V.faults self.old (lock_of self.old.lock_bits self.old.power device name.now.hash)
            (λ k n. IsReadStep V.tells V.holds V.faults k name.now result n) self.new }
    {
        let place = self.lane_of(device, &name.hash);
        self.lanes[place].get(self.rt, alloc, name)
    }

    /// A read of what is compared of a partition, in one turn at the lock of that.
    pub fn hashes_at(
        &mut self,
        alloc: Global,
        device: u8,
        part: u32,
    ) -> Result<Vec<SuffixHash>, DirFault>
        requires device { device < self.old.devices }
        requires part { part < 2 ^ self.old.power }
        ensures shared { IsShared V.tells V.holds V.faults self.old }
        ensures turn { HasTurn V.tells V.holds V.faults self.old (part_lock_of self.old.lock_bits self.old.power device part)
            (λ k n. IsPartStep V.tells V.holds V.faults k (λ hash. partition_of hash k.power == part) false
            (λ told s got. AreHashes k.power part told s got.items) result n) self.new }
    {
        let place = self.lane_of_part(device, part);
        self.lanes[place].hashes(self.rt, alloc, part)
    }

    /// A read of the files of a suffix of a partition, in the same way.
    pub fn files_at(
        &mut self,
        alloc: Global,
        device: u8,
        part: u32,
        suffix: u16,
    ) -> Result<Vec<DirLine>, DirFault>
        requires device { device < self.old.devices }
        requires part { part < 2 ^ self.old.power }
        requires suffix { suffix < 4096 }
        ensures shared { IsShared V.tells V.holds V.faults self.old }
        ensures turn { HasTurn V.tells V.holds V.faults self.old (part_lock_of self.old.lock_bits self.old.power device part)
            (λ k n. IsPartStep V.tells V.holds V.faults k (λ hash. (partition_of hash k.power == part) && (suffix_of hash == suffix)) false
            (λ told s got. AreLines k.power part suffix told s got.items) result n) self.new }
    {
        let place = self.lane_of_part(device, part);
        self.lanes[place].files_of(self.rt, alloc, part, suffix)
    }

    /// A read of the write of a file of a hash of a partition, in the same way.
    pub fn write_at(
        &mut self,
        alloc: Global,
        device: u8,
        part: u32,
        hash: &[u8; 16],
        file: &FileName,
    ) -> Result<Option<Stored>, DirFault>
        requires device { device < self.old.devices }
        requires part { part < 2 ^ self.old.power }
        requires within { IsOfPart self.old.power part hash.now }
        ensures shared { IsShared V.tells V.holds V.faults self.old }
        ensures turn { HasTurn V.tells V.holds V.faults self.old (part_lock_of self.old.lock_bits self.old.power device part)
            (λ k n. IsPartStep V.tells V.holds V.faults k (bytes_eq hash.now) true
            (λ told s got. IsFile (is_hashed k.secrets) hash.now file.now told s got) result n) self.new }
    {
        let place = self.lane_of_part(device, part);
        self.lanes[place].read_write(self.rt, alloc, part, hash, file)
    }

    /// A read of the records that are filed under the hashes of a stripe, in one turn at its lock.
    pub fn records_at(
        &mut self,
        alloc: Global,
        device: u8,
        stripe: u8,
    ) -> Result<Vec<Filed>, DirFault>
        requires device { device < self.old.devices }
        requires stripe { stripe < 2 ^ self.old.lock_bits }
        ensures shared { IsShared V.tells V.holds V.faults self.old }
        ensures turn { HasTurn V.tells V.holds V.faults self.old (stripe_lock_of self.old.lock_bits device stripe)
            (λ k n. IsFilingsStep V.tells V.holds V.faults k
            (λ told r list. AreFiled k.secrets (λ hash. stripe_in self.old.lock_bits self.old.power hash == stripe) told r list.items) result n) self.new }
    {
        let place = self.lane_of_stripe(device, stripe);
        let all = self.lanes[place].records(self.rt, alloc);
        of_stripe(all, self.lock_bits, self.power, stripe)
    }

    /// A read of the row that tells what stands under the name of a record, in one turn at the lock of its hash.
    pub fn base_at(
        &mut self,
        alloc: Global,
        device: u8,
        filed: &Filed,
    ) -> Result<Option<Row>, DirFault>
        requires device { device < self.old.devices }
        requires fits { is_hashed self.old.secrets filed.now.name ≡ true }
        ensures shared { IsShared V.tells V.holds V.faults self.old }
        ensures turn { HasTurn V.tells V.holds V.faults self.old (lock_of self.old.lock_bits self.old.power device filed.now.name.hash)
            (λ k n. IsPartStep V.tells V.holds V.faults k (bytes_eq filed.now.name.hash) true
            (λ told s got. told ≡ true → IsBaseFor filed.now (s filed.now.name.hash) got) result n) self.new }
    {
        let place = self.lane_of(device, &filed.name.hash);
        self.lanes[place].base_for(self.rt, alloc, filed)
    }

    /// What is known of each lock is what may stand there. It does nothing: its clause tells it.
    pub fn are_shared(&self)
        ensures { IsShared V.tells V.holds V.faults self.now }
    {
        let _ = &self.lanes;
    }

    /// Counts a message that asks for hashes or files.
    fn count(&mut self, link: Link)
        ensures { self.new ≡ record self.old { asks = asked self.old.asks link } }
    {
        if let Link::Sent = link {
            self.asks = self.asks.saturating_add(1);
        }
    }

    /// The place of the lane of a hash at a device.
    fn lane_of(&self, device: u8, hash: &[u8; 16]) -> usize
        requires { device < self.now.devices }
        ensures lock { result ≡ lock_of self.now.lock_bits self.now.power device hash.now }
        ensures within { result < length self.now.lanes }
    {
        self.lane_of_part(device, partition(hash, self.power))
    }

    /// The place of the lane of a partition at a device: its stripe is its first bits.
    fn lane_of_part(&self, device: u8, part: u32) -> usize
        requires device { device < self.now.devices }
        requires part { part < 2 ^ self.now.power }
        ensures lock { result ≡ part_lock_of self.now.lock_bits self.now.power device part }
        ensures within { result < length self.now.lanes }
    {
        let stripe = u64::from(part) >> (self.power - self.lock_bits);
        usize::from(device) * stripes(self.lock_bits) + stripe as usize
    }

    /// The place of the lane of a stripe at a device.
    fn lane_of_stripe(&self, device: u8, stripe: u8) -> usize
        requires device { device < self.now.devices }
        requires stripe { stripe < 2 ^ self.now.lock_bits }
        ensures lock { result ≡ stripe_lock_of self.now.lock_bits device stripe }
        ensures within { result < length self.now.lanes }
    {
        usize::from(device) * stripes(self.lock_bits) + usize::from(stripe)
    }
}

/// How many locks a device has.
fn stripes(lock_bits: u8) -> usize
    requires { lock_bits ≤ 4 }
    ensures value { result ≡ 2 ^ lock_bits }
    ensures within { result ≤ 16 }
{
    1 << lock_bits
}

/// The stripe of a hash: that of its partition.
fn stripe_in(hash: &[u8; 16], lock_bits: u8, power: u8) -> u8
    requires few { lock_bits ≤ 4 }
    requires fine { lock_bits ≤ power }
    requires least { 1 ≤ power }
    requires greatest { power ≤ 32 }
    ensures { result ≡ stripe_in lock_bits power hash.now }
{
    (u64::from(partition(hash, power)) >> (power - lock_bits)) as u8
}

/// Those of them that are filed under the hashes of a stripe.
fn of_stripe(
    all: Result<Vec<Filed>, DirFault>,
    lock_bits: u8,
    power: u8,
    stripe: u8,
) -> Result<Vec<Filed>, DirFault>
    requires few { lock_bits ≤ 4 }
    requires fine { lock_bits ≤ power }
    requires least { 1 ≤ power }
    requires greatest { power ≤ 32 }
    ensures { KeepsOf (λ hash. stripe_in lock_bits power hash == stripe) all result }
{
    let mut got = all;
    if let Ok(records) = &mut got {
        records.retain(|filed| stripe_in(&filed.name.hash, lock_bits, power) == stripe);
    }
    got
}
