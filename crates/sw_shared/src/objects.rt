//! Steps of an object directory through a lane: each is one turn at the lock.
ghost use Rattle.std.specs.Prelude.{◌≡◌, ◌<◌, ◌==◌, ◌^◌, ◌&&◌, true, false};
ghost use Rattle.std.specs.Str.{bytes_eq};
ghost use Rattle.sw_hashdir.specs.Steps.{IsHashed, is_hashed};
ghost use Rattle.sw_hashpath.specs.HashParts.{partition_of, suffix_of};
ghost use Rattle.sw_objdir.specs.Stepping.{IsPartStep, IsReadStep, IsStep};
ghost use Rattle.sw_objdir.specs.Filings.{IsFilingsStep};
ghost use Rattle.sw_object_steps.specs.BaseRows.{IsBaseFor};
ghost use Rattle.sw_object_steps.specs.Filings.{AreFiled};
ghost use Rattle.sw_object_steps.specs.Parts.{AreHashes, AreLines, IsFile, IsOfPart};
ghost use Rattle.sw_shared.specs.Turning.{BeganSo, InTurn};

use crate::booked::BookedObjects;
use crate::lane::Lane;
use std::alloc::Global;
use std::sync::Wait;
use sw_diskfile::FileName;
use sw_hashpath::Name;
use sw_objdir::ObjDir;
use sw_object_steps::{Answer, Change, DirFault, Got, Stored};
use sw_pending::Filed;
use sw_rows::Row;
use sw_suffix::{DirLine, SuffixHash};
use sw_volume::Volume;

impl<'a, V: Volume + Drop> Lane<'a, BookedObjects<V>> {
    /// Makes a step that may change what stands under the name, in a turn at the lock.
    pub fn change<R: Wait>(&mut self, rt: &R, alloc: Global, name: &Name, change: Change) -> Answer
        requires hashed { BeganSo (λ b. IsHashed b.secrets name.now) self.old.pass.me.0.known }
        ensures lock { self.new.pass.table_id ≡ self.old.pass.table_id }
        ensures made { InTurn V.tells V.holds V.faults (λ k n. IsStep V.tells V.holds V.faults k name.now change result n) self.old.pass.me.0
            self.new.pass.me.0 }
    {
        let mut guard = self.lock.enter(rt, &mut self.pass);
        let answer = made(alloc, &mut guard.value.dir, name, change);
        guard.value.dir.may_stand();
        self.lock.leave(guard, &mut self.pass);
        answer
    }

    /// Reads the object of the name, in a turn at the lock.
    pub fn get<R: Wait>(&mut self, rt: &R, alloc: Global, name: &Name) -> Got
        requires hashed { BeganSo (λ b. IsHashed b.secrets name.now) self.old.pass.me.0.known }
        ensures lock { self.new.pass.table_id ≡ self.old.pass.table_id }
        ensures read { InTurn V.tells V.holds V.faults (λ k n. IsReadStep V.tells V.holds V.faults k name.now result n) self.old.pass.me.0
            self.new.pass.me.0 }
    {
        let mut guard = self.lock.enter(rt, &mut self.pass);
        let got = guard.value.dir.get(alloc, name);
        guard.value.dir.may_stand();
        self.lock.leave(guard, &mut self.pass);
        got
    }

    /// Reads what is compared of each suffix of the partition, in a turn at the lock.
    pub fn hashes<R: Wait>(
        &mut self,
        rt: &R,
        alloc: Global,
        part: u32,
    ) -> Result<Vec<SuffixHash>, DirFault>
        requires part { BeganSo (λ b. part < 2 ^ b.power) self.old.pass.me.0.known }
        ensures lock { self.new.pass.table_id ≡ self.old.pass.table_id }
        ensures read { InTurn V.tells V.holds V.faults (λ k n. IsPartStep V.tells V.holds V.faults k (λ hash. partition_of hash k.power == part) false
            (λ told s got. AreHashes k.power part told s got.items) result n) self.old.pass.me.0 self.new.pass.me.0 }
    {
        let mut settled = Vec::new(alloc);
        let mut guard = self.lock.enter(rt, &mut self.pass);
        let got = guard.value.dir.hashes(alloc, part, &mut settled);
        guard.value.dir.may_stand();
        self.lock.leave(guard, &mut self.pass);
        got
    }

    /// Reads the files of a suffix of the partition, in a turn at the lock.
    pub fn files_of<R: Wait>(
        &mut self,
        rt: &R,
        alloc: Global,
        part: u32,
        suffix: u16,
    ) -> Result<Vec<DirLine>, DirFault>
        requires part { BeganSo (λ b. part < 2 ^ b.power) self.old.pass.me.0.known }
        requires suffix { suffix < 4096 }
        ensures lock { self.new.pass.table_id ≡ self.old.pass.table_id }
        ensures read { InTurn V.tells V.holds V.faults (λ k n. IsPartStep V.tells V.holds V.faults k
            (λ hash. (partition_of hash k.power == part) && (suffix_of hash == suffix)) false
            (λ told s got. AreLines k.power part suffix told s got.items) result n) self.old.pass.me.0 self.new.pass.me.0 }
    {
        let mut settled = Vec::new(alloc);
        let mut guard = self.lock.enter(rt, &mut self.pass);
        let got = guard.value.dir.files_of(alloc, part, suffix, &mut settled);
        guard.value.dir.may_stand();
        self.lock.leave(guard, &mut self.pass);
        got
    }

    /// Reads the write of a file of a hash of the partition, in a turn at the lock.
    pub fn read_write<R: Wait>(
        &mut self,
        rt: &R,
        alloc: Global,
        part: u32,
        hash: &[u8; 16],
        file: &FileName,
    ) -> Result<Option<Stored>, DirFault>
        requires within { BeganSo (λ b. IsOfPart b.power part hash.now) self.old.pass.me.0.known }
        ensures lock { self.new.pass.table_id ≡ self.old.pass.table_id }
        ensures read { InTurn V.tells V.holds V.faults (λ k n. IsPartStep V.tells V.holds V.faults k (bytes_eq hash.now) true
            (λ told s got. IsFile (is_hashed k.secrets) hash.now file.now told s got) result n) self.old.pass.me.0 self.new.pass.me.0 }
    {
        let mut settled = Vec::new(alloc);
        let mut guard = self.lock.enter(rt, &mut self.pass);
        let got = guard
            .value
            .dir
            .read_write(alloc, part, hash, file, &mut settled);
        guard.value.dir.may_stand();
        self.lock.leave(guard, &mut self.pass);
        got
    }

    /// Reads all records that are filed, in a turn at the lock.
    pub fn records<R: Wait>(&mut self, rt: &R, alloc: Global) -> Result<Vec<Filed>, DirFault>
        ensures lock { self.new.pass.table_id ≡ self.old.pass.table_id }
        ensures read { InTurn V.tells V.holds V.faults (λ k n. IsFilingsStep V.tells V.holds V.faults k
            (λ told r got. AreFiled k.secrets (λ hash. true) told r got.items) result n) self.old.pass.me.0 self.new.pass.me.0 }
    {
        let mut settled = Vec::new(alloc);
        let mut guard = self.lock.enter(rt, &mut self.pass);
        let got = guard.value.dir.records(alloc, &mut settled);
        guard.value.dir.may_stand();
        self.lock.leave(guard, &mut self.pass);
        got
    }

    /// Reads the row that tells what stands under the name of a record, in a turn at the lock.
    pub fn base_for<R: Wait>(
        &mut self,
        rt: &R,
        alloc: Global,
        filed: &Filed,
    ) -> Result<Option<Row>, DirFault>
        requires hashed { BeganSo (λ b. IsHashed b.secrets filed.now.name) self.old.pass.me.0.known }
        ensures lock { self.new.pass.table_id ≡ self.old.pass.table_id }
        ensures read { InTurn V.tells V.holds V.faults (λ k n. IsPartStep V.tells V.holds V.faults k (bytes_eq filed.now.name.hash) true
            (λ told s got. told ≡ true → IsBaseFor filed.now (s filed.now.name.hash) got) result n) self.old.pass.me.0 self.new.pass.me.0 }
    {
        let mut settled = Vec::new(alloc);
        let mut guard = self.lock.enter(rt, &mut self.pass);
        let got = guard.value.dir.base_for(alloc, filed, &mut settled);
        guard.value.dir.may_stand();
        self.lock.leave(guard, &mut self.pass);
        got
    }
}

/// Makes the step, whether it writes or is one at a record.
fn made<V: Volume + Drop>(alloc: Global, dir: &mut ObjDir<V>, name: &Name, change: Change) -> Answer
    requires hashed { IsHashed dir.old.secrets name.now }
    ensures { IsStep V.tells V.holds V.faults dir.old name.now change result dir.new }
{
    let mut settled = Vec::new(alloc);
    if change.is_write() {
        dir.change(alloc, name, change, &mut settled)
    } else {
        dir.record(alloc, name, &change, &mut settled)
    }
}
