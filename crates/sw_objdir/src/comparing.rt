ghost use Rattle.std.specs.Prelude.{◌≡◌, ℕ, ◌<◌, ◌≤◌, ◌^◌, suc, length, ◌==◌, ◌&&◌, true, false, [], find, IfOk, OnOk, OnErr, Some, vec_capacity, vec_len};
ghost use Rattle.std.specs.Option.{option_copied, option_map};
ghost use Rattle.std.specs.Str.{bytes_eq};
ghost use Rattle.sw_diskfile.specs.FileNames.{name_text};
ghost use Rattle.sw_hashdir.specs.Places.{dir_text};
ghost use Rattle.sw_hashdir.specs.Readings.{IsDamaged, IsFound};
ghost use Rattle.sw_hashdir.specs.Steps.{is_hashed};
ghost use Rattle.sw_hashpath.specs.HashParts.{partition_of, suffix_of};
ghost use Rattle.sw_journal.specs.Entries.{first_in};
ghost use Rattle.sw_objdir.specs.Comparing.{CountsFault, IfDamagedPart, IsSettled, Looks, ReadsOnce, SettlesDoubt, fault_of_read, fault_of_volume};
ghost use Rattle.sw_objdir.specs.Comparing.{is_in, is_write_in, listings_of};
ghost use Rattle.sw_objdir.specs.Directories.{IsDir};
ghost use Rattle.sw_objdir.specs.Stepping.{AddsBriefs, IsPartStep, LooksAt};
ghost use Rattle.sw_object_steps.specs.Briefs.{brief_of};
ghost use Rattle.sw_object_steps.specs.Journals.{written};
ghost use Rattle.sw_object_steps.specs.Rules.{obj_key};
ghost use Rattle.sw_object_steps.specs.Parts.{AreHashes, AreLines, IsFile, IsOfPart};
ghost use Rattle.sw_object_steps.specs.declared.entry.ObjEntry.{ObjEntry};
ghost use Rattle.sw_volume.specs.Tree.{contents};
ghost use Rattle.sw_volume.specs.Volume.{HasCause, OnFailed};

use crate::obj_dir::ObjDir;
use crate::telling::{brief_ready, tell};
use std::alloc::Global;
use sw_diskfile::FileName;
use sw_hashdir::{ReadFault, dir_of, hashes_of, lines_of, read_stored};
use sw_hashpath::{partition, suffix};
use sw_journal::Journal;
use sw_object_steps::{Brief, DirFault, ObjEntry, Stored};
use sw_suffix::{DirLine, SuffixHash};
use sw_volume::{Volume, VolumeError};

/// The hashes that a read is of.
#[derive(Clone, Copy)]
enum Scope {
    /// Those of a partition.
    Part(u32),
    /// Those of a suffix of a partition.
    Suffix(u32, u16),
    /// One hash.
    Hash([u8; 16]),
}

impl Scope {
    /// Whether the hash is one of them.
    fn has(self, power: u8, hash: &[u8; 16]) -> bool
        requires least { 1 ≤ power }
        requires greatest { power ≤ 32 }
        ensures { result ≡ is_in power self hash.now }
    {
        match self {
            Scope::Part(part) => partition(hash, power) == part,
            Scope::Suffix(part, last) => partition(hash, power) == part && suffix(hash) == last,
            Scope::Hash(one) => one == *hash,
        }
    }
}

/// Reads of a partition. Each first settles every doubt of a write of the hashes that it reads, by a listing of the hash's directory, and adds to
/// `settled` what a trail shows of the entries that this makes, whatever it then answers. Doubts of records stay.
///
/// [`DirFault::Failed`] comes only where a call of the volume failed, which is counted once. No file changes.
impl<V: Volume + Drop> ObjDir<V> {
    /// What is compared of each suffix of the partition that has a file, in order of the suffixes.
    pub fn hashes(
        &mut self,
        alloc: Global,
        part: u32,
        settled: &mut Vec<Brief>,
    ) -> Result<Vec<SuffixHash>, DirFault>
        requires part { part < 2 ^ self.old.power }
        ensures read { IsPartStep V.tells V.holds V.faults self.old (λ hash. partition_of hash self.old.power == part) false
            (λ told s got. AreHashes self.old.power part told s got.items) result self.new }
        ensures briefs { AddsBriefs self.old.journal.entries self.new.journal.entries settled.old.items settled.new.items }
        ensures cause { CountsFault (V.faults self.old.volume) (V.faults self.new.volume) result }
        ensures only_lists { (n : ℕ) × Looks V.calls V.lists n 0 self.old self.new }
    {
        if let Err(error) = self.settle_all(alloc, Scope::Part(part), settled) {
            return Err(fault_of_volume(error));
        }
        match hashes_of(alloc, &mut self.volume, self.power, part) {
            Ok(hashes) => Ok(hashes),
            Err(error) => Err(fault_of_volume(error)),
        }
    }

    /// The files that count of each hash of the suffix of the partition that has some, in order of the hashes.
    pub fn files_of(
        &mut self,
        alloc: Global,
        part: u32,
        suffix: u16,
        settled: &mut Vec<Brief>,
    ) -> Result<Vec<DirLine>, DirFault>
        requires part { part < 2 ^ self.old.power }
        requires suffix { suffix < 4096 }
        ensures read { IsPartStep V.tells V.holds V.faults self.old
            (λ hash. (partition_of hash self.old.power == part) && (suffix_of hash == suffix)) false
            (λ told s got. AreLines self.old.power part suffix told s got.items) result self.new }
        ensures briefs { AddsBriefs self.old.journal.entries self.new.journal.entries settled.old.items settled.new.items }
        ensures cause { CountsFault (V.faults self.old.volume) (V.faults self.new.volume) result }
        ensures only_lists { (n : ℕ) × Looks V.calls V.lists n 0 self.old self.new }
    {
        if let Err(error) = self.settle_all(alloc, Scope::Suffix(part, suffix), settled) {
            return Err(fault_of_volume(error));
        }
        match lines_of(alloc, &mut self.volume, self.power, part, suffix) {
            Ok(lines) => Ok(lines),
            Err(error) => Err(fault_of_volume(error)),
        }
    }

    /// The write of a file of a hash of the partition, with the name that the file says. `None` where no such file stands.
    ///
    /// It reads the file alone, after a listing of the hash's directory where the hash was in doubt. [`DirFault::Damaged`] comes only where the file
    /// isn't that of a write of this time and kind, of a path of this hash.
    pub fn read_write(
        &mut self,
        alloc: Global,
        part: u32,
        hash: &[u8; 16],
        file: &FileName,
        settled: &mut Vec<Brief>,
    ) -> Result<Option<Stored>, DirFault>
        requires within { IsOfPart self.old.power part hash.now }
        ensures read { IsPartStep V.tells V.holds V.faults self.old (bytes_eq hash.now) true
            (λ told s got. IsFile (is_hashed self.old.secrets) hash.now file.now told s got) result self.new }
        ensures briefs { AddsBriefs self.old.journal.entries self.new.journal.entries settled.old.items settled.new.items }
        ensures cause { CountsFault (V.faults self.old.volume) (V.faults self.new.volume) result }
        ensures found { IfOk result (λ found. V.tells self.old.volume ≡ true → IsFound self.old.secrets hash.now file.now
            (contents (V.holds self.old.volume) (dir_text self.old.power hash.now) (name_text file.now)) (option_map (λ s. s.write) found)) }
        ensures damaged { IfDamagedPart result (λ bad. V.tells self.old.volume ≡ true → IsDamaged self.old.secrets hash.now file.now
            (contents (V.holds self.old.volume) (dir_text self.old.power hash.now) (name_text file.now)) bad) }
        ensures calls { ReadsOnce V.calls V.lists (listings_of (written hash.now self.old.journal.doubts)) self.old result self.new }
    {
        if let Err(error) = self.settle_one(alloc, Scope::Hash(*hash), settled) {
            return Err(fault_of_volume(error));
        }
        let Ok(dir) = dir_of(alloc, hash, self.power) else {
            return Err(DirFault::NoMemory);
        };
        // A time is no greater than the greatest that there is: the contract of the call rests on it.
        let _ = file.time.units();
        match read_stored(alloc, &mut self.volume, &self.secrets, hash, &dir, file) {
            Ok(found) => Ok(found),
            Err(fault) => Err(fault_of_read(fault)),
        }
    }

    /// Settles every doubt of a write of the scope.
    fn settle_all(
        &mut self,
        alloc: Global,
        scope: Scope,
        settled: &mut Vec<Brief>,
    ) -> Result<(), VolumeError>
        ensures dir { IsDir V.tells V.holds V.faults self.new }
        ensures looks { LooksAt V.tells V.holds V.faults (is_in self.old.power scope) self.old self.new }
        ensures briefs { AddsBriefs self.old.journal.entries self.new.journal.entries settled.old.items settled.new.items }
        ensures settled { OnOk result (IsSettled self.new.power scope self.new.journal.doubts) }
        ensures cause { HasCause (V.faults self.old.volume) (V.faults self.new.volume) result }
        ensures only_lists { (n : ℕ) × Looks V.calls V.lists n 0 self.old self.new }
    {
        while self.settle_one(alloc, scope, settled)? {}
        Ok(())
    }

    /// Settles the first doubt of a write of the scope, and answers whether there was one.
    fn settle_one(
        &mut self,
        alloc: Global,
        scope: Scope,
        settled: &mut Vec<Brief>,
    ) -> Result<bool, VolumeError>
        ensures dir { IsDir V.tells V.holds V.faults self.new }
        ensures looks { LooksAt V.tells V.holds V.faults (is_in self.old.power scope) self.old self.new }
        ensures briefs { AddsBriefs self.old.journal.entries self.new.journal.entries settled.old.items settled.new.items }
        ensures cause { HasCause (V.faults self.old.volume) (V.faults self.new.volume) result }
        ensures one { SettlesDoubt V.calls V.lists self.old scope result self.new }
    {
        let Some(entry) = doubt_in(&self.journal, self.power, scope) else {
            return Ok(false);
        };
        let hash = hash_of(entry);
        let brief = brief_ready(alloc, entry, settled)?;
        self.settle(alloc, &hash, brief, settled)?;
        Ok(true)
    }

    /// Settles the doubt of a write of a hash, of which this is the brief. There is room for it.
    fn settle(
        &mut self,
        alloc: Global,
        hash: &[u8; 16],
        brief: Brief,
        settled: &mut Vec<Brief>,
    ) -> Result<(), VolumeError>
        requires first { (entry : ObjEntry) × (first_in hash.now self.old.journal.doubts ≡ Some entry) × (brief ≡ brief_of entry) }
        requires room { vec_len settled.old < vec_capacity settled.old }
        ensures dir { IsDir V.tells V.holds V.faults self.new }
        ensures looks { LooksAt V.tells V.holds V.faults (λ key. bytes_eq key hash.now) self.old self.new }
        ensures briefs { AddsBriefs self.old.journal.entries self.new.journal.entries settled.old.items settled.new.items }
        ensures cause { HasCause (V.faults self.old.volume) (V.faults self.new.volume) result }
        ensures settled { OnOk result (written hash.now self.new.journal.doubts ≡ []) }
        ensures fewer { OnOk result (suc (length self.new.journal.doubts) ≡ length self.old.journal.doubts) }
        ensures listed { OnOk result (Looks V.calls V.lists 1 0 self.old self.new) }
        ensures one_call { OnErr result ((n : ℕ) × (n ≤ 1) × Looks V.calls V.lists n 0 self.old self.new) }
        ensures failed { OnFailed result (Looks V.calls V.lists 1 0 self.old self.new) }
    {
        let dir = dir_of(alloc, hash, self.power)?;
        let front = self.front();
        self.list(alloc, hash, &dir)?;
        tell(Some(brief), self.front() > front, settled);
        Ok(())
    }
}

/// The first doubt of a write of the scope.
fn doubt_in(journal: &Journal, power: u8, scope: Scope) -> Option<&ObjEntry>
    requires least { 1 ≤ power }
    requires greatest { power ≤ 32 }
    ensures { option_copied result ≡ find (is_write_in power scope) journal.now.doubts }
{
    journal
        .doubts()
        .iter()
        .find(|entry| is_write_in(entry, power, scope))
}

/// Whether an entry is a write of the scope.
fn is_write_in(entry: &ObjEntry, power: u8, scope: Scope) -> bool
    requires least { 1 ≤ power }
    requires greatest { power ≤ 32 }
    ensures { result ≡ is_write_in power scope entry.now }
{
    match entry {
        ObjEntry::Wrote(name, _, _) => scope.has(power, &name.hash),
        _ => false,
    }
}

/// The hash under which an entry is.
fn hash_of(entry: &ObjEntry) -> [u8; 16]
    ensures { result ≡ obj_key entry.now }
{
    match entry {
        ObjEntry::Wrote(name, _, _) => name.hash,
        ObjEntry::Files(by, _) => *by,
        ObjEntry::Marked(by, _, _) => *by,
        ObjEntry::Dropped(by, _) => *by,
    }
}

pub(crate) fn fault_of_volume(error: VolumeError) -> DirFault
    ensures { result ≡ fault_of_volume error }
{
    match error {
        VolumeError::Failed => DirFault::Failed,
        VolumeError::NoMemory => DirFault::NoMemory,
    }
}

pub(crate) fn fault_of_read(fault: ReadFault) -> DirFault
    ensures { result ≡ fault_of_read fault }
{
    match fault {
        ReadFault::Damaged(bad) => DirFault::Damaged(bad),
        ReadFault::Failed => DirFault::Failed,
        ReadFault::NoMemory => DirFault::NoMemory,
    }
}
