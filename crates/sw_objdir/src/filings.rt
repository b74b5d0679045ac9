ghost use Rattle.std.specs.Prelude.{◌≡◌, true, find};
ghost use Rattle.std.specs.Option.{option_copied};
ghost use Rattle.sw_objdir.specs.Comparing.{CountsFault, IfDamagedPart};
ghost use Rattle.sw_objdir.specs.Directories.{IsDir};
ghost use Rattle.sw_objdir.specs.Filings.{FilingsCalled, IsDamageIn, IsFilingsStep, SettlesAllFilings, SettlesOneFiling, fault_of_record};
ghost use Rattle.sw_objdir.specs.Filings.{filing_key, first_key, is_filing};
ghost use Rattle.sw_objdir.specs.Recording.{Finds};
ghost use Rattle.sw_objdir.specs.Stepping.{AddsBriefs, LooksAt};
ghost use Rattle.sw_object_steps.specs.Filings.{AreFiled};
ghost use Rattle.sw_object_steps.specs.Journals.{Hash, written};
ghost use Rattle.sw_pending.specs.Records.{key_of};
ghost use Rattle.sw_pending.specs.declared.filed.Filed.{Filed};
ghost use Rattle.sw_volume.specs.Tree.{contents};

use crate::obj_dir::ObjDir;
use crate::telling::{doubt_ready, tell};
use std::alloc::Global;
use sw_journal::Journal;
use sw_object_steps::{Brief, DirFault, ObjEntry};
use sw_pending::{Filed, RecordKey};
use sw_pending_dir::{ReadFault, read_record, records};
use sw_volume::Volume;

impl<V: Volume + Drop> ObjDir<V> {
    /// All records that are filed, in order of folder and name.
    ///
    /// It first settles every doubt of a change of a record, by a read of that record's file, and adds to `settled` what a trail shows of the entries
    /// that this makes, whatever it then answers. Then it lists `async_pending` and each folder of a suffix in it, and reads each file there that is
    /// named as a record's. Doubts of writes stay, and no file changes.
    ///
    /// [`DirFault::Damaged`] comes only where a file at a record's place is no record of its key, and never where the files tell their contents and
    /// are in order. [`DirFault::Failed`] comes only where a call of the volume failed, which is counted once.
    pub fn records(
        &mut self,
        alloc: Global,
        settled: &mut Vec<Brief>,
    ) -> Result<Vec<Filed>, DirFault>
        ensures read { IsFilingsStep V.tells V.holds V.faults self.old (λ told r got. AreFiled self.old.secrets (λ hash. true) told r got.items) result
            self.new }
        ensures briefs { AddsBriefs self.old.journal.entries self.new.journal.entries settled.old.items settled.new.items }
        ensures cause { CountsFault (V.faults self.old.volume) (V.faults self.new.volume) result }
        ensures damaged { IfDamagedPart result (λ bad. V.tells self.old.volume ≡ true
            → IsDamageIn self.old.secrets (contents (V.holds self.old.volume)) self.old.journal.doubts bad) }
        ensures writes { (hash : Hash) → written hash self.new.journal.doubts ≡ written hash self.old.journal.doubts }
        ensures calls { FilingsCalled V.tells V.holds V.faults V.calls V.lists self.old result self.new }
    {
        if let Err(fault) = self.settle_records(alloc, settled) {
            return Err(fault_of_record(fault));
        }
        match records(alloc, &mut self.volume, &self.secrets) {
            Ok(found) => Ok(found),
            Err(fault) => Err(fault_of_record(fault)),
        }
    }

    /// Settles every doubt of a change of a record.
    fn settle_records(&mut self, alloc: Global, settled: &mut Vec<Brief>) -> Result<(), ReadFault>
        ensures dir { IsDir V.tells V.holds V.faults self.new }
        ensures looks { LooksAt V.tells V.holds V.faults (λ hash. true) self.old self.new }
        ensures briefs { AddsBriefs self.old.journal.entries self.new.journal.entries settled.old.items settled.new.items }
        ensures writes { (hash : Hash) → written hash self.new.journal.doubts ≡ written hash self.old.journal.doubts }
        ensures all { SettlesAllFilings V.tells V.holds V.faults V.calls V.lists self.old result self.new }
    {
        while self.settle_record(alloc, settled)? {}
        Ok(())
    }

    /// Settles the first doubt of a change of a record, and answers whether there was one.
    fn settle_record(&mut self, alloc: Global, settled: &mut Vec<Brief>) -> Result<bool, ReadFault>
        ensures dir { IsDir V.tells V.holds V.faults self.new }
        ensures looks { LooksAt V.tells V.holds V.faults (λ hash. true) self.old self.new }
        ensures briefs { AddsBriefs self.old.journal.entries self.new.journal.entries settled.old.items settled.new.items }
        ensures writes { (hash : Hash) → written hash self.new.journal.doubts ≡ written hash self.old.journal.doubts }
        ensures one { SettlesOneFiling V.tells V.holds V.faults V.calls V.lists self.old result self.new }
    {
        let Some(key) = doubted_key(&self.journal) else {
            return Ok(false);
        };
        let doubt = self.journal.doubted_record(&key);
        let Ok(brief) = doubt_ready(alloc, doubt, settled) else {
            return Err(ReadFault::NoMemory);
        };
        let front = self.front();
        let read = self.read_key(alloc, &key);
        tell(brief, self.front() > front, settled);
        match read {
            Ok(_) => Ok(true),
            Err(fault) => Err(fault),
        }
    }

    /// Reads the record of the key, and settles the first doubt of that record by it.
    fn read_key(&mut self, alloc: Global, key: &RecordKey) -> Result<Option<Filed>, ReadFault>
        requires own { (filed : Filed) × (key_of filed ≡ key.now) }
        ensures { (filed : Filed) → key_of filed ≡ key.now
            → Finds V.tells V.holds V.faults V.calls V.lists self.old filed.name filed result self.new }
    {
        match read_record(alloc, &mut self.volume, &self.secrets, key) {
            Ok(stood) => {
                self.journal.settle_record(key, stood.as_ref());
                Ok(stood)
            }
            Err(fault) => Err(fault),
        }
    }
}

/// The key of the first record of which a change is in doubt.
fn doubted_key(journal: &Journal) -> Option<RecordKey>
    ensures { result ≡ first_key journal.now.doubts }
{
    match first_filing(journal) {
        Some(entry) => key_in(entry),
        None => None,
    }
}

/// The first doubt of a change of a record.
fn first_filing(journal: &Journal) -> Option<&ObjEntry>
    ensures { option_copied result ≡ find is_filing journal.now.doubts }
{
    journal.doubts().iter().find(|entry| is_filing(entry))
}

/// Whether an entry is a change of a record.
fn is_filing(entry: &ObjEntry) -> bool
    ensures { result ≡ is_filing entry.now }
{
    match entry {
        ObjEntry::Wrote(_, _, _) => false,
        _ => true,
    }
}

/// The key of the record that an entry changes.
fn key_in(entry: &ObjEntry) -> Option<RecordKey>
    ensures { result ≡ filing_key entry.now }
{
    match entry {
        ObjEntry::Wrote(_, _, _) => None,
        ObjEntry::Files(_, filed) => Some(filed.key()),
        ObjEntry::Marked(_, filed, _) => Some(filed.key()),
        ObjEntry::Dropped(_, filed) => Some(filed.key()),
    }
}

fn fault_of_record(fault: ReadFault) -> DirFault
    ensures { result ≡ fault_of_record fault }
{
    match fault {
        ReadFault::Damaged(bad) => DirFault::Damaged(bad),
        ReadFault::Failed => DirFault::Failed,
        ReadFault::NoMemory => DirFault::NoMemory,
    }
}
