ghost use Rattle.std.specs.Prelude.{◌≡◌, ◌+◌, ◌≤◌, true, false, [], Some};
ghost use Rattle.std.specs.Str.{bytes_eq};
ghost use Rattle.sw_hashdir.specs.Steps.{IsHashed};
ghost use Rattle.sw_hashpath.specs.declared.name.Name.{Name};
ghost use Rattle.sw_journal.specs.Entries.{about_record, record_left};
ghost use Rattle.sw_objdir.specs.Recording.{Decides, Ends, Finds, RecordCalled, TellsGone, answer_of};
ghost use Rattle.sw_objdir.specs.Writing.{PutsOne, PutsRecord, Readied};
ghost use Rattle.sw_objdir.specs.Stepping.{AddsBriefs, IsStep};
ghost use Rattle.sw_object_steps.specs.Journals.{bodies, has_room};
ghost use Rattle.sw_object_steps.specs.Outlines.{is_before, standing_time};
ghost use Rattle.sw_object_steps.specs.Recorded.{is_write};
ghost use Rattle.sw_object_steps.specs.declared.change.Change.TheVariants as changes;
ghost use Rattle.sw_object_steps.specs.declared.entry.ObjEntry.TheVariants.{Dropped, Marked};
ghost use Rattle.sw_pending.specs.Outcomes.{IsName};
ghost use Rattle.sw_pending.specs.Records.{key_of, marked};
ghost use Rattle.sw_pending.specs.declared.filed.Filed.{Filed};
ghost use Rattle.sw_pending.specs.Rules.{are_done, is_done};

use crate::obj_dir::ObjDir;
use crate::telling::{brief_ready, doubt_ready, tell};
use std::alloc::Global;
use sw_hashdir::dir_of;
use sw_hashpath::Name;
use sw_object_steps::{Answer, Brief, Change, ObjEntry, Outline};
use sw_outside::Failed;
use sw_pending::Filed;
use sw_pending_dir::{ReadFault, put_record, read_record, unlink_record};
use sw_timestamp::Timestamp;
use sw_volume::{Volume, VolumeError};

impl<V: Volume + Drop> ObjDir<V> {
    /// Makes a step at a record of the name. Its hash has to be that of its path under the ring's secrets.
    ///
    /// It reads the file of the record's key, and settles the doubt of that record by it; where the record is of a name with another hash it makes
    /// no call, and finds none. A mark that the record lacks is put, with the record that stands. A drop unlinks the record where all devices are
    /// done; else it lists the name's directory first, and the record goes exactly where nothing stands there that is as late.
    ///
    /// [`Answer::Damaged`] comes only where the file that it read is no record of the key. [`Answer::Failed`] comes only where a call of the volume
    /// failed: after the read or the listing nothing was done, and after the put or unlink it is in doubt. [`Answer::NoMemory`] leaves all files as
    /// they are.
    ///
    /// Whatever it answers, it adds to `settled` what a trail shows of the entries that it makes: those of the doubts that it settles, and its own.
    pub fn record(
        &mut self,
        alloc: Global,
        name: &Name,
        change: &Change,
        settled: &mut Vec<Brief>,
    ) -> Answer
        requires hashed { IsHashed self.old.secrets name.now }
        requires records { is_write change.now ≡ false }
        ensures made { IsStep V.tells V.holds V.faults self.old name.now change.now result self.new }
        ensures called { RecordCalled V.tells V.holds V.faults V.calls V.lists self.old name.now change.now result self.new }
        ensures briefs { AddsBriefs self.old.journal.entries self.new.journal.entries settled.old.items settled.new.items }
    {
        match change {
            Change::MarkRecord { filed, device } => self.mark(alloc, name, filed, *device, settled),
            Change::DropRecord { filed, all } => self.drop_record(
                alloc,
                name,
                filed,
                all.as_slice(),
                settled,
            ),
            _ => unreachable!(),
        }
    }

    /// Marks a device at the record of this one's key.
    fn mark(
        &mut self,
        alloc: Global,
        name: &Name,
        filed: &Filed,
        device: u8,
        settled: &mut Vec<Brief>,
    ) -> Answer
        ensures made { IsStep V.tells V.holds V.faults self.old name.now (changes.MarkRecord filed.now device) result self.new }
        ensures called { RecordCalled V.tells V.holds V.faults V.calls V.lists self.old name.now (changes.MarkRecord filed.now device) result self.new }
        ensures briefs { AddsBriefs self.old.journal.entries self.new.journal.entries settled.old.items settled.new.items }
    {
        let stood = match self.find_record(alloc, name, filed, settled) {
            Ok(Some(stood)) => stood,
            Ok(None) => return Answer::Took(false),
            Err(fault) => return answer_of(fault),
        };
        if stood.is_done(device) {
            return Answer::Took(true);
        }
        self.put_mark(alloc, stood, device, settled)
    }

    /// Takes the record of this one's key away, where it may go.
    fn drop_record(
        &mut self,
        alloc: Global,
        name: &Name,
        filed: &Filed,
        all: &[u8],
        settled: &mut Vec<Brief>,
    ) -> Answer
        ensures made { IsStep V.tells V.holds V.faults self.old name.now (changes.DropRecord filed.now all.now) result self.new }
        ensures called { RecordCalled V.tells V.holds V.faults V.calls V.lists self.old name.now (changes.DropRecord filed.now all.now) result self.new }
        ensures briefs { AddsBriefs self.old.journal.entries self.new.journal.entries settled.old.items settled.new.items }
    {
        let stood = match self.find_record(alloc, name, filed, settled) {
            Ok(Some(found)) => found,
            Ok(None) => return Answer::Took(false),
            Err(fault) => return answer_of(fault),
        };
        match self.may_go(alloc, name, &stood, all, settled) {
            Ok(true) => self.take_away(alloc, stood, settled),
            Ok(false) => Answer::Took(false),
            Err(VolumeError::Failed) => Answer::Failed,
            Err(VolumeError::NoMemory) => Answer::NoMemory,
        }
    }

    /// Reads the record of this one's key, and settles the doubt of that record by it. Where the name has another hash there is none.
    fn find_record(
        &mut self,
        alloc: Global,
        name: &Name,
        filed: &Filed,
        settled: &mut Vec<Brief>,
    ) -> Result<Option<Filed>, ReadFault>
        ensures found { Finds V.tells V.holds V.faults V.calls V.lists self.old name.now filed.now result self.new }
        ensures briefs { AddsBriefs self.old.journal.entries self.new.journal.entries settled.old.items settled.new.items }
    {
        let journal = &self.journal;
        if filed.name.hash != name.hash {
            return Ok(None);
        }
        let key = filed.key();
        let Ok(brief) = doubt_ready(alloc, journal.doubted_record(&key), settled) else {
            return Err(ReadFault::NoMemory);
        };
        let front = self.front();
        let found = self.read_own(alloc, filed);
        tell(brief, self.front() > front, settled);
        found
    }

    /// Settles the doubt of this one's record, where there is one, by a read of its file.
    pub(crate) fn settle_own(
        &mut self,
        alloc: Global,
        filed: &Filed,
        settled: &mut Vec<Brief>,
    ) -> Result<(), ReadFault>
        ensures readied { Readied V.tells V.holds V.faults V.calls V.lists self.old filed.now result self.new }
        ensures briefs { AddsBriefs self.old.journal.entries self.new.journal.entries settled.old.items settled.new.items }
    {
        let key = filed.key();
        let Some(doubt) = self.journal.doubted_record(&key) else {
            return Ok(());
        };
        let Ok(brief) = brief_ready(alloc, doubt, settled) else {
            return Err(ReadFault::NoMemory);
        };
        let front = self.front();
        let found = self.read_own(alloc, filed);
        tell(Some(brief), self.front() > front, settled);
        match found {
            Ok(_) => Ok(()),
            Err(fault) => Err(fault),
        }
    }

    /// The same for a name with the hash of this record.
    fn read_own(&mut self, alloc: Global, filed: &Filed) -> Result<Option<Filed>, ReadFault>
        ensures { (name : Name) → bytes_eq filed.now.name.hash name.hash ≡ true
            → Finds V.tells V.holds V.faults V.calls V.lists self.old name filed.now result self.new }
    {
        let secrets = &self.secrets;
        let key = filed.key();
        match read_record(alloc, &mut self.volume, secrets, &key) {
            Ok(stood) => {
                self.journal.settle_record(&key, stood.as_ref());
                Ok(stood)
            }
            Err(fault) => Err(fault),
        }
    }

    /// Whether a record that stands may go: all these devices were told, or nothing stands that is as late.
    fn may_go(
        &mut self,
        alloc: Global,
        name: &Name,
        stood: &Filed,
        all: &[u8],
        settled: &mut Vec<Brief>,
    ) -> Result<bool, VolumeError>
        ensures decided { Decides V.tells V.holds V.faults V.calls V.lists (are_done all.now stood.now.done) self.old name.now stood.now.time result self.new }
        ensures briefs { AddsBriefs self.old.journal.entries self.new.journal.entries settled.old.items settled.new.items }
    {
        if stood.are_done(all) {
            return Ok(true);
        }
        self.is_gone(alloc, name, stood.time, settled)
    }

    /// Lists the name's directory, and answers whether nothing stands there that is as late as this time.
    fn is_gone(
        &mut self,
        alloc: Global,
        name: &Name,
        time: Timestamp,
        settled: &mut Vec<Brief>,
    ) -> Result<bool, VolumeError>
        ensures told { TellsGone V.tells V.holds V.faults V.calls V.lists self.old name.now time result self.new }
        ensures briefs { AddsBriefs self.old.journal.entries self.new.journal.entries settled.old.items settled.new.items }
    {
        let Ok(brief) = doubt_ready(alloc, self.journal.doubted(&name.hash), settled) else {
            return Err(VolumeError::NoMemory);
        };
        let front = self.front();
        let gone = self.look_gone(alloc, name, time);
        tell(brief, self.front() > front, settled);
        gone
    }

    /// The same, of which no trail is told.
    fn look_gone(
        &mut self,
        alloc: Global,
        name: &Name,
        time: Timestamp,
    ) -> Result<bool, VolumeError>
        ensures { TellsGone V.tells V.holds V.faults V.calls V.lists self.old name.now time result self.new }
    {
        let Ok(dir) = dir_of(alloc, &name.hash, self.power) else {
            return Err(VolumeError::NoMemory);
        };
        match self.list(alloc, &name.hash, &dir) {
            Ok(seen) => Ok(is_before(&seen.outline, time)),
            Err(error) => Err(error),
        }
    }

    /// Puts the record with this device marked: it lacks that, and is in no doubt.
    fn put_mark(
        &mut self,
        alloc: Global,
        stood: Filed,
        device: u8,
        settled: &mut Vec<Brief>,
    ) -> Answer
        requires name { IsName self.old.secrets stood.name }
        requires settled { about_record (key_of stood) self.old.journal.doubts ≡ [] }
        ensures ended { Ends V.tells V.holds V.faults V.calls V.lists self.old (key_of stood) (Marked stood.name.hash (marked stood device) device)
            result self.new }
        ensures briefs { AddsBriefs self.old.journal.entries self.new.journal.entries settled.old.items settled.new.items }
    {
        if !self.journal.has_room(0) {
            return Answer::JournalFull;
        }
        let mut stood = stood;
        let Ok(()) = stood.mark(alloc, device) else {
            return Answer::NoMemory;
        };
        self.put_marked(alloc, stood, device, settled)
    }

    /// Puts this record, in which the device is marked.
    fn put_marked(
        &mut self,
        alloc: Global,
        marked: Filed,
        device: u8,
        settled: &mut Vec<Brief>,
    ) -> Answer
        requires name { IsName self.old.secrets marked.name }
        requires settled { about_record (key_of marked) self.old.journal.doubts ≡ [] }
        requires room { has_room self.old.journal (Marked marked.name.hash marked device) ≡ true }
        ensures ended { Ends V.tells V.holds V.faults V.calls V.lists self.old (key_of marked) (Marked marked.name.hash marked device) result self.new }
        ensures briefs { AddsBriefs self.old.journal.entries self.new.journal.entries settled.old.items settled.new.items }
    {
        // Where memory runs out the directory is as it was: what it keeps has to be known here.
        let _ = &self.volume;
        let entry = ObjEntry::Marked(marked.name.hash, marked, device);
        let Ok(brief) = brief_ready(alloc, &entry, settled) else {
            return Answer::NoMemory;
        };
        match self.put_entry(alloc, entry) {
            Ok(()) => {
                settled.push_reserved(brief);
                Answer::Took(true)
            }
            Err(VolumeError::Failed) => Answer::Failed,
            Err(VolumeError::NoMemory) => Answer::NoMemory,
        }
    }

    /// Puts the record that this entry leaves, of which no change is in doubt, and enters it.
    pub(crate) fn put_entry(&mut self, alloc: Global, entry: ObjEntry) -> Result<(), VolumeError>
        requires puts { (filed : Filed) × PutsOne self.old.secrets entry filed }
        requires settled { (filed : Filed) → record_left entry ≡ Some filed → about_record (key_of filed) self.old.journal.doubts ≡ [] }
        requires room { bodies self.old.journal.entries + bodies self.old.journal.doubts ≤ self.old.journal.max_bytes }
        ensures { (filed : Filed) → record_left entry ≡ Some filed → PutsRecord V.tells V.holds V.faults V.calls V.lists self.old entry filed result self.new }
    {
        self.journal.doubt(entry)?;
        let filed = self.journal.last_left();
        match put_record(alloc, &mut self.volume, filed) {
            Ok(()) => {
                self.journal.confirm();
                Ok(())
            }
            Err(VolumeError::Failed) => Err(VolumeError::Failed),
            Err(VolumeError::NoMemory) => {
                self.journal.withdraw();
                Err(VolumeError::NoMemory)
            }
        }
    }

    /// Unlinks the record that stands: it is in no doubt.
    fn take_away(&mut self, alloc: Global, stood: Filed, settled: &mut Vec<Brief>) -> Answer
        requires settled { about_record (key_of stood) self.old.journal.doubts ≡ [] }
        ensures ended { Ends V.tells V.holds V.faults V.calls V.lists self.old (key_of stood) (Dropped stood.name.hash stood) result self.new }
        ensures briefs { AddsBriefs self.old.journal.entries self.new.journal.entries settled.old.items settled.new.items }
    {
        if !self.journal.has_room(0) {
            return Answer::JournalFull;
        }
        let key = stood.key();
        let entry = ObjEntry::Dropped(key.hash, stood);
        let Ok(brief) = brief_ready(alloc, &entry, settled) else {
            return Answer::NoMemory;
        };
        let Ok(()) = self.journal.doubt(entry) else {
            return Answer::NoMemory;
        };
        match unlink_record(&mut self.volume, &key) {
            Ok(()) => {
                self.journal.confirm();
                settled.push_reserved(brief);
                Answer::Took(true)
            }
            Err(Failed) => Answer::Failed,
        }
    }
}

/// Whether nothing stands that is as late as this time.
fn is_before(outline: &Outline, time: Timestamp) -> bool
    ensures { result ≡ is_before (standing_time outline.now) time }
{
    match outline.standing_time() {
        Some(standing) => standing < time,
        None => true,
    }
}

/// What a step is answered whose record can't be read.
pub(crate) fn answer_of(fault: ReadFault) -> Answer
    ensures { result ≡ answer_of fault }
{
    match fault {
        ReadFault::Damaged(bad) => Answer::Damaged(bad),
        ReadFault::Failed => Answer::Failed,
        ReadFault::NoMemory => Answer::NoMemory,
    }
}
