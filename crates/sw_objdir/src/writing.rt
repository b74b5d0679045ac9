ghost use Rattle.std.specs.Prelude.{◌≡◌, ◌+◌, ◌≤◌, true, List, [], ◌∷◌, ◌++◌, None, IfOk};
ghost use Rattle.sw_cleanup.specs.Cleaning.{AreListedIn};
ghost use Rattle.sw_hashdir.specs.Places.{dir_text};
ghost use Rattle.sw_hashdir.specs.Steps.{IsOurs};
ghost use Rattle.sw_journal.specs.Entries.{about_record};
ghost use Rattle.sw_objdir.specs.Stepping.{IsSeenAs, TellsOthers};
ghost use Rattle.sw_objdir.specs.Writing.{PutsWrite, ReadyEnds, WriteEnds, answer_in};
ghost use Rattle.sw_object_steps.specs.Journals.{bodies, body_size, written};
ghost use Rattle.sw_object_steps.specs.Recorded.{filed_entries, is_write, records_for};
ghost use Rattle.sw_object_steps.specs.Steps.{write_of};
ghost use Rattle.sw_object_steps.specs.declared.change.Change.TheVariants as changes;
ghost use Rattle.sw_object_steps.specs.declared.entry.ObjEntry.{ObjEntry};
ghost use Rattle.sw_object_steps.specs.declared.entry.ObjEntry.TheVariants.{Wrote};
ghost use Rattle.sw_pending.specs.Records.{key_of};
ghost use Rattle.sw_volume.specs.Tree.{contents};

use crate::changing::Plan;
use crate::obj_dir::ObjDir;
use crate::recording::answer_of;
use crate::telling::brief_ready;
use std::alloc::Global;
use sw_hashdir::{Seen, write_file};
use sw_hashpath::Name;
use sw_object_steps::{Answer, Brief, Change, FiledList, ObjEntry, made_answer};
use sw_outside::NoMemory;
use sw_pending::Filed;
use sw_state::{Kind, Write};
use sw_volume::{Volume, VolumeError};

impl<V: Volume + Drop> ObjDir<V> {
    /// Makes a write that nothing that stands refuses, with no doubt left of its name's writes: it files its record, where it is one of a client that
    /// puts or deletes, and puts its file.
    pub(crate) fn write(
        &mut self,
        alloc: Global,
        name: &Name,
        plan: &Plan,
        change: Change,
        settled: &mut Vec<Brief>,
    ) -> Answer
        requires writes { is_write change ≡ true }
        requires undoubted { written name.now.hash self.old.journal.doubts ≡ [] }
        requires ours { IsOurs self.old.secrets self.old.power name.now }
        requires dir { plan.now.dir.items ≡ dir_text self.old.power name.now.hash }
        requires names { V.tells self.old.volume ≡ true → AreListedIn (contents (V.holds self.old.volume)) plan.now.dir.items plan.now.seen.names.items }
        requires stood { IsSeenAs V.tells V.holds V.faults self.old name.now.hash plan.now.seen.outline change None }
        ensures ended { WriteEnds V.tells V.holds V.faults V.calls V.lists self.old name.now change plan.now.seen.names.items plan.now.seen.outline result
            self.new }
        ensures briefs { TellsOthers result self.old.journal.entries self.new.journal.entries settled.old.items settled.new.items }
    {
        let Ok(filed) = change.record(alloc, name) else {
            return Answer::NoMemory;
        };
        let Some(filed) = filed else {
            return self.write_alone(alloc, name, plan, change);
        };
        match self.settle_own(alloc, &filed, settled) {
            Ok(()) => self.write_filed(alloc, name, plan, change, filed, settled),
            Err(fault) => answer_of(fault),
        }
    }

    /// The same of one that files no record.
    fn write_alone(&mut self, alloc: Global, name: &Name, plan: &Plan, change: Change) -> Answer
        requires writes { is_write change ≡ true }
        requires none { records_for name.now change ≡ [] }
        requires undoubted { written name.now.hash self.old.journal.doubts ≡ [] }
        requires ours { IsOurs self.old.secrets self.old.power name.now }
        requires dir { plan.now.dir.items ≡ dir_text self.old.power name.now.hash }
        requires names { V.tells self.old.volume ≡ true → AreListedIn (contents (V.holds self.old.volume)) plan.now.dir.items plan.now.seen.names.items }
        requires stood { IsSeenAs V.tells V.holds V.faults self.old name.now.hash plan.now.seen.outline change None }
        ensures ended { ReadyEnds V.tells V.holds V.faults V.calls V.lists self.old name.now change plan.now.seen.names.items plan.now.seen.outline result
            self.new }
        ensures briefs { (settled : List Brief) → TellsOthers result self.old.journal.entries self.new.journal.entries settled settled }
    {
        if !self.journal.has_room(body_size(&change)) {
            return Answer::JournalFull;
        }
        let answer = made_answer(&plan.seen.outline, &change, self.journal.front() + 1);
        let none = FiledList::new(alloc);
        match self.put_write(
            alloc,
            name,
            &plan.dir,
            &plan.seen,
            change.into_write(),
            none,
        ) {
            Ok(()) => answer,
            Err(error) => answer_in(error),
        }
    }

    /// The same of one that files this record, of which no change is in doubt.
    fn write_filed(
        &mut self,
        alloc: Global,
        name: &Name,
        plan: &Plan,
        change: Change,
        filed: Filed,
        settled: &mut Vec<Brief>,
    ) -> Answer
        requires writes { is_write change ≡ true }
        requires own { records_for name.now change ≡ filed ∷ [] }
        requires settled { about_record (key_of filed) self.old.journal.doubts ≡ [] }
        requires undoubted { written name.now.hash self.old.journal.doubts ≡ [] }
        requires ours { IsOurs self.old.secrets self.old.power name.now }
        requires dir { plan.now.dir.items ≡ dir_text self.old.power name.now.hash }
        requires names { V.tells self.old.volume ≡ true → AreListedIn (contents (V.holds self.old.volume)) plan.now.dir.items plan.now.seen.names.items }
        requires stood { IsSeenAs V.tells V.holds V.faults self.old name.now.hash plan.now.seen.outline change None }
        ensures ended { ReadyEnds V.tells V.holds V.faults V.calls V.lists self.old name.now change plan.now.seen.names.items plan.now.seen.outline result
            self.new }
        ensures briefs { TellsOthers result self.old.journal.entries self.new.journal.entries settled.old.items settled.new.items }
    {
        if !self.journal.has_room(body_size(&change)) {
            return Answer::JournalFull;
        }
        let answer = made_answer(&plan.seen.outline, &change, self.journal.front() + 1);
        let Ok(records) = list_of(alloc, &filed) else {
            return Answer::NoMemory;
        };
        let entry = ObjEntry::Files(filed.name.hash, filed);
        let Ok(brief) = brief_ready(alloc, &entry, settled) else {
            return Answer::NoMemory;
        };
        if let Err(error) = self.put_entry(alloc, entry) {
            return answer_in(error);
        }
        match self.put_write(
            alloc,
            name,
            &plan.dir,
            &plan.seen,
            change.into_write(),
            records,
        ) {
            Ok(()) => answer,
            Err(error) => {
                settled.push_reserved(brief);
                answer_in(error)
            }
        }
    }

    /// Puts the file of a write that is new there, and unlinks what is obsolete by it. These records, which the last entries filed, are told with it.
    fn put_write(
        &mut self,
        alloc: Global,
        name: &Name,
        dir: &[u8],
        seen: &Seen,
        write: Write,
        records: FiledList,
    ) -> Result<(), VolumeError>
        requires filed { (before : List ObjEntry) × (self.old.journal.entries ≡ before ++ filed_entries name.now.hash records) }
        requires settled { written name.now.hash self.old.journal.doubts ≡ [] }
        requires ours { IsOurs self.old.secrets self.old.power name.now }
        requires dir { dir.now ≡ dir_text self.old.power name.now.hash }
        requires names { V.tells self.old.volume ≡ true → AreListedIn (contents (V.holds self.old.volume)) dir.now seen.now.names.items }
        requires stood { IsSeenAs V.tells V.holds V.faults self.old name.now.hash seen.now.outline (changes.Receive write) None }
        requires room { bodies self.old.journal.entries + bodies self.old.journal.doubts + body_size write.kind ≤ self.old.journal.max_bytes }
        ensures { PutsWrite V.tells V.holds V.faults V.calls V.lists self.old name.now write records seen.now.names.items result self.new }
    {
        // Where memory runs out the directory is as it was: what it keeps has to be known here.
        let _ = &self.volume;
        let entry = entry_of(alloc, name, write)?;
        self.journal.doubt(entry)?;
        let write = self.journal.last_doubted();
        match write_file(alloc, &mut self.volume, dir, &seen.names, name, write) {
            Ok(()) => {
                self.journal.confirm_filed(records);
                Ok(())
            }
            Err(VolumeError::Failed) => Err(VolumeError::Failed),
            Err(VolumeError::NoMemory) => {
                self.journal.withdraw();
                Err(VolumeError::NoMemory)
            }
        }
    }
}

/// The entry of a write, whose body is moved into it. Its records are told when it is made.
fn entry_of(alloc: Global, name: &Name, write: Write) -> Result<ObjEntry, NoMemory>
    ensures { IfOk result (λ entry. entry ≡ Wrote name.now write []) }
{
    Ok(ObjEntry::Wrote(name.copy(alloc)?, write, FiledList::new(alloc)))
}

/// A list of this record alone.
fn list_of(alloc: Global, filed: &Filed) -> Result<FiledList, NoMemory>
    ensures { IfOk result (λ list. list ≡ filed.now ∷ []) }
{
    let mut list = FiledList::new(alloc);
    list.push(filed.copy(alloc)?)?;
    Ok(list)
}

/// What a step is answered of which a call of the volume wasn't.
fn answer_in(error: VolumeError) -> Answer
    ensures { result ≡ answer_in error }
{
    match error {
        VolumeError::Failed => Answer::Failed,
        VolumeError::NoMemory => Answer::NoMemory,
    }
}

/// How many bytes the body has that a step brings.
fn body_size(change: &Change) -> u64
    ensures { result ≡ body_size (write_of change.now).kind }
{
    match change {
        Change::Put { content, .. } => content.body.as_slice().len() as u64,
        Change::Post { .. } => 0,
        Change::Delete { .. } => 0,
        Change::Receive { write } => kind_size(&write.kind),
        Change::MarkRecord { .. } | Change::DropRecord { .. } => 0,
    }
}

fn kind_size(kind: &Kind) -> u64
    ensures { result ≡ body_size kind.now }
{
    match kind {
        Kind::Put(content) => content.body.as_slice().len() as u64,
        Kind::Del => 0,
        Kind::Meta(_) => 0,
    }
}
