ghost use Rattle.std.specs.Prelude.{◌≡◌, ◌<◌, ◌≤◌, ◌+◌, ◌^◌, ℕ, List, [], ◌∷◌, ◌++◌, length, true, Some, nat_le, ◌&&◌, OnOk, OnErr};
ghost use Rattle.std.specs.Option.{option_copied};
ghost use Rattle.sw_journal.specs.Entries.{begun, first_about, first_in, record_left};
ghost use Rattle.sw_journal.specs.Entries.{with_last_entered, with_new_doubt, with_write_entered, without_last_doubt};
ghost use Rattle.sw_journal.specs.Settling.{SettlesFirst, SettlesFirstRecord};
ghost use Rattle.sw_object_steps.specs.Journals.{Hash, bodies, entry_size};
ghost use Rattle.sw_object_steps.specs.Recorded.{filed_entries};
ghost use Rattle.sw_hashpath.specs.declared.name.Name.{Name};
ghost use Rattle.sw_object_steps.specs.declared.entry.ObjEntry.{ObjEntry};
ghost use Rattle.sw_object_steps.specs.declared.entry.ObjEntry.TheVariants.{Wrote};
ghost use Rattle.sw_pending.specs.declared.filed.Filed.{Filed};
ghost use Rattle.sw_state.specs.declared.write.Write.{Write};

use crate::entries::{
    first_about, first_of, is_about, is_new, is_of, leaves, seen_in, size_in, size_of,
};
use std::alloc::Global;
use std::marker::Model;
use sw_history::Seen;
use sw_object_steps::{Added, FiledList, ObjEntry, Outline};
use sw_outside::NoMemory;
use sw_pending::{Filed, RecordKey};
use sw_state::Write;

/// What was done since a lock began: an entry for each change that was made, and a doubt for each that may have been.
///
/// Of the entries only contracts see what they carry: they take no memory, but their bodies count. A doubt keeps its write or record, until it is
/// settled.
///
/// A change is doubted before its file is put or unlinked; when its call of the volume is answered, it becomes an entry, or goes, or stays a doubt. So a
/// change that fails needs no memory to be remembered, and settling needs none either.
#[derive(Drop)]
pub struct Journal {
    entries: Vec<Seen<ObjEntry>>,
    doubts: Vec<ObjEntry>,
    used: u64,
    max_entries: u64,
    max_bytes: u64,
}

impl Model for Journal {
    ghost use Rattle.sw_journal.specs.Entries.{IsCounted};
    ghost use Rattle.sw_object_steps.specs.Journals.{Journal};

    ghost Value = { Journal };

    ghost view = { λ j. record { entries = j.entries.items; doubts = j.doubts.items; max_entries = j.max_entries; max_bytes = j.max_bytes } };

    ghost invariant = { λ j. IsCounted j.entries j.doubts j.used j.max_bytes };
}

impl Journal {
    /// An empty journal that has room for so many entries, whose bodies have together at most so many bytes. It takes no memory.
    pub fn new(alloc: Global, max_entries: u64, max_bytes: u64) -> Journal
        ensures { result ≡ begun max_entries max_bytes }
    {
        Journal {
            entries: Vec::new(alloc),
            doubts: Vec::new(alloc),
            used: 0,
            max_entries,
            max_bytes,
        }
    }

    /// The front: how many entries there are.
    pub fn front(&self) -> u64
        ensures length { result ≡ length self.now.entries }
        ensures within { result < 2 ^ 63 }
    {
        self.entries.len() as u64
    }

    /// The entries past the first `from`. It takes no memory.
    pub fn added_since(&self, from: u64) -> Added
        ensures { (before added : List ObjEntry) → from ≡ length before → self.now.entries ≡ before ++ added → result ≡ added }
    {
        Added::since(&self.entries, from)
    }

    /// Whether there is room for one entry more, with a body of so many bytes: entries and doubts count, and the bodies of both.
    pub fn has_room(&self, body: u64) -> bool
        ensures { result ≡ (nat_le (length self.now.entries + length self.now.doubts + 1) self.now.max_entries
            && nat_le (bodies self.now.entries + bodies self.now.doubts + body) self.now.max_bytes) }
    {
        self.entries.len() as u64 + self.doubts.len() as u64 + 1 <= self.max_entries
            && body <= self.max_bytes - self.used
    }

    /// Doubts a change, behind all other doubts. After [`NoMemory`] nothing has changed.
    pub fn doubt(&mut self, entry: ObjEntry) -> Result<(), NoMemory>
        requires { bodies self.old.entries + bodies self.old.doubts + entry_size entry ≤ self.old.max_bytes }
        ensures ok { OnOk result (self.new ≡ with_new_doubt self.old entry) }
        ensures err { OnErr result (self.new ≡ self.old) }
    {
        self.entries.reserve(self.doubts.len() + 1)?;
        self.doubts.reserve(1)?;
        self.used += size_of(&entry);
        self.doubts.push_reserved(entry);
        Ok(())
    }

    /// The write of the last doubt.
    pub fn last_doubted(&self) -> &Write
        requires { (doubts : List ObjEntry) × (name : Name) × (write : Write) × (records : List Filed)
            × (self.now.doubts ≡ doubts ++ Wrote name write records ∷ []) }
        ensures { (doubts : List ObjEntry) (name : Name) (write : Write) (records : List Filed)
            → self.now.doubts ≡ doubts ++ Wrote name write records ∷ [] → result.now ≡ write }
    {
        match &self.doubts[self.doubts.len() - 1] {
            ObjEntry::Wrote(_, write, _) => write,
            _ => unreachable!(),
        }
    }

    /// The record that the last doubt leaves.
    pub fn last_left(&self) -> &Filed
        requires { (doubts : List ObjEntry) × (entry : ObjEntry) × (filed : Filed) × (self.now.doubts ≡ doubts ++ entry ∷ [])
            × (record_left entry ≡ Some filed) }
        ensures { (doubts : List ObjEntry) (entry : ObjEntry) → self.now.doubts ≡ doubts ++ entry ∷ [] → record_left entry ≡ Some result.now }
    {
        match &self.doubts[self.doubts.len() - 1] {
            ObjEntry::Files(_, filed) => filed,
            ObjEntry::Marked(_, filed, _) => filed,
            _ => unreachable!(),
        }
    }

    /// The first doubt of a write of a hash, which is the one that [`Journal::settle`] settles.
    pub fn doubted(&self, hash: &[u8; 16]) -> Option<&ObjEntry>
        ensures { option_copied result ≡ first_in hash.now self.now.doubts }
    {
        self.doubts.iter().find(|entry| is_of(entry, hash))
    }

    /// The first doubt that is about the record of a key alone, which is the one that [`Journal::settle_record`] settles.
    pub fn doubted_record(&self, key: &RecordKey) -> Option<&ObjEntry>
        ensures { option_copied result ≡ first_about key.now self.now.doubts }
    {
        self.doubts.iter().find(|entry| is_about(entry, key))
    }

    /// All doubts, in the order in which they came.
    pub fn doubts(&self) -> &[ObjEntry]
        ensures { result.now ≡ self.now.doubts }
    {
        &self.doubts
    }

    /// The last doubt's change was made: it becomes the last entry. It takes no memory.
    pub fn confirm(&mut self)
        requires { (doubts : List ObjEntry) × (entry : ObjEntry) × (self.old.doubts ≡ doubts ++ entry ∷ []) }
        ensures { (doubts : List ObjEntry) (entry : ObjEntry) → self.old.doubts ≡ doubts ++ entry ∷ [] → self.new ≡ with_last_entered self.old doubts entry }
    {
        if let Some(entry) = self.doubts.pop() {
            self.entries.push_reserved(seen_in(entry));
        }
    }

    /// The write of the last doubt was made, for which the last entries filed these records: it becomes one entry with them. It takes no memory.
    pub fn confirm_filed(&mut self, records: FiledList)
        requires entries { (by : Hash) × (before : List ObjEntry) × (self.old.entries ≡ before ++ filed_entries by records) }
        requires doubts { (doubts : List ObjEntry) × (name : Name) × (write : Write) × (self.old.doubts ≡ doubts ++ Wrote name write [] ∷ []) }
        ensures { (by : Hash) (before doubts : List ObjEntry) (name : Name) (write : Write) → self.old.entries ≡ before ++ filed_entries by records
            → self.old.doubts ≡ doubts ++ Wrote name write [] ∷ [] → self.new ≡ with_write_entered self.old before doubts (Wrote name write records) }
    {
        let before = self.entries.len() - records.as_slice().len();
        self.entries.truncate(before);
        if let Some(ObjEntry::Wrote(name, write, _)) = self.doubts.pop() {
            self.entries
                .push_reserved(seen_in(ObjEntry::Wrote(name, write, records)));
        }
    }

    /// The last doubt's change wasn't made: the doubt goes. It takes no memory.
    pub fn withdraw(&mut self)
        requires { (doubts : List ObjEntry) × (entry : ObjEntry) × (self.old.doubts ≡ doubts ++ entry ∷ []) }
        ensures { (doubts : List ObjEntry) (entry : ObjEntry) → self.old.doubts ≡ doubts ++ entry ∷ [] → self.new ≡ without_last_doubt self.old doubts }
    {
        if let Some(entry) = self.doubts.pop() {
            let size = size_in(entry);
            self.used -= size;
        }
    }

    /// Settles the first doubt of a write of a hash, where there is one, by the outline of what now stands in its directory: a write that would change it
    /// wasn't made, and any other was. It takes no memory.
    pub fn settle(&mut self, hash: &[u8; 16], outline: &Outline)
        ensures { SettlesFirst hash.now outline.now self.old self.new }
    {
        let Some(at) = first_of(&self.doubts, hash) else {
            return;
        };
        let entry = self.doubts.remove(at);
        if is_new(outline, &entry) {
            self.used -= size_in(entry);
        } else {
            self.entries.push_reserved(seen_in(entry));
        }
    }

    /// Settles the first doubt of the record of a key, where there is one, by the record that now stands for the key: where the change leaves just that,
    /// it was made, and else it wasn't. It takes no memory.
    pub fn settle_record(&mut self, key: &RecordKey, stood: Option<&Filed>)
        ensures { SettlesFirstRecord key.now (option_copied stood.entry) self.old self.new }
    {
        let Some(at) = first_about(&self.doubts, key) else {
            return;
        };
        let entry = self.doubts.remove(at);
        if leaves(&entry, stood) {
            self.entries.push_reserved(seen_in(entry));
        } else {
            self.used -= size_in(entry);
        }
    }
}
