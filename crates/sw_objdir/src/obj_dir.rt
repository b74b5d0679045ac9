ghost use Rattle.std.specs.Prelude.{◌≡◌, ◌<◌, ◌≤◌, ◌^◌, true, List, ◌++◌, length, ◌&&◌};
ghost use Rattle.std.specs.Option.{option_copied};
ghost use Rattle.sw_journal.specs.Entries.{first_in};
ghost use Rattle.sw_object_steps.specs.Rules.{obj_rules};
ghost use Rattle.sw_objdir.specs.Directories.{are_in_order, is_told, started, steps_of, value_at, values_of};
ghost use Rattle.sw_object_steps.specs.Journals.{Hash};
ghost use Rattle.sw_object_steps.specs.declared.entry.ObjEntry.{ObjEntry};
ghost use Rattle.sw_step.specs.Rules.{CanStand};

use std::alloc::Global;
use std::marker::Model;
use std::snapshot::Snapshot;
use sw_hashpath::Secrets;
use sw_journal::Journal;
use sw_object_steps::{Added, ObjEntry};
use sw_volume::Volume;

/// What one object lock holds: a volume, and the journal of what was done with it since it began.
#[derive(Drop)]
pub struct ObjDir<V: Volume + Drop> {
    pub(crate) volume: V,
    opening: Snapshot<V>,
    pub(crate) secrets: Secrets,
    pub(crate) power: u8,
    pub(crate) journal: Journal,
}

impl<V: Volume + Drop> Model for ObjDir<V> {
    ghost use Rattle.sw_objdir.specs.Directories.{IsDir, Kept};

    ghost Value = { Kept V };

    ghost view = { λ d. record { volume = d.volume; began = d.opening.value; secrets = d.secrets; power = d.power; journal = d.journal } };

    ghost invariant = { λ d. IsDir V.tells V.holds V.faults
        (record { volume = d.volume; began = d.opening.value; secrets = d.secrets; power = d.power; journal = d.journal }) };
}

impl<V: Volume + Drop> ObjDir<V> {
    /// Begins with what the volume's files and records stand for, and an empty journal that has room for so many entries, whose bodies have together
    /// at most so many bytes. The part power and the secrets are the ring's. It takes no memory.
    pub fn start(
        alloc: Global,
        volume: V,
        power: u8,
        secrets: Secrets,
        max_entries: u64,
        max_bytes: u64,
    ) -> ObjDir<V>
        requires least { 1 ≤ power }
        requires greatest { power ≤ 32 }
        ensures { result ≡ started volume secrets power max_entries max_bytes }
    {
        ObjDir {
            opening: Snapshot::of(&volume),
            volume,
            secrets,
            power,
            journal: Journal::new(alloc, max_entries, max_bytes),
        }
    }

    /// Under each hash stands what may stand there: by the entries, and by those of its doubts that were made. It does nothing: its clause tells it.
    pub fn may_stand(&self)
        ensures { is_told V.tells V.holds V.faults self.now ≡ true → (hash : Hash)
            → CanStand obj_rules (steps_of V.tells V.holds V.faults self.now) hash (values_of V.tells V.holds V.faults self.now hash) }
    {
        let _ = &self.volume;
    }

    /// Ends it, and gives the volume back. A directory that begins anew on it has every change that was entered, and of each that is in
    /// doubt the change or not. It takes no memory.
    pub fn into_volume(self) -> V
        ensures same { result ≡ self.volume }
        ensures told { is_told V.tells V.holds V.faults self ≡ true → (V.tells result && are_in_order self.secrets self.power (V.holds result)) ≡ true }
        ensures stands { is_told V.tells V.holds V.faults self ≡ true → (hash : Hash)
            → CanStand obj_rules (steps_of V.tells V.holds V.faults self) hash (value_at self.secrets self.power (V.holds result) hash) }
    {
        self.volume
    }

    /// The same, with the secrets, so that who begins it anew takes no memory for them.
    pub fn into_parts(self) -> (V, Secrets)
        ensures volume { result.0 ≡ self.volume }
        ensures secrets { result.1 ≡ self.secrets }
        ensures told { is_told V.tells V.holds V.faults self ≡ true
            → (V.tells self.volume && are_in_order self.secrets self.power (V.holds self.volume)) ≡ true }
    {
        (self.volume, self.secrets)
    }

    /// The front: how many entries the journal has.
    pub fn front(&self) -> u64
        ensures length { result ≡ length self.now.journal.entries }
        ensures within { result < 2 ^ 63 }
    {
        self.journal.front()
    }

    /// The doubt of a write of a hash, where there is one: the next listing of its directory settles it.
    pub fn doubted(&self, hash: &[u8; 16]) -> Option<&ObjEntry>
        ensures { option_copied result ≡ first_in hash.now self.now.journal.doubts }
    {
        self.journal.doubted(hash)
    }

    /// The entries past the first `from`. It takes no memory.
    pub fn added_since(&self, from: u64) -> Added
        ensures { (before added : List ObjEntry) → from ≡ length before → self.now.journal.entries ≡ before ++ added → result ≡ added }
    {
        self.journal.added_since(from)
    }
}
