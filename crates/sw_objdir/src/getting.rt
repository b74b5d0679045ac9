ghost use Rattle.std.specs.Prelude.{◌≡◌, ℕ, true, IfOk, OnOk};
ghost use Rattle.sw_hashdir.specs.Steps.{IsHashed};
ghost use Rattle.sw_hashdir.specs.Walks.{Adds, IsPathBelow};
ghost use Rattle.sw_objdir.specs.Calling.{ReadCalled};
ghost use Rattle.sw_objdir.specs.Directories.{values_of};
ghost use Rattle.sw_objdir.specs.Stepping.{IsReadStep, OnlyLooks};
ghost use Rattle.sw_object_steps.specs.Journals.{Hash};
ghost use Rattle.sw_volume.specs.Tree.{contents};
ghost use Rattle.sw_volume.specs.Volume.{HasCause, ListsAll, raised_by};

use crate::obj_dir::ObjDir;
use std::alloc::Global;
use sw_hashdir::{Paths, add_paths_below, dir_of, paths_below, show};
use sw_hashpath::Name;
use sw_object_steps::Got;
use sw_outside::BytesList;
use sw_volume::{Volume, VolumeError};

impl<V: Volume + Drop> ObjDir<V> {
    /// Reads the object of the name. Its hash has to be that of its path under the ring's secrets.
    ///
    /// It lists the name's directory, settles the name's doubt by it, and reads the file of the object's data and that of its metadata. Where
    /// there is no object no file is read.
    pub fn get(&mut self, alloc: Global, name: &Name) -> Got
        requires hashed { IsHashed self.old.secrets name.now }
        ensures read { IsReadStep V.tells V.holds V.faults self.old name.now result self.new }
        ensures called { ReadCalled V.tells V.holds V.faults V.calls V.lists self.old name.now result self.new }
    {
        let Ok(dir) = dir_of(alloc, &name.hash, self.power) else {
            return Got::NoMemory;
        };
        match self.list(alloc, &name.hash, &dir) {
            Ok(seen) => show(
                alloc,
                &mut self.volume,
                &self.secrets,
                &name.hash,
                &dir,
                &seen,
                self.journal.front(),
            ),
            Err(VolumeError::Failed) => Got::Failed,
            Err(VolumeError::NoMemory) => Got::NoMemory,
        }
    }

    /// The path of every file below `objects`, in byte order, each once. No doubt is settled.
    pub fn all_files(&mut self, alloc: Global) -> Result<BytesList, VolumeError>
        ensures looks { OnlyLooks V.tells V.holds V.faults self.old self.new }
        ensures journal { self.new.journal ≡ self.old.journal }
        ensures paths { IfOk result (λ paths. V.tells self.old.volume ≡ true → ListsAll paths (IsPathBelow (contents (V.holds self.old.volume)))) }
        ensures cause { HasCause (V.faults self.old.volume) (V.faults self.new.volume) result }
        ensures only_lists { (n : ℕ) × (V.calls self.new.volume ≡ raised_by n (V.calls self.old.volume))
            × (V.lists self.new.volume ≡ raised_by n (V.lists self.old.volume)) }
    {
        paths_below(alloc, &mut self.volume)
    }

    /// The same, added to the paths that other directories gave.
    pub fn add_files(&mut self, alloc: Global, found: &mut Paths) -> Result<(), VolumeError>
        ensures looks { OnlyLooks V.tells V.holds V.faults self.old self.new }
        ensures journal { self.new.journal ≡ self.old.journal }
        ensures values { (hash : Hash) → values_of V.tells V.holds V.faults self.new hash ≡ values_of V.tells V.holds V.faults self.old hash }
        ensures paths { OnOk result (V.tells self.old.volume ≡ true → Adds found.old found.new (IsPathBelow (contents (V.holds self.old.volume)))) }
        ensures cause { HasCause (V.faults self.old.volume) (V.faults self.new.volume) result }
        ensures only_lists { (n : ℕ) × (V.calls self.new.volume ≡ raised_by n (V.calls self.old.volume))
            × (V.lists self.new.volume ≡ raised_by n (V.lists self.old.volume)) }
    {
        add_paths_below(alloc, &mut self.volume, found)
    }
}
