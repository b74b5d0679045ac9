ghost use Rattle.std.specs.Prelude.{◌≡◌, ℕ, true, ◌++◌, ◌∷◌, IfOk, OnOk};
ghost use Rattle.sw_volume.specs.Tree.{contents};
ghost use Rattle.sw_volume.specs.Volume.{HasCause, IsSame, ListsAll, raised_by};
ghost use Rattle.sw_hashdir.specs.Walks.{Adds, IsNamedIn, IsPathBelow, IsPathWithin};

use crate::paths::Paths;
use std::alloc::Global;
use sw_outside::{Bytes, BytesList, NoMemory};
use sw_volume::{Volume, VolumeError};

/// How many folders lie between `objects` and a file: its partition, its suffix and its hash.
const LEVELS: u8 = 3;

/// The path of every file below `objects`, in byte order, each once: files in `objects` itself, in its partitions, in their suffixes and
/// in their hashes. Folders further below are passed over. The volume's calls are listings, and a fault of one is answered.
pub fn paths_below<V: Volume>(alloc: Global, volume: &mut V) -> Result<BytesList, VolumeError>
    ensures paths { IfOk result (λ paths. V.tells volume.old ≡ true → ListsAll paths (IsPathBelow (contents (V.holds volume.old)))) }
    ensures same { V.tells volume.old ≡ true → IsSame (contents (V.holds volume.old)) (contents (V.holds volume.new)) }
    ensures told { V.tells volume.new ≡ V.tells volume.old }
    ensures cause { HasCause (V.faults volume.old) (V.faults volume.new) result }
    ensures only_lists { (n : ℕ) × (V.calls volume.new ≡ raised_by n (V.calls volume.old)) × (V.lists volume.new ≡ raised_by n (V.lists volume.old)) }
{
    let mut found = Paths::new(alloc);
    add_paths_below(alloc, volume, &mut found)?;
    Ok(found.into_list(alloc)?)
}

/// Adds these paths to those that were found before, as in other volumes.
pub fn add_paths_below<V: Volume>(
    alloc: Global,
    volume: &mut V,
    found: &mut Paths,
) -> Result<(), VolumeError>
    ensures adds { OnOk result (V.tells volume.old ≡ true → Adds found.old found.new (IsPathBelow (contents (V.holds volume.old)))) }
    ensures same { V.tells volume.old ≡ true → IsSame (contents (V.holds volume.old)) (contents (V.holds volume.new)) }
    ensures told { V.tells volume.new ≡ V.tells volume.old }
    ensures cause { HasCause (V.faults volume.old) (V.faults volume.new) result }
    ensures only_lists { (n : ℕ) × (V.calls volume.new ≡ raised_by n (V.calls volume.old)) × (V.lists volume.new ≡ raised_by n (V.lists volume.old)) }
{
    walk(alloc, volume, b"objects", LEVELS, found)
}

/// Adds the path of every file in a directory or at most so many folders below it.
fn walk<V: Volume>(
    alloc: Global,
    volume: &mut V,
    dir: &[u8],
    levels: u8,
    found: &mut Paths,
) -> Result<(), VolumeError>
    ensures adds { OnOk result (V.tells volume.old ≡ true → Adds found.old found.new (IsPathWithin (contents (V.holds volume.old)) levels dir.now)) }
    ensures same { V.tells volume.old ≡ true → IsSame (contents (V.holds volume.old)) (contents (V.holds volume.new)) }
    ensures told { V.tells volume.new ≡ V.tells volume.old }
    ensures cause { HasCause (V.faults volume.old) (V.faults volume.new) result }
    ensures only_lists { (n : ℕ) × (V.calls volume.new ≡ raised_by n (V.calls volume.old)) × (V.lists volume.new ≡ raised_by n (V.lists volume.old)) }
{
    let listing = volume.list(alloc, dir)?;
    add_each(alloc, dir, listing.files.as_slice(), found)?;
    if levels == 0 {
        return Ok(());
    }
    for folder in listing.folders.as_slice() {
        let below = joined(alloc, dir, folder.as_slice())?;
        walk(alloc, volume, &below, levels - 1, found)?;
    }
    Ok(())
}

/// Adds the paths of these files of a directory.
fn add_each(alloc: Global, dir: &[u8], files: &[Bytes], found: &mut Paths) -> Result<(), NoMemory>
    ensures { OnOk result (Adds found.old found.new (IsNamedIn dir.now files.now)) }
{
    for file in files {
        found.add(joined(alloc, dir, file.as_slice())?)?;
    }
    Ok(())
}

/// A directory, a slash and a name.
fn joined(alloc: Global, dir: &[u8], name: &[u8]) -> Result<Vec<u8>, NoMemory>
    ensures { IfOk result (λ path. path.items ≡ dir.now ++ 47 ∷ name.now) }
{
    let mut path = Vec::from_slice(alloc, dir)?;
    path.push(b'/')?;
    path.extend_from_slice(name)?;
    Ok(path)
}
