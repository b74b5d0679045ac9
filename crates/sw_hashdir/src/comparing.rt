ghost use Rattle.std.specs.Prelude.{◌≡◌, ◌<◌, ◌≤◌, ◌^◌, ℕ, true, ◌&&◌, IfOk, OnOk};
ghost use Rattle.sw_hashdir.specs.Partitions.{AddsHash, AddsLine, AreListedLines, AreOfSuffix, IsPickedOf};
ghost use Rattle.sw_hashdir.specs.Places.{dir_text, holds, in_order};
ghost use Rattle.sw_hashpath.specs.declared.secrets.Secrets.{Secrets};
ghost use Rattle.sw_outside.specs.Counts.{raised};
ghost use Rattle.sw_object_steps.specs.Parts.{AreHashes, AreLines};
ghost use Rattle.sw_volume.specs.Tree.{contents};
ghost use Rattle.sw_volume.specs.Volume.{HasCause, IsSame, raised_by};

use crate::folder::{hashes_named, part_dir, suffix_dir, suffixes_named};
use crate::listing::look;
use crate::place::dir_of;
use std::alloc::Global;
use sw_suffix::{DirLine, SuffixHash, suffix_hash};
use sw_volume::{Volume, VolumeError};

/// The files that count of each hash of a suffix of the partition, in order of the hashes: lists the directory of the suffix, and that of each
/// hash in it. A folder that isn't named as the directory of a hash of this suffix and partition is passed over, and so is a hash without files.
pub fn lines_of<V: Volume>(
    alloc: Global,
    volume: &mut V,
    power: u8,
    part: u32,
    suffix: u16,
) -> Result<Vec<DirLine>, VolumeError>
    requires least { 1 ≤ power }
    requires greatest { power ≤ 32 }
    requires part { part < 2 ^ power }
    requires suffix { suffix < 4096 }
    ensures lines { IfOk result (λ lines. (secrets : Secrets)
        → AreLines power part suffix (V.tells volume.old && in_order secrets power (V.holds volume.old)) (λ hash. holds secrets power (V.holds volume.old) hash)
        lines.items) }
    ensures ordered { IfOk result (λ lines. AreOfSuffix power part suffix lines.items) }
    ensures listed { IfOk result (λ lines. V.tells volume.old ≡ true → AreListedLines power part suffix (contents (V.holds volume.old)) lines.items) }
    ensures same { V.tells volume.old ≡ true → IsSame (contents (V.holds volume.old)) (contents (V.holds volume.new)) }
    ensures told { V.tells volume.new ≡ V.tells volume.old }
    ensures cause { HasCause (V.faults volume.old) (V.faults volume.new) result }
    ensures only_lists { (n : ℕ) × (V.calls volume.new ≡ raised_by n (V.calls volume.old)) × (V.lists volume.new ≡ raised_by n (V.lists volume.old)) }
{
    let dir = suffix_dir(alloc, part, suffix)?;
    let listing = volume.list(alloc, &dir)?;
    let hashes = hashes_named(alloc, listing.folders.as_slice(), power, part, suffix)?;
    let mut lines = Vec::new(alloc);
    for hash in hashes {
        add_line(alloc, volume, power, &hash, &mut lines)?;
    }
    Ok(lines)
}

/// Adds the line of a hash at the end, where it has a file.
fn add_line<V: Volume>(
    alloc: Global,
    volume: &mut V,
    power: u8,
    hash: &[u8; 16],
    lines: &mut Vec<DirLine>,
) -> Result<(), VolumeError>
    requires least { 1 ≤ power }
    requires greatest { power ≤ 32 }
    ensures adds { OnOk result (AddsLine hash.now lines.old.items lines.new.items
        (λ picked. V.tells volume.old ≡ true → IsPickedOf (contents (V.holds volume.old)) (dir_text power hash.now) picked)) }
    ensures same { V.tells volume.old ≡ true → IsSame (contents (V.holds volume.old)) (contents (V.holds volume.new)) }
    ensures told { V.tells volume.new ≡ V.tells volume.old }
    ensures cause { HasCause (V.faults volume.old) (V.faults volume.new) result }
    ensures only_lists { (n : ℕ) × (V.calls volume.new ≡ raised_by n (V.calls volume.old)) × (V.lists volume.new ≡ raised_by n (V.lists volume.old)) }
{
    let dir = dir_of(alloc, hash, power)?;
    let picked = look(alloc, volume, &dir)?.picked;
    if picked.base.is_some() || picked.meta.is_some() {
        lines.push(DirLine {
            hash: *hash,
            picked,
        })?;
    }
    Ok(())
}

/// What is compared of each suffix of the partition that has a file, in order of the suffixes: lists the directory of the partition, and then
/// reads the lines of each suffix in it. A folder that isn't named as a suffix is passed over.
pub fn hashes_of<V: Volume>(
    alloc: Global,
    volume: &mut V,
    power: u8,
    part: u32,
) -> Result<Vec<SuffixHash>, VolumeError>
    requires least { 1 ≤ power }
    requires greatest { power ≤ 32 }
    requires part { part < 2 ^ power }
    ensures hashes { IfOk result (λ hashes. (secrets : Secrets)
        → AreHashes power part (V.tells volume.old && in_order secrets power (V.holds volume.old)) (λ hash. holds secrets power (V.holds volume.old) hash)
        hashes.items) }
    ensures same { V.tells volume.old ≡ true → IsSame (contents (V.holds volume.old)) (contents (V.holds volume.new)) }
    ensures told { V.tells volume.new ≡ V.tells volume.old }
    ensures cause { HasCause (V.faults volume.old) (V.faults volume.new) result }
    ensures only_lists { (n : ℕ) × (V.calls volume.new ≡ raised_by n (V.calls volume.old)) × (V.lists volume.new ≡ raised_by n (V.lists volume.old)) }
{
    let dir = part_dir(alloc, part)?;
    let listing = volume.list(alloc, &dir)?;
    let suffixes = suffixes_named(alloc, listing.folders.as_slice())?;
    let mut hashes = Vec::new(alloc);
    for suffix in suffixes {
        add_hash(alloc, volume, power, part, suffix, &mut hashes)?;
    }
    Ok(hashes)
}

/// Adds what is compared of a suffix at the end, where it has a file.
fn add_hash<V: Volume>(
    alloc: Global,
    volume: &mut V,
    power: u8,
    part: u32,
    suffix: u16,
    hashes: &mut Vec<SuffixHash>,
) -> Result<(), VolumeError>
    requires least { 1 ≤ power }
    requires greatest { power ≤ 32 }
    requires part { part < 2 ^ power }
    requires suffix { suffix < 4096 }
    ensures adds { OnOk result (AddsHash power part suffix hashes.old.items hashes.new.items
        (λ lines. V.tells volume.old ≡ true → AreListedLines power part suffix (contents (V.holds volume.old)) lines)) }
    ensures same { V.tells volume.old ≡ true → IsSame (contents (V.holds volume.old)) (contents (V.holds volume.new)) }
    ensures told { V.tells volume.new ≡ V.tells volume.old }
    ensures cause { HasCause (V.faults volume.old) (V.faults volume.new) result }
    ensures only_lists { (n : ℕ) × (V.calls volume.new ≡ raised_by n (V.calls volume.old)) × (V.lists volume.new ≡ raised_by n (V.lists volume.old)) }
{
    let lines = lines_of(alloc, volume, power, part, suffix)?;
    if !lines.is_empty() {
        hashes.push(SuffixHash {
            suffix,
            md5: suffix_hash(&lines),
        })?;
    }
    Ok(())
}
