ghost use Rattle.std.specs.Prelude.{◌≡◌, ◌<◌, ◌≤◌, ◌↔◌, ℕ, List, IsNone, IfOk, IfSome};
ghost use Rattle.std.specs.List.{Contains};
ghost use Rattle.sw_hashdir.specs.Partitions.{HasFolder, IsHashName, IsSuffixName, part_dir_text, suffix_digits, suffix_dir_text};

use hex::{FromHex, encode_to_slice};
use itoa::Buffer;
use std::alloc::Global;
use std::collections::BTreeSet;
use sw_hashpath::{hex_text, partition};
use sw_outside::{Bytes, NoMemory};

/// The directory of a partition: `objects/<partition>`.
pub(crate) fn part_dir(alloc: Global, part: u32) -> Result<Vec<u8>, NoMemory>
    ensures { IfOk result (λ dir. dir.items ≡ part_dir_text part) }
{
    let mut buffer = Buffer::new();
    let number = buffer.format(part);
    let mut dir = Vec::from_slice(alloc, b"objects/")?;
    dir.extend_from_slice(number.as_bytes())?;
    Ok(dir)
}

/// The directory of a suffix in it: `objects/<partition>/<suffix as three digits>`.
pub(crate) fn suffix_dir(alloc: Global, part: u32, suffix: u16) -> Result<Vec<u8>, NoMemory>
    requires { suffix < 4096 }
    ensures { IfOk result (λ dir. dir.items ≡ suffix_dir_text part suffix) }
{
    let mut dir = part_dir(alloc, part)?;
    dir.push(b'/')?;
    dir.extend_from_slice(&suffix_digits(suffix))?;
    Ok(dir)
}

/// The suffixes that have their folder among these.
pub(crate) fn suffixes_named(alloc: Global, folders: &[Bytes]) -> Result<BTreeSet<u16>, NoMemory>
    ensures { IfOk result (λ set. (suffix : ℕ) → Contains set.keys suffix ↔ HasFolder IsSuffixName folders.now suffix) }
{
    let mut set = BTreeSet::new(alloc);
    for folder in folders {
        if let Some(suffix) = suffix_named(folder.as_slice()) {
            set.insert(suffix)?;
        }
    }
    Ok(set)
}

/// The suffix whose folder has this name.
fn suffix_named(folder: &[u8]) -> Option<u16>
    ensures some { IfSome result (λ suffix. IsSuffixName folder.now suffix) }
    ensures none { IsNone result → (suffix : ℕ) → ¬ (IsSuffixName folder.now suffix) }
{
    if folder.len() != 3 {
        return None;
    }
    let digits = [b'0', folder[0], folder[1], folder[2]];
    let Ok(bytes) = <[u8; 2] as FromHex>::from_hex(digits) else {
        return None;
    };
    let suffix = u16::from_be_bytes(bytes);
    if suffix < 4096 && suffix_digits(suffix).as_slice() == folder {
        Some(suffix)
    } else {
        None
    }
}

/// The three lower-case digits of a suffix.
fn suffix_digits(suffix: u16) -> [u8; 3]
    requires { suffix < 4096 }
    ensures { result ≡ suffix_digits suffix }
{
    let mut text = [0u8; 4];
    encode_to_slice(suffix.to_be_bytes(), &mut text).unwrap();
    [text[1], text[2], text[3]]
}

/// The hashes of this partition and suffix that have their folder among these.
pub(crate) fn hashes_named(
    alloc: Global,
    folders: &[Bytes],
    power: u8,
    part: u32,
    suffix: u16,
) -> Result<BTreeSet<[u8; 16]>, NoMemory>
    requires least { 1 ≤ power }
    requires greatest { power ≤ 32 }
    ensures { IfOk result (λ set. (hash : List ℕ) → Contains set.keys hash ↔ HasFolder (IsHashName power part suffix) folders.now hash) }
{
    let mut set = BTreeSet::new(alloc);
    for folder in folders {
        if let Some(hash) = hash_named(folder.as_slice(), power, part, suffix) {
            set.insert(hash)?;
        }
    }
    Ok(set)
}

/// The hash of this partition and suffix whose folder has this name.
fn hash_named(folder: &[u8], power: u8, part: u32, suffix: u16) -> Option<[u8; 16]>
    requires least { 1 ≤ power }
    requires greatest { power ≤ 32 }
    ensures some { IfSome result (λ hash. IsHashName power part suffix folder.now hash) }
    ensures none { IsNone result → (hash : List ℕ) → ¬ (IsHashName power part suffix folder.now hash) }
{
    let Ok(hash) = <[u8; 16] as FromHex>::from_hex(folder) else {
        return None;
    };
    let is_written = hex_text(&hash).as_slice() == folder;
    if is_written && partition(&hash, power) == part && sw_hashpath::suffix(&hash) == suffix {
        Some(hash)
    } else {
        None
    }
}
