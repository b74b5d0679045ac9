ghost use Rattle.std.specs.Prelude.{◌≡◌, ◌↔◌, ℕ, List, map, IfOk};
ghost use Rattle.std.specs.Cmp.Lexicographic.{slice_cmp};
ghost use Rattle.std.specs.List.{Contains, list_all};
ghost use Rattle.std.specs.List.Sorted.{IsStrictlySortedBy};
ghost use Rattle.std.specs.Ordering.{nat_cmp};
ghost use Rattle.sw_pending_dir.specs.Places.{key_at};
ghost use Rattle.sw_pending_dir.specs.Walks.{is_digit, is_suffix, suffix_folder};

use std::alloc::Global;
use std::collections::BTreeSet;
use sw_outside::{Bytes, BytesList, NoMemory};
use sw_pending::{FOLDER_LENGTH, RecordKey, folder, read_name};

/// These names in byte order, each once. A host may list them in any order.
pub(crate) fn in_order(alloc: Global, names: &[Bytes]) -> Result<BytesList, NoMemory>
    ensures ascending { IfOk result (λ list. IsStrictlySortedBy (slice_cmp nat_cmp) list) }
    ensures all { IfOk result (λ list. (name : List ℕ) → Contains list name ↔ Contains names.now name) }
{
    let set = set_of(alloc, names)?;
    list_of(alloc, set)
}

fn set_of(alloc: Global, names: &[Bytes]) -> Result<BTreeSet<Vec<u8>>, NoMemory>
    ensures { IfOk result (λ set. (name : List ℕ) → Contains (map (λ k. k.items) set.keys) name ↔ Contains names.now name) }
{
    let mut set = BTreeSet::new(alloc);
    for name in names {
        set.insert(Vec::from_slice(alloc, name.as_slice())?)?;
    }
    Ok(set)
}

fn list_of(alloc: Global, set: BTreeSet<Vec<u8>>) -> Result<BytesList, NoMemory>
    ensures all { IfOk result (λ list. list ≡ map (λ k. k.items) set.keys) }
    ensures ordered { IfOk result (λ list. IsStrictlySortedBy (slice_cmp nat_cmp) list) }
{
    let mut list = Vec::with_capacity(alloc, set.len())?;
    for name in set {
        list.push(Bytes::from(name))?;
    }
    Ok(list.into())
}

/// The folder of this name below that of all records, where it is named as that of a suffix.
pub(crate) fn suffix_folder(name: &[u8]) -> Option<[u8; FOLDER_LENGTH]>
    ensures { result ≡ suffix_folder name.now }
{
    if !is_suffix(name) {
        return None;
    }
    let mut text = *b"async_pending/000";
    text[14..].copy_from_slice(name);
    Some(text)
}

/// Whether this is the name of a suffix: three lower-case hexadecimal digits.
fn is_suffix(name: &[u8]) -> bool
    ensures { result ≡ is_suffix name.now }
{
    name.len() == 3 && are_digits(name)
}

fn are_digits(name: &[u8]) -> bool
    ensures { result ≡ list_all is_digit name.now }
{
    name.iter().all(|byte| is_digit(*byte))
}

fn is_digit(byte: u8) -> bool
    ensures { result ≡ is_digit byte }
{
    byte.is_ascii_digit() || (b'a'..=b'f').contains(&byte)
}

/// The key whose place this is.
pub(crate) fn key_at(dir: &[u8], name: &[u8]) -> Option<RecordKey>
    ensures { result ≡ key_at dir.now name.now }
{
    let key = read_name(name)?;
    if folder(&key.hash).as_slice() == dir {
        Some(key)
    } else {
        None
    }
}
