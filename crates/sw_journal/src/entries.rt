ghost use Rattle.std.specs.Prelude.{◌≡◌, ◌<◌, ◌↔◌, [], Some, true, IfSome, IsNone};
ghost use Rattle.std.specs.Option.{option_copied};
ghost use Rattle.sw_journal.specs.Entries.{IsFirstOf, about_record, is_new_entry, is_record_of, is_write_of, record_left};
ghost use Rattle.sw_object_steps.specs.Journals.{body_size, entry_size, written};

use sw_history::Seen;
use sw_object_steps::{ObjEntry, Outline};
use sw_pending::{Filed, RecordKey};
use sw_state::{Kind, Write};

/// Where the first write of a hash stands.
pub(crate) fn first_of(entries: &[ObjEntry], hash: &[u8; 16]) -> Option<usize>
    ensures none { IsNone result → written hash.now entries.now ≡ [] }
    ensures some { IfSome result (λ at. IsFirstOf (is_write_of hash.now) entries.now at) }
{
    for (i, entry) in entries.iter().enumerate() {
        if is_of(entry, hash) {
            return Some(i);
        }
    }
    None
}

/// Where the first entry stands that is about the record of a key alone.
pub(crate) fn first_about(entries: &[ObjEntry], key: &RecordKey) -> Option<usize>
    ensures none { IsNone result → about_record key.now entries.now ≡ [] }
    ensures some { IfSome result (λ at. IsFirstOf (is_record_of key.now) entries.now at) }
{
    for (i, entry) in entries.iter().enumerate() {
        if is_about(entry, key) {
            return Some(i);
        }
    }
    None
}

/// Whether an entry is a write of this hash.
pub(crate) fn is_of(entry: &ObjEntry, hash: &[u8; 16]) -> bool
    ensures { result ≡ is_write_of hash.now entry.now }
{
    match entry {
        ObjEntry::Wrote(name, _, _) => name.hash == *hash,
        _ => false,
    }
}

/// Whether an entry is about the record of this key alone.
pub(crate) fn is_about(entry: &ObjEntry, key: &RecordKey) -> bool
    ensures { result ≡ is_record_of key.now entry.now }
{
    match entry {
        ObjEntry::Wrote(_, _, _) => false,
        ObjEntry::Files(_, filed) => *key == filed.key(),
        ObjEntry::Marked(_, filed, _) => *key == filed.key(),
        ObjEntry::Dropped(_, filed) => *key == filed.key(),
    }
}

/// Whether the write of an entry would change what has this outline.
pub(crate) fn is_new(outline: &Outline, entry: &ObjEntry) -> bool
    ensures { result ≡ is_new_entry outline.now entry.now }
{
    match entry {
        ObjEntry::Wrote(_, write, _) => outline.adds(write.time, write.kind.tag()),
        _ => false,
    }
}

/// Whether this is what an entry leaves of its record.
pub(crate) fn leaves(entry: &ObjEntry, stood: Option<&Filed>) -> bool
    ensures { (result ≡ true) ↔ (option_copied stood.entry ≡ record_left entry.now) }
{
    match entry {
        ObjEntry::Wrote(_, _, _) | ObjEntry::Dropped(_, _) => stood.is_none(),
        ObjEntry::Files(_, filed) => is_that(stood, filed),
        ObjEntry::Marked(_, filed, _) => is_that(stood, filed),
    }
}

fn is_that(stood: Option<&Filed>, filed: &Filed) -> bool
    ensures { (result ≡ true) ↔ (option_copied stood.entry ≡ Some filed.now) }
{
    match stood {
        Some(stood) => stood.is_same(filed),
        None => false,
    }
}

/// How many bytes the body in an entry has: none but that of data.
pub(crate) fn size_of(entry: &ObjEntry) -> u64
    ensures { result ≡ entry_size entry.now }
{
    match entry {
        ObjEntry::Wrote(_, write, _) => body_size(write),
        _ => 0,
    }
}

/// The same of an entry that goes.
pub(crate) fn size_in(entry: ObjEntry) -> u64
    ensures { result ≡ entry_size entry }
{
    size_of(&entry)
}

/// What contracts see of an entry that goes.
pub(crate) fn seen_in(entry: ObjEntry) -> Seen<ObjEntry>
    ensures { result ≡ entry }
{
    Seen::of(&entry)
}

fn body_size(write: &Write) -> u64
    ensures { result ≡ body_size write.now.kind }
{
    match &write.kind {
        Kind::Put(content) => content.body.as_slice().len() as u64,
        Kind::Del => 0,
        Kind::Meta(_) => 0,
    }
}
