ghost use Rattle.std.specs.Prelude.{◌≡◌, ◌++◌, ◌<◌, IfOk, OnOk, OnErr};
ghost use Rattle.sw_diskfile.specs.FileNames.{name_text};
ghost use Rattle.sw_replica_server.specs.ReplicaText.{by_hash, comma, files_member, files_text as files_text_of, hash_member, hashes_text as hashes_text_of};
ghost use Rattle.sw_replica_server.specs.ReplicaText.{names_list, quoted};

use crate::suffixes::suffix_digits;
use std::alloc::Global;
use std::collections::BTreeMap;
use sw_diskfile::{FileName, NAME_ROOM, Picked, write_name};
use sw_hashpath::hex_text;
use sw_outside::{Bytes, NoMemory};
use sw_suffix::{DirLine, SuffixHash};

/// The JSON of what is compared of some suffixes: each suffix with its MD5, as they stand.
pub(crate) fn hashes_text(alloc: Global, hashes: &[SuffixHash]) -> Result<Bytes, NoMemory>
    ensures { IfOk result (λ text. text ≡ hashes_text_of hashes.now) }
{
    let mut text = Vec::from_slice(alloc, b"{")?;
    for (place, one) in hashes.iter().enumerate() {
        push_comma(&mut text, place)?;
        push_hash(&mut text, one)?;
    }
    text.push(b'}')?;
    Ok(Bytes::from(text))
}

/// The JSON of the files of some hashes: each hash with the names of its files, in order of the hashes.
pub(crate) fn files_text(alloc: Global, lines: &[DirLine]) -> Result<Bytes, NoMemory>
    ensures { IfOk result (λ text. text ≡ files_text_of lines.now) }
{
    let ordered = in_order(alloc, lines)?;
    let mut text = Vec::from_slice(alloc, b"{")?;
    for (place, line) in ordered.iter().enumerate() {
        push_comma(&mut text, place)?;
        push_line(&mut text, line)?;
    }
    text.push(b'}')?;
    Ok(Bytes::from(text))
}

/// The lines in order of their hashes.
fn in_order(alloc: Global, lines: &[DirLine]) -> Result<Vec<DirLine>, NoMemory>
    ensures { IfOk result (λ ordered. ordered.items ≡ by_hash lines.now) }
{
    let mut ordered = BTreeMap::new(alloc);
    for line in lines {
        ordered.insert(line.hash, *line)?;
    }
    Ok(ordered.values().copied().collect(alloc)?)
}

/// A comma stands before each member but the first.
fn push_comma(text: &mut Vec<u8>, place: usize) -> Result<(), NoMemory>
    ensures pushed { OnOk result (text.new.items ≡ text.old.items ++ comma place) }
    ensures for_later { OnErr result (0 < place) }
{
    if place > 0 {
        text.push(b',')?;
    }
    Ok(())
}

/// The member of a suffix.
fn push_hash(text: &mut Vec<u8>, one: &SuffixHash) -> Result<(), NoMemory>
    ensures { OnOk result (text.new.items ≡ text.old.items ++ hash_member one.now) }
{
    push_quoted(text, &suffix_digits(one.suffix))?;
    text.push(b':')?;
    push_quoted(text, &hex_text(&one.md5))
}

/// The member of a hash.
fn push_line(text: &mut Vec<u8>, line: &DirLine) -> Result<(), NoMemory>
    ensures { OnOk result (text.new.items ≡ text.old.items ++ files_member line.now) }
{
    push_quoted(text, &hex_text(&line.hash))?;
    text.push(b':')?;
    push_names(text, &line.picked)
}

/// The list of the names of a hash's files.
fn push_names(text: &mut Vec<u8>, picked: &Picked) -> Result<(), NoMemory>
    ensures { OnOk result (text.new.items ≡ text.old.items ++ names_list picked.now) }
{
    text.push(b'[')?;
    match (&picked.base, &picked.meta) {
        (Some(base), Some(meta)) => {
            push_name(text, base)?;
            text.push(b',')?;
            push_name(text, meta)?;
        }
        (Some(file), None) | (None, Some(file)) => push_name(text, file)?,
        (None, None) => {}
    }
    text.push(b']')?;
    Ok(())
}

/// The name of a file.
fn push_name(text: &mut Vec<u8>, file: &FileName) -> Result<(), NoMemory>
    ensures { OnOk result (text.new.items ≡ text.old.items ++ quoted (name_text file.now)) }
{
    let mut room = [0; NAME_ROOM];
    let count = write_name(file, &mut room);
    push_quoted(text, &room[..count])
}

/// A text between quotation marks. None of its bytes needs an escape.
fn push_quoted(text: &mut Vec<u8>, bytes: &[u8]) -> Result<(), NoMemory>
    ensures { OnOk result (text.new.items ≡ text.old.items ++ quoted bytes.now) }
{
    text.push(b'"')?;
    text.extend_from_slice(bytes)?;
    text.push(b'"')?;
    Ok(())
}
