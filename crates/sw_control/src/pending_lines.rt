ghost use Rattle.std.specs.Prelude.{◌≡◌, ◌++◌, IfOk, OnOk};
ghost use Rattle.sw_control.specs.PendingText.{names_text, pending_text as pending_text_of, record_line, record_path};

use crate::trail_lines::device_name;
use std::alloc::Global;
use sw_outside::{Bytes, BytesList, NoMemory};
use sw_pending::{Filed, NAME_ROOM, folder, write_name};

/// The text of records of updates: for each the path of its file, and the names of the devices that were told of it, in the list's order. A device that
/// isn't among these has no name.
pub fn pending_text(
    alloc: Global,
    devices: &BytesList,
    records: &[Filed],
) -> Result<Bytes, NoMemory>
    ensures { IfOk result (λ text. text ≡ pending_text_of devices.now records.now) }
{
    let mut text = Vec::new(alloc);
    for filed in records {
        add_record(&mut text, devices, filed)?;
    }
    Ok(Bytes::from(text))
}

/// Adds the line of a record.
fn add_record(text: &mut Vec<u8>, devices: &BytesList, filed: &Filed) -> Result<(), NoMemory>
    ensures { OnOk result (text.new.items ≡ text.old.items ++ record_line devices.now filed.now) }
{
    add_path(text, filed)?;
    text.extend_from_slice(b" ")?;
    add_names(text, devices, filed.done.as_slice())?;
    text.extend_from_slice(b"\n")?;
    Ok(())
}

/// Adds the path of a record's file.
fn add_path(text: &mut Vec<u8>, filed: &Filed) -> Result<(), NoMemory>
    ensures { OnOk result (text.new.items ≡ text.old.items ++ record_path filed.now) }
{
    let mut name = [0; NAME_ROOM];
    let end = write_name(&filed.key(), &mut name);
    text.extend_from_slice(folder(&filed.name.hash).as_slice())?;
    text.extend_from_slice(b"/")?;
    text.extend_from_slice(&name[..end])?;
    Ok(())
}

/// Adds the names of devices, or a hyphen.
fn add_names(text: &mut Vec<u8>, devices: &BytesList, done: &[u8]) -> Result<(), NoMemory>
    ensures { OnOk result (text.new.items ≡ text.old.items ++ names_text devices.now done.now) }
{
    let Some((first, rest)) = done.split_first() else {
        text.extend_from_slice(b"-")?;
        return Ok(());
    };
    text.extend_from_slice(device_name(devices, *first))?;
    for device in rest {
        text.extend_from_slice(b",")?;
        text.extend_from_slice(device_name(devices, *device))?;
    }
    Ok(())
}
