ghost use Rattle.std.specs.Prelude.{◌≡◌, ◌++◌, ◌<◌, ◌^◌, None, Some, Err, IfOk, OnOk, IsSome, length, drop};
ghost use Rattle.std.specs.Option.{option_copied};
ghost use Rattle.sw_hashpath.specs.BadNames.{bad_name};
ghost use Rattle.sw_hashpath.specs.declared.bad_name.BadName.{BadName};
ghost use Rattle.sw_cluster.specs.Whereabouts.{devices_line, devices_text, hash_line, partition_line, row_text, spaced_name, suffix_line, where_lines};
ghost use Rattle.sw_cluster.specs.Whereabouts.{where_text as text_of_place};

use itoa::Buffer;
use std::alloc::{AllocError, Global};
use sw_hashpath::{NameError, hash_path, hex_text, partition};
use sw_outside::{Bytes, NoMemory};
use sw_ring::{Ring, Which};

/// Where a name is in a ring: four lines with its hash, its partition, its suffix and the devices that keep it, which are `-` for an
/// account. An object is given only with a container.
///
/// The error is the first thing that is wrong with the names, or want of memory.
pub fn where_text(
    alloc: Global,
    ring: &Ring,
    account: &[u8],
    container: Option<&[u8]>,
    object: Option<&[u8]>,
) -> Result<Bytes, NameError>
    requires { IsSome object → IsSome container }
    ensures text { IfOk result (λ text. text ≡ text_of_place ring.now account.now (option_copied container.entry) (option_copied object.entry)) }
    ensures good { OnOk result (bad_name account.now (option_copied container.entry) (option_copied object.entry) ≡ None) }
    ensures bad { (bad : BadName) → result ≡ Err (NameError.Bad bad) →
        bad_name account.now (option_copied container.entry) (option_copied object.entry) ≡ Some bad }
{
    let hash = match hash_path(&ring.secrets, account, container, object) {
        Ok(hash) => hash,
        Err(bad) => return Err(NameError::Bad(bad)),
    };
    let partition = partition(&hash, ring.power);
    match lines(alloc, ring, &hash, partition, container, object) {
        Ok(text) => Ok(Bytes::from(text)),
        Err(AllocError) => Err(NameError::NoMemory),
    }
}

fn lines(
    alloc: Global,
    ring: &Ring,
    hash: &[u8; 16],
    partition: u32,
    container: Option<&[u8]>,
    object: Option<&[u8]>,
) -> Result<Vec<u8>, AllocError>
    requires { partition < 2 ^ ring.now.power }
    ensures { IfOk result (λ text. text.items ≡ where_lines hash.now partition
        (devices_text ring.now partition (option_copied container.entry) (option_copied object.entry))) }
{
    let mut text = Vec::new(alloc);
    add_hash(&mut text, hash)?;
    add_partition(&mut text, partition)?;
    add_suffix(&mut text, hash)?;
    add_devices(alloc, &mut text, ring, partition, container, object)?;
    text.extend_from_slice(b"\n")?;
    Ok(text)
}

#[tactic(auto, unfolding(crate::specs::Whereabouts::hash_line))]
fn add_hash(text: &mut Vec<u8>, hash: &[u8; 16]) -> Result<(), AllocError>
    ensures { OnOk result (text.new.items ≡ text.old.items ++ hash_line hash.now) }
{
    add_line(text, b"hash ", &hex_text(hash))
}

#[tactic(auto, unfolding(crate::specs::Whereabouts::partition_line))]
fn add_partition(text: &mut Vec<u8>, partition: u32) -> Result<(), AllocError>
    ensures { OnOk result (text.new.items ≡ text.old.items ++ partition_line partition) }
{
    let mut buffer = Buffer::new();
    add_line(text, b"\npartition ", buffer.format(partition).as_bytes())
}

#[tactic(auto, unfolding(crate::specs::Whereabouts::suffix_line))]
fn add_suffix(text: &mut Vec<u8>, hash: &[u8; 16]) -> Result<(), AllocError>
    ensures { OnOk result (text.new.items ≡ text.old.items ++ suffix_line hash.now) }
{
    let digits = hex_text(hash);
    add_line(text, b"\nsuffix ", last_three(&digits))
}

fn last_three(digits: &[u8]) -> &[u8]
    requires { length digits.now ≡ 32 }
    ensures { result.now ≡ drop 29 digits.now }
{
    let (_, last) = digits.split_at(29);
    last
}

#[tactic(auto, unfolding(crate::specs::Whereabouts::devices_line))]
fn add_devices(
    alloc: Global,
    text: &mut Vec<u8>,
    ring: &Ring,
    partition: u32,
    container: Option<&[u8]>,
    object: Option<&[u8]>,
) -> Result<(), AllocError>
    requires { partition < 2 ^ ring.now.power }
    ensures { OnOk result (text.new.items ≡ text.old.items ++ devices_line
        (devices_text ring.now partition (option_copied container.entry) (option_copied object.entry))) }
{
    let devices = devices_of(alloc, ring, partition, container, object)?;
    add_line(text, b"\ndevices", &devices)
}

/// Adds a label and its value.
fn add_line(text: &mut Vec<u8>, label: &[u8], value: &[u8]) -> Result<(), AllocError>
    ensures { OnOk result (text.new.items ≡ text.old.items ++ (label.now ++ value.now)) }
{
    text.extend_from_slice(label)?;
    text.extend_from_slice(value)
}

/// The devices that keep a name, each with a space before it: those of the object table for an object, of the container table for
/// a container.
fn devices_of(
    alloc: Global,
    ring: &Ring,
    partition: u32,
    container: Option<&[u8]>,
    object: Option<&[u8]>,
) -> Result<Vec<u8>, AllocError>
    requires { partition < 2 ^ ring.now.power }
    ensures { IfOk result (λ text. text.items ≡ devices_text ring.now partition (option_copied container.entry) (option_copied object.entry)) }
{
    let mut text = Vec::new(alloc);
    if object.is_some() {
        add_row(&mut text, ring, Which::Object, partition)?;
    } else if container.is_some() {
        add_row(&mut text, ring, Which::Container, partition)?;
    } else {
        text.extend_from_slice(b" -")?;
    }
    Ok(text)
}

/// Adds the names of the devices of a row, each with a space before it.
fn add_row(text: &mut Vec<u8>, ring: &Ring, which: Which, partition: u32) -> Result<(), AllocError>
    requires { partition < 2 ^ ring.now.power }
    ensures { OnOk result (text.new.items ≡ text.old.items ++ row_text ring.now which partition) }
{
    let row = ring.row(which, partition);
    for device in row {
        add_name(text, ring, *device)?;
    }
    Ok(())
}

/// Adds the name of a device, with a space before it.
fn add_name(text: &mut Vec<u8>, ring: &Ring, device: u8) -> Result<(), AllocError>
    requires { device < length ring.now.devices }
    ensures { OnOk result (text.new.items ≡ text.old.items ++ spaced_name ring.now device) }
{
    text.extend_from_slice(b" ")?;
    text.extend_from_slice(ring.devices.as_slice()[device as usize].as_slice())
}
