ghost use Rattle.std.specs.Prelude.{◌≡◌, ◌+◌, ◌≤◌, ◌++◌, codes, length, decimal, IfOk, OnOk};
ghost use Rattle.sw_ring.specs.Tables.{data_of};
ghost use Rattle.sw_store.specs.Layouts.{device_lines, digest_text, layout_text, line};

use itoa::Buffer;
use md5::{Digest, Md5};
use std::alloc::{AllocError, Global};
use sw_outside::{Bytes, NoMemory};
use sw_ring::{Ring, RingError};

/// What a ring says of where things are, as the folder of a node keeps it: a text, how many devices and locks of each there are, and that there are 2 to the
/// `power` partitions.
#[derive(Debug, Drop)]
pub struct Layout {
    pub text: Vec<u8>,
    pub devices: u8,
    pub stripes: u8,
    pub power: u8,
    pub ghost least_power: { 1 ≤ power },
    pub ghost greatest_power: { power ≤ 16 },
}

impl Layout {
    ghost use Rattle.sw_store.specs.LayoutOf.{IsLayout, IsLayoutIn};

    /// That of the ring that a text is, or `None` where it is none.
    pub fn read(alloc: Global, text: &[u8]) -> Result<Option<Layout>, NoMemory>
        ensures { IfOk result (λ found. IsLayoutIn found text.now) }
    {
        match sw_ring::read(alloc, text) {
            Ok(ring) => Ok(Some(Layout::of(alloc, &ring)?)),
            Err(RingError::Bad(_)) => Ok(None),
            Err(RingError::NoMemory) => Err(NoMemory),
        }
    }

    /// That of a ring.
    pub fn of(alloc: Global, ring: &Ring) -> Result<Layout, NoMemory>
        ensures { IfOk result (λ layout. IsLayout layout (data_of ring.now)) }
    {
        Ok(Layout {
            text: text_of(alloc, ring)?,
            devices: ring.devices.as_slice().len() as u8,
            stripes: 1 << ring.lock_bits,
            power: ring.power,
        })
    }
}

fn text_of(alloc: Global, ring: &Ring) -> Result<Vec<u8>, AllocError>
    ensures { IfOk result (λ text. text.items ≡ layout_text (data_of ring.now)) }
{
    let mut text = Vec::new(alloc);
    add_number(&mut text, b"swc-data", 1)?;
    add_number(&mut text, b"part_power", ring.power)?;
    add_number(&mut text, b"lock_bits", ring.lock_bits)?;
    add_digest(alloc, &mut text, b"hash_prefix_md5", &ring.secrets.prefix)?;
    add_digest(alloc, &mut text, b"hash_suffix_md5", &ring.secrets.suffix)?;
    add_devices(&mut text, 0, ring.devices.as_slice())?;
    Ok(text)
}

/// Adds a line: a word, a blank and a value.
fn add(text: &mut Vec<u8>, word: &[u8], value: &[u8]) -> Result<(), AllocError>
    ensures { OnOk result (text.new.items ≡ text.old.items ++ line word.now value.now) }
{
    text.extend_from_slice(word)?;
    text.extend_from_slice(b" ")?;
    text.extend_from_slice(value)?;
    text.extend_from_slice(b"\n")?;
    Ok(())
}

fn add_number(text: &mut Vec<u8>, word: &[u8], number: u8) -> Result<(), AllocError>
    ensures { OnOk result (text.new.items ≡ text.old.items ++ line word.now (decimal number)) }
{
    let mut digits = Buffer::new();
    add(text, word, digits.format(number).as_bytes())
}

/// Adds the MD5 of a secret, in place of the secret itself.
fn add_digest(
    alloc: Global,
    text: &mut Vec<u8>,
    word: &[u8],
    secret: &Bytes,
) -> Result<(), AllocError>
    ensures { OnOk result (text.new.items ≡ text.old.items ++ line word.now (digest_text secret.now)) }
{
    let digest = hex::encode(alloc, Md5::digest(secret.as_slice()))?;
    add(text, word, digest.as_bytes())
}

/// Adds a line for each device: its number in the ring, and its name.
#[tactic(auto, unfolding(crate::specs::Layouts::device_lines))]
fn add_devices(text: &mut Vec<u8>, number: u8, names: &[Bytes]) -> Result<(), AllocError>
    requires { number + length names.now ≤ 8 }
    ensures { OnOk result (text.new.items ≡ text.old.items ++ device_lines number names.now) }
{
    match names {
        [name, rest @ ..] => {
            add_device(text, number, name.as_slice())?;
            add_devices(text, number + 1, rest)
        }
        _ => Ok(()),
    }
}

fn add_device(text: &mut Vec<u8>, number: u8, name: &[u8]) -> Result<(), AllocError>
    ensures { OnOk result (text.new.items ≡ text.old.items ++ line (codes "device " ++ decimal number) name.now) }
{
    let mut digits = Buffer::new();
    text.extend_from_slice(b"device ")?;
    add(text, digits.format(number).as_bytes(), name)
}
