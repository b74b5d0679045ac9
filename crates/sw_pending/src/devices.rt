ghost use Rattle.std.specs.Prelude.{◌≡◌, true, IfOk, map};
ghost use Rattle.std.specs.List.{slice_split};
ghost use Rattle.sw_metafile.specs.Reading.{Finds};
ghost use Rattle.sw_pending.specs.Reading.{device_of, devices_of, each_device, is_comma};
ghost use Rattle.sw_pending.specs.Rules.{are_in_order};

use crate::filed::{DeviceList, Filed};
use std::alloc::Global;
use sw_hashpath::{BadFile, DecodeError};
use sw_metafile::delete_time_of;
use sw_outside::NoMemory;

/// The devices whose numbers this text is, in order, each once. Where it is no such text, the fault is in a field.
#[tactic(auto, unfolding(crate::specs::Reading::devices_of))]
pub(crate) fn read_devices(alloc: Global, text: &[u8]) -> Result<DeviceList, DecodeError>
    ensures found { Finds (λ devices. devices) result (devices_of text.now) }
    ensures order { IfOk result (λ devices. are_in_order devices ≡ true) }
{
    if text == b"-".as_slice() {
        return Ok(DeviceList::new(alloc));
    }
    let pieces = pieces(alloc, text)?;
    let devices = each_device(alloc, &pieces)?;
    if !Filed::are_in_order(devices.as_slice()) {
        return Err(DecodeError::Bad(BadFile::Field));
    }
    Ok(devices)
}

/// The text as it is cut at its commas.
fn pieces(alloc: Global, text: &[u8]) -> Result<Vec<&[u8]>, NoMemory>
    ensures { IfOk result (λ pieces. map (λ piece. piece.now) pieces.items ≡ slice_split is_comma text.now) }
{
    Ok(text.split(|byte| *byte == b',').collect(alloc)?)
}

/// Each of these texts as a device's number.
fn each_device(alloc: Global, texts: &[&[u8]]) -> Result<DeviceList, DecodeError>
    ensures { Finds (λ devices. devices) result (each_device (map (λ text. text.now) texts.now)) }
{
    let mut devices = DeviceList::new(alloc);
    for text in texts {
        let Some(device) = device_of(text) else {
            return Err(DecodeError::Bad(BadFile::Field));
        };
        devices.push(device)?;
    }
    Ok(devices)
}

/// The device whose number this text is. Its digits are read as those of an expiry, which may have more of them.
#[tactic(auto, unfolding(crate::specs::Reading::device_of))]
fn device_of(text: &[u8]) -> Option<u8>
    ensures { result ≡ device_of text.now }
{
    let number = delete_time_of(text)?;
    u8::try_from(number).ok()
}
