ghost use Rattle.std.specs.Prelude.{IfNone, IfSome};
ghost use Rattle.sw_control.specs.Passes.{IsUpdate};
ghost use Rattle.sw_control.specs.declared.update.Update.{Update};

use crate::pushing::acts_of;
use sw_lossy::Acts;
use sw_message::FieldList;
use sw_ring::Ring;

/// An update of the containers that is asked for, by the records of a device, which is its place in the ring's list of devices.
#[derive(Clone, Copy, Debug, PartialEq, Eq)]
pub struct Update {
    /// The device whose records are gone over.
    pub device: u8,
    /// Which of its messages fail.
    pub acts: Acts,
}

/// The update that the name of a device and the fields ask for, where they ask for one.
pub(crate) fn update_of(ring: &Ring, device: &[u8], fields: &FieldList) -> Option<Update>
    ensures asked { IfSome result (IsUpdate ring.now device.now fields.now) }
    ensures refused { IfNone result ((asked : Update) → ¬ IsUpdate ring.now device.now fields.now asked) }
{
    let device = ring.device(device)?;
    let acts = acts_of(fields).ok()?;
    Some(Update { device, acts })
}
