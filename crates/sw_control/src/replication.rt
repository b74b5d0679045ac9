ghost use Rattle.std.specs.Prelude.{IfNone, IfSome};
ghost use Rattle.sw_control.specs.Passes.{IsReplication};
ghost use Rattle.sw_control.specs.declared.replication.Replication.{Replication};

use crate::pushing::{acts_of, two_devices};
use sw_lossy::Acts;
use sw_message::FieldList;
use sw_object_server::partition_named;
use sw_ring::Ring;

/// A push of a partition that is asked for. Devices are places in the ring's list of devices.
#[derive(Clone, Copy, Debug, PartialEq, Eq)]
pub struct Replication {
    /// The device whose writes are pushed.
    pub from: u8,
    /// The device that they are pushed to, which is another one.
    pub to: u8,
    /// The partition that is pushed.
    pub part: u32,
    /// Which of its messages fail.
    pub acts: Acts,
}

/// The push that three words and the fields ask for, where they ask for one.
pub(crate) fn replication_of(
    ring: &Ring,
    from: &[u8],
    to: &[u8],
    part: &[u8],
    fields: &FieldList,
) -> Option<Replication>
    ensures asked { IfSome result (IsReplication ring.now from.now to.now part.now fields.now) }
    ensures refused { IfNone result ((asked : Replication) → ¬ IsReplication ring.now from.now to.now part.now fields.now asked) }
{
    let (from, to) = two_devices(ring, from, to)?;
    let part = partition_named(ring, part)?;
    let acts = acts_of(fields).ok()?;
    Some(Replication {
        from,
        to,
        part,
        acts,
    })
}
