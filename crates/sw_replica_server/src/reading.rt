ghost use Rattle.std.specs.Prelude.{◌≡◌, true, IfOk, OnErr};
ghost use Rattle.sw_replica_server.specs.Asking.{IsAsked, IsAskedBy, IsPlaced, TakesSuffixes};
ghost use Rattle.sw_replica_server.specs.Targets.{is_replication_of};

use crate::asked::ReplicaAsked;
use crate::suffixes::suffixes_named;
use crate::target::{Target, target_of};
use std::alloc::Global;
use sw_message::Request;
use sw_object_server::partition_named;
use sw_outside::NoMemory;
use sw_ring::Ring;

/// What a request for replicas asks the nodes of a ring for, or the status that refuses it. Its query and its body are passed over.
pub fn read_replication(
    alloc: Global,
    ring: &Ring,
    request: &Request,
) -> Result<ReplicaAsked, NoMemory>
    requires { is_replication_of request.now ≡ true }
    ensures exact { IfOk result (IsAsked ring.now request.now) }
    ensures placed { IfOk result (IsPlaced ring.now) }
{
    let target = target_of(alloc, request.path.as_slice())?;
    read_target(alloc, ring, &target)
}

/// What is asked for by what the segments of a path say.
fn read_target(alloc: Global, ring: &Ring, target: &Target) -> Result<ReplicaAsked, NoMemory>
    ensures exact { IfOk result (IsAskedBy ring.now target.now) }
    ensures placed { IfOk result (IsPlaced ring.now) }
    ensures for_suffixes { OnErr result (TakesSuffixes ring.now target.now) }
{
    let Some(device) = ring.device(target.device.as_slice()) else {
        return Ok(ReplicaAsked::Refused(404));
    };
    let Some(part) = partition_named(ring, target.partition.as_slice()) else {
        return Ok(ReplicaAsked::Refused(400));
    };
    let Some(text) = &target.suffixes else {
        return Ok(ReplicaAsked::Hashes { device, part });
    };
    match suffixes_named(alloc, text.as_slice())? {
        Some(suffixes) => Ok(ReplicaAsked::Files {
            device,
            part,
            suffixes,
        }),
        None => Ok(ReplicaAsked::Refused(400)),
    }
}
