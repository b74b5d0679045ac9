ghost use Rattle.std.specs.Prelude.{◌≡◌, ◌<◌, ◌^◌, true, false, None, IsSome, IfOk, OnErr};
ghost use Rattle.sw_container_server.specs.Asking.{IsAsked, IsAskedBy, IsPlaced};
ghost use Rattle.sw_container_server.specs.Places.{IsKeeper, name_fault, place_in};
ghost use Rattle.sw_container_server.specs.Targets.{is_for_containers as is_for_containers_of, is_row as is_row_path, target_of as target_of_path};
ghost use Rattle.sw_container_server.specs.Targets.{verb_of as verb_of_method};

use crate::asked::ContAsked;
use crate::naming::place_of;
use crate::target::{Target, is_row, target_of};
use crate::verb::{Verb, verb_of};
use crate::verbs::read_verb;
use crate::verdict::Verdict;
use std::alloc::Global;
use sw_hashpath::{Place, partition};
use sw_message::Request;
use sw_object_server::has_number;
use sw_outside::NoMemory;
use sw_ring::{Ring, Which};

/// What a request for containers asks the nodes of a ring for, or the status that refuses it. Its body is passed over. No memory is taken of one that
/// its method refuses.
pub fn read_container_request(
    alloc: Global,
    ring: &Ring,
    request: &Request,
) -> Result<ContAsked, NoMemory>
    requires { is_for_containers_of request.now ≡ true }
    ensures asked { IfOk result (IsAsked ring.now request.now) }
    ensures placed { IfOk result (IsPlaced ring.now) }
    ensures starved { OnErr result (IsSome (verb_of_method (is_row_path request.now.path) request.now.method)) }
{
    let path = request.path.as_slice();
    match verb_of(is_row(path), &request.method) {
        Some(verb) => {
            let target = target_of(alloc, path)?;
            read_target(alloc, ring, verb, target, request)
        }
        None => Ok(ContAsked::Refused(405)),
    }
}

/// A request with this verb and target.
fn read_target(
    alloc: Global,
    ring: &Ring,
    verb: Verb,
    target: Target,
    request: &Request,
) -> Result<ContAsked, NoMemory>
    ensures { IfOk result (IsAskedBy ring.now target request.now verb) }
{
    match place_of(alloc, ring, verb, &target)? {
        Some(place) => read_place(alloc, ring, verb, target, place, request),
        None => Ok(ContAsked::Refused(400)),
    }
}

/// A request whose target names this place.
fn read_place(
    alloc: Global,
    ring: &Ring,
    verb: Verb,
    target: Target,
    place: Place,
    request: &Request,
) -> Result<ContAsked, NoMemory>
    requires good { name_fault verb target ≡ None }
    requires place { place ≡ place_in ring.now target }
    ensures { IfOk result (IsAskedBy ring.now target request.now verb) }
{
    let Some(device) = ring.device(target.device.as_slice()) else {
        return Ok(ContAsked::Refused(404));
    };
    let part = partition(&place.hash, ring.power);
    if !has_number(target.partition.as_slice(), part) {
        return Ok(ContAsked::Refused(400));
    }
    if !keeps(ring, part, device) {
        return Ok(ContAsked::Refused(404));
    }
    match read_verb(alloc, ring, verb, target.object, request)? {
        Verdict::Refused(status) => Ok(ContAsked::Refused(status)),
        Verdict::Change(change) => Ok(ContAsked::Change {
            device,
            place,
            change,
        }),
        Verdict::Info { replica } => Ok(ContAsked::Info {
            device,
            place,
            replica,
        }),
        Verdict::List { query, replica } => Ok(ContAsked::List {
            device,
            place,
            query,
            replica,
        }),
    }
}

/// Whether the device keeps the containers of the partition.
fn keeps(ring: &Ring, part: u32, device: u8) -> bool
    requires { part < 2 ^ ring.now.power }
    ensures yes { result ≡ true → IsKeeper ring.now part device }
    ensures no { result ≡ false → ¬ (IsKeeper ring.now part device) }
{
    ring.row(Which::Container, part).contains(&device)
}
