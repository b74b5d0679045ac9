ghost use Rattle.std.specs.Prelude.{◌≡◌, None, IfOk, OnErr};
ghost use Rattle.sw_object_server.specs.Targets.{parts_of as parts_of_path};
ghost use Rattle.sw_object_server.specs.Asking.{IsAsked};
ghost use Rattle.sw_object_server.specs.Requirements.{HasVerb, IsForObjects};
ghost use Rattle.sw_object_server.specs.Reading.{AsksDevice, AsksName, Deletes, IsTimed, IsVerdict, Posts, Puts};
ghost use Rattle.sw_object_server.specs.Memory.{TakesAtName, TakesMemory};
ghost use Rattle.sw_object_server.specs.Places.{IsHashed, IsPlaced, name_fault};
ghost use Rattle.sw_object_server.specs.declared.verb.Verb.TheVariants as verbs;

use crate::asked::Asked;
use crate::partitions::has_number;
use crate::posting::{read_delete, read_post};
use crate::putting::read_put;
use crate::target::{Parts, is_for_objects, parts_of};
use crate::verb::{Verb, verb_of};
use crate::verdict::Verdict;
use std::alloc::Global;
use sw_fields::time_of;
use sw_hashpath::{Name, NameError, partition};
use sw_message::Request;
use sw_outside::NoMemory;
use sw_ring::Ring;

/// What a request asks the nodes of a ring for, or the status that refuses it. Its body is moved, and nothing of it copied.
///
/// A request whose path has fewer than five segments, or that is a container's row, isn't this server's, and is refused as a bad one.
/// Such a refusal, and that of another method, takes no memory.
pub fn read_request(alloc: Global, ring: &Ring, request: Request) -> Result<Asked, NoMemory>
    ensures asked { IfOk result (IsAsked ring.now request) }
    ensures placed { IfOk result (IsPlaced ring.now) }
    ensures err { OnErr result (IsForObjects request × HasVerb request) }
{
    if !is_for_objects(&request) {
        return Ok(Asked::Refused(400));
    }
    match verb_of(&request.method) {
        Some(verb) => read_target(alloc, ring, verb, request),
        None => Ok(Asked::Refused(405)),
    }
}

/// A request with this verb.
fn read_target(alloc: Global, ring: &Ring, verb: Verb, request: Request) -> Result<Asked, NoMemory>
    ensures asked { IfOk result (AsksName ring.now (parts_of_path request.path) request verb) }
    ensures placed { IfOk result (IsPlaced ring.now) }
{
    let parts = parts_of(alloc, request.path.as_slice())?;
    read_parts(alloc, ring, &parts, verb, request)
}

/// A request of these segments. Memory is taken only over good names.
fn read_parts(
    alloc: Global,
    ring: &Ring,
    parts: &Parts,
    verb: Verb,
    request: Request,
) -> Result<Asked, NoMemory>
    ensures asked { IfOk result (AsksName ring.now parts.now request verb) }
    ensures placed { IfOk result (IsPlaced ring.now) }
    ensures for_named { OnErr result (name_fault parts.now ≡ None) }
{
    let (account, container) = (parts.account.as_slice(), parts.container.as_slice());
    match Name::new(
        alloc,
        &ring.secrets,
        account,
        container,
        parts.object.as_slice(),
    ) {
        Ok(name) => read_name(alloc, ring, parts, verb, name, request),
        Err(NameError::Bad(_)) => Ok(Asked::Refused(400)),
        Err(NameError::NoMemory) => Err(NoMemory),
    }
}

/// A request of this name.
fn read_name(
    alloc: Global,
    ring: &Ring,
    parts: &Parts,
    verb: Verb,
    name: Name,
    request: Request,
) -> Result<Asked, NoMemory>
    requires { IsHashed ring.now name }
    ensures asked { IfOk result (AsksDevice ring.now parts.now verb name request) }
    ensures placed { IfOk result (IsPlaced ring.now) }
    ensures for_some { OnErr result (TakesAtName ring.now parts.now verb name request) }
{
    let Some(device) = ring.device(parts.device.as_slice()) else {
        return Ok(Asked::Refused(404));
    };
    if !has_number(
        parts.partition.as_slice(),
        partition(&name.hash, ring.power),
    ) {
        return Ok(Asked::Refused(400));
    }
    match read_verb(alloc, verb, &name, request)? {
        Verdict::Refused(status) => Ok(Asked::Refused(status)),
        Verdict::Change(change) => Ok(Asked::Change {
            device,
            name,
            change,
        }),
        Verdict::Read { head_only } => Ok(Asked::Read {
            device,
            name,
            head_only,
        }),
    }
}

/// What the verb asks for at this name.
fn read_verb(alloc: Global, verb: Verb, name: &Name, request: Request) -> Result<Verdict, NoMemory>
    ensures verdict { IfOk result (IsVerdict verb name.now request) }
    ensures for_some { OnErr result (TakesMemory verb name.now request) }
{
    match verb {
        Verb::Get => Ok(Verdict::Read { head_only: false }),
        Verb::Head => Ok(Verdict::Read { head_only: true }),
        Verb::Put => timed_put(alloc, name, request),
        Verb::Post => timed_post(alloc, name, &request),
        Verb::Delete => Ok(timed_delete(&request)),
    }
}

fn timed_put(alloc: Global, name: &Name, request: Request) -> Result<Verdict, NoMemory>
    ensures timed { IfOk result (IsTimed request.fields (Puts name.now request)) }
    ensures for_content { OnErr result (TakesMemory verbs.Put name.now request) }
{
    match time_of(&request.fields) {
        Some(time) => read_put(alloc, time, name, request),
        None => Ok(Verdict::Refused(400)),
    }
}

fn timed_post(alloc: Global, name: &Name, request: &Request) -> Result<Verdict, NoMemory>
    ensures timed { IfOk result (IsTimed request.now.fields (Posts name.now request.now)) }
    ensures for_items { OnErr result (TakesMemory verbs.Post name.now request.now) }
{
    match time_of(&request.fields) {
        Some(time) => read_post(alloc, time, name, request),
        None => Ok(Verdict::Refused(400)),
    }
}

fn timed_delete(request: &Request) -> Verdict
    ensures { IsTimed request.now.fields (Deletes request.now) result }
{
    match time_of(&request.fields) {
        Some(time) => read_delete(time, request),
        None => Verdict::Refused(400),
    }
}
