ghost use Rattle.std.specs.Prelude.{◌≡◌, ◌≤◌, ◌<◌, ◌^◌, true, length, IfOk, OnErr};
ghost use Rattle.sw_object_server.specs.Serving.{IsStepped};
ghost use Rattle.sw_peer.specs.Sights.{IsFilesRead};
ghost use Rattle.sw_peer.specs.declared.link.Link.TheVariants.{Local};
ghost use Rattle.sw_replica_server.specs.Serving.{AreRead, AreSomeRead, IsAnswered, IsFilesLeft, IsFilesServed, IsGivenUp, IsHashesLeft, IsHashesServed};
ghost use Rattle.sw_replica_server.specs.Serving.{IsLeft, IsReached, IsServed};
ghost use Rattle.sw_replica_server.specs.Targets.{is_replication_of};

use crate::asked::ReplicaAsked;
use crate::reading::read_replication;
use crate::replies::{files_reply, hashes_reply};
use crate::suffix_list::SuffixList;
use std::alloc::Global;
use sw_message::{Request, Response};
use sw_object_server::bare;
use sw_object_steps::DirFault;
use sw_outside::NoMemory;
use sw_peer::{Link, Lost, ReplicaDoor};
use sw_ring::Ring;
use sw_suffix::DirLine;

/// Answers one request for replicas: reads at the device itself what it asks for, and replies with what was told; or refuses it, and leaves the
/// door as it was. The files of several suffixes are read one suffix after the other, and the first read that fails ends them.
///
/// The door reaches a node for each device of the ring, and has the ring's partitions. After [`NoMemory`] the door wasn't called, or was called
/// for what is asked for or some first reads of that; its reply is 500.
pub fn answer<D: ReplicaDoor>(
    alloc: Global,
    door: &mut D,
    ring: &Ring,
    request: &Request,
) -> Result<Response, NoMemory>
    requires is_replication { is_replication_of request.now ≡ true }
    requires devices { length ring.now.devices ≤ (D.sight door.old).nodes.devices }
    requires power { ring.now.power ≡ (D.sight door.old).nodes.power }
    ensures ok { IfOk result (IsAnswered D.sight door.old door.new ring.now request.now) }
    ensures err { OnErr result (IsGivenUp D.sight door.old door.new ring.now request.now) }
{
    let asked = read_replication(alloc, ring, request)?;
    serve(alloc, door, asked)
}

/// Reads what is asked for, and replies with what was told. A refusal takes no memory.
fn serve<D: ReplicaDoor>(
    alloc: Global,
    door: &mut D,
    asked: ReplicaAsked,
) -> Result<Response, NoMemory>
    requires { IsReached (D.sight door.old).nodes asked }
    ensures ok { IfOk result (IsServed D.sight door.old door.new asked) }
    ensures err { OnErr result (IsLeft (D.sight door.old) (D.sight door.new) asked) }
{
    match asked {
        ReplicaAsked::Refused(status) => Ok(bare(alloc, status)),
        ReplicaAsked::Hashes { device, part } => show_hashes(alloc, door, device, part),
        ReplicaAsked::Files {
            device,
            part,
            suffixes,
        } => show_files(alloc, door, device, part, &suffixes),
    }
}

/// Reads what is compared of the partition, and replies with it.
fn show_hashes<D: ReplicaDoor>(
    alloc: Global,
    door: &mut D,
    device: u8,
    part: u32,
) -> Result<Response, NoMemory>
    requires device { device < (D.sight door.old).nodes.devices }
    requires part { part < 2 ^ (D.sight door.old).nodes.power }
    ensures ok { IfOk result (IsHashesServed (D.sight door.old) (D.sight door.new) device part) }
    ensures err { OnErr result (IsHashesLeft (D.sight door.old) (D.sight door.new) device part) }
{
    match door.hashes(alloc, Link::Local, device, part) {
        Ok(got) => hashes_reply(alloc, &got),
        Err(Lost) => unreachable!(),
    }
}

/// Reads the files of the suffixes, and replies with them.
fn show_files<D: ReplicaDoor>(
    alloc: Global,
    door: &mut D,
    device: u8,
    part: u32,
    suffixes: &SuffixList,
) -> Result<Response, NoMemory>
    requires device { device < (D.sight door.old).nodes.devices }
    requires part { part < 2 ^ (D.sight door.old).nodes.power }
    ensures ok { IfOk result (IsFilesServed (D.sight door.old) (D.sight door.new) device part suffixes.now) }
    ensures err { OnErr result (IsFilesLeft (D.sight door.old) (D.sight door.new) device part suffixes.now) }
{
    let got = read_files(alloc, door, device, part, suffixes)?;
    files_reply(alloc, &got)
}

/// The files of these suffixes, or why the first read failed that did.
fn read_files<D: ReplicaDoor>(
    alloc: Global,
    door: &mut D,
    device: u8,
    part: u32,
    suffixes: &SuffixList,
) -> Result<Result<Vec<DirLine>, DirFault>, NoMemory>
    requires device { device < (D.sight door.old).nodes.devices }
    requires part { part < 2 ^ (D.sight door.old).nodes.power }
    ensures ok { IfOk result (λ got. AreRead device part suffixes.now (D.sight door.old) got (D.sight door.new)) }
    ensures err { OnErr result (AreSomeRead device part suffixes.now (D.sight door.old) (D.sight door.new)) }
{
    let mut lines = Vec::new(alloc);
    for suffix in suffixes.as_slice() {
        match read_suffix(alloc, door, device, part, *suffix) {
            Ok(more) => lines.extend_from_slice(&more)?,
            Err(fault) => return Ok(Err(fault)),
        }
    }
    Ok(Ok(lines))
}

/// The files of a suffix, read at the device itself.
fn read_suffix<D: ReplicaDoor>(
    alloc: Global,
    door: &mut D,
    device: u8,
    part: u32,
    suffix: u16,
) -> Result<Vec<DirLine>, DirFault>
    requires device { device < (D.sight door.old).nodes.devices }
    requires part { part < 2 ^ (D.sight door.old).nodes.power }
    requires suffix { suffix < 4096 }
    ensures { IsStepped (IsFilesRead Local device part suffix) (D.sight door.old) result (D.sight door.new) }
{
    match door.files_of(alloc, Link::Local, device, part, suffix) {
        Ok(got) => got,
        Err(Lost) => unreachable!(),
    }
}
