ghost use Rattle.std.specs.Prelude.{◌≡◌, ◌∷◌, List, [], codes, drop, map, nat_eq, true, IfOk, OnErr};
ghost use Rattle.std.specs.List.{slice_split, starts_with};
ghost use Rattle.sw_message.specs.declared.fields.Field.{Field};
ghost use Rattle.sw_object_server.specs.Targets.{is_slash};
ghost use Rattle.sw_control.specs.Asking.{IsAsked, IsControl, IsPlaced, is_control as is_control_path, segments_of};

use crate::cleaving::{Cleaving, cleaving_of};
use crate::replication::{Replication, replication_of};
use crate::row_push::{RowPush, row_push_of};
use crate::shard_creation::{ShardCreation, shard_creation_of};
use crate::shards_read::{ShardsRead, shards_read_of};
use crate::update::{Update, update_of};
use std::alloc::{AllocError, Global};
use sw_message::{FieldList, Request};
use sw_object_server::{at_slash, decoded};
use sw_outside::{Bytes, NoMemory};
use sw_ring::Ring;

/// What a control request asks for. A device is its place in the ring's list of devices.
#[derive(Debug, Drop)]
pub enum Control {
    /// The trail of the session so far.
    Trail,
    /// The files of a device.
    Files(u8),
    /// The records of a device that wait for an update.
    Pending(u8),
    /// A restart of a device.
    Restart(u8),
    /// A push of a partition from one device to another.
    Replicate(Replication),
    /// A push of the rows of a container from one device to another.
    PushRows(RowPush),
    /// An update of the containers, by the records of a device.
    Update(Update),
    /// A creation of the shards of a container.
    CreateShards(ShardCreation),
    /// A cleaving of a container: the rows of one range go to their shard.
    Cleave(Cleaving),
    /// The shard ranges that a container has at a device.
    Shards(ShardsRead),
    /// Nothing that is known: a 400.
    Refused,
}

/// Whether a path is that of a control request: its first segment says so. Text without a slash in front takes no memory.
pub fn is_control(alloc: Global, path: &Bytes) -> Result<bool, NoMemory>
    ensures value { IfOk result (λ is. is ≡ is_control_path path.now) }
    ensures err { OnErr result (starts_with nat_eq path.now (codes "/") ≡ true) }
{
    let path = path.as_slice();
    if !path.starts_with(b"/") {
        return Ok(false);
    }
    let (first, _) = at_slash(behind_first(path));
    let word = decoded(alloc, first)?;
    Ok(word.as_slice() == b".swc".as_slice())
}

/// What a control request asks for. A query is passed over.
pub fn read_control(alloc: Global, ring: &Ring, request: &Request) -> Result<Control, NoMemory>
    ensures exact { IfOk result (IsControl ring.now request.now) }
    ensures placed { IfOk result (IsPlaced ring.now) }
{
    let words = words_of(alloc, request.path.as_slice())?;
    asked(alloc, ring, request, &words)
}

/// What a request with these words behind its method asks for.
fn asked(
    alloc: Global,
    ring: &Ring,
    request: &Request,
    words: &[Bytes],
) -> Result<Control, NoMemory>
    ensures asked { IfOk result (IsAsked ring.now (request.now.method ∷ words.now) request.now.fields) }
    ensures placed { IfOk result (IsPlaced ring.now) }
{
    let method = request.method.as_str();
    match words {
        [word] if method == "GET" && word.as_slice() == b"trail".as_slice() => Ok(Control::Trail),
        [word, device] => {
            Ok(of_device(
                ring,
                method,
                word.as_slice(),
                device.as_slice(),
                &request.fields,
            ))
        }
        [word, first, second, third] => of_three(
            alloc,
            ring,
            method,
            word.as_slice(),
            first.as_slice(),
            second.as_slice(),
            third.as_slice(),
            &request.fields,
        ),
        [word, first, second, third, fourth] => of_four(
            alloc,
            ring,
            method,
            word.as_slice(),
            first.as_slice(),
            second.as_slice(),
            third.as_slice(),
            fourth.as_slice(),
            &request.fields,
        ),
        _ => Ok(Control::Refused),
    }
}

/// What a word, the name of a device and the fields ask for.
fn of_device(ring: &Ring, method: &str, word: &[u8], device: &[u8], fields: &FieldList) -> Control
    ensures asked { IsAsked ring.now (method.now ∷ word.now ∷ device.now ∷ []) fields.now result }
    ensures placed { IsPlaced ring.now result }
{
    if method == "POST" && word == b"update".as_slice() {
        return of_update(ring, device, fields);
    }
    let Some(device) = ring.device(device) else {
        return Control::Refused;
    };
    if method == "GET" && word == b"files".as_slice() {
        Control::Files(device)
    } else if method == "GET" && word == b"pending".as_slice() {
        Control::Pending(device)
    } else if method == "POST" && word == b"restart".as_slice() {
        Control::Restart(device)
    } else {
        Control::Refused
    }
}

/// What a word, three more and the fields ask for.
fn of_three(
    alloc: Global,
    ring: &Ring,
    method: &str,
    word: &[u8],
    first: &[u8],
    second: &[u8],
    third: &[u8],
    fields: &FieldList,
) -> Result<Control, NoMemory>
    ensures asked { IfOk result (IsAsked ring.now (method.now ∷ word.now ∷ first.now ∷ second.now ∷ third.now ∷ []) fields.now) }
    ensures placed { IfOk result (IsPlaced ring.now) }
{
    if method == "POST" && word == b"replicate".as_slice() {
        Ok(of_push(ring, first, second, third, fields))
    } else if method == "POST" && word == b"cleave".as_slice() {
        of_cleaving(alloc, ring, first, second, third, fields)
    } else if method == "GET" && word == b"shards".as_slice() {
        of_shards(alloc, ring, first, second, third)
    } else {
        Ok(Control::Refused)
    }
}

/// What a word, four more and the fields ask for.
fn of_four(
    alloc: Global,
    ring: &Ring,
    method: &str,
    word: &[u8],
    first: &[u8],
    second: &[u8],
    third: &[u8],
    fourth: &[u8],
    fields: &FieldList,
) -> Result<Control, NoMemory>
    ensures asked { IfOk result (IsAsked ring.now (method.now ∷ word.now ∷ first.now ∷ second.now ∷ third.now ∷ fourth.now ∷ []) fields.now) }
    ensures placed { IfOk result (IsPlaced ring.now) }
{
    if method == "POST" && word == b"rows".as_slice() {
        of_rows(alloc, ring, first, second, third, fourth, fields)
    } else if method == "POST" && word == b"ranges".as_slice() {
        of_ranges(alloc, ring, first, second, third, fourth, fields)
    } else {
        Ok(Control::Refused)
    }
}

/// What the name of a device and the fields ask for behind the words of an update.
fn of_update(ring: &Ring, device: &[u8], fields: &FieldList) -> Control
    ensures asked { IsAsked ring.now (codes "POST" ∷ codes "update" ∷ device.now ∷ []) fields.now result }
    ensures placed { IsPlaced ring.now result }
{
    match update_of(ring, device, fields) {
        Some(update) => Control::Update(update),
        None => Control::Refused,
    }
}

/// What the names of two devices, the number of a partition and the fields ask for behind the words of a push.
fn of_push(ring: &Ring, from: &[u8], to: &[u8], part: &[u8], fields: &FieldList) -> Control
    ensures asked { IsAsked ring.now (codes "POST" ∷ codes "replicate" ∷ from.now ∷ to.now ∷ part.now ∷ []) fields.now result }
    ensures placed { IsPlaced ring.now result }
{
    match replication_of(ring, from, to, part, fields) {
        Some(replication) => Control::Replicate(replication),
        None => Control::Refused,
    }
}

/// What the names of two devices, those of a container and the fields ask for behind the words of a push of rows.
fn of_rows(
    alloc: Global,
    ring: &Ring,
    from: &[u8],
    to: &[u8],
    account: &[u8],
    container: &[u8],
    fields: &FieldList,
) -> Result<Control, NoMemory>
    ensures asked { IfOk result (IsAsked ring.now (codes "POST" ∷ codes "rows" ∷ from.now ∷ to.now ∷ account.now ∷ container.now ∷ []) fields.now) }
    ensures placed { IfOk result (IsPlaced ring.now) }
{
    match row_push_of(alloc, ring, from, to, account, container, fields)? {
        Some(push) => Ok(Control::PushRows(push)),
        None => Ok(Control::Refused),
    }
}

/// What the name of a device, those of a container, a number and the fields ask for behind the words of a creation of shards.
fn of_ranges(
    alloc: Global,
    ring: &Ring,
    device: &[u8],
    account: &[u8],
    container: &[u8],
    per_shard: &[u8],
    fields: &FieldList,
) -> Result<Control, NoMemory>
    ensures asked { IfOk result (IsAsked ring.now
        (codes "POST" ∷ codes "ranges" ∷ device.now ∷ account.now ∷ container.now ∷ per_shard.now ∷ []) fields.now) }
    ensures placed { IfOk result (IsPlaced ring.now) }
{
    match shard_creation_of(alloc, ring, device, account, container, per_shard, fields)? {
        Some(creation) => Ok(Control::CreateShards(creation)),
        None => Ok(Control::Refused),
    }
}

/// What the name of a device, those of a container and the fields ask for behind the words of a cleaving.
fn of_cleaving(
    alloc: Global,
    ring: &Ring,
    device: &[u8],
    account: &[u8],
    container: &[u8],
    fields: &FieldList,
) -> Result<Control, NoMemory>
    ensures asked { IfOk result (IsAsked ring.now (codes "POST" ∷ codes "cleave" ∷ device.now ∷ account.now ∷ container.now ∷ []) fields.now) }
    ensures placed { IfOk result (IsPlaced ring.now) }
{
    match cleaving_of(alloc, ring, device, account, container, fields)? {
        Some(cleaving) => Ok(Control::Cleave(cleaving)),
        None => Ok(Control::Refused),
    }
}

/// What the name of a device and those of a container ask for behind the words of a read of ranges, whatever the fields.
fn of_shards(
    alloc: Global,
    ring: &Ring,
    device: &[u8],
    account: &[u8],
    container: &[u8],
) -> Result<Control, NoMemory>
    ensures asked { IfOk result (λ asked. (fields : List Field)
        → IsAsked ring.now (codes "GET" ∷ codes "shards" ∷ device.now ∷ account.now ∷ container.now ∷ []) fields asked) }
    ensures placed { IfOk result (IsPlaced ring.now) }
{
    match shards_read_of(alloc, ring, device, account, container)? {
        Some(read) => Ok(Control::Shards(read)),
        None => Ok(Control::Refused),
    }
}

/// What the segments of a path behind its first one say.
fn words_of(alloc: Global, path: &[u8]) -> Result<Vec<Bytes>, NoMemory>
    ensures { IfOk result (λ words. words.items ≡ segments_of path.now) }
{
    let (_, behind) = at_slash(behind_first(path));
    let segments = segments(alloc, behind)?;
    let mut words = Vec::with_capacity(alloc, segments.len())?;
    for segment in &segments {
        words.push(decoded(alloc, segment)?)?;
    }
    Ok(words)
}

/// The segments of a text, as they stand.
fn segments(alloc: Global, text: &[u8]) -> Result<Vec<&[u8]>, AllocError>
    ensures { IfOk result (λ segments. map (λ segment. segment.now) segments.items ≡ slice_split is_slash text.now) }
{
    text.split(|byte| *byte == b'/').collect(alloc)
}

/// The text behind its first byte, where there is one.
fn behind_first(text: &[u8]) -> &[u8]
    ensures { result.now ≡ drop 1 text.now }
{
    &text[text.len().min(1)..]
}
