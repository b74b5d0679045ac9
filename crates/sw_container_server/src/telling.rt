ghost use Rattle.std.specs.Prelude.{◌≡◌, true, decimal, IfOk, OnErr};
ghost use Rattle.sw_container_server.specs.Replies.{IsListingReply, IsListingText, hash_text as hash_text_of, head_reply as head_reply_of};
ghost use Rattle.sw_container_server.specs.Replies.{info_reply as info_reply_of, shown_listing, takes_memory, told_fields as told_fields_of};
ghost use Rattle.sw_container_server.specs.Replies.{split_text as split_text_of, type_text as type_text_of};

use crate::replies::reply_to;
use itoa::Buffer;
use std::alloc::Global;
use sw_container_steps::{ContAnswer, Info, SplitState};
use sw_hashpath::hex_text;
use sw_listing::{Entries, to_text};
use sw_listing_json::to_json;
use sw_message::{Field, FieldList, ReplyBody, Response};
use sw_object_server::{field, time_text};
use sw_outside::{Bytes, NoMemory};

/// What a read that was made is answered stands in its reply already, so this status is in none: only refusals of a read are told by an answer.
const READ: u16 = 204;

/// The reply to a HEAD that was told this of its container, or why nothing was. It is the reply to a GET too where nothing was told.
pub fn info_reply(alloc: Global, told: Result<Info, ContAnswer>) -> Result<Response, NoMemory>
    ensures ok { IfOk result (λ response. response ≡ info_reply_of told) }
    ensures err { OnErr result (takes_memory told ≡ true) }
{
    match told {
        Ok(info) => head_reply(alloc, &info),
        Err(answer) => reply_to(alloc, READ, &answer),
    }
}

fn head_reply(alloc: Global, info: &Info) -> Result<Response, NoMemory>
    ensures { IfOk result (λ response. response ≡ head_reply_of info.now) }
{
    let mut fields = told_fields(alloc, info)?;
    fields.push(field(alloc, b"X-Swc-Hash", &hash_text(info.hash))?)?;
    Ok(Response {
        status: 204,
        fields: FieldList::from(fields),
        body: ReplyBody::Whole(Bytes::from(Vec::new(alloc))),
    })
}

/// The digits of the hash of a container's rows.
fn hash_text(hash: u128) -> [u8; 32]
    ensures { result ≡ hash_text_of hash }
{
    hex_text(&hash.to_be_bytes())
}

/// The reply to a GET that was told this of its container and then these entries, or why they weren't; as JSON, or as plain text.
///
/// The two were read one after the other: a step between them may have changed the container, and the fields are then those from before it. The
/// text is written once.
pub fn listing_reply(
    alloc: Global,
    json: bool,
    info: &Info,
    listed: &Result<Entries, ContAnswer>,
) -> Result<Response, NoMemory>
    ensures ok { IfOk result (IsListingReply json info.now listed.now) }
    ensures err { OnErr result (takes_memory listed.now ≡ true) }
{
    match listed {
        Ok(entries) => {
            let text = listing_text(alloc, json, entries)?;
            show(alloc, json, info, text)
        }
        Err(answer) => reply_to(alloc, READ, answer),
    }
}

/// The text of a listing.
fn listing_text(alloc: Global, json: bool, entries: &Entries) -> Result<Bytes, NoMemory>
    ensures { IfOk result (IsListingText json entries.now) }
{
    if json {
        to_json(alloc, entries)
    } else {
        to_text(alloc, entries)
    }
}

/// The reply that shows a listing's text, which is moved into it. A plain text that is empty isn't shown.
fn show(alloc: Global, json: bool, info: &Info, text: Bytes) -> Result<Response, NoMemory>
    ensures { IfOk result (λ response. response ≡ shown_listing json info.now text) }
{
    let mut told = told_fields(alloc, info)?;
    if !json && text.as_slice().is_empty() {
        return Ok(Response {
            status: 204,
            fields: FieldList::from(told),
            body: ReplyBody::Whole(text),
        });
    }
    let mut fields = vec![in alloc; field(alloc, b"Content-Type", type_text(json))?]?;
    fields.append(&mut told)?;
    Ok(Response {
        status: 200,
        fields: FieldList::from(fields),
        body: ReplyBody::Whole(text),
    })
}

/// The media type of a listing.
fn type_text(json: bool) -> &'static [u8]
    ensures { result.now ≡ type_text_of json }
{
    if json {
        b"application/json; charset=utf-8"
    } else {
        b"text/plain; charset=utf-8"
    }
}

/// The fields that tell of a container.
fn told_fields(alloc: Global, info: &Info) -> Result<Vec<Field>, NoMemory>
    ensures { IfOk result (λ fields. fields.items ≡ told_fields_of info.now) }
{
    let count = number_field(alloc, b"X-Container-Object-Count", info.count)?;
    let bytes = number_field(alloc, b"X-Container-Bytes-Used", info.bytes)?;
    let time = field(alloc, b"X-Timestamp", &time_text(info.put_time))?;
    let sharding = field(alloc, b"X-Backend-Sharding-State", split_text(info.split))?;
    Ok(vec![in alloc; count, bytes, time, sharding]?)
}

/// How far a container is split, as a field tells it.
fn split_text(split: SplitState) -> &'static [u8]
    ensures { result.now ≡ split_text_of split }
{
    match split {
        SplitState::Unsharded => b"unsharded",
        SplitState::Sharding => b"sharding",
        SplitState::Sharded => b"sharded",
    }
}

fn number_field(alloc: Global, name: &[u8], number: u64) -> Result<Field, NoMemory>
    ensures { IfOk result (λ field. field ≡ record { name = name.now; value = decimal number }) }
{
    let mut buffer = Buffer::new();
    field(alloc, name, buffer.format(number).as_bytes())
}
