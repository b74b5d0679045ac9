ghost use Rattle.std.specs.Prelude.{◌≡◌, ◌-◌, ◌^◌, ◌<◌, ◌++◌, ℕ, [], false, length, min, decimal, unwrap_or, vec_capacity, IfOk, OnOk, OnErr};
ghost use Rattle.std.specs.List.{flat_map};
ghost use Rattle.http.specs.StatusCode.{reason_phrase};
ghost use Rattle.sw_message.specs.Reply.{status_line, field_line, length_line, body_bytes, body_length, carried, has_no_body, reply_text, room_for};

use crate::fields::Field;
use crate::response::{ReplyBody, Response};
use crate::text::CRLF;
use http::StatusCode;
use itoa::Buffer;
use std::alloc::{AllocError, Global};
use sw_outside::NoMemory;

/// The statuses whose replies have neither a length nor a body.
const CONTINUE: u16 = 100;

const NO_CONTENT: u16 = 204;

/// Room for the first and the last lines of a head: more than they have with any reason.
const LINES_ROOM: usize = 128;

/// The bytes of a field's line beside its name and its value.
const FIELD_ROOM: usize = 4;

/// The reason of a status, or nothing where it has none.
fn reason_of(status: u16) -> &'static str
    ensures { result.now ≡ unwrap_or (reason_phrase status) [] }
{
    match StatusCode::from_u16(status) {
        Ok(code) => code.canonical_reason().unwrap_or(""),
        Err(_) => "",
    }
}

fn push_number(text: &mut Vec<u8>, number: u64) -> Result<(), AllocError>
    ensures { OnOk result (text.new.items ≡ text.old.items ++ decimal number) }
{
    let mut buffer = Buffer::new();
    text.extend_from_slice(buffer.format(number).as_bytes())
}

fn push_status_line(text: &mut Vec<u8>, status: u16) -> Result<(), AllocError>
    ensures { OnOk result (text.new.items ≡ text.old.items ++ status_line status) }
{
    text.extend_from_slice(b"HTTP/1.1 ")?;
    push_number(text, u64::from(status))?;
    text.extend_from_slice(b" ")?;
    text.extend_from_slice(reason_of(status).as_bytes())?;
    text.extend_from_slice(CRLF)?;
    Ok(())
}

fn push_field(text: &mut Vec<u8>, field: &Field) -> Result<(), AllocError>
    ensures { OnOk result (text.new.items ≡ text.old.items ++ field_line field.now) }
{
    text.extend_from_slice(field.name.as_slice())?;
    text.extend_from_slice(b": ")?;
    text.extend_from_slice(field.value.as_slice())?;
    text.extend_from_slice(CRLF)
}

fn push_fields(text: &mut Vec<u8>, fields: &[Field]) -> Result<(), AllocError>
    ensures pushed { OnOk result (text.new.items ≡ text.old.items ++ flat_map field_line fields.now) }
    ensures for_some { OnErr result (0 < length fields.now) }
{
    for field in fields {
        push_field(text, field)?;
    }
    Ok(())
}

fn has_no_body(status: u16) -> bool
    ensures { result ≡ has_no_body status }
{
    status == CONTINUE || status == NO_CONTENT
}

/// How many bytes a GET would carry.
fn body_length(body: &ReplyBody) -> u64
    ensures { result ≡ body_length body.now }
{
    match body {
        ReplyBody::Whole(bytes) => bytes.as_slice().len() as u64,
        ReplyBody::LeftOut(count) => *count,
    }
}

fn carried(body: &ReplyBody) -> &[u8]
    ensures { result.now ≡ carried body.now }
{
    match body {
        ReplyBody::Whole(bytes) => bytes.as_slice(),
        ReplyBody::LeftOut(_) => &[],
    }
}

fn push_length(text: &mut Vec<u8>, response: &Response) -> Result<(), AllocError>
    ensures pushed { OnOk result (text.new.items ≡ text.old.items ++ length_line response.now) }
    ensures for_some { OnErr result (has_no_body response.now.status ≡ false) }
{
    if has_no_body(response.status) {
        return Ok(());
    }
    text.extend_from_slice(b"Content-Length: ")?;
    push_number(text, body_length(&response.body))?;
    text.extend_from_slice(CRLF)
}

fn push_body(text: &mut Vec<u8>, response: &Response) -> Result<(), AllocError>
    ensures pushed { OnOk result (text.new.items ≡ text.old.items ++ body_bytes response.now) }
    ensures for_some { OnErr result (0 < length (body_bytes response.now)) }
{
    if has_no_body(response.status) {
        return Ok(());
    }
    text.extend_from_slice(carried(&response.body))
}

/// How many bytes the text of a reply has at most, so that one allocation serves.
fn text_room(response: &Response) -> usize
    ensures { result ≡ min (room_for response.now) (2 ^ 64 - 1) }
{
    let mut room = carried(&response.body).len().saturating_add(LINES_ROOM);
    for field in response.fields.as_slice() {
        room = room
            .saturating_add(field.name.as_slice().len())
            .saturating_add(field.value.as_slice().len())
            .saturating_add(FIELD_ROOM);
    }
    room
}

/// Nothing, with room for all bytes of a reply.
fn empty_text(alloc: Global, response: &Response) -> Result<Vec<u8>, AllocError>
    ensures empty { IfOk result (λ text. text.items ≡ []) }
    ensures room { IfOk result (λ text. vec_capacity text ≡ min (room_for response.now) (2 ^ 64 - 1)) }
{
    Vec::with_capacity(alloc, text_room(response))
}

/// All bytes of a reply.
#[tactic(auto, unfolding(crate::specs::Reply::reply_text))]
pub(crate) fn text_of(alloc: Global, response: &Response) -> Result<Vec<u8>, NoMemory>
    ensures { IfOk result (λ text. text.items ≡ reply_text response.now) }
{
    let mut text = empty_text(alloc, response)?;
    push_status_line(&mut text, response.status)?;
    push_fields(&mut text, response.fields.as_slice())?;
    push_length(&mut text, response)?;
    text.extend_from_slice(CRLF)?;
    push_body(&mut text, response)?;
    Ok(text)
}
