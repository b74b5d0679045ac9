ghost use Rattle.std.specs.Prelude.{◌≡◌, ◌++◌, ◌≤◌, map, true, IfOk, OnOk, OnErr};
ghost use Rattle.sw_object_server.specs.Showing.{IsDate, IsFound, IsShown, body_found, expiry_fields, field_of as field_of_item};
ghost use Rattle.sw_object_server.specs.Showing.{fixed_fields as fixed_fields_of, found as found_reply, found_fields, second_text as second_text_of};
ghost use Rattle.sw_object_server.specs.Showing.{shows_fields};

use crate::replies::{bare, damaged, field, not_found, time_text};
use httpdate::HttpDate;
use std::alloc::Global;
use sw_fields::{UNITS_PER_SECOND, is_expired};
use sw_hashpath::hex_text;
use sw_message::{Field, FieldList, ReplyBody, Response};
use sw_object_steps::Got;
use sw_outside::{Bytes, NoMemory};
use sw_state::{Content, Head, Heads};
use sw_timestamp::Timestamp;

/// The reply to a GET that got this, at this second since the epoch, or with `head_only` to a HEAD. The body is moved into it.
pub fn shown(alloc: Global, got: Got, now: u64, head_only: bool) -> Result<Response, NoMemory>
    ensures ok { IfOk result (IsShown got now head_only) }
    ensures err { OnErr result (shows_fields got now ≡ true) }
{
    match got {
        Got::Found {
            time,
            content,
            heads,
            front: _,
        } => {
            if is_expired(&heads, now) {
                Ok(bare(alloc, 404))
            } else {
                found(alloc, time, content, heads, head_only)
            }
        }
        Got::NotFound(time) => not_found(alloc, time),
        Got::Damaged(bad) => damaged(alloc, bad),
        Got::Failed => Ok(bare(alloc, 507)),
        Got::NoMemory => Ok(bare(alloc, 500)),
    }
}

/// The reply that shows an object.
fn found(
    alloc: Global,
    time: Timestamp,
    content: Content,
    heads: Heads,
    head_only: bool,
) -> Result<Response, NoMemory>
    ensures { IfOk result (IsFound time content heads head_only) }
{
    found_on(alloc, time, &date_text(time), content, heads, head_only)
}

/// The same, with the date that it shows.
fn found_on(
    alloc: Global,
    time: Timestamp,
    date: &[u8; 29],
    content: Content,
    heads: Heads,
    head_only: bool,
) -> Result<Response, NoMemory>
    ensures { IfOk result (λ response. response ≡ found_reply time date.now content heads head_only) }
{
    let fields = fields_found(alloc, time, date, &content, &heads)?;
    Ok(Response {
        status: 200,
        fields: FieldList::from(fields),
        body: body_shown(content.body, head_only),
    })
}

/// What a reply carries of a body: in the reply to a HEAD its length alone.
fn body_shown(body: Bytes, head_only: bool) -> ReplyBody
    ensures { result ≡ body_found head_only body }
{
    if head_only {
        ReplyBody::LeftOut(body.as_slice().len() as u64)
    } else {
        ReplyBody::Whole(body)
    }
}

fn fields_found(
    alloc: Global,
    time: Timestamp,
    date: &[u8; 29],
    content: &Content,
    heads: &Heads,
) -> Result<Vec<Field>, NoMemory>
    ensures { IfOk result (λ fields. fields.items ≡ found_fields time date.now content.now heads.now) }
{
    let mut fields = fixed_fields(alloc, time, date, content)?;
    push_expiry(alloc, &mut fields, heads)?;
    push_items(alloc, &mut fields, heads.items.as_slice())?;
    Ok(fields)
}

/// The fields that every object has.
fn fixed_fields(
    alloc: Global,
    time: Timestamp,
    date: &[u8; 29],
    content: &Content,
) -> Result<Vec<Field>, NoMemory>
    ensures { IfOk result (λ fields. fields.items ≡ fixed_fields_of time date.now content.now) }
{
    let time = time_text(time);
    let content_type = field(alloc, b"Content-Type", content.content_type.as_slice())?;
    let etag = field(alloc, b"ETag", &hex_text(&content.etag))?;
    let modified = field(alloc, b"Last-Modified", date)?;
    let timestamp = field(alloc, b"X-Timestamp", &time)?;
    let backend = field(alloc, b"X-Backend-Timestamp", &time)?;
    Ok(vec![in alloc; content_type, etag, modified, timestamp, backend]?)
}

/// Adds the second of expiry, where there is one.
fn push_expiry(alloc: Global, fields: &mut Vec<Field>, heads: &Heads) -> Result<(), NoMemory>
    ensures { OnOk result (fields.new.items ≡ fields.old.items ++ expiry_fields heads.now.delete_at) }
{
    if let Some(second) = heads.delete_at {
        fields.push(field(alloc, b"X-Delete-At", &second_text(second))?)?;
    }
    Ok(())
}

/// Adds the items, as fields.
fn push_items(alloc: Global, fields: &mut Vec<Field>, items: &[Head]) -> Result<(), NoMemory>
    ensures { OnOk result (fields.new.items ≡ fields.old.items ++ map field_of_item items.now) }
{
    for item in items {
        fields.push(field(alloc, item.name.as_slice(), item.value.as_slice())?)?;
    }
    Ok(())
}

/// A second in ten digits.
fn second_text(second: u64) -> [u8; 10]
    requires { second ≤ 9999999999 }
    ensures { result ≡ second_text_of second }
{
    let normal = time_text(Timestamp::from_units(second * UNITS_PER_SECOND).unwrap());
    let mut text = [0u8; 10];
    text.copy_from_slice(&normal[..10]);
    text
}

/// The date of a time, rounded up to whole seconds.
fn date_text(time: Timestamp) -> [u8; 29]
    ensures { IsDate time result }
{
    HttpDate::from_unix_secs(time.units().div_ceil(UNITS_PER_SECOND))
        .unwrap()
        .to_bytes()
}
