ghost use Rattle.std.specs.Prelude.{◌≡◌, ℕ, List, true, IfOk, IsSome, OnErr};
ghost use Rattle.std.specs.Str.{is_utf8 as is_utf8_text};
ghost use Rattle.sw_fields.specs.Fields.{type_of as type_of_fields};
ghost use Rattle.sw_message.specs.declared.request.Body.TheVariants.{Whole};
ghost use Rattle.sw_object_server.specs.Memory.{TakesContent, TakesHeads};
ghost use Rattle.sw_object_server.specs.Reading.{IsContent, Puts, PutsBody, PutsType, put_content as put_content_of};
ghost use Rattle.sw_object_server.specs.Steps.{put_change as put_change_of};

use crate::verdict::Verdict;
use md5::{Digest, Md5};
use std::alloc::Global;
use sw_fields::{agrees_with, asks_for_none, heads_of, is_replicated, type_of};
use sw_hashpath::Name;
use sw_message::{Body, FieldList, Request};
use sw_object_steps::Change;
use sw_outside::{Bytes, NoMemory};
use sw_state::{Content, Heads, Kind, Write};
use sw_timestamp::Timestamp;

/// A PUT of this name at this time.
pub(crate) fn read_put(
    alloc: Global,
    time: Timestamp,
    name: &Name,
    request: Request,
) -> Result<Verdict, NoMemory>
    ensures puts { IfOk result (Puts name.now request time) }
    ensures for_content { OnErr result (TakesContent name.now request time) }
{
    let Request {
        method: _,
        path: _,
        query: _,
        fields,
        framed,
        body,
    } = request;
    if framed {
        read_body(alloc, time, name, body, &fields)
    } else {
        Ok(Verdict::Refused(411))
    }
}

/// A PUT that says how long its body is.
fn read_body(
    alloc: Global,
    time: Timestamp,
    name: &Name,
    body: Body,
    fields: &FieldList,
) -> Result<Verdict, NoMemory>
    ensures puts { IfOk result (PutsBody time name.now fields.now body) }
    ensures for_small { OnErr result ((kept : List ℕ) × (body ≡ Whole kept)) }
    ensures for_typed { OnErr result (IsSome (type_of_fields fields.now)) }
    ensures for_heads { OnErr result (TakesHeads time name.now fields.now) }
{
    match body {
        Body::TooLarge => Ok(Verdict::Refused(413)),
        Body::Whole(body) => match type_of(fields) {
            Some(content_type) => read_typed(alloc, time, name, body, content_type, fields),
            None => Ok(Verdict::Refused(400)),
        },
    }
}

/// A PUT of this body and content type.
fn read_typed(
    alloc: Global,
    time: Timestamp,
    name: &Name,
    body: Bytes,
    content_type: &[u8],
    fields: &FieldList,
) -> Result<Verdict, NoMemory>
    requires { is_utf8_text content_type.now ≡ true }
    ensures puts { IfOk result (PutsType time name.now body fields.now content_type.now) }
    ensures for_heads { OnErr result (TakesHeads time name.now fields.now) }
{
    match heads_of(alloc, time, name, fields)? {
        Some(heads) => {
            let content = content_of(alloc, body, content_type, heads)?;
            Ok(put_content(time, content, fields))
        }
        None => Ok(Verdict::Refused(400)),
    }
}

/// A PUT of this content.
fn put_content(time: Timestamp, content: Content, fields: &FieldList) -> Verdict
    ensures { result ≡ put_content_of time fields.now content }
{
    if agrees_with(&content.etag, fields) {
        Verdict::Change(put_change(time, content, fields))
    } else {
        Verdict::Refused(422)
    }
}

/// The content of this body, type and metadata. The body is moved into it.
fn content_of(
    alloc: Global,
    body: Bytes,
    content_type: &[u8],
    heads: Heads,
) -> Result<Content, NoMemory>
    requires { is_utf8_text content_type.now ≡ true }
    ensures { IfOk result (λ content. IsContent content body content_type.now heads) }
{
    let content_type = Bytes::copy(alloc, content_type)?;
    let etag = Md5::digest(body.as_slice());
    Ok(Content {
        body,
        content_type,
        etag,
        heads,
    })
}

fn put_change(time: Timestamp, content: Content, fields: &FieldList) -> Change
    ensures { result ≡ put_change_of time content fields.now }
{
    if is_replicated(fields) {
        return Change::Receive {
            write: Write {
                time,
                kind: Kind::Put(content),
            },
        };
    }
    Change::Put {
        time,
        content,
        none_match: asks_for_none(fields),
    }
}
