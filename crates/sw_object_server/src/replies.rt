ghost use Rattle.std.specs.Prelude.{◌≡◌, [], ◌∷◌, true, decimal, is_some, IfOk, OnErr};
ghost use Rattle.sw_hashpath.specs.BadFiles.{bad_file_number as bad_file_number_of};
ghost use Rattle.sw_object_steps.specs.Steps.{write_of};
ghost use Rattle.sw_timestamp.specs.TimeText.{normal_text};
ghost use Rattle.sw_object_server.specs.Replies.{at_time as at_time_reply, bare as bare_reply, created as created_reply, damaged as damaged_reply};
ghost use Rattle.sw_object_server.specs.Replies.{made_reply as made_reply_to, not_found as not_found_reply};
ghost use Rattle.sw_object_server.specs.Replies.{reply_to as reply_to_answer, shows_etag, shows_field};
ghost use Rattle.sw_object_server.specs.Replies.{with_field as with_field_reply};

use itoa::Buffer;
use std::alloc::Global;
use sw_hashpath::{BadFile, hex_text};
use sw_message::{Field, FieldList, ReplyBody, Response};
use sw_object_steps::{Answer, Change};
use sw_outside::{Bytes, NoMemory};
use sw_state::Kind;
use sw_timestamp::Timestamp;

/// A reply that is a number alone. It takes no memory.
pub fn bare(alloc: Global, status: u16) -> Response
    ensures { result ≡ bare_reply status }
{
    Response {
        status,
        fields: FieldList::from(Vec::new(alloc)),
        body: ReplyBody::Whole(Bytes::from(Vec::new(alloc))),
    }
}

/// The reply to a change that was made. Only that to what was put needs memory, for its ETag.
pub fn made_reply(alloc: Global, change: &Change) -> Result<Response, NoMemory>
    ensures ok { IfOk result (λ response. response ≡ made_reply_to (write_of change.now).kind) }
    ensures err { OnErr result (shows_etag (write_of change.now).kind ≡ true) }
{
    match change {
        Change::Put { content, .. } => created(alloc, &content.etag),
        Change::Post { .. } => Ok(bare(alloc, 202)),
        Change::Delete { .. } | Change::MarkRecord { .. } | Change::DropRecord { .. } => {
            Ok(bare(alloc, 204))
        }
        Change::Receive { write } => received(alloc, &write.kind),
    }
}

/// The reply to a write of this kind that was taken over.
fn received(alloc: Global, kind: &Kind) -> Result<Response, NoMemory>
    ensures ok { IfOk result (λ response. response ≡ made_reply_to kind.now) }
    ensures err { OnErr result (shows_etag kind.now ≡ true) }
{
    match kind {
        Kind::Put(content) => created(alloc, &content.etag),
        Kind::Meta(_) => Ok(bare(alloc, 202)),
        Kind::Del => Ok(bare(alloc, 204)),
    }
}

/// The reply to a PUT that was taken: 201 with the ETag.
fn created(alloc: Global, etag: &[u8; 16]) -> Result<Response, NoMemory>
    ensures { IfOk result (λ response. response ≡ created_reply etag.now) }
{
    with_field(alloc, 201, b"ETag", &hex_text(etag))
}

/// The reply to a change that was answered so. `made` is the reply where it was made. Only a reply that shows a field of its own needs memory.
pub fn reply_to(alloc: Global, made: Response, answer: Answer) -> Result<Response, NoMemory>
    ensures ok { IfOk result (λ response. response ≡ reply_to_answer made answer) }
    ensures err { OnErr result (shows_field answer ≡ true) }
{
    match answer {
        Answer::Done(_) | Answer::Took(_) => Ok(made),
        Answer::Buried(_) => Ok(bare(alloc, 404)),
        Answer::Conflict(time) => at_time(alloc, 409, time),
        Answer::NotFound(time) => not_found(alloc, time),
        Answer::Mismatch(_) | Answer::Exists => Ok(bare(alloc, 412)),
        Answer::JournalFull => Ok(bare(alloc, 503)),
        Answer::Damaged(bad) => damaged(alloc, bad),
        Answer::Failed => Ok(bare(alloc, 507)),
        Answer::NoMemory => Ok(bare(alloc, 500)),
    }
}

/// The reply where no object is, with the time of the tombstone, where one stands.
pub(crate) fn not_found(alloc: Global, time: Option<Timestamp>) -> Result<Response, NoMemory>
    ensures ok { IfOk result (λ response. response ≡ not_found_reply time) }
    ensures err { OnErr result (is_some time ≡ true) }
{
    match time {
        Some(time) => at_time(alloc, 404, time),
        None => Ok(bare(alloc, 404)),
    }
}

/// A reply with this status that shows the time of what stands.
pub fn at_time(alloc: Global, status: u16, time: Timestamp) -> Result<Response, NoMemory>
    ensures { IfOk result (λ response. response ≡ at_time_reply status time) }
{
    with_field(alloc, status, b"X-Backend-Timestamp", &time_text(time))
}

/// The reply over a damaged file: 507 with the number of what is wrong with it.
pub fn damaged(alloc: Global, bad: BadFile) -> Result<Response, NoMemory>
    ensures { IfOk result (λ response. response ≡ damaged_reply bad) }
{
    let mut buffer = Buffer::new();
    let number = buffer.format(bad_file_number(bad)).as_bytes();
    with_field(alloc, 507, b"X-Swc-Damaged", number)
}

/// The number of what is wrong with a file.
fn bad_file_number(bad: BadFile) -> u8
    ensures { result ≡ bad_file_number_of bad }
{
    match bad {
        BadFile::Header => 1,
        BadFile::Field => 2,
        BadFile::Length => 3,
    }
}

/// A reply with this status and one field.
fn with_field(alloc: Global, status: u16, name: &[u8], value: &[u8]) -> Result<Response, NoMemory>
    ensures { IfOk result (λ response. response ≡ with_field_reply status (record { name = name.now; value = value.now })) }
{
    let field = field(alloc, name, value)?;
    Ok(Response {
        status,
        fields: FieldList::from(vec![in alloc; field]?),
        body: ReplyBody::Whole(Bytes::from(Vec::new(alloc))),
    })
}

/// A field, as other servers show it too.
pub fn field(alloc: Global, name: &[u8], value: &[u8]) -> Result<Field, NoMemory>
    ensures { IfOk result (λ field. field ≡ record { name = name.now; value = value.now }) }
{
    Ok(Field {
        name: Bytes::copy(alloc, name)?,
        value: Bytes::copy(alloc, value)?,
    })
}

/// The normal form of a time.
pub fn time_text(time: Timestamp) -> [u8; 16]
    ensures { result ≡ normal_text time }
{
    let mut text = [0u8; 16];
    time.write_normal(&mut text);
    text
}
