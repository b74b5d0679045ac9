ghost use Rattle.std.specs.Prelude.{◌≡◌, true, IfOk};
ghost use Rattle.std.specs.Str.{is_utf8 as is_utf8_text};
ghost use Rattle.sw_container_server.specs.Verdicts.{IsDeletedRowRead, IsRowRead};

use crate::fields::{etag_of, size_of, type_of};
use crate::verdict::Verdict;
use md5::{Digest, Md5};
use std::alloc::Global;
use sw_container_steps::ContChange;
use sw_fields::time_of;
use sw_message::Request;
use sw_outside::{Bytes, NoMemory};
use sw_rows::Row;

/// A PUT of the row of this name: what the fields tell of its object.
pub(crate) fn read_row(alloc: Global, name: Bytes, request: &Request) -> Result<Verdict, NoMemory>
    requires { is_utf8_text name ≡ true }
    ensures { IfOk result (IsRowRead name request.now) }
{
    let fields = &request.fields;
    let Some(created_at) = time_of(fields) else {
        return Ok(Verdict::Refused(400));
    };
    let Some(size) = size_of(fields) else {
        return Ok(Verdict::Refused(400));
    };
    let Some(content_type) = type_of(fields) else {
        return Ok(Verdict::Refused(400));
    };
    let Some(etag) = etag_of(fields) else {
        return Ok(Verdict::Refused(400));
    };
    let content_type = Bytes::copy(alloc, content_type)?;
    let row = Row {
        name,
        created_at,
        size,
        content_type,
        etag,
        deleted: false,
    };
    Ok(Verdict::Change(ContChange::MergeRow { row }))
}

/// A DELETE of the row of this name: a deleted row, which tells of nothing but its time.
pub(crate) fn read_deleted_row(
    alloc: Global,
    name: Bytes,
    request: &Request,
) -> Result<Verdict, NoMemory>
    requires { is_utf8_text name ≡ true }
    ensures { IfOk result (IsDeletedRowRead name request.now) }
{
    let Some(created_at) = time_of(&request.fields) else {
        return Ok(Verdict::Refused(400));
    };
    let content_type = Bytes::copy(alloc, "text/plain".as_bytes())?;
    let row = Row {
        name,
        created_at,
        size: 0,
        content_type,
        etag: Md5::digest(b""),
        deleted: true,
    };
    Ok(Verdict::Change(ContChange::MergeRow { row }))
}
