ghost use Rattle.std.specs.Prelude.{◌≡◌, ◌++◌, ◌∷◌, [], decimal, OnOk};
ghost use Rattle.std.specs.Str.{IsUtf8};
ghost use Rattle.json.specs.Token.{key, number, string};
ghost use Rattle.sw_listing_json.specs.Json.{row_object, subdir_data};
ghost use Rattle.sw_listing_json.specs.Writing.{Adds, AddsData, AddsEntry, AddsRow};

use crate::dates::listed_time;
use json::Writer;
use std::alloc::{AllocError, Global};
use std::str;
use sw_listing::{Entry, Text};
use sw_outside::NoMemory;
use sw_rows::Row;

/// Writes the object of an entry.
pub(crate) fn write_entry(alloc: Global, out: &mut Writer, entry: &Entry) -> Result<(), NoMemory>
    ensures { OnOk result (AddsEntry entry.now out.old out.new) }
{
    match entry {
        Entry::Row(row) => write_row(alloc, out, row),
        Entry::Subdir(text) => Ok(write_subdir(out, text)?),
    }
}

fn write_row(alloc: Global, out: &mut Writer, row: &Row) -> Result<(), NoMemory>
    ensures { OnOk result (AddsRow row.now out.old out.new) }
{
    let content_type = text_of(row.content_type.as_slice());
    let hash = hex::encode(alloc, row.etag)?;
    let time = listed_time(row.created_at);
    let name = text_of(row.name.as_slice());
    write_object(
        out,
        row.size,
        content_type,
        hash.as_str(),
        time.as_str(),
        name,
    )?;
    Ok(())
}

/// Writes the object of these values.
fn write_object(
    out: &mut Writer,
    size: u64,
    content_type: &str,
    hash: &str,
    date: &str,
    name: &str,
) -> Result<(), AllocError>
    ensures { OnOk result (AddsData (row_object size content_type.now hash.now date.now name.now) out.old out.new) }
{
    out.begin_object()?;
    write_number(out, "bytes", size)?;
    write_text(out, "content_type", content_type)?;
    write_text(out, "hash", hash)?;
    write_text(out, "last_modified", date)?;
    write_text(out, "name", name)?;
    out.end_object()?;
    Ok(())
}

fn write_subdir(out: &mut Writer, text: &Text) -> Result<(), AllocError>
    ensures { OnOk result (AddsData (subdir_data text.now) out.old out.new) }
{
    out.begin_object()?;
    write_text(out, "subdir", text_of(text.as_slice()))?;
    out.end_object()
}

/// Writes a member with a number.
fn write_number(out: &mut Writer, name: &str, value: u64) -> Result<(), AllocError>
    ensures { OnOk result (Adds (key name.now ∷ number (decimal value) ∷ []) out.old out.new) }
{
    out.key(name)?;
    out.u64(value)
}

/// Writes a member with a text.
fn write_text(out: &mut Writer, name: &str, value: &str) -> Result<(), AllocError>
    ensures { OnOk result (Adds (key name.now ∷ string value.now ∷ []) out.old out.new) }
{
    out.key(name)?;
    out.string(value)
}

/// The text that these bytes are.
fn text_of(bytes: &[u8]) -> &str
    requires { ∥ IsUtf8 bytes.now ∥₁ }
    ensures { result.now ≡ bytes.now }
{
    str::from_utf8(bytes).unwrap()
}
