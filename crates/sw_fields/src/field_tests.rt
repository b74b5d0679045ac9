ghost use Rattle.std.specs.Prelude.{◌≡◌, ◌≤◌, length};
ghost use Rattle.std.specs.List.{prefix_len, suffix_len};
ghost use Rattle.std.specs.Option.{option_copied};
ghost use Rattle.sw_fields.specs.Fields.{IsTime, agrees_with as agrees_with_digest, asks_for_none as asks_for_none_in, before_quotes, behind_quotes};
ghost use Rattle.sw_fields.specs.Fields.{has_value as has_value_in, is_quote, is_replicated as is_replicated_in, is_type as is_type_text};
ghost use Rattle.sw_fields.specs.Fields.{shows_digest as shows_digest_in, type_of as type_of_fields, unquoted as unquoted_text};

use sw_hashpath::hex_text;
use sw_message::FieldList;
use sw_outside::is_utf8;
use sw_timestamp::{NotTimestamp, Timestamp};

/// Whether the field of this name, compared without case, has this value.
pub fn has_value(fields: &FieldList, name: &[u8], value: &[u8]) -> bool
    ensures { result ≡ has_value_in name.now value.now fields.now }
{
    match fields.value_of(name) {
        Some(found) => found == value,
        None => false,
    }
}

/// Whether another node sends what it has.
pub fn is_replicated(fields: &FieldList) -> bool
    ensures { result ≡ is_replicated_in fields.now }
{
    has_value(fields, b"x-backend-replication", b"True")
        || has_value(fields, b"x-backend-replication", b"true")
}

/// Whether the write is to be refused where an object stands.
pub fn asks_for_none(fields: &FieldList) -> bool
    ensures { result ≡ asks_for_none_in fields.now }
{
    has_value(fields, b"if-none-match", b"*")
}

/// The time that the fields give a write.
pub fn time_of(fields: &FieldList) -> Option<Timestamp>
    ensures { IsTime fields.now result }
{
    match Timestamp::parse(fields.value_of(b"x-timestamp")?) {
        Ok(time) => Some(time),
        Err(NotTimestamp) => None,
    }
}

/// The content type that the fields give, where it is UTF-8 and not empty.
pub fn type_of(fields: &FieldList) -> Option<&[u8]>
    ensures { option_copied result ≡ type_of_fields fields.now }
{
    let value = fields.value_of(b"content-type")?;
    if is_type(value) { Some(value) } else { None }
}

fn is_type(value: &[u8]) -> bool
    ensures { result ≡ is_type_text value.now }
{
    !value.is_empty() && is_utf8(value)
}

/// Whether the ETag, where one is given, is this digest.
pub fn agrees_with(digest: &[u8; 16], fields: &FieldList) -> bool
    ensures { result ≡ agrees_with_digest digest.now fields.now }
{
    match fields.value_of(b"etag") {
        Some(value) => shows_digest(digest, value),
        None => true,
    }
}

/// Whether a text is this digest in hexadecimal, in either case and with or without quotes.
fn shows_digest(digest: &[u8; 16], text: &[u8]) -> bool
    ensures { result ≡ shows_digest_in digest.now text.now }
{
    unquoted(text).eq_ignore_ascii_case(&hex_text(digest))
}

/// A text without the double quotes around it.
fn unquoted(text: &[u8]) -> &[u8]
    ensures { result.now ≡ unquoted_text text.now }
{
    without_end(without_front(text))
}

fn without_front(text: &[u8]) -> &[u8]
    ensures { result.now ≡ behind_quotes text.now }
{
    &text[quotes_in_front(text)..]
}

fn without_end(text: &[u8]) -> &[u8]
    ensures { result.now ≡ before_quotes text.now }
{
    &text[..text.len() - quotes_at_end(text)]
}

fn quotes_in_front(text: &[u8]) -> usize
    ensures count { result ≡ prefix_len is_quote text.now }
    ensures within { result ≤ length text.now }
{
    text.iter().take_while(|byte| **byte == b'"').count()
}

fn quotes_at_end(text: &[u8]) -> usize
    ensures count { result ≡ suffix_len is_quote text.now }
    ensures within { result ≤ length text.now }
{
    text.iter().rev().take_while(|byte| **byte == b'"').count()
}
