ghost use Rattle.std.specs.Prelude.{◌≡◌, ℕ, Some};
ghost use Rattle.std.specs.Option.{option_copied};
ghost use Rattle.sw_message.specs.Fields.{has_field, field_count};
ghost use Rattle.sw_message.specs.Framing.{length_of, agrees, all_agree, length_in, one_length, is_word, says, is_chunked, framing_of, is_framed};

use crate::fields::{Field, FieldList, is_named};
use crate::limits::MAX_LENGTH_DIGITS;

/// The field that says how long a body is.
const CONTENT_LENGTH: &[u8] = b"content-length";

/// The field that says how a body is coded.
const TRANSFER_ENCODING: &[u8] = b"transfer-encoding";

/// How many fields say how a chunked body is coded.
const ONE_CODING: usize = 1;

/// How a head says where its body ends.
#[derive(Clone, Copy, Debug, PartialEq, Eq)]
pub enum Framing {
    /// There is no body.
    Unframed,
    /// So many bytes.
    Length(usize),
    /// Chunks, and the last has no bytes.
    Chunked,
}

/// Whether a field has this name.
pub(crate) fn has_field(name: &[u8], fields: &[Field]) -> bool
    ensures { result ≡ has_field name.now fields.now }
{
    fields.iter().any(|field| is_named(name, field))
}

/// How many fields have this name.
fn field_count(name: &[u8], fields: &[Field]) -> usize
    ensures { result ≡ field_count name.now fields.now }
{
    fields.iter().filter(|field| is_named(name, field)).count()
}

/// Whether the field has another name, or this very value.
fn agrees(name: &[u8], value: &[u8], field: &Field) -> bool
    ensures { result ≡ agrees name.now value.now field.now }
{
    !is_named(name, field) || field.value.as_slice() == value
}

/// Whether there is a value, and it is this word in any case.
fn is_word(word: &[u8], value: Option<&[u8]>) -> bool
    ensures { result ≡ is_word word.now (option_copied value.entry) }
{
    match value {
        Some(value) => value.eq_ignore_ascii_case(word),
        None => false,
    }
}

/// Whether the last field of this name has this word as its value, in any case.
pub fn says(name: &[u8], word: &[u8], fields: &FieldList) -> bool
    ensures { result ≡ says name.now word.now fields.now }
{
    is_word(word, fields.value_of(name))
}

/// The number that a text writes, where it has 1 to 18 digits, as that of a Content-Length.
pub fn length_of(value: &[u8]) -> Option<usize>
    ensures { result ≡ length_of value.now }
{
    if value.is_empty() || value.len() > MAX_LENGTH_DIGITS {
        return None;
    }
    let mut number: usize = 0;
    for digit in value {
        if !digit.is_ascii_digit() {
            return None;
        }
        number = number * 10 + usize::from(*digit - b'0');
    }
    Some(number)
}

/// Whether each Content-Length has this text.
fn all_agree(value: &[u8], fields: &[Field]) -> bool
    ensures { result ≡ all_agree value.now fields.now }
{
    fields
        .iter()
        .all(|field| agrees(CONTENT_LENGTH, value, field))
}

/// The length that a value gives, where each Content-Length has the same text.
fn length_in(fields: &[Field], value: &[u8]) -> Option<usize>
    ensures { result ≡ length_in fields.now value.now }
{
    if all_agree(value, fields) {
        length_of(value)
    } else {
        None
    }
}

/// The length that all Content-Length fields give.
fn one_length(fields: &FieldList) -> Option<usize>
    ensures { result ≡ one_length fields.now }
{
    match fields.value_of(CONTENT_LENGTH) {
        Some(value) => length_in(fields.as_slice(), value),
        None => None,
    }
}

/// Whether one field says that the body is chunked, and no other speaks of its coding.
fn is_chunked(fields: &FieldList) -> bool
    ensures { result ≡ is_chunked fields.now }
{
    field_count(TRANSFER_ENCODING, fields.as_slice()) == ONE_CODING
        && says(TRANSFER_ENCODING, b"chunked", fields)
}

/// Where the body ends, or `None` where the head begins no request.
#[tactic(auto, unfolding(crate::specs::Framing::framing_of))]
pub fn framing_of(fields: &FieldList) -> Option<Framing>
    ensures { result ≡ framing_of fields.now }
{
    if has_field(TRANSFER_ENCODING, fields.as_slice()) {
        if !has_field(CONTENT_LENGTH, fields.as_slice()) && is_chunked(fields) {
            Some(Framing::Chunked)
        } else {
            None
        }
    } else if has_field(CONTENT_LENGTH, fields.as_slice()) {
        one_length(fields).map(Framing::Length)
    } else {
        Some(Framing::Unframed)
    }
}

/// Whether the fields speak of a body.
pub fn is_framed(fields: &FieldList) -> bool
    ensures { result ≡ is_framed fields.now }
{
    has_field(CONTENT_LENGTH, fields.as_slice()) || has_field(TRANSFER_ENCODING, fields.as_slice())
}
