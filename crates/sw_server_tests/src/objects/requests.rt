//! A ring, and requests that are written as lines.

ghost use Rattle.std.specs.Prelude.{◌≤◌, length};

use http::Method;
use std::alloc::Global;
use std::test::Fail;
use sw_message::{Body, Field, FieldList, Request};
use sw_outside::Bytes;
use sw_ring::{Ring, read};

/// A ring of two devices and four partitions.
const RING: &[u8] =
    br#"{"devices":["sda","sdb"],"part_power":2,"lock_bits":2,"replicas":2,"hash_prefix":"","hash_suffix":"endcap","object":[[0,1],[1,0],[0,1],[1,0]],
        "container":[[0,1],[1,0],[0,1],[1,0]]}"#;

/// The MD5 of `abc`.
pub(crate) const DIGEST: [u8; 16] = [
    0x90, 0x01, 0x50, 0x98, 0x3c, 0xd2, 0x4f, 0xb0, 0xd6, 0x96, 0x3f, 0x7d, 0x28, 0xe1, 0x7f, 0x72,
];

/// The most fields that a request of these tests has.
const MOST_FIELDS: usize = 12;

pub(crate) fn ring(alloc: Global) -> Result<Ring, Fail> {
    Ok(read(alloc, RING)?)
}

/// Where a byte first stands, or the length of the text where it doesn't.
fn place_of(text: &[u8], byte: u8) -> usize
    ensures { result ≤ length text.now }
{
    text.iter().take_while(|b| **b != byte).count()
}

/// The text before a byte, and the text behind it.
fn cut(text: &[u8], byte: u8) -> (&[u8], &[u8]) {
    let place = place_of(text, byte);
    (&text[..place], &text[text.len().min(place + 1)..])
}

/// The fields on these lines, `NAME:VALUE`.
fn field_list(alloc: Global, lines: &[u8]) -> Result<FieldList, Fail> {
    let mut fields = Vec::new(alloc);
    let mut rest = lines;
    for _ in 0..MOST_FIELDS {
        if rest.is_empty() {
            break;
        }
        let (line, behind) = cut(rest, b'\n');
        let (name, value) = cut(line, b':');
        fields.push(Field {
            name: Bytes::copy(alloc, name)?,
            value: Bytes::copy(alloc, value)?,
        })?;
        rest = behind;
    }
    Ok(FieldList::from(fields))
}

/// A request of these lines, `METHOD PATH` and then its fields. Its body is `abc`, and too large where it says to have more than nine bytes.
pub(crate) fn request(alloc: Global, lines: &[u8]) -> Result<Request, Fail> {
    let (line, rest) = cut(lines, b'\n');
    let (method, path) = cut(line, b' ');
    let fields = field_list(alloc, rest)?;
    let (framed, is_large) = match fields.value_of(b"content-length") {
        Some(length) => (true, length.len() > 1),
        None => (false, false),
    };
    let body = if is_large {
        Body::TooLarge
    } else {
        Body::Whole(Bytes::copy(alloc, b"abc")?)
    };
    Ok(Request {
        method: Method::from_bytes(alloc, method)?,
        path: Bytes::copy(alloc, path)?,
        query: Bytes::copy(alloc, b"")?,
        fields,
        framed,
        body,
    })
}
