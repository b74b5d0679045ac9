ghost use Rattle.std.specs.Prelude.{◌≡◌, ◌<◌, ℕ, None, IfSome};
ghost use Rattle.std.specs.Option.{option_copied};
ghost use Rattle.sw_fields.specs.Fields.{is_type as is_type_text};
ghost use Rattle.sw_container_server.specs.RowFields.{AsksReplica, IsNumberBelow, IsReplica, etag_in as etag_in_text};
ghost use Rattle.sw_container_server.specs.RowFields.{etag_of as etag_of_fields, size_of as size_of_fields};
ghost use Rattle.sw_container_server.specs.RowFields.{type_of as type_of_fields};

use hex::FromHex;
use sw_message::{FieldList, length_of};
use sw_object_server::has_number;
use sw_outside::is_utf8;
use sw_ring::Ring;

/// How many bytes the object of a row has, by X-Size: 1 to 18 digits.
pub(crate) fn size_of(fields: &FieldList) -> Option<u64>
    ensures { result ≡ size_of_fields fields.now }
{
    match length_of(fields.value_of(b"x-size")?) {
        Some(size) => Some(size as u64),
        None => None,
    }
}

/// The media type of the object of a row, by X-Content-Type: UTF-8, and not empty.
pub(crate) fn type_of(fields: &FieldList) -> Option<&[u8]>
    ensures { option_copied result ≡ type_of_fields fields.now }
{
    let value = fields.value_of(b"x-content-type")?;
    if is_type(value) { Some(value) } else { None }
}

fn is_type(value: &[u8]) -> bool
    ensures { result ≡ is_type_text value.now }
{
    !value.is_empty() && is_utf8(value)
}

/// The ETag of the object of a row, by X-Etag: 32 hexadecimal digits in either case.
pub(crate) fn etag_of(fields: &FieldList) -> Option<[u8; 16]>
    ensures { result ≡ etag_of_fields fields.now }
{
    etag_in(fields.value_of(b"x-etag")?)
}

fn etag_in(text: &[u8]) -> Option<[u8; 16]>
    ensures { result ≡ etag_in_text text.now }
{
    <[u8; 16] as FromHex>::from_hex(text).ok()
}

/// The number of the replica of shards that X-Swc-Shard-Replica asks for; 0 where it isn't given. There is none where it is no number of a replica.
pub(crate) fn replica_of(ring: &Ring, fields: &FieldList) -> Option<u8>
    ensures some { IfSome result (AsksReplica ring.now fields.now) }
    ensures none { result ≡ None → ¬ (IsReplica ring.now fields.now) }
{
    match fields.value_of(b"x-swc-shard-replica") {
        Some(text) => number_below(ring.replicas, text),
        None => Some(0),
    }
}

/// The number below this one that a text is in decimal, without leading zeros.
fn number_below(count: u8, text: &[u8]) -> Option<u8>
    ensures some { IfSome result (λ number. IsNumberBelow count number text.now) }
    ensures none { result ≡ None → (number : ℕ) → ¬ (IsNumberBelow count number text.now) }
{
    for number in 0..count {
        if has_number(text, u32::from(number)) {
            return Some(number);
        }
    }
    None
}
