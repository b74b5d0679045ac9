ghost use Rattle.std.specs.Prelude.{◌≡◌, codes, option_map, IfOk};
ghost use Rattle.std.specs.List.{list_all};
ghost use Rattle.std.specs.Option.{option_copied};
ghost use Rattle.serde_json.specs.Find.{as_array, as_str};
ghost use Rattle.serde_json.specs.View.{items_view, view};
ghost use Rattle.sw_ring.specs.Shapes.{field, has_keys, is_device_name, is_name_byte, items_in, list_in, name_in, number_in, row_in, secrets_from};

use crate::NumberRow;
use serde_json::Value;
use std::alloc::Global;
use sw_hashpath::Secrets;
use sw_outside::{Bytes, BytesList, NoMemory};

/// A device's name has at most so many bytes.
const NAME_LIMIT: usize = 32;

/// Whether a JSON value is an object with so many keys.
pub(crate) fn has_key_count(value: &Value, count: usize) -> bool
    ensures { result ≡ has_keys count (view value.now) }
{
    match value.as_object() {
        Some(members) => members.len() == count,
        None => false,
    }
}

/// The number at a key. `None` where there is none, or the value is no whole number below 2^64.
pub(crate) fn number_at(value: &Value, key: &str) -> Option<u64>
    ensures { result ≡ field number_in key.now (view value.now) }
{
    value.get(key).and_then(Value::as_u64)
}

/// The text at a key.
fn text_at<'v>(value: &'v Value, key: &str) -> Option<&'v str>
    ensures { option_copied result ≡ field as_str key.now (view value.now) }
{
    value.get(key).and_then(Value::as_str)
}

/// The secrets.
pub(crate) fn secrets_of(alloc: Global, value: &Value) -> Result<Option<Secrets>, NoMemory>
    ensures { IfOk result (λ secrets.
        secrets ≡ secrets_from (field as_str (codes "hash_prefix") (view value.now)) (field as_str (codes "hash_suffix") (view value.now))) }
{
    let Some(prefix) = text_at(value, "hash_prefix") else {
        return Ok(None);
    };
    let Some(suffix) = text_at(value, "hash_suffix") else {
        return Ok(None);
    };
    Ok(Some(Secrets {
        prefix: Bytes::copy(alloc, prefix.as_bytes())?,
        suffix: Bytes::copy(alloc, suffix.as_bytes())?,
    }))
}

/// The array at a key.
fn array_at<'v>(value: &'v Value, key: &str) -> Option<&'v Vec<Value>>
    ensures { option_map (λ v. items_view v.now.items) result ≡ field as_array key.now (view value.now) }
{
    value.get(key).and_then(Value::as_array)
}

/// The names of the devices. `None` where they aren't a list of names in their grammar.
pub(crate) fn names_at(
    alloc: Global,
    value: &Value,
    key: &str,
) -> Result<Option<BytesList>, NoMemory>
    ensures { IfOk result (λ names. names ≡ field (list_in name_in) key.now (view value.now)) }
{
    match array_at(value, key) {
        Some(items) => names_of(alloc, items),
        None => Ok(None),
    }
}

fn names_of(alloc: Global, items: &[Value]) -> Result<Option<BytesList>, NoMemory>
    ensures { IfOk result (λ names. names ≡ items_in name_in (items_view items.now)) }
{
    let mut names = Vec::with_capacity(alloc, items.len())?;
    for item in items {
        let Some(name) = name_of(item) else {
            return Ok(None);
        };
        names.push(Bytes::copy(alloc, name)?)?;
    }
    Ok(Some(BytesList::from(names)))
}

fn name_of(item: &Value) -> Option<&[u8]>
    ensures { option_copied result ≡ name_in (view item.now) }
{
    let name = item.as_str()?.as_bytes();
    if is_name(name) { Some(name) } else { None }
}

/// Whether a name has 1 to 32 small letters and digits.
fn is_name(name: &[u8]) -> bool
    ensures { result ≡ is_device_name name.now }
{
    !name.is_empty() && name.len() <= NAME_LIMIT && has_name_bytes(name)
}

fn has_name_bytes(name: &[u8]) -> bool
    ensures { result ≡ list_all is_name_byte name.now }
{
    name.iter()
        .all(|b| b.is_ascii_lowercase() || b.is_ascii_digit())
}

/// The table at a key. `None` where it isn't a list of lists of numbers.
pub(crate) fn table_at(
    alloc: Global,
    value: &Value,
    key: &str,
) -> Result<Option<Vec<NumberRow>>, NoMemory>
    ensures { IfOk result (λ table. option_map (λ t. t.items) table ≡ field (list_in row_in) key.now (view value.now)) }
{
    match array_at(value, key) {
        Some(items) => rows_of(alloc, items),
        None => Ok(None),
    }
}

fn rows_of(alloc: Global, items: &[Value]) -> Result<Option<Vec<NumberRow>>, NoMemory>
    ensures { IfOk result (λ table. option_map (λ t. t.items) table ≡ items_in row_in (items_view items.now)) }
{
    let mut rows = Vec::with_capacity(alloc, items.len())?;
    for item in items {
        let Some(row) = row_of(alloc, item)? else {
            return Ok(None);
        };
        rows.push(row)?;
    }
    Ok(Some(rows))
}

fn row_of(alloc: Global, item: &Value) -> Result<Option<NumberRow>, NoMemory>
    ensures { IfOk result (λ row. row ≡ row_in (view item.now)) }
{
    match item.as_array() {
        Some(items) => numbers_of(alloc, items),
        None => Ok(None),
    }
}

fn numbers_of(alloc: Global, items: &[Value]) -> Result<Option<NumberRow>, NoMemory>
    ensures { IfOk result (λ row. row ≡ items_in number_in (items_view items.now)) }
{
    let mut numbers = Vec::with_capacity(alloc, items.len())?;
    for item in items {
        let Some(number) = item.as_u64() else {
            return Ok(None);
        };
        numbers.push(number)?;
    }
    Ok(Some(NumberRow::from(numbers)))
}
