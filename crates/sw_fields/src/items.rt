ghost use Rattle.std.specs.Prelude.{◌≡◌, ◌-◌, ◌^◌, true, Ok, min, count_by, sum_by, IfOk, OnErr};
ghost use Rattle.std.specs.List.{list_all};
ghost use Rattle.std.specs.Str.{str_to_ascii_lowercase};
ghost use Rattle.sw_message.specs.Fields.{is_named as is_named_field};
ghost use Rattle.sw_state.specs.HeadNames.{is_name, with_head};
ghost use Rattle.sw_fields.specs.Items.{are_few as are_few_items, has_good_name as has_good_name_of, has_items, is_in_limits as is_in_limits_of};
ghost use Rattle.sw_fields.specs.Items.{is_item_field as is_item_field_of, is_kept_field as is_kept_field_of, is_user_field as is_user_field_of};
ghost use Rattle.sw_fields.specs.Items.{is_user_item as is_user_item_of, item_of as item_of_field, items_of as items_of_fields, name_size as name_size_of};
ghost use Rattle.sw_fields.specs.Items.{named_items as named_items_of, user_size as user_size_of, with_field};

use crate::limits::{MAX_ITEM_NAME, MAX_ITEM_VALUE, MAX_ITEMS, MAX_METADATA};
use std::alloc::Global;
use sw_message::{Field, FieldList};
use sw_outside::{Bytes, NoMemory};
use sw_state::{Head, HeadList};

/// What the name of each item of user metadata begins with.
const USER_PREFIX: &[u8] = b"x-object-meta-";

/// How many bytes this is.
const PREFIX_SIZE: usize = 14;

/// The header items that the fields give an object. It answers `None` where one has no name that a field can have, or where user metadata
/// breaks a limit. Without an item no memory is taken.
pub fn items_of(alloc: Global, fields: &FieldList) -> Result<Option<HeadList>, NoMemory>
    ensures items { IfOk result (λ items. items ≡ items_of_fields fields.now) }
    ensures for_items { OnErr result (has_items fields.now ≡ true) }
{
    let Some(items) = named_items(alloc, fields.as_slice())? else {
        return Ok(None);
    };
    if are_few(items.as_slice()) {
        Ok(Some(items))
    } else {
        Ok(None)
    }
}

/// The items of these fields, where each has a good name.
fn named_items(alloc: Global, fields: &[Field]) -> Result<Option<HeadList>, NoMemory>
    ensures items { IfOk result (λ items. items ≡ named_items_of fields.now) }
    ensures for_items { OnErr result (has_items fields.now ≡ true) }
{
    let mut items = HeadList::new(alloc);
    for field in fields {
        if !add_field(alloc, &mut items, field)? {
            return Ok(None);
        }
    }
    Ok(Some(items))
}

/// Puts the item that a field is in its place, where it is one. It answers `false` where the item has no name that a field can have.
fn add_field(alloc: Global, items: &mut HeadList, field: &Field) -> Result<bool, NoMemory>
    ensures named { IfOk result (λ named. named ≡ has_good_name_of field.now) }
    ensures put { result ≡ Ok true → items.new ≡ with_field items.old field.now }
    ensures for_items { OnErr result (is_item_field_of field.now ≡ true) }
{
    if !is_item_field(field) {
        return Ok(true);
    }
    put_named(items, item_of(alloc, field)?)
}

/// Puts an item in its place. It answers `false` where it has no name that a field can have, and takes no memory then.
fn put_named(items: &mut HeadList, item: Head) -> Result<bool, NoMemory>
    ensures named { IfOk result (λ named. named ≡ is_name item.name) }
    ensures put { result ≡ Ok true → items.new ≡ with_head items.old item }
    ensures for_named { OnErr result (is_name item.name ≡ true) }
{
    if !HeadList::is_name(item.name.as_slice()) {
        return Ok(false);
    }
    items.put(item)?;
    Ok(true)
}

fn is_item_field(field: &Field) -> bool
    ensures { result ≡ is_item_field_of field.now }
{
    is_user_field(field) || is_kept_field(field)
}

/// Whether a field is an item of user metadata.
fn is_user_field(field: &Field) -> bool
    ensures { result ≡ is_user_field_of field.now }
{
    let name = field.name.as_slice();
    PREFIX_SIZE <= name.len() && name[..PREFIX_SIZE].eq_ignore_ascii_case(USER_PREFIX)
}

/// Whether it is one of the other fields that an object keeps.
fn is_kept_field(field: &Field) -> bool
    ensures { result ≡ is_kept_field_of field.now }
{
    is_named(field, b"cache-control")
        || is_named(field, b"content-disposition")
        || is_named(field, b"content-encoding")
        || is_named(field, b"content-language")
        || is_named(field, b"expires")
        || is_named(field, b"x-robots-tag")
}

fn is_named(field: &Field, name: &[u8]) -> bool
    ensures { result ≡ is_named_field name.now field.now }
{
    field.name.as_slice().eq_ignore_ascii_case(name)
}

/// The item that a field is: its name in lower case, and its value.
fn item_of(alloc: Global, field: &Field) -> Result<Head, NoMemory>
    ensures { IfOk result (λ item. item ≡ item_of_field field.now) }
{
    Ok(Head {
        name: lower_case(alloc, field.name.as_slice())?,
        value: Bytes::copy(alloc, field.value.as_slice())?,
    })
}

fn lower_case(alloc: Global, text: &[u8]) -> Result<Bytes, NoMemory>
    ensures { IfOk result (λ lower. lower ≡ str_to_ascii_lowercase text.now) }
{
    let lower: Vec<u8> = text
        .iter()
        .map(|byte| byte.to_ascii_lowercase())
        .collect(alloc)?;
    Ok(Bytes::from(lower))
}

/// Whether items are no more than an object may have.
fn are_few(items: &[Head]) -> bool
    ensures { result ≡ are_few_items items.now }
{
    user_count(items) <= MAX_ITEMS && are_in_limits(items) && user_bytes(items) <= MAX_METADATA
}

fn user_count(items: &[Head]) -> usize
    ensures { result ≡ count_by is_user_item_of items.now }
{
    items.iter().filter(|item| is_user_item(item)).count()
}

fn are_in_limits(items: &[Head]) -> bool
    ensures { result ≡ list_all is_in_limits_of items.now }
{
    items.iter().all(|item| is_in_limits(item))
}

/// How many bytes of user metadata the items are, or the greatest number where they are more.
fn user_bytes(items: &[Head]) -> usize
    ensures { result ≡ min (sum_by user_size_of items.now) (2 ^ 64 - 1) }
{
    let mut bytes: usize = 0;
    for item in items {
        bytes = bytes.saturating_add(user_size(item));
    }
    bytes
}

fn is_user_item(item: &Head) -> bool
    ensures { result ≡ is_user_item_of item.now }
{
    item.name.as_slice().starts_with(USER_PREFIX)
}

/// How long an item's name is behind the prefix.
fn name_size(item: &Head) -> usize
    ensures { result ≡ name_size_of item.now }
{
    item.name.as_slice().len().saturating_sub(PREFIX_SIZE)
}

/// Whether an item of user metadata has a name behind the prefix, and neither this nor its value is too long.
fn is_in_limits(item: &Head) -> bool
    ensures { result ≡ is_in_limits_of item.now }
{
    !is_user_item(item)
        || (1 <= name_size(item)
            && name_size(item) <= MAX_ITEM_NAME
            && item.value.as_slice().len() <= MAX_ITEM_VALUE)
}

/// How many bytes of user metadata an item is, or the greatest number where they are more.
fn user_size(item: &Head) -> usize
    ensures { result ≡ min (user_size_of item.now) (2 ^ 64 - 1) }
{
    if is_user_item(item) {
        name_size(item).saturating_add(item.value.as_slice().len())
    } else {
        0
    }
}
