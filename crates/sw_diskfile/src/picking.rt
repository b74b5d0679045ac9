ghost use Rattle.std.specs.Prelude.{◌≡◌, ◌&&◌, if◌then◌else◌, true, Some};
ghost use Rattle.std.specs.Option.{option_map_or};
ghost use Rattle.sw_diskfile.specs.Picking as picking;

use crate::file_name::FileName;
use sw_timestamp::Tag;

/// What a hash directory's files make: data or a tombstone, and the metadata that counts beside it.
#[derive(Clone, Copy, Debug, PartialEq, Eq)]
pub struct Picked {
    pub base: Option<FileName>,
    pub meta: Option<FileName>,
}

/// Picks the greatest data or tombstone by time, a tombstone before data of the same time, and the greatest metadata that
/// is strictly later, or of all where there is neither data nor a tombstone.
pub fn pick(names: &[FileName]) -> Picked
    ensures { picking.IsPicked names.now result }
{
    let base = greatest_base(names);
    let meta = greatest_meta(names, &base);
    Picked { base, meta }
}

/// The greatest data or tombstone.
fn greatest_base(names: &[FileName]) -> Option<FileName>
    ensures { picking.IsGreatestOf names.now picking.is_base result }
{
    let mut greatest: Option<FileName> = None;
    for name in names {
        greatest = greater(greatest, name, is_base(name));
    }
    greatest
}

/// The greatest metadata that counts beside this base.
fn greatest_meta(names: &[FileName], base: &Option<FileName>) -> Option<FileName>
    ensures { picking.IsGreatestOf names.now (picking.is_later_meta base.now) result }
{
    let mut greatest: Option<FileName> = None;
    for name in names {
        greatest = greater(greatest, name, is_later_meta(name, base));
    }
    greatest
}

/// The file, where it counts and is above the one that was found or none was; else the one that was found.
fn greater(found: Option<FileName>, name: &FileName, counts: bool) -> Option<FileName>
    ensures { result ≡ (if counts && option_map_or (picking.is_above name.now) found true then Some name.now else found) }
{
    let is_above = match &found {
        Some(other) => is_above(name, other),
        None => true,
    };
    if counts && is_above {
        Some(*name)
    } else {
        found
    }
}

/// Whether the first is later, or a tombstone at the time of data.
fn is_above(name: &FileName, other: &FileName) -> bool
    ensures { result ≡ picking.is_above name.now other.now }
{
    other.time < name.time
        || other.time == name.time && name.tag == Tag::Del && other.tag != Tag::Del
}

/// Whether the file is data or a tombstone.
fn is_base(name: &FileName) -> bool
    ensures { result ≡ picking.is_base name.now }
{
    name.tag != Tag::Meta
}

/// Whether the file is metadata that counts beside this base.
fn is_later_meta(name: &FileName, base: &Option<FileName>) -> bool
    ensures { result ≡ picking.is_later_meta base.now name.now }
{
    match base {
        Some(base) => name.tag == Tag::Meta && base.time < name.time,
        None => name.tag == Tag::Meta,
    }
}
