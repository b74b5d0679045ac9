ghost use Rattle.std.specs.Prelude.{◌≡◌};
ghost use Rattle.std.specs.Cmp.Lexicographic.{slice_cmp};
ghost use Rattle.std.specs.Ordering.{nat_cmp};
ghost use Rattle.sw_pending.specs.Names.{folder_text, name_text};
ghost use Rattle.sw_pending.specs.Orders.{key_cmp};
ghost use Rattle.sw_pending.specs.Records.{key_of};
ghost use Rattle.sw_updater.specs.Reading.{IsOrderOf};

use std::cmp::Ordering;
use sw_pending::{Filed, NAME_ROOM, folder, write_name};

/// These records in order of folder and name.
pub(crate) fn in_order(mut records: Vec<Filed>) -> Vec<Filed>
    ensures { IsOrderOf records.items result.items }
{
    records.sort_unstable_by(compare);
    records
}

/// Byte order of the folders of two records' files, and in one folder that of their names.
fn compare(one: &Filed, other: &Filed) -> Ordering
    ensures { result ≡ key_cmp (key_of one.now) (key_of other.now) }
{
    compare_folders(one, other).then(compare_names(one, other))
}

fn compare_folders(one: &Filed, other: &Filed) -> Ordering
    ensures { result ≡ slice_cmp nat_cmp (folder_text one.now.name.hash) (folder_text other.now.name.hash) }
{
    folder(&one.name.hash)
        .as_slice()
        .cmp(folder(&other.name.hash).as_slice())
}

fn compare_names(one: &Filed, other: &Filed) -> Ordering
    ensures { result ≡ slice_cmp nat_cmp (name_text (key_of one.now)) (name_text (key_of other.now)) }
{
    let mut left = [0; NAME_ROOM];
    let mut right = [0; NAME_ROOM];
    let left_end = write_name(&one.key(), &mut left);
    let right_end = write_name(&other.key(), &mut right);
    left[..left_end].cmp(&right[..right_end])
}
