ghost use Rattle.std.specs.Prelude.{◌≡◌, ◌++◌, codes, IfOk, OnOk};
ghost use Rattle.sw_control.specs.ShardsText.{bound_text, shard_line, shards_text as shards_text_of};
ghost use Rattle.sw_control.specs.TrailText.{place_path as place_path_of};
ghost use Rattle.sw_metafile.specs.Escapes.{escape};

use crate::outcomes::add_number;
use crate::trail_lines::place_path;
use itoa::Buffer;
use std::alloc::Global;
use sw_hashpath::Place;
use sw_metafile::push_escaped;
use sw_outside::{Bytes, NoMemory};
use sw_shard_range::Range;

/// The text of shard ranges, in the list's order: for each its index from 0, the number of its state, its lower and its upper bound in escaped form, or `*`
/// where there is none, and the path of its shard in escaped form.
pub fn shards_text(alloc: Global, ranges: &[Range]) -> Result<Bytes, NoMemory>
    ensures { IfOk result (λ text. text ≡ shards_text_of ranges.now) }
{
    let mut text = Vec::new(alloc);
    for (index, range) in ranges.iter().enumerate() {
        add_range(alloc, &mut text, index, range)?;
    }
    Ok(Bytes::from(text))
}

/// Adds the line of a range.
fn add_range(alloc: Global, text: &mut Vec<u8>, index: usize, range: &Range) -> Result<(), NoMemory>
    ensures { OnOk result (text.new.items ≡ text.old.items ++ shard_line index range.now) }
{
    text.extend_from_slice(Buffer::new().format(index).as_bytes())?;
    add_number(text, b" ", u64::from(range.state))?;
    add_bound(text, range.lower.as_slice())?;
    add_bound(text, range.upper.as_slice())?;
    add_path(alloc, text, &range.shard)?;
    text.extend_from_slice(b"\n")?;
    Ok(())
}

/// Adds a bound behind a space, or `*` where there is none.
fn add_bound(text: &mut Vec<u8>, bound: &[u8]) -> Result<(), NoMemory>
    ensures { OnOk result (text.new.items ≡ text.old.items ++ (codes " " ++ bound_text bound.now)) }
{
    if bound.is_empty() {
        text.extend_from_slice(b" *")?;
        return Ok(());
    }
    text.extend_from_slice(b" ")?;
    push_escaped(text, bound)
}

/// Adds the path of a shard behind a space.
fn add_path(alloc: Global, text: &mut Vec<u8>, shard: &Place) -> Result<(), NoMemory>
    ensures { OnOk result (text.new.items ≡ text.old.items ++ (codes " " ++ escape (place_path_of shard.now))) }
{
    let path = place_path(alloc, shard)?;
    text.extend_from_slice(b" ")?;
    push_escaped(text, &path)
}
