ghost use Rattle.std.specs.Prelude.{◌≡◌, ◌<◌, ◌^◌, IfOk, MatchOption};
ghost use Rattle.sw_cleave.specs.Cutting.{AreCut, CantCut, IsBadShard, IsRangeBetween};
ghost use Rattle.sw_shard_range.specs.Laws.{AreTiled};

use std::alloc::Global;
use sw_hashpath::{NameError, Place, Secrets};
use sw_outside::{Bytes, NoMemory};
use sw_shard_range::state::CREATED;
use sw_shard_range::{Range, Ranges, shard_name};
use sw_timestamp::Timestamp;

/// The shard ranges of a container that is cut at these bounds, whose shards are named by this time, or [`NoMemory`]; none where a shard would have a bad
/// name, or the bounds don't rise, or are too many.
pub(crate) fn cut(
    alloc: Global,
    secrets: &Secrets,
    place: &Place,
    time: Timestamp,
    bounds: &[Bytes],
) -> Result<Option<Ranges>, NoMemory>
    ensures { IfOk result (λ cut. MatchOption cut (CantCut secrets.now place.now time bounds.now)
        (λ ranges. AreCut secrets.now place.now time bounds.now ranges × AreTiled ranges)) }
{
    if bounds.len() >= u32::MAX as usize {
        return Ok(None);
    }
    let mut list = Vec::new(alloc);
    let mut lower: &[u8] = b"";
    for upper in bounds {
        let index = list.len() as u32;
        let Some(range) = range_of(alloc, secrets, place, time, index, lower, upper.as_slice())?
        else {
            return Ok(None);
        };
        list.push(range)?;
        lower = upper.as_slice();
    }
    let index = list.len() as u32;
    let Some(range) = range_of(alloc, secrets, place, time, index, lower, b"")? else {
        return Ok(None);
    };
    list.push(range)?;
    Ok(Ranges::new(list).ok())
}

/// One range, between these bounds, or [`NoMemory`]; none where its shard would have a bad name.
fn range_of(
    alloc: Global,
    secrets: &Secrets,
    place: &Place,
    time: Timestamp,
    index: u32,
    lower: &[u8],
    upper: &[u8],
) -> Result<Option<Range>, NoMemory>
    ensures { IfOk result (λ cut. MatchOption cut (IsBadShard secrets.now place.now time index)
        (λ range. IsRangeBetween secrets.now place.now time index lower.now upper.now range)) }
{
    let shard = match shard_name(alloc, secrets, place, time, index) {
        Ok(shard) => shard,
        Err(NameError::Bad(_)) => return Ok(None),
        Err(NameError::NoMemory) => return Err(NoMemory),
    };
    Ok(Some(Range {
        lower: Bytes::copy(alloc, lower)?,
        upper: Bytes::copy(alloc, upper)?,
        shard,
        state: CREATED,
    }))
}
