ghost use Rattle.std.specs.Prelude.{IfOk, OnErr};
ghost use Rattle.sw_fields.specs.Metadata.{IsHeads, TakesItems};

use crate::expiry::expiry_of;
use crate::items::items_of;
use std::alloc::Global;
use sw_hashpath::Name;
use sw_message::FieldList;
use sw_outside::NoMemory;
use sw_state::Heads;
use sw_timestamp::Timestamp;

/// The metadata that the fields give a write of this name at this time. It answers `None` where they are refused: a bad X-Delete-At, or
/// user metadata that breaks a limit. Memory is taken for items alone, and for none where the expiry is refused.
pub fn heads_of(
    alloc: Global,
    time: Timestamp,
    name: &Name,
    fields: &FieldList,
) -> Result<Option<Heads>, NoMemory>
    ensures heads { IfOk result (IsHeads time name.now fields.now) }
    ensures for_items { OnErr result (TakesItems time name.now fields.now) }
{
    let Ok(delete_at) = expiry_of(time, name, fields) else {
        return Ok(None);
    };
    match items_of(alloc, fields)? {
        Some(items) => Ok(Some(Heads { delete_at, items })),
        None => Ok(None),
    }
}
