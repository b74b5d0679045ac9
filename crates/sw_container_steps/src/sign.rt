ghost use Rattle.std.specs.Prelude.{◌≡◌};
ghost use Rattle.sw_container_steps.specs.Laws.{raised_by, sign_of};

use crate::cont_entry::ContEntry;
use crate::syncing::SYNC_RANGE;
use sw_keeper::Tables;
use sw_timestamp::Timestamp;

/// What is seen of a container that entries change: its times, the greatest number given out, how far it is split, and the point that they raise.
#[derive(Clone, Copy, Debug)]
pub struct Sign {
    pub put_time: Timestamp,
    pub delete_time: Option<Timestamp>,
    /// The greatest number (ROWID) given out.
    pub top: u64,
    pub is_ranged: bool,
    pub cursor: u32,
    pub emptied: bool,
    /// The number that is kept of the range and device of the first entry, where that raises a point.
    pub raised: Option<u64>,
}

/// What these entries are seen by; none where the container isn't held. Those of a step that isn't refused change it.
pub fn sign_of(entries: &[ContEntry], tables: &Option<Tables>) -> Option<Sign>
    ensures { result ≡ sign_of entries.now tables.now }
{
    match tables {
        Some(tables) => Some(Sign {
            put_time: tables.put_time,
            delete_time: tables.delete_time,
            top: tables.rows.top(),
            is_ranged: tables.ranges.is_some(),
            cursor: tables.cursor,
            emptied: tables.emptied,
            raised: raised_by(entries, tables),
        }),
        None => None,
    }
}

/// The point that the first of the entries raises, as these tables have it.
fn raised_by(entries: &[ContEntry], tables: &Tables) -> Option<u64>
    ensures { result ≡ raised_by entries.now tables.now }
{
    match entries {
        [ContEntry::Acked(_, range, device, _), ..] => tables.points.get(*range, *device),
        [ContEntry::Synced(_, device, _), ..] => tables.syncs.get(SYNC_RANGE, *device),
        _ => None,
    }
}
