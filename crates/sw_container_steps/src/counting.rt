ghost use Rattle.std.specs.Prelude.{◌≡◌, ◌+◌, ◌-◌, ◌^◌, ◌≤◌, nat_le, length};
ghost use Rattle.sw_container_steps.specs.Entries.{is_merge, rows_in, top_of};

use crate::cont_entry::ContEntry;
use sw_keeper::Tables;

/// Whether the container has numbers (ROWIDs) for all rows that the entries put in.
pub fn has_numbers(tables: &Option<Tables>, entries: &[ContEntry]) -> bool
    ensures { result ≡ nat_le (top_of tables.now + rows_in entries.now) (2 ^ 64 - 1) }
{
    rows_in(entries) <= u64::MAX - top_of(tables)
}

fn top_of(tables: &Option<Tables>) -> u64
    ensures { result ≡ top_of tables.now }
{
    match tables {
        Some(tables) => tables.rows.top(),
        None => 0,
    }
}

/// How many rows the entries put in.
fn rows_in(entries: &[ContEntry]) -> u64
    ensures { result ≡ rows_in entries.now }
{
    entries.iter().filter(|entry| is_merge(entry)).count() as u64
}

fn is_merge(entry: &ContEntry) -> bool
    ensures { result ≡ is_merge entry.now }
{
    match entry {
        ContEntry::Merged(_, _) => true,
        ContEntry::Created(_, _) => false,
        ContEntry::Removed(_, _) => false,
        ContEntry::Ranged(_, _) => false,
        ContEntry::Acked(_, _, _, _) => false,
        ContEntry::Closed(_, _) => false,
        ContEntry::Emptied(_) => false,
        ContEntry::Synced(_, _, _) => false,
    }
}
