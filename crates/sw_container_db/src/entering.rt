ghost use Rattle.std.specs.Prelude.{◌≡◌, ◌+◌, ◌≤◌, ◌++◌, vec_len, vec_capacity, OnOk};

use sw_container_steps::ContEntry;
use sw_history::Seen;
use sw_outside::NoMemory;

/// Takes room for so many entries more, in the journal and among those to be taken. What is in them stays, also where memory runs out.
pub(crate) fn make_room(
    entries: &mut Vec<Seen<ContEntry>>,
    fresh: &mut Vec<ContEntry>,
    more: usize,
) -> Result<(), NoMemory>
    ensures entries { entries.new.items ≡ entries.old.items }
    ensures fresh { fresh.new.items ≡ fresh.old.items }
    ensures room { OnOk result (vec_len entries.new + more ≤ vec_capacity entries.new) }
    ensures fresh_room { OnOk result (vec_len fresh.new + more ≤ vec_capacity fresh.new) }
{
    entries.reserve(more)?;
    fresh.reserve(more)?;
    Ok(())
}

/// Moves a batch behind the entries to be taken, where there is room for it. The journal keeps what contracts see of it.
pub(crate) fn enter(
    entries: &mut Vec<Seen<ContEntry>>,
    fresh: &mut Vec<ContEntry>,
    batch: Vec<ContEntry>,
)
    requires room { vec_len entries.old + vec_len batch ≤ vec_capacity entries.old }
    requires fresh_room { vec_len fresh.old + vec_len batch ≤ vec_capacity fresh.old }
    ensures entries { entries.new.items ≡ entries.old.items ++ batch.items }
    ensures fresh { fresh.new.items ≡ fresh.old.items ++ batch.items }
{
    for entry in batch {
        entries.push_reserved(Seen::of(&entry));
        fresh.push_reserved(entry);
    }
}
