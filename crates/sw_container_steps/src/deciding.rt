ghost use Rattle.std.specs.Prelude.{◌≡◌, Option, IfOk, OnErr};
ghost use Rattle.sw_container_steps.specs.Deciding.{IsDecided, TakesMemory};
ghost use Rattle.sw_container_steps.specs.Presence.{is_present as is_there};
ghost use Rattle.sw_container_steps.specs.Steps.{cont_made_answer};
ghost use Rattle.sw_keeper.specs.declared.tables.Tables.{Tables as TablesValue};

use crate::cont_answer::ContAnswer;
use crate::cont_change::ContChange;
use crate::cont_entry::ContEntryList;
use crate::entries::entries_for;
use crate::refusing::refusal;
use std::alloc::Global;
use sw_hashpath::Place;
use sw_keeper::Tables;
use sw_outside::NoMemory;

/// What a step comes to.
#[derive(Debug, Drop)]
pub enum Decision {
    /// What stands refuses the step, with this answer.
    Refused(ContAnswer),
    /// The step isn't refused. It adds these entries: none where it has nothing to change.
    Makes(ContEntryList),
}

/// What the step comes to over the tables that stand at its place, or [`NoMemory`], which comes only of a step that isn't refused and has entries, or
/// one that is sent on to a shard.
pub fn decide(
    alloc: Global,
    tables: &Option<Tables>,
    place: &Place,
    change: &ContChange,
) -> Result<Decision, NoMemory>
    ensures ok { IfOk result (λ decision. IsDecided tables.now place.now change.now decision) }
    ensures starved { OnErr result (TakesMemory tables.now place.now change.now) }
{
    if let Some(answer) = refusal(alloc, tables, place, change)? {
        return Ok(Decision::Refused(answer));
    }
    let entries = entries_for(alloc, tables, place, change)?;
    Ok(Decision::Makes(entries.into()))
}

/// What a step that isn't refused is answered, with this front, by whether the container was there.
pub fn made_answer(was_there: bool, change: &ContChange, front: u64) -> ContAnswer
    ensures { (tables : Option TablesValue) → is_there tables ≡ was_there → result ≡ cont_made_answer tables change.now front }
{
    match change {
        ContChange::Create { .. } => {
            if was_there {
                ContAnswer::There(front)
            } else {
                ContAnswer::New(front)
            }
        }
        _ => ContAnswer::Done(front),
    }
}
