ghost use Rattle.std.specs.Prelude.{◌≡◌, ◌≢◌, ◌+◌, ◌-◌, ◌^◌, ◌≤◌, [], IsSome, IfOk, OnErr};
ghost use Rattle.sw_container_steps.specs.Batches.{batch_for};
ghost use Rattle.sw_container_steps.specs.Entries.{all_entered, rows_in, rows_of, top_of};
ghost use Rattle.sw_keeper.specs.Changes.{IsBatch, all_changed};
ghost use Rattle.sw_rows.specs.Rows.{IsListed};

use crate::cont_entry::ContEntry;
use crate::entering::enter;
use std::alloc::Global;
use sw_keeper::{Batch, Tables};
use sw_outside::NoMemory;

/// Entries as a keeper takes them: the batch of changes that makes them, and the tables after it.
#[derive(Debug, Drop)]
pub struct Entered {
    pub batch: Batch,
    pub tables: Option<Tables>,
}

/// The batch of changes that makes these entries where these tables are held, or [`NoMemory`], which comes only where there are entries.
///
/// A keeper takes it wherever the container is held in the end. Its time grows with the logarithm of the number of rows, for
/// each row that is put in.
pub fn batch_of(
    alloc: Global,
    tables: Option<Tables>,
    entries: &[ContEntry],
) -> Result<Entered, NoMemory>
    requires { top_of tables + rows_in entries.now ≤ 2 ^ 64 - 1 }
    ensures batch { IfOk result (λ made. made.batch ≡ batch_for tables entries.now) }
    ensures tables { IfOk result (λ made. made.tables ≡ all_entered tables entries.now) }
    ensures makes { IfOk result (λ made. all_changed tables made.batch ≡ made.tables) }
    ensures fits { IfOk result (λ made. IsSome made.tables → IsBatch tables made.batch) }
    ensures starved { OnErr result (entries.now ≢ []) }
{
    see_rows(&tables);
    let mut changes = Vec::new(alloc);
    let mut now = tables;
    for entry in entries {
        now = enter(alloc, now, &mut changes, entry)?;
    }
    Ok(Entered {
        batch: changes.into(),
        tables: now,
    })
}

/// Rows are in order, and each name has one: what makes of entries a batch that fits.
fn see_rows(tables: &Option<Tables>)
    ensures { IsListed (rows_of tables.now) }
{
    if let Some(tables) = tables {
        let _ = tables.rows.iter();
    }
}
