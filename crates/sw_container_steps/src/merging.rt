ghost use Rattle.std.specs.Prelude.{◌≡◌, ◌≢◌, ◌++◌, ◌∷◌, [], IfOk, OnErr};
ghost use Rattle.std.specs.Option.{option_or};
ghost use Rattle.sw_container_steps.specs.Entries.{rows_of};
ghost use Rattle.sw_container_steps.specs.Steps.{merging_entries};
ghost use Rattle.sw_rows.specs.Rows.{find_named, fits};

use crate::cont_entry::ContEntry;
use std::alloc::Global;
use sw_hashpath::Place;
use sw_keeper::Tables;
use sw_outside::NoMemory;
use sw_rows::{Row, Rows};

/// The entries of the rows that are put in, each over those before it, behind these entries. Where none is put in no memory is taken.
pub(crate) fn merging_entries(
    alloc: Global,
    entries: Vec<ContEntry>,
    tables: &Option<Tables>,
    place: &Place,
    rows: &[Row],
) -> Result<Vec<ContEntry>, NoMemory>
    ensures ok { IfOk result (λ all. all.items ≡ entries.items ++ merging_entries (rows_of tables.now) place.now rows.now) }
    ensures starved { OnErr result (merging_entries (rows_of tables.now) place.now rows.now ≢ []) }
{
    match rows {
        [row] => merging_entry(alloc, entries, tables, place, row),
        _ => all_merging_entries(alloc, entries, tables, place, rows),
    }
}

/// The same of one row, which is looked for over the tables alone.
fn merging_entry(
    alloc: Global,
    mut entries: Vec<ContEntry>,
    tables: &Option<Tables>,
    place: &Place,
    row: &Row,
) -> Result<Vec<ContEntry>, NoMemory>
    ensures ok { IfOk result (λ all. all.items ≡ entries.items ++ merging_entries (rows_of tables.now) place.now (row.now ∷ [])) }
    ensures starved { OnErr result (merging_entries (rows_of tables.now) place.now (row.now ∷ []) ≢ []) }
{
    if takes(tables, row) {
        entries.push(ContEntry::Merged(place.copy(alloc)?, row.copy(alloc)?))?;
    }
    Ok(entries)
}

/// The same of any rows.
///
/// What was put in before is kept beside the tables, so they needn't be copied. Its time grows with the number of these rows,
/// each of them with the logarithm of the number of rows there.
fn all_merging_entries(
    alloc: Global,
    mut entries: Vec<ContEntry>,
    tables: &Option<Tables>,
    place: &Place,
    rows: &[Row],
) -> Result<Vec<ContEntry>, NoMemory>
    ensures ok { IfOk result (λ all. all.items ≡ entries.items ++ merging_entries (rows_of tables.now) place.now rows.now) }
    ensures starved { OnErr result (merging_entries (rows_of tables.now) place.now rows.now ≢ []) }
{
    let mut later = Rows::empty(alloc);
    for row in rows {
        if is_taken(tables, &later, row) {
            entries.push(ContEntry::Merged(place.copy(alloc)?, row.copy(alloc)?))?;
            let _ = later.merge(alloc, row.copy(alloc)?)?;
        }
    }
    Ok(entries)
}

/// Whether a row is put in over the tables and what came later.
fn is_taken(tables: &Option<Tables>, later: &Rows, row: &Row) -> bool
    ensures { result ≡ fits (option_or (find_named later.now.list row.now.name) (find_named (rows_of tables.now).list row.now.name)) row.now }
{
    match later.get(row.name.as_slice()) {
        Some(present) => !present.is_at_least(row),
        None => takes(tables, row),
    }
}

fn takes(tables: &Option<Tables>, row: &Row) -> bool
    ensures { result ≡ fits (find_named (rows_of tables.now).list row.now.name) row.now }
{
    match tables {
        Some(tables) => tables.rows.takes(row),
        None => true,
    }
}
