ghost use Rattle.std.specs.Prelude.{◌≡◌, ◌<◌, ◌≤◌, ◌+◌, ◌++◌, ◌∷◌, [], find, List, All, None, OnOk, OnErr, vec_len, vec_capacity};
ghost use Rattle.sw_rows.specs.Exchanging.{but_all, Behind, IsLog};
ghost use Rattle.sw_rows.specs.Rows.{is_numbered, IsRising};
ghost use Rattle.sw_rows.specs.declared.numbered.Numbered.{Numbered};

use crate::numbered::Numbered;
use crate::numbers::Numbers;
use crate::row::Row;
use std::alloc::Global;
use std::sync::Arc;
use sw_outside::NoMemory;

/// Takes the rows of these numbers away and puts others behind those that are left. After [`NoMemory`] the rows are what they
/// were: all that takes memory is done before the first row goes.
pub(crate) fn exchange(
    numbers: &mut Numbers,
    alloc: Global,
    gone: &[u64],
    rows: Vec<Numbered>,
) -> Result<(), NoMemory>
    ghost behind: { Behind }
    requires list { numbers.old ≡ behind.list }
    requires rows { rows.items ≡ behind.rows }
    requires rising { IsRising 0 (behind.list ++ behind.rows) }
    requires apart { All (λ rowid. find (is_numbered rowid) behind.rows ≡ None) gone.now }
    ensures rows { OnOk result (numbers.new ≡ but_all behind.list gone.now ++ behind.rows) }
    ensures err { OnErr result (numbers.new ≡ behind.list) }
{
    push_all(numbers, alloc, rows)?;
    cut_all(numbers, gone);
    Ok(())
}

/// Puts all rows behind the others.
fn push_all(numbers: &mut Numbers, alloc: Global, rows: Vec<Numbered>) -> Result<(), NoMemory>
    ghost behind: { Behind }
    requires list { numbers.old ≡ behind.list }
    requires rows { rows.items ≡ behind.rows }
    requires rising { IsRising 0 (behind.list ++ behind.rows) }
    ensures rows { OnOk result (numbers.new ≡ behind.list ++ behind.rows) }
    ensures err { OnErr result (numbers.new ≡ behind.list) }
{
    let mut log = Vec::with_capacity(alloc, rows.len())?;
    for numbered in rows {
        let rowid = numbered.rowid;
        match push(numbers, alloc, rowid, numbered.row) {
            Ok(()) => note(&mut log, rowid),
            Err(error) => {
                undo(numbers, log);
                return Err(error);
            }
        }
    }
    Ok(())
}

/// Puts a row behind the others.
fn push(numbers: &mut Numbers, alloc: Global, rowid: u64, row: Row) -> Result<(), NoMemory>
    requires positive { 0 < rowid }
    requires above { All (λ n. n.rowid < rowid) numbers.old }
    ensures rows { OnOk result (numbers.new ≡ numbers.old ++ record { rowid = rowid; row = row } ∷ []) }
    ensures err { OnErr result (numbers.new ≡ numbers.old) }
{
    let row = Arc::new(alloc, row)?;
    numbers.push(rowid, row)
}

/// Writes a number down, where there is room for it.
fn note(log: &mut Vec<u64>, rowid: u64)
    requires { vec_len log.old < vec_capacity log.old }
    ensures items { log.new.items ≡ log.old.items ++ rowid ∷ [] }
    ensures capacity { vec_capacity log.old ≤ vec_capacity log.new }
    ensures count { vec_len log.new ≡ vec_len log.old + 1 }
{
    log.push_reserved(rowid);
}

/// Takes the pushed rows away again, the last one first. It takes no memory.
fn undo(numbers: &mut Numbers, log: Vec<u64>)
    ghost base: { List Numbered }
    requires { IsLog base log.items numbers.old }
    ensures { numbers.new ≡ base }
{
    let mut log = log;
    while let Some(rowid) = log.pop() {
        let _ = numbers.cut(rowid);
    }
}

/// Takes the rows of these numbers away. None of them stands among the rows that were put behind the others. It takes no memory.
fn cut_all(numbers: &mut Numbers, gone: &[u64])
    ghost behind: { Behind }
    requires whole { numbers.old ≡ behind.list ++ behind.rows }
    requires apart { All (λ rowid. find (is_numbered rowid) behind.rows ≡ None) gone.now }
    ensures { numbers.new ≡ but_all behind.list gone.now ++ behind.rows }
{
    for rowid in gone {
        let _ = numbers.cut(*rowid);
    }
}
