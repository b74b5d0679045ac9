ghost use Rattle.std.specs.Prelude.{◌≤◌, length, IfOk};
ghost use Rattle.sw_outside.specs.Doors.{accepts_of, finished_of};

use crate::case::Case;
use crate::connection::{Connection, Exchange};
use crate::difference::{Difference, Part};
use std::alloc::Global;
use sw_outside::{Bytes, MemConnection, MemDoors, MemFinished, NoMemory};

/// Doors to which the connections of a case come. No connection was finished that wasn't accepted.
pub fn doors(alloc: Global, case: &Case) -> Result<MemDoors, NoMemory>
    ensures { IfOk result (λ doors. length (finished_of doors) ≤ length (accepts_of doors)) }
{
    let mut coming = Vec::new(alloc);
    for (connection, exchange) in case.script.connections.iter().zip(&case.exchanges) {
        coming.push(ends(alloc, connection, exchange)?)?;
    }
    let failing = Vec::from_slice(alloc, &case.script.failing_doors)?;
    Ok(MemDoors::new(alloc, coming, failing))
}

fn ends(
    alloc: Global,
    connection: &Connection,
    exchange: &Exchange,
) -> Result<MemConnection, NoMemory> {
    Ok(MemConnection {
        bytes: Bytes::copy(alloc, &exchange.input)?,
        pieces: Vec::from_slice(alloc, &connection.pieces)?,
        failing_reads: Vec::from_slice(alloc, &connection.failing_reads)?,
        failing_puts: Vec::from_slice(alloc, &connection.failing_puts)?,
    })
}

/// The first difference between the connections that were finished and those that are wanted: of each its output and its status, and last how many they
/// are.
pub fn compare_connections(
    alloc: Global,
    case: &Case,
    finished: &[MemFinished],
) -> Result<Option<Difference>, NoMemory> {
    let wanted = case.script.connections.iter().zip(&case.exchanges);
    let mut number: u64 = 0;
    for ((connection, exchange), came) in wanted.zip(finished) {
        number = number.saturating_add(1);
        let found = compare_connection(alloc, number, connection, exchange, came)?;
        if found.is_some() {
            return Ok(found);
        }
    }
    let connections = case.script.connections.iter();
    let wanted = connections.filter(|wanted| wanted.status.is_some()).count() as u64;
    let came = finished.len() as u64;
    Difference::between_numbers(alloc, Part::Connections, &[wanted], &[came])
}

/// Compares the connection of this number, counted from 1. What isn't to be accepted has nothing to compare.
fn compare_connection(
    alloc: Global,
    number: u64,
    connection: &Connection,
    exchange: &Exchange,
    came: &MemFinished,
) -> Result<Option<Difference>, NoMemory> {
    let Some(wanted) = connection.status else {
        return Ok(None);
    };
    let part = Part::OutputOf(number);
    let found = Difference::between(alloc, part, &exchange.output, came.sink.bytes())?;
    if found.is_none() && wanted != came.status {
        return Ok(Some(Difference::StatusOf {
            connection: number,
            wanted,
            came: came.status,
        }));
    }
    Ok(found)
}
