use crate::case::Script;
use crate::connection::Connection;
use crate::line::{LineFault, add_numbers, add_puts, add_sizes, byte, number};
use std::alloc::Global;

/// Adds a connection that comes: the status that it is wanted to be finished with, or `-` where it isn't to be accepted.
pub fn add_connection(alloc: Global, script: &mut Script, value: &str) -> Result<(), LineFault> {
    let status = match value {
        "-" => None,
        _ => Some(byte(value)?),
    };
    let connections = &mut script.connections;
    if status.is_some() && connections.iter().any(|before| before.status.is_none()) {
        return Err(LineFault::NotAccepted);
    }
    connections.push(Connection::new(alloc, status))?;
    Ok(())
}

/// Adds what a line says of the connection of an earlier line: its number, counted from 1, and then what the line without `connection-` in front says of
/// the input and the output.
pub fn add_to_connection(script: &mut Script, key: &str, value: &str) -> Result<(), LineFault> {
    let (place, rest) = value.split_once(' ').ok_or(LineFault::NotConnection)?;
    let index = index(place).ok_or(LineFault::NotConnection)?;
    let Some(connection) = script.connections.get_mut(index) else {
        return Err(LineFault::NotConnection);
    };
    match key {
        "connection-pieces" => add_sizes(&mut connection.pieces, rest),
        "connection-failing-reads" => add_numbers(&mut connection.failing_reads, rest),
        _ => add_puts(&mut connection.failing_puts, rest),
    }
}

/// The index of a connection whose number this text is.
fn index(text: &str) -> Option<usize> {
    let index = number(text)?.checked_sub(1)?;
    Some(index as usize)
}
