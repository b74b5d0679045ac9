use crate::case::{Again, Filling, Mark, Script};
use crate::connection_line::{add_connection, add_to_connection};
use crate::volume_line::{add_failing_calls, add_failing_keeper_calls, add_file, add_files};
use std::alloc::{AllocError, AllocFailed, Global};
use sw_outside::{FailingPut, NoMemory};
use thiserror::Error;

/// What is wrong with a line of a file `case`.
#[derive(Clone, Copy, Debug, PartialEq, Eq, Error)]
pub enum LineFault {
    #[error("this key isn't known")]
    UnknownKey,
    #[error("decimal numbers are wanted here, each after one space")]
    NotNumbers,
    #[error("pairs of decimal numbers are wanted here, as 7:5")]
    NotPairs,
    #[error("two decimal numbers are wanted here")]
    NotTwo,
    #[error("a number from 0 to 255 is wanted here")]
    NotByte,
    #[error("a device, a stripe and calls are wanted here, as 0 0 1:1")]
    NotCalls,
    #[error("a device, a stripe, a path with a slash and a text are wanted here")]
    NotFile,
    #[error("the number of a connection of an earlier line, and what is said of it, are wanted here")]
    NotConnection,
    #[error("no connection is accepted behind one that isn't")]
    NotAccepted,
    #[error("this key stands twice")]
    Twice,
    #[error("out of memory")]
    NoMemory,
}

impl From<AllocError> for LineFault {
    fn from(_error: AllocError) -> LineFault {
        LineFault::NoMemory
    }
}

impl<T: Drop> From<AllocFailed<T>> for LineFault {
    fn from(_error: AllocFailed<T>) -> LineFault {
        LineFault::NoMemory
    }
}

impl From<NoMemory> for LineFault {
    fn from(_error: NoMemory) -> LineFault {
        LineFault::NoMemory
    }
}

/// Adds what a line says, other than the status. The error says what is wrong with the line; the script is of no use then.
pub fn add_line(
    alloc: Global,
    script: &mut Script,
    key: &str,
    value: &str,
) -> Result<(), LineFault> {
    match key {
        "word" => Ok(script.words.push(value.to_string(alloc)?)?),
        "error" => set_error(alloc, script, value),
        "port" => set_port(alloc, script, value),
        "moments" => set_once(alloc, &mut script.moments, value),
        "steps" => set_steps(script, value),
        "input-repeat" => set_filling(script, value),
        "pieces" => add_sizes(&mut script.pieces, value),
        "clock" => add_numbers(&mut script.clock, value),
        "failing-reads" => add_numbers(&mut script.failing_reads, value),
        "failing-stores" => add_numbers(&mut script.failing_stores, value),
        "failing-doors" => add_numbers(&mut script.failing_doors, value),
        "failing-puts" => add_puts(&mut script.failing_puts, value),
        "failing-error-puts" => add_puts(&mut script.failing_error_puts, value),
        "failing-calls" => add_failing_calls(script, value),
        "failing-keeper-calls" => add_failing_keeper_calls(script, value),
        "file" => add_file(alloc, script, value),
        "files" => add_files(alloc, script, value),
        "connection" => add_connection(alloc, script, value),
        "connection-pieces" | "connection-failing-reads" | "connection-failing-puts" => {
            add_to_connection(script, key, value)
        }
        _ => Ok(script.again.push(again(alloc, key, value)?)?),
    }
}

/// What a line says of the ways in which the case is run again.
fn again(alloc: Global, key: &str, value: &str) -> Result<Again, LineFault> {
    match key {
        "repeat-pieces" => range(value),
        "each-cut" => Ok(Again::Cuts(marks(alloc, value)?)),
        "each-failing-read" => Ok(Again::FailingReads(sizes(alloc, value)?)),
        "each-failing-put" => failing_puts(alloc, value),
        _ => Err(LineFault::UnknownKey),
    }
}

fn set_error(alloc: Global, script: &mut Script, value: &str) -> Result<(), LineFault> {
    if !script.error.is_empty() {
        return Err(LineFault::Twice);
    }
    script.error = value.to_string(alloc)?;
    Ok(())
}

/// Sets numbers that one line says at most, none where it has no value.
fn set_once(alloc: Global, said: &mut Option<Vec<u64>>, value: &str) -> Result<(), LineFault> {
    if said.is_some() {
        return Err(LineFault::Twice);
    }
    let mut numbers = Vec::new(alloc);
    if !value.is_empty() {
        add_numbers(&mut numbers, value)?;
    }
    *said = Some(numbers);
    Ok(())
}

fn set_port(alloc: Global, script: &mut Script, value: &str) -> Result<(), LineFault> {
    if value.contains(' ') {
        return Err(LineFault::NotNumbers);
    }
    set_once(alloc, &mut script.port, value)
}

fn set_steps(script: &mut Script, value: &str) -> Result<(), LineFault> {
    if script.steps.is_some() {
        return Err(LineFault::Twice);
    }
    script.steps = Some(number(value).ok_or(LineFault::NotNumbers)?);
    Ok(())
}

fn set_filling(script: &mut Script, value: &str) -> Result<(), LineFault> {
    if script.filling.is_some() {
        return Err(LineFault::Twice);
    }
    let (byte, count) = pair(value, ' ').ok_or(LineFault::NotTwo)?;
    script.filling = Some(Filling {
        byte: u8::try_from(byte).map_err(|_| LineFault::NotByte)?,
        count: count as usize,
    });
    Ok(())
}

/// A number that a byte holds.
pub fn byte(value: &str) -> Result<u8, LineFault> {
    let number = number(value).ok_or(LineFault::NotByte)?;
    u8::try_from(number).map_err(|_| LineFault::NotByte)
}

/// A number: decimal digits alone.
pub fn number(text: &str) -> Option<u64> {
    if text.bytes().all(|byte| byte.is_ascii_digit()) {
        text.parse().ok()
    } else {
        None
    }
}

pub fn add_numbers(numbers: &mut Vec<u64>, value: &str) -> Result<(), LineFault> {
    for text in value.split(' ') {
        numbers.push(number(text).ok_or(LineFault::NotNumbers)?)?;
    }
    Ok(())
}

pub fn add_sizes(sizes: &mut Vec<usize>, value: &str) -> Result<(), LineFault> {
    for text in value.split(' ') {
        sizes.push(number(text).ok_or(LineFault::NotNumbers)? as usize)?;
    }
    Ok(())
}

fn sizes(alloc: Global, value: &str) -> Result<Vec<usize>, LineFault> {
    let mut sizes = Vec::new(alloc);
    add_sizes(&mut sizes, value)?;
    Ok(sizes)
}

/// Adds the puts that fail: for each its number, and how many bytes it takes all the same.
pub fn add_puts(puts: &mut Vec<FailingPut>, value: &str) -> Result<(), LineFault> {
    for text in value.split(' ') {
        let (call, taken) = pair(text, ':').ok_or(LineFault::NotPairs)?;
        puts.push(FailingPut {
            call,
            taken: taken as usize,
        })?;
    }
    Ok(())
}

/// Two numbers with this sign between them.
pub fn pair(text: &str, sign: char) -> Option<(u64, u64)> {
    let (first, second) = text.split_once(sign)?;
    Some((number(first)?, number(second)?))
}

/// The places of an input, none where the line has no value.
fn marks(alloc: Global, value: &str) -> Result<Vec<Mark>, LineFault> {
    let mut marks = Vec::new(alloc);
    if value.is_empty() {
        return Ok(marks);
    }
    for text in value.split(' ') {
        marks.push(mark(text).ok_or(LineFault::NotPairs)?)?;
    }
    Ok(marks)
}

/// A place of the input: `7:5` between requests, `7+5` inside one.
fn mark(text: &str) -> Option<Mark> {
    let is_between = !text.contains('+');
    let (input, output) = pair(text, if is_between { ':' } else { '+' })?;
    Some(Mark {
        input: input as usize,
        output: output as usize,
        is_between,
    })
}

/// The sizes from one number to another.
fn range(value: &str) -> Result<Again, LineFault> {
    let (from, to) = pair(value, ' ').ok_or(LineFault::NotTwo)?;
    Ok(Again::Pieces {
        from: from as usize,
        to: to as usize,
    })
}

/// How many bytes each failing put takes, and where each put of the output begins.
fn failing_puts(alloc: Global, value: &str) -> Result<Again, LineFault> {
    let (taken, starts) = value.split_once(' ').ok_or(LineFault::NotNumbers)?;
    let taken = number(taken).ok_or(LineFault::NotNumbers)? as usize;
    Ok(Again::FailingPuts {
        taken,
        starts: sizes(alloc, starts)?,
    })
}
