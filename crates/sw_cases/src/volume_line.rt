use crate::case::{FilesOf, Lock, LockCall, LockFile, Script};
use crate::line::{LineFault, byte, pair};
use std::alloc::Global;
use sw_object_server::decoded;
use sw_outside::{Bytes, FailingCall};

/// Adds the calls that fail of a lock's volume: for each its number, and 1 where its change is made all the same, else 0.
pub fn add_failing_calls(script: &mut Script, value: &str) -> Result<(), LineFault> {
    let lock = add_calls(&mut script.failing_calls, value)?;
    add_lock(script, lock)
}

/// Adds the calls that fail of a lock's keeper, which are told in the same way.
pub fn add_failing_keeper_calls(script: &mut Script, value: &str) -> Result<(), LineFault> {
    let lock = add_calls(&mut script.failing_keeper_calls, value)?;
    add_lock(script, lock)
}

/// Adds the calls that a line tells, and answers of which lock they are.
fn add_calls(failing_calls: &mut Vec<LockCall>, value: &str) -> Result<Lock, LineFault> {
    let (lock, calls) = lock(value).ok_or(LineFault::NotCalls)?;
    for text in calls.split(' ') {
        let failing = failing_call(text).ok_or(LineFault::NotCalls)?;
        failing_calls.push(LockCall { lock, failing })?;
    }
    Ok(lock)
}

/// Adds a file that stands in a lock's volume before the run: its path, and its bytes as escaped text.
pub fn add_file(alloc: Global, script: &mut Script, value: &str) -> Result<(), LineFault> {
    let (lock, file) = lock(value).ok_or(LineFault::NotFile)?;
    let (path, text) = file.split_once(' ').ok_or(LineFault::NotFile)?;
    let (directory, name) = path.rsplit_once('/').ok_or(LineFault::NotFile)?;
    script.standing.push(LockFile {
        lock,
        directory: directory.to_string(alloc)?,
        name: name.to_string(alloc)?,
        bytes: decoded(alloc, text.as_bytes())?,
    })?;
    add_lock(script, lock)
}

/// Adds the paths of the files that are wanted of a device at the end, none where no path stands behind the device.
pub fn add_files(alloc: Global, script: &mut Script, value: &str) -> Result<(), LineFault> {
    let (device, paths) = value.split_once(' ').unwrap_or((value, ""));
    let device = byte(device)?;
    if script.files.iter().any(|files| files.device == device) {
        return Err(LineFault::Twice);
    }
    let text = text_of_paths(alloc, paths)?;
    script.files.push(FilesOf { device, text })?;
    Ok(())
}

/// The text of paths that stand with one space between.
fn text_of_paths(alloc: Global, paths: &str) -> Result<Bytes, LineFault> {
    let mut text = Vec::new(alloc);
    if !paths.is_empty() {
        for path in paths.split(' ') {
            text.extend_from_slice(path.as_bytes())?;
            text.push(b'\n')?;
        }
    }
    Ok(Bytes::from(text))
}

/// A device and a stripe, and what stands behind them.
fn lock(value: &str) -> Option<(Lock, &str)> {
    let (device, rest) = value.split_once(' ')?;
    let (stripe, rest) = rest.split_once(' ')?;
    let lock = Lock {
        device: byte(device).ok()?,
        stripe: byte(stripe).ok()?,
    };
    Some((lock, rest))
}

/// Adds a lock, where it isn't there yet.
fn add_lock(script: &mut Script, lock: Lock) -> Result<(), LineFault> {
    if !script.locks.contains(&lock) {
        script.locks.push(lock)?;
    }
    Ok(())
}

fn failing_call(text: &str) -> Option<FailingCall> {
    let (call, made) = pair(text, ':')?;
    match made {
        0 => Some(FailingCall { call, made: false }),
        1 => Some(FailingCall { call, made: true }),
        _ => None,
    }
}
