use crate::case::Script;
use crate::case_error::CaseError;
use crate::line::{LineFault, add_line, byte};
use std::alloc::Global;

/// Reads the text of a file `case`, which lies at this path: a line for each thing that it says, a key, a space and its value. An empty line
/// and one that begins with `#` say nothing.
///
/// The error is the first line that isn't of the format, or that no line says the status.
pub fn read_script(alloc: Global, path: &str, text: &str) -> Result<Script, CaseError> {
    let mut script = Script::new(alloc);
    let mut has_status = false;
    for (index, line) in text.lines().enumerate() {
        match read_line(alloc, &mut script, line) {
            Ok(says_status) if says_status && has_status => {
                return Err(bad_line(alloc, path, index, LineFault::Twice));
            }
            Ok(says_status) => has_status |= says_status,
            Err(fault) => return Err(bad_line(alloc, path, index, fault)),
        }
    }
    if !has_status {
        return Err(no_status(alloc, path));
    }
    Ok(script)
}

/// Adds what one line says, and answers whether that is the status.
fn read_line(alloc: Global, script: &mut Script, line: &str) -> Result<bool, LineFault> {
    if line.is_empty() || line.starts_with('#') {
        return Ok(false);
    }
    let (key, value) = line.split_once(' ').unwrap_or((line, ""));
    if key == "status" {
        script.status = byte(value)?;
        return Ok(true);
    }
    add_line(alloc, script, key, value)?;
    Ok(false)
}

fn bad_line(alloc: Global, path: &str, index: usize, fault: LineFault) -> CaseError {
    match (fault, path.to_string(alloc)) {
        (LineFault::NoMemory, _) | (_, Err(_)) => CaseError::NoMemory,
        (fault, Ok(path)) => CaseError::BadLine {
            path,
            line: index.saturating_add(1),
            fault,
        },
    }
}

fn no_status(alloc: Global, path: &str) -> CaseError {
    match path.to_string(alloc) {
        Ok(path) => CaseError::NoStatus { path },
        Err(_) => CaseError::NoMemory,
    }
}
