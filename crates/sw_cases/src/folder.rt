use crate::case::{Case, Script};
use crate::case_error::CaseError;
use crate::connection::Exchange;
use crate::line::number;
use crate::script::read_script;
use std::alloc::Global;
use std::io::ErrorKind;
use std::rt::Files;
use std::{fs, io};
use sw_outside::Bytes;
use sw_stores::RingText;

/// The names of what stands in a folder, in byte order.
pub fn names_in<R: Files + AllocGlobal + Clone + Drop>(
    rt: &R,
    folder: &str,
) -> Result<Vec<String>, CaseError> {
    match try_names_in(rt, folder) {
        Ok(names) => Ok(names),
        Err(error) => Err(unread(rt.alloc(), folder, error)),
    }
}

fn try_names_in<R: Files + AllocGlobal + Clone + Drop>(
    rt: &R,
    folder: &str,
) -> io::Result<Vec<String>> {
    let mut names = Vec::new(rt.alloc());
    for entry in fs::read_dir(rt, folder)? {
        let entry = entry?;
        names.push(entry.file_name().to_string(rt.alloc())?)?;
    }
    names.sort()?;
    Ok(names)
}

/// The rings that lie in a folder, each under its file's name.
pub fn read_rings<R: Files + AllocGlobal + Clone + Drop>(
    rt: &R,
    folder: &str,
) -> Result<Vec<RingText>, CaseError> {
    let mut rings = Vec::new(rt.alloc());
    for name in names_in(rt, folder)? {
        rings.push(read_ring(rt, folder, &name)?)?;
    }
    Ok(rings)
}

fn read_ring<R: Files + AllocGlobal>(
    rt: &R,
    folder: &str,
    name: &str,
) -> Result<RingText, CaseError> {
    let text = read_file(rt, folder, name)?.unwrap_or(Vec::new(rt.alloc()));
    Ok(RingText {
        name: Bytes::copy(rt.alloc(), name.as_bytes())?,
        text: Bytes::from(text),
    })
}

/// Reads the case of this name that lies in a folder.
pub fn read_case<R: Files + AllocGlobal + Clone + Drop>(
    rt: &R,
    folder: &str,
    name: &str,
) -> Result<Case, CaseError> {
    let alloc = rt.alloc();
    let folder = format!(in alloc; "{folder}/{name}")?;
    let script = read_case_file(rt, &folder)?;
    see_known_files(rt, &folder, script.connections.len())?;
    let input = read_input(rt, &folder, &script)?;
    let output = read_file(rt, &folder, "output")?.unwrap_or(Vec::new(alloc));
    let exchanges = read_exchanges(rt, &folder, script.connections.len())?;
    let trail = read_file(rt, &folder, "trail")?;
    Ok(Case {
        name: name.to_string(alloc)?,
        script,
        input,
        output,
        exchanges,
        trail,
    })
}

/// Sees that a case with so many connections has no file of another name, which nothing would read.
fn see_known_files<R: Files + AllocGlobal + Clone + Drop>(
    rt: &R,
    folder: &str,
    connections: usize,
) -> Result<(), CaseError> {
    let alloc = rt.alloc();
    for name in names_in(rt, folder)? {
        if !is_known_file(&name, connections) {
            let path = format!(in alloc; "{folder}/{name}")?;
            return Err(CaseError::UnknownFile { path });
        }
    }
    Ok(())
}

fn is_known_file(name: &str, connections: usize) -> bool {
    match name {
        "case" | "input" | "more-input" | "output" | "trail" => true,
        _ => match name.strip_prefix("connection-") {
            Some(rest) => is_connection(rest.strip_suffix("-output").unwrap_or(rest), connections),
            None => false,
        },
    }
}

/// Whether a text is the number of one of so many connections, counted from 1, without leading zeros.
fn is_connection(text: &str, connections: usize) -> bool {
    match number(text) {
        Some(number) => !text.starts_with('0') && number <= connections as u64,
        None => false,
    }
}

fn read_case_file<R: Files + AllocGlobal>(rt: &R, folder: &str) -> Result<Script, CaseError> {
    let alloc = rt.alloc();
    let path = format!(in alloc; "{folder}/case")?;
    match fs::read_to_string(rt, path.as_str()) {
        Ok(text) => read_script(alloc, &path, &text),
        Err(error) => Err(unread(alloc, &path, error)),
    }
}

/// The file `input`, the bytes that the script fills in, and the file `more-input`.
fn read_input<R: Files + AllocGlobal>(
    rt: &R,
    folder: &str,
    script: &Script,
) -> Result<Vec<u8>, CaseError> {
    let mut input = read_file(rt, folder, "input")?.unwrap_or(Vec::new(rt.alloc()));
    if let Some(filling) = script.filling {
        input.extend_from_slice(&vec![in rt.alloc(); filling.byte; filling.count]?)?;
    }
    if let Some(more) = read_file(rt, folder, "more-input")? {
        input.extend_from_slice(&more)?;
    }
    Ok(input)
}

/// The bytes of so many connections: the files `connection-1` and `connection-1-output`, and so on, empty where they aren't there.
fn read_exchanges<R: Files + AllocGlobal>(
    rt: &R,
    folder: &str,
    connections: usize,
) -> Result<Vec<Exchange>, CaseError> {
    let alloc = rt.alloc();
    let mut exchanges = Vec::new(alloc);
    for index in 0..connections {
        let number = index.saturating_add(1);
        let sent = format!(in alloc; "connection-{number}")?;
        let wanted = format!(in alloc; "connection-{number}-output")?;
        exchanges.push(Exchange {
            input: read_file(rt, folder, &sent)?.unwrap_or(Vec::new(alloc)),
            output: read_file(rt, folder, &wanted)?.unwrap_or(Vec::new(alloc)),
        })?;
    }
    Ok(exchanges)
}

/// The bytes of a file of a folder, where it is there.
fn read_file<R: Files + AllocGlobal>(
    rt: &R,
    folder: &str,
    name: &str,
) -> Result<Option<Vec<u8>>, CaseError> {
    let alloc = rt.alloc();
    let path = format!(in alloc; "{folder}/{name}")?;
    match fs::read(rt, path.as_str()) {
        Ok(bytes) => Ok(Some(bytes)),
        Err(error) if error.kind() == ErrorKind::NotFound => Ok(None),
        Err(error) => Err(unread(alloc, &path, error)),
    }
}

fn unread(alloc: Global, path: &str, error: io::Error) -> CaseError {
    match path.to_string(alloc) {
        Ok(path) => CaseError::Unread { path, error },
        Err(_) => CaseError::NoMemory,
    }
}
