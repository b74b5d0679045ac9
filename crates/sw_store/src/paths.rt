use std::{io, str};
use sw_host::{HostPath, add, refused};

/// The folder of this path below that of a disk: that one itself, where the path is empty.
pub(crate) fn folder_path(root: &str, dir: &[u8]) -> io::Result<HostPath> {
    let mut path = HostPath::new();
    add(&mut path, root)?;
    if !dir.is_empty() {
        add(&mut path, "/")?;
        add(&mut path, text(dir)?)?;
    }
    Ok(path)
}

/// The file of this name in such a folder.
pub(crate) fn file_path(root: &str, dir: &[u8], file: &[u8]) -> io::Result<HostPath> {
    let mut path = folder_path(root, dir)?;
    add(&mut path, "/")?;
    add(&mut path, text(file)?)?;
    Ok(path)
}

fn text(bytes: &[u8]) -> io::Result<&str> {
    match str::from_utf8(bytes) {
        Ok(text) => Ok(text),
        Err(_) => Err(refused()),
    }
}
