use arrayvec::ArrayString;
use std::io;
use std::io::ErrorKind;

/// The path of a file or a folder of the host: at most as long as the host takes one, so that it is made without memory.
pub type HostPath = ArrayString<4096>;

/// The folder above: `.` where the path is one name, `/` where it is a name below that.
pub fn above(path: &str) -> &str {
    match path.rsplit_once('/') {
        None => ".",
        Some(("", _)) => "/",
        Some((above, _)) => above,
    }
}

/// A path below a folder. The error comes exactly where the path is too long.
pub fn below(folder: &str, path: &str) -> io::Result<HostPath> {
    let mut whole = HostPath::new();
    add(&mut whole, folder)?;
    add(&mut whole, "/")?;
    add(&mut whole, path)?;
    Ok(whole)
}

/// Adds a text to a path. The error comes exactly where the path is too long then.
pub fn add(path: &mut HostPath, text: &str) -> io::Result<()> {
    match path.try_push_str(text) {
        Ok(()) => Ok(()),
        Err(_) => Err(refused()),
    }
}

/// The error of a path that can't be made.
pub fn refused() -> io::Error {
    io::Error::from(ErrorKind::InvalidInput)
}
