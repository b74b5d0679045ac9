use std::alloc::Global;
use std::fmt;
use sw_outside::NoMemory;

/// A part of what a run leaves.
#[derive(Clone, Copy, Debug, PartialEq, Eq)]
pub enum Part {
    Output,
    ErrorLine,
    /// What was written to the connection of this number, counted from 1.
    OutputOf(u64),
    /// How many connections were finished.
    Connections,
    /// The port at which it was listened.
    Port,
    Trail,
    Moments,
    Steps,
    /// The files of the device of this place.
    Files(u8),
}

/// The first place where a run isn't as wanted.
#[derive(Debug, Drop)]
pub enum Difference {
    Status {
        wanted: u8,
        came: u8,
    },
    /// The status with which the connection of this number was finished.
    StatusOf {
        connection: u64,
        wanted: u8,
        came: u8,
    },
    /// Bytes of a part from this place on, counted from 0, in escaped form.
    Bytes {
        part: Part,
        at: usize,
        wanted: String,
        came: String,
    },
}

/// How many bytes of each side are shown.
const SHOWN: usize = 60;

impl fmt::Display for Part {
    fn fmt<W: fmt::Write>(&self, f: &mut fmt::Formatter<W>) -> fmt::Result {
        match self {
            Part::Output => write!(f, "output"),
            Part::ErrorLine => write!(f, "error line"),
            Part::OutputOf(connection) => write!(f, "output of connection {connection}"),
            Part::Connections => write!(f, "number of connections"),
            Part::Port => write!(f, "port"),
            Part::Trail => write!(f, "trail"),
            Part::Moments => write!(f, "moments"),
            Part::Steps => write!(f, "number of steps"),
            Part::Files(device) => write!(f, "files of device {device}"),
        }
    }
}

impl fmt::Display for Difference {
    fn fmt<W: fmt::Write>(&self, f: &mut fmt::Formatter<W>) -> fmt::Result {
        match self {
            Difference::Status { wanted, came } => {
                write!(f, "status: wanted {wanted}, came {came}")
            }
            Difference::StatusOf {
                connection,
                wanted,
                came,
            } => {
                write!(
                    f,
                    "status of connection {connection}: wanted {wanted}, came {came}"
                )
            }
            Difference::Bytes {
                part,
                at,
                wanted,
                came,
            } => {
                write!(
                    f,
                    "{part} at byte {at}: wanted \"{wanted}\", came \"{came}\""
                )
            }
        }
    }
}

impl Difference {
    /// The first difference between two byte strings, none where they are equal.
    pub fn between(
        alloc: Global,
        part: Part,
        wanted: &[u8],
        came: &[u8],
    ) -> Result<Option<Difference>, NoMemory> {
        if wanted == came {
            return Ok(None);
        }
        let at = common_length(wanted, came);
        Ok(Some(Difference::Bytes {
            part,
            at,
            wanted: escaped(alloc, wanted, at)?,
            came: escaped(alloc, came, at)?,
        }))
    }

    /// The first difference between the texts of two lists of numbers.
    pub fn between_numbers(
        alloc: Global,
        part: Part,
        wanted: &[u64],
        came: &[u64],
    ) -> Result<Option<Difference>, NoMemory> {
        let wanted = text_of_numbers(alloc, wanted)?;
        let came = text_of_numbers(alloc, came)?;
        Difference::between(alloc, part, wanted.as_bytes(), came.as_bytes())
    }
}

fn text_of_numbers(alloc: Global, numbers: &[u64]) -> Result<String, NoMemory> {
    let mut text = String::new(alloc);
    for number in numbers {
        write!(text, "{number} ")?;
    }
    Ok(text)
}

/// How many bytes at the front of two byte strings are equal.
fn common_length(first: &[u8], second: &[u8]) -> usize {
    first.iter().zip(second).take_while(|(x, y)| x == y).count()
}

/// The bytes behind a place, as many as are shown, in the escaped form of a byte string of Rust.
fn escaped(alloc: Global, bytes: &[u8], at: usize) -> Result<String, NoMemory> {
    let mut text = String::new(alloc);
    for byte in bytes.iter().skip(at).take(SHOWN) {
        push_escaped(&mut text, *byte)?;
    }
    Ok(text)
}

fn push_escaped(text: &mut String, byte: u8) -> Result<(), NoMemory> {
    match byte {
        b'\r' => Ok(text.push_str("\\r")?),
        b'\n' => Ok(text.push_str("\\n")?),
        b'"' => Ok(text.push_str("\\\"")?),
        b'\\' => Ok(text.push_str("\\\\")?),
        b' '..=b'~' => Ok(text.push(char::from(byte))?),
        _ => Ok(write!(text, "\\x{byte:02x}")?),
    }
}
