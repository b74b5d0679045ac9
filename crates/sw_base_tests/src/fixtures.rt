use std::alloc::{AllocError, Global};
use sw_diskfile::FileName;
use sw_outside::Bytes;
use sw_timestamp::{Tag, Timestamp};

/// A file's name, as units of 10 microseconds and a kind.
pub(crate) type Named = (u64, Tag);

pub(crate) fn names_of(alloc: Global, pairs: &[Named]) -> Result<Vec<FileName>, AllocError> {
    let mut names = Vec::new(alloc);
    for (units, tag) in pairs {
        if let Some(time) = Timestamp::from_units(*units) {
            names.push(FileName { time, tag: *tag })?;
        }
    }
    Ok(names)
}

/// Whether the byte strings are these, in their order.
pub(crate) fn are_these(found: &[Bytes], wanted: &[&[u8]]) -> bool {
    for (bytes, text) in found.iter().zip(wanted) {
        if bytes.as_slice() != *text {
            return false;
        }
    }
    found.len() == wanted.len()
}

/// Whether these bytes were found, or none.
pub(crate) fn is_some_of(found: &Option<Bytes>, wanted: Option<&[u8]>) -> bool {
    match (found, wanted) {
        (Some(bytes), Some(wanted)) => bytes.as_slice() == wanted,
        (None, None) => true,
        _ => false,
    }
}
