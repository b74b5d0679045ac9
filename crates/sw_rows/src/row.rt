ghost use Rattle.std.specs.Prelude.{◌≡◌, IfOk};
ghost use Rattle.std.specs.Str.{IsUtf8};

use std::alloc::Global;
use sw_outside::{Bytes, NoMemory};
use sw_timestamp::Timestamp;

/// What a container knows of an object.
#[derive(Debug, Drop)]
pub struct Row {
    /// The object's name, which is UTF-8: `sw_outside::is_utf8` tells.
    pub name: Bytes,
    /// The time of the write that the row tells of.
    pub created_at: Timestamp,
    /// How many bytes the object has.
    pub size: u64,
    /// The object's media type, which is UTF-8.
    pub content_type: Bytes,
    /// The MD5 that the object was stored with.
    pub etag: [u8; 16],
    /// Whether the object was deleted at that time.
    pub deleted: bool,
    pub ghost is_text: { ∥ IsUtf8 name ∥₁ },
    pub ghost is_type_text: { ∥ IsUtf8 content_type ∥₁ },
}

impl Row {
    ghost use Rattle.sw_rows.specs.Rows.{is_at_least};

    /// A row that is equal to this one, or [`NoMemory`].
    pub fn copy(&self, alloc: Global) -> Result<Row, NoMemory>
        ensures { IfOk result (λ copy. copy ≡ self.now) }
    {
        Ok(Row {
            name: Bytes::copy(alloc, self.name.as_slice())?,
            created_at: self.created_at,
            size: self.size,
            content_type: Bytes::copy(alloc, self.content_type.as_slice())?,
            etag: self.etag,
            deleted: self.deleted,
        })
    }

    /// Whether this row counts at least as much as another one of its name: it is later, or as late and deleted where
    /// the other one is.
    pub fn is_at_least(&self, other: &Row) -> bool
        ensures { result ≡ is_at_least self.now other.now }
    {
        other.created_at < self.created_at
            || (self.created_at == other.created_at && (self.deleted || !other.deleted))
    }
}
