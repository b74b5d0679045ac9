ghost use Rattle.std.specs.Prelude.{◌≡◌, IfOk};
ghost use Rattle.std.specs.Str.{IsUtf8};

use crate::heads::Heads;
use std::alloc::Global;
use sw_outside::{Bytes, NoMemory};

/// What a put gives an object: its bytes, their type and MD5, and the client's metadata.
#[derive(Debug, Drop)]
pub struct Content {
    pub body: Bytes,
    /// The media type, which is UTF-8: `sw_outside::is_utf8` tells.
    pub content_type: Bytes,
    /// The MD5 that the object was stored with.
    pub etag: [u8; 16],
    pub heads: Heads,
    pub ghost is_text: { ∥ IsUtf8 content_type ∥₁ },
}

impl Content {
    /// A content that is equal to this one, or [`NoMemory`].
    pub fn copy(&self, alloc: Global) -> Result<Content, NoMemory>
        ensures { IfOk result (λ copy. copy ≡ self.now) }
    {
        Ok(Content {
            body: Bytes::copy(alloc, self.body.as_slice())?,
            content_type: Bytes::copy(alloc, self.content_type.as_slice())?,
            etag: self.etag,
            heads: self.heads.copy(alloc)?,
        })
    }
}
