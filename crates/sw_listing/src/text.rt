ghost use Rattle.std.specs.Prelude.{◌≡◌, IfOk};
ghost use Rattle.std.specs.Str.{IsUtf8};

use std::alloc::Global;
use std::marker::Model;
use sw_outside::{Bytes, NoMemory};

/// A text: bytes that are UTF-8. Contracts see the bytes.
#[derive(Debug, Drop)]
pub struct Text {
    bytes: Bytes,
}

impl Model for Text {
    ghost use Rattle.std.specs.Prelude.{ℕ, List};
    ghost use Rattle.std.specs.Str.{IsUtf8};

    ghost Value = { List ℕ };

    ghost view = { λ t. t.bytes };

    ghost invariant = { λ t. ∥ IsUtf8 t.bytes ∥₁ };
}

impl Text {
    /// The text of these bytes: `sw_outside::is_utf8` tells whether they are one. It takes no memory.
    pub fn new(bytes: Bytes) -> Text
        requires { ∥ IsUtf8 bytes ∥₁ }
        ensures { result ≡ bytes }
    {
        Text { bytes }
    }

    pub fn as_slice(&self) -> &[u8]
        ensures same { result.now ≡ self.now }
        ensures rule { ∥ IsUtf8 self.now ∥₁ }
    {
        self.bytes.as_slice()
    }

    /// An equal text, or [`NoMemory`].
    pub fn copy(&self, alloc: Global) -> Result<Text, NoMemory>
        ensures { IfOk result (λ copy. copy ≡ self.now) }
    {
        Ok(Text {
            bytes: Bytes::copy(alloc, self.bytes.as_slice())?,
        })
    }
}
