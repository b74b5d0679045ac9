ghost use Rattle.std.specs.Prelude.{◌≡◌};
ghost use Rattle.std.specs.Str.{is_utf8 as is_utf8_text};

use std::str;

/// Whether the bytes are UTF-8. It takes no memory.
pub fn is_utf8(bytes: &[u8]) -> bool
    ensures { result ≡ is_utf8_text bytes.now }
{
    match str::from_utf8(bytes) {
        Ok(_text) => true,
        Err(_error) => false,
    }
}
