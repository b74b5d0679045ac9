ghost use Rattle.std.specs.Prelude.{◌≡◌, ℕ, ◌++◌, List, IsTrue, length, drop};

/// What ends a line.
pub const CRLF: &[u8] = b"\r\n";

/// Whether this text stands in front of bytes.
pub fn begins_with(bytes: &[u8], text: &[u8]) -> bool
    ensures found { IsTrue result → bytes.now ≡ text.now ++ drop (length text.now) bytes.now }
    ensures all { (rest : List ℕ) → bytes.now ≡ text.now ++ rest → IsTrue result }
{
    bytes.starts_with(text)
}
