ghost use Rattle.std.specs.Prelude.{◌≡◌};
ghost use Rattle.hex.specs.Hex.{encode_lower};
ghost use Rattle.sw_hashpath.specs.HashParts.{IsDigest};

use hex::encode_to_slice;

/// The 32 lower-case hexadecimal digits of an MD5, as directories and ETags have them. It takes no memory.
pub fn hex_text(digest: &[u8; 16]) -> [u8; 32]
    ensures text { result ≡ encode_lower digest.now }
    ensures rule { IsDigest digest.now }
{
    let mut text = [0u8; 32];
    encode_to_slice(digest.as_slice(), &mut text).unwrap();
    text
}
