ghost use Rattle.std.specs.Prelude.{◌≡◌, ℕ, map, IsNone, IfOk, IfSome};
ghost use Rattle.std.specs.List.{slice_split};
ghost use Rattle.sw_replica_server.specs.Suffixes.{AreNamed, IsNaming, IsSuffix, is_dash, suffix_digits};

use crate::suffix_list::SuffixList;
use hex::{FromHex, encode_to_slice};
use std::alloc::{AllocError, Global};
use std::collections::BTreeSet;
use sw_outside::NoMemory;

/// The suffixes that a text names, with `-` between each two. `None` where a piece of it is no suffix.
pub(crate) fn suffixes_named(alloc: Global, text: &[u8]) -> Result<Option<SuffixList>, NoMemory>
    ensures { IfOk result (IsNaming text.now) }
{
    let pieces = pieces(alloc, text)?;
    let mut set = BTreeSet::new(alloc);
    for piece in &pieces {
        let Some(suffix) = suffix_named(piece) else {
            return Ok(None);
        };
        set.insert(suffix)?;
    }
    Ok(Some(SuffixList::of_set(alloc, set)?))
}

/// The pieces of a text between its dashes.
fn pieces(alloc: Global, text: &[u8]) -> Result<Vec<&[u8]>, AllocError>
    ensures { IfOk result (λ pieces. map (λ piece. piece.now) pieces.items ≡ slice_split is_dash text.now) }
{
    text.split(|byte| *byte == b'-').collect(alloc)
}

/// The suffix that has these three lower-case digits.
fn suffix_named(text: &[u8]) -> Option<u16>
    ensures some { IfSome result (λ suffix. IsSuffix text.now suffix) }
    ensures none { IsNone result → (suffix : ℕ) → ¬ (IsSuffix text.now suffix) }
{
    if text.len() != 3 {
        return None;
    }
    let digits = [b'0', text[0], text[1], text[2]];
    let Ok(bytes) = <[u8; 2] as FromHex>::from_hex(digits) else {
        return None;
    };
    let suffix = u16::from_be_bytes(bytes);
    if suffix < 4096 && suffix_digits(suffix).as_slice() == text {
        Some(suffix)
    } else {
        None
    }
}

/// The three lower-case digits of a suffix.
pub(crate) fn suffix_digits(suffix: u16) -> [u8; 3]
    ensures { result ≡ suffix_digits suffix }
{
    let mut text = [0u8; 4];
    encode_to_slice(suffix.to_be_bytes(), &mut text).unwrap();
    [text[1], text[2], text[3]]
}
