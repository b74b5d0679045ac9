ghost use Rattle.std.specs.Prelude.{◌≡◌, map, not};
ghost use Rattle.std.specs.Cmp.Lexicographic.{slice_cmp};
ghost use Rattle.std.specs.List.Sorted.{IsStrictlySortedBy};
ghost use Rattle.std.specs.Ordering.{nat_cmp};
ghost use Rattle.sw_object_steps.specs.Parts as parts;
ghost use Rattle.sw_replicator.specs.Pushing as pushing;

use sw_diskfile::{FileName, Picked};
use sw_object_steps::Outline;
use sw_suffix::{DirLine, SuffixHash};

/// Whether a receiver that told these files of a hash lacks what is in a file of this name.
pub(crate) fn is_wanted(theirs: &Picked, file: &FileName) -> bool
    ensures { result ≡ pushing.is_wanted theirs.now file.now }
{
    Outline::of_files(theirs).adds(file.time, file.tag)
}

/// The files of a hash among the lines, which are in order.
pub(crate) fn picked_in(lines: &[DirLine], hash: &[u8; 16]) -> Picked
    requires ascending { IsStrictlySortedBy (slice_cmp nat_cmp) (map (λ line. line.hash) lines.now) }
    ensures { result ≡ parts.picked_in lines.now hash.now }
{
    let found = lines.binary_search_by_key(
        hash,
        |line|
            ensures { result ≡ line.now.hash }
        { line.hash },
    );
    match found {
        Ok(place) => lines[place].picked,
        Err(_) => Picked {
            base: None,
            meta: None,
        },
    }
}

/// Whether a suffix of the sender has another MD5 at a receiver that told these, which are in order, or none there.
pub(crate) fn differs(theirs: &[SuffixHash], one: &SuffixHash) -> bool
    requires ascending { IsStrictlySortedBy nat_cmp (map (λ other. other.suffix) theirs.now) }
    ensures { result ≡ not (pushing.is_same_md5 (parts.md5_in theirs.now one.now.suffix) one.now.md5) }
{
    match theirs.binary_search_by_key(&one.suffix, |other| other.suffix) {
        Ok(place) => theirs[place].md5.as_slice() != one.md5.as_slice(),
        Err(_) => true,
    }
}
