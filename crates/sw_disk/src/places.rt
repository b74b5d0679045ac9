ghost use Rattle.std.specs.Prelude.{◌≡◌, ◌↔◌, ◌<◌, ◌≤◌, ℕ, List, [], length, codes, IsTrue, true, false};
ghost use Rattle.std.specs.List.{list_all, slice_split};
ghost use Rattle.std.specs.Str.{IsUtf8};
ghost use Rattle.sw_disk.specs.Keeping.{writing};
ghost use Rattle.sw_disk.specs.Places.{IsDirectory, IsFileName, IsPlace, is_name, is_slash};
ghost use Rattle.sw_volume.specs.Volume.{first_segment};

use crate::writing::WRITING;
use std::str;

/// Whether a volume may keep files in a folder of this path.
pub fn is_directory(dir: &[u8]) -> bool
    ensures { IsTrue result ↔ IsDirectory dir.now }
{
    is_text(dir) && first_segment(dir) != WRITING && are_names(dir)
}

/// Whether a file may have this name.
pub fn is_file_name(file: &[u8]) -> bool
    ensures { IsTrue result ↔ IsFileName file.now }
{
    is_text(file) && is_name(file) && !file.contains(&b'/')
}

/// Whether a volume may keep a file at this path.
pub fn is_place(dir: &[u8], file: &[u8]) -> bool
    ensures { IsTrue result ↔ IsPlace dir.now file.now }
{
    is_directory(dir) && is_file_name(file)
}

fn is_text(bytes: &[u8]) -> bool
    ensures { IsTrue result ↔ IsUtf8 bytes.now }
{
    str::from_utf8(bytes).is_ok()
}

fn are_names(dir: &[u8]) -> bool
    ensures { result ≡ list_all is_name (slice_split is_slash dir.now) }
{
    let first = first_segment(dir);
    if first.len() == dir.len() {
        return is_name(first);
    }
    is_name(first) && are_names(&dir[first.len() + 1..])
}

/// Whether a segment names something in its folder.
fn is_name(segment: &[u8]) -> bool
    ensures { result ≡ is_name segment.now }
{
    !matches!(segment, b"" | b"." | b"..")
}

fn first_segment(dir: &[u8]) -> &[u8]
    ensures value { result.now ≡ first_segment dir.now }
    ensures within { length result.now ≤ length dir.now }
{
    for (at, byte) in dir.iter().enumerate() {
        if *byte == b'/' {
            return &dir[..at];
        }
    }
    dir
}
