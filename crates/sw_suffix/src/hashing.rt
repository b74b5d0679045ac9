ghost use Rattle.std.specs.Prelude.{◌≡◌, ℕ, List, ◌++◌};
ghost use Rattle.std.specs.List.{flat_map};
ghost use Rattle.std.specs.Option.{option_to_list};
ghost use Rattle.hex.specs.Hex.{encode_lower};
ghost use Rattle.md5.specs.Md5.{Holds, md5};
ghost use Rattle.sw_suffix.specs.SuffixTexts.{file_line, line_text, suffix_text};

use crate::dir_line::DirLine;
use md5::{Digest, Md5};
use sw_diskfile::{FileName, NAME_ROOM, write_name};
use sw_hashpath::hex_text;

/// The MD5 of the text of these lines: for each of them in order, and each of its files, the base first, the 32 lower-case digits of the hash, a
/// slash, the name of the file and a line feed.
///
/// The lines of a suffix are in order of their hashes, which isn't tested here. It takes no memory.
pub fn suffix_hash(lines: &[DirLine]) -> [u8; 16]
    ensures { result ≡ md5 (suffix_text lines.now) }
{
    let mut hasher = Md5::new();
    for line in lines {
        add_line(&mut hasher, line);
    }
    hasher.finalize()
}

/// Adds the text of a line.
fn add_line(hasher: &mut Md5, line: &DirLine)
    ensures { (m : List ℕ) → Holds hasher.old m → Holds hasher.new (m ++ line_text line.now) }
{
    let digits = hex_text(&line.hash);
    add_file(hasher, &digits, &line.picked.base);
    add_file(hasher, &digits, &line.picked.meta);
}

/// Adds the digits of a hash, a slash, the name of the file, and a line feed, where there is a file.
fn add_file(hasher: &mut Md5, digits: &[u8; 32], file: &Option<FileName>)
    ensures { (m : List ℕ) → Holds hasher.old m → Holds hasher.new (m ++ flat_map (file_line digits.now) (option_to_list file.now)) }
{
    if let Some(file) = file {
        let mut room = [0; NAME_ROOM];
        let count = write_name(file, &mut room);
        hasher.update(digits);
        hasher.update(b"/");
        hasher.update(&room[..count]);
        hasher.update(b"\n");
    }
}
