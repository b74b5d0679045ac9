ghost use Rattle.std.specs.Prelude.{◌≡◌, ◌++◌, codes};
ghost use Rattle.std.specs.Fmt.{decimal};

use arrayvec::ArrayString;
use itoa::Buffer;

/// The name under which a file is written.
pub(crate) type WrittenName = ArrayString<36>;

/// The name under which the put of this number is written by the process of this one: no two processes write one file.
pub(crate) fn written_name(owner: u32, number: u64) -> WrittenName
    ensures { result.bytes ≡ codes "put-" ++ decimal owner ++ codes "-" ++ decimal number }
{
    let mut name = WrittenName::new();
    let mut digits = Buffer::new();
    name.push_str("put-");
    name.push_str(digits.format(owner));
    name.push_str("-");
    name.push_str(digits.format(number));
    name
}
