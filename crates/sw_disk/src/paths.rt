ghost use Rattle.std.specs.Prelude.{◌≡◌, ◌<◌, ◌≤◌, length, List, [], ◌≢◌};
ghost use Rattle.sw_disk.specs.Paths.{above, last_name};

/// The folder in which one stands, by their paths.
pub(crate) fn above(dir: &[u8]) -> &[u8]
    ensures { result.now ≡ above dir.now }
{
    let mut end = dir.len();
    while end > 0 {
        end -= 1;
        if dir[end] == b'/' {
            return &dir[..end];
        }
    }
    &dir[..0]
}

/// The last name of a path.
pub(crate) fn last_name(dir: &[u8]) -> &[u8]
    ensures { result.now ≡ last_name dir.now }
{
    let mut start = dir.len();
    while start > 0 {
        if dir[start - 1] == b'/' {
            break;
        }
        start -= 1;
    }
    &dir[start..]
}
