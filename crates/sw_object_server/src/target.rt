ghost use Rattle.std.specs.Prelude.{◌≡◌, ◌≤◌, length, count_by, IfOk};
ghost use Rattle.std.specs.List.{position_or_len};
ghost use Rattle.percent_encoding.specs.Percent.{percent_decode};
ghost use Rattle.sw_object_server.specs.Targets.{behind_segment, first_segment, has_segments as has_segments_of_object, is_for_objects as is_for_objects_of};
ghost use Rattle.sw_object_server.specs.Targets.{is_slash, parts_of as parts_of_path};

use percent_encoding::percent_decode;
use std::alloc::Global;
use sw_fields::has_value;
use sw_message::Request;
use sw_outside::{Bytes, NoMemory};

/// The path of an object has at least so many slashes: one before each of its segments.
const LEAST_SLASHES: usize = 5;

/// What the segments of a path say.
#[derive(Debug, Drop)]
pub struct Parts {
    pub device: Bytes,
    pub partition: Bytes,
    pub account: Bytes,
    pub container: Bytes,
    /// All that follows the container, slashes and all.
    pub object: Bytes,
}

/// Whether a request is for the object server: its path has five segments or more, and it isn't a container's row.
pub(crate) fn is_for_objects(request: &Request) -> bool
    ensures { result ≡ is_for_objects_of request.now }
{
    has_segments(request.path.as_slice())
        && !has_value(&request.fields, b"x-swc-server", b"container")
}

fn has_segments(path: &[u8]) -> bool
    ensures { result ≡ has_segments_of_object path.now }
{
    path.starts_with(b"/") && LEAST_SLASHES <= slash_count(path)
}

pub fn slash_count(path: &[u8]) -> usize
    ensures { result ≡ count_by is_slash path.now }
{
    path.iter().filter(|byte| **byte == b'/').count()
}

/// What a path names. Each segment is decoded by itself.
pub fn parts_of(alloc: Global, path: &[u8]) -> Result<Parts, NoMemory>
    ensures { IfOk result (λ parts. parts ≡ parts_of_path path.now) }
{
    let (device, rest) = at_slash(&path[path.len().min(1)..]);
    let (partition, rest) = at_slash(rest);
    let (account, rest) = at_slash(rest);
    let (container, object) = at_slash(rest);
    Ok(Parts {
        device: decoded(alloc, device)?,
        partition: decoded(alloc, partition)?,
        account: decoded(alloc, account)?,
        container: decoded(alloc, container)?,
        object: decoded(alloc, object)?,
    })
}

/// The bytes that a segment stands for.
pub fn decoded(alloc: Global, segment: &[u8]) -> Result<Bytes, NoMemory>
    ensures { IfOk result (λ bytes. bytes ≡ percent_decode segment.now) }
{
    let mut bytes = Vec::new(alloc);
    percent_decode(segment).append_to(&mut bytes)?;
    Ok(Bytes::from(bytes))
}

/// The text before its first slash, all of it where there is none, and the text behind.
pub fn at_slash(text: &[u8]) -> (&[u8], &[u8])
    ensures before { result.0.now ≡ first_segment text.now }
    ensures behind { result.1.now ≡ behind_segment text.now }
{
    let slash = slash_at(text);
    (&text[..slash], &text[text.len().min(slash + 1)..])
}

/// Where the first slash stands, or the length of the text where there is none.
fn slash_at(text: &[u8]) -> usize
    ensures place { result ≡ position_or_len is_slash text.now }
    ensures within { result ≤ length text.now }
{
    text.iter().take_while(|byte| **byte != b'/').count()
}
