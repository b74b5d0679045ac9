ghost use Rattle.std.specs.Prelude.{◌≡◌, IfOk};
ghost use Rattle.sw_replica_server.specs.Targets.{is_replication_of, target_of as target_of_path};

use std::alloc::Global;
use sw_message::Request;
use sw_object_server::{at_slash, decoded, slash_count};
use sw_outside::{Bytes, NoMemory};

/// What the segments of a path say.
#[derive(Debug, Drop)]
pub(crate) struct Target {
    pub device: Bytes,
    pub partition: Bytes,
    /// The third segment, where there is one.
    pub suffixes: Option<Bytes>,
}

/// Whether a request is for this server: its method is REPLICATE, and its path has two or three segments.
pub fn is_replication(request: &Request) -> bool
    ensures { result ≡ is_replication_of request.now }
{
    let path = request.path.as_slice();
    request.method.as_str() == "REPLICATE"
        && path.starts_with(b"/")
        && matches!(slash_count(path), 2 | 3)
}

/// What a path of two or three segments names. Each segment is decoded by itself.
pub(crate) fn target_of(alloc: Global, path: &[u8]) -> Result<Target, NoMemory>
    ensures { IfOk result (λ target. target ≡ target_of_path path.now) }
{
    let (device, rest) = at_slash(&path[path.len().min(1)..]);
    let (partition, third) = at_slash(rest);
    let device = decoded(alloc, device)?;
    let partition = decoded(alloc, partition)?;
    let suffixes = if slash_count(path) == 3 {
        Some(decoded(alloc, third)?)
    } else {
        None
    };
    Ok(Target {
        device,
        partition,
        suffixes,
    })
}
