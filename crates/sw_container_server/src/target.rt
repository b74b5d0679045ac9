ghost use Rattle.std.specs.Prelude.{◌≡◌, IfOk};
ghost use Rattle.sw_container_server.specs.Targets.{is_for_containers as is_for_containers_of, is_row as is_row_path, target_of as target_of_path};

use std::alloc::Global;
use sw_fields::has_value;
use sw_message::Request;
use sw_object_server::{parts_of, slash_count};
use sw_outside::{Bytes, NoMemory};

/// The path of a container has so many slashes, one before each of its segments. That of a row has more.
const CONTAINER_SLASHES: usize = 4;

/// What the segments of a path say.
#[derive(Debug, Drop)]
pub(crate) struct Target {
    pub device: Bytes,
    pub partition: Bytes,
    pub account: Bytes,
    pub container: Bytes,
    /// All that follows the container, slashes and all. It is empty where nothing does.
    pub object: Bytes,
}

/// Whether a request is for the container server: its path has four segments; or it has more, and a field says that it is a container's row.
pub fn is_for_containers(request: &Request) -> bool
    ensures { result ≡ is_for_containers_of request.now }
{
    let path = request.path.as_slice();
    path.starts_with(b"/")
        && (slash_count(path) == CONTAINER_SLASHES
            || (is_row(path) && has_value(&request.fields, b"x-swc-server", b"container")))
}

/// Whether a path is a row's.
pub(crate) fn is_row(path: &[u8]) -> bool
    ensures { result ≡ is_row_path path.now }
{
    CONTAINER_SLASHES < slash_count(path)
}

/// What a path names. Its segments are cut and decoded as those of an object's path.
pub(crate) fn target_of(alloc: Global, path: &[u8]) -> Result<Target, NoMemory>
    ensures { IfOk result (λ target. target ≡ target_of_path path.now) }
{
    let parts = parts_of(alloc, path)?;
    Ok(Target {
        device: parts.device,
        partition: parts.partition,
        account: parts.account,
        container: parts.container,
        object: parts.object,
    })
}
