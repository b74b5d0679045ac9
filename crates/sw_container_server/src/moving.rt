ghost use Rattle.std.specs.Prelude.{◌≡◌, IfOk};
ghost use Rattle.sw_container_server.specs.Replies.{moved_path as moved_path_of, moved_reply as moved_reply_of};

use std::alloc::Global;
use sw_hashpath::Place;
use sw_message::{FieldList, ReplyBody, Response};
use sw_metafile::push_escaped;
use sw_object_server::field;
use sw_outside::{Bytes, NoMemory};

/// The reply that sends a client on with a row: 301, with the row's path in the container of this place, a shard that has its names now.
pub fn moved_reply(alloc: Global, shard: &Place, name: &[u8]) -> Result<Response, NoMemory>
    ensures { IfOk result (λ response. response ≡ moved_reply_of shard.now name.now) }
{
    let path = moved_path(alloc, shard, name)?;
    let mut text = Vec::new(alloc);
    push_escaped(&mut text, &path)?;
    Ok(Response {
        status: 301,
        fields: FieldList::from(vec![in alloc; field(alloc, b"Location", &text)?]?),
        body: ReplyBody::Whole(Bytes::from(Vec::new(alloc))),
    })
}

/// The path of a row in the container of a place, as it stands.
fn moved_path(alloc: Global, shard: &Place, name: &[u8]) -> Result<Vec<u8>, NoMemory>
    ensures { IfOk result (λ path. path.items ≡ moved_path_of shard.now name.now) }
{
    let mut path = Vec::new(alloc);
    path.extend_from_slice(b"/")?;
    path.extend_from_slice(shard.account.as_slice())?;
    path.extend_from_slice(b"/")?;
    path.extend_from_slice(shard.container.as_slice())?;
    path.extend_from_slice(b"/")?;
    path.extend_from_slice(name)?;
    Ok(path)
}
