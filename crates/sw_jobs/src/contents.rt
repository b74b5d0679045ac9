ghost use Rattle.std.specs.Prelude.{◌≡◌, ◌≤◌, IfOk};
ghost use Rattle.sw_jobs.specs.Requests.{body_of, content_of};

use md5::{Digest, Md5};
use std::alloc::Global;
use sw_outside::{Bytes, NoMemory};
use sw_state::{Content, HeadList, Heads};

/// The content of the request of this number, with a body of so many bytes.
#[tactic(auto, unfolding(crate::specs::Requests::content_of))]
pub(crate) fn content_of(alloc: Global, request: u64, length: u64) -> Result<Content, NoMemory>
    requires request { request ≤ 100000 }
    requires length { length ≤ 1024 }
    ensures { IfOk result (λ content. content ≡ content_of (body_of request length)) }
{
    let body = body_of(alloc, request, length)?;
    let etag = Md5::digest(body.as_slice());
    Ok(Content {
        body,
        content_type: Bytes::copy(alloc, b"application/octet-stream")?,
        etag,
        heads: Heads {
            delete_at: None,
            items: HeadList::new(alloc),
        },
    })
}

#[tactic(auto, using(std::proofs::lemmas::Grind::common_steps), unfolding(crate::specs::Requests::body_of))]
fn body_of(alloc: Global, request: u64, length: u64) -> Result<Bytes, NoMemory>
    requires request { request ≤ 100000 }
    requires length { length ≤ 1024 }
    ensures { IfOk result (λ body. body ≡ body_of request length) }
{
    let mut body = Vec::with_capacity(alloc, length as usize)?;
    for at in 0..length {
        body.push(((7 * request + at) % 256) as u8)?;
    }
    Ok(body.into())
}
