ghost use Rattle.std.specs.Prelude.{◌≡◌, true, IfOk, OnErr};
ghost use Rattle.sw_replica_server.specs.Replies.{fault_reply as fault_reply_to, files_reply as files_reply_to, hashes_reply as hashes_reply_to};
ghost use Rattle.sw_replica_server.specs.Replies.{json_reply as json_reply_of, shows_fault, takes_memory};

use crate::texts::{files_text, hashes_text};
use std::alloc::Global;
use sw_message::{Field, FieldList, ReplyBody, Response};
use sw_object_server::{bare, damaged};
use sw_object_steps::DirFault;
use sw_outside::{Bytes, NoMemory};
use sw_suffix::{DirLine, SuffixHash};

/// The reply that tells what is compared of a partition's suffixes, or why that couldn't be read. Only a reply that tells something needs
/// memory.
pub fn hashes_reply(
    alloc: Global,
    got: &Result<Vec<SuffixHash>, DirFault>,
) -> Result<Response, NoMemory>
    ensures ok { IfOk result (λ response. response ≡ hashes_reply_to got.now) }
    ensures err { OnErr result (takes_memory got.now ≡ true) }
{
    match got {
        Ok(hashes) => json_reply(alloc, hashes_text(alloc, hashes)?),
        Err(fault) => fault_reply(alloc, *fault),
    }
}

/// The reply that tells the files of some suffixes, or why they couldn't be read. Only a reply that tells something needs memory.
pub fn files_reply(
    alloc: Global,
    got: &Result<Vec<DirLine>, DirFault>,
) -> Result<Response, NoMemory>
    ensures ok { IfOk result (λ response. response ≡ files_reply_to got.now) }
    ensures err { OnErr result (takes_memory got.now ≡ true) }
{
    match got {
        Ok(lines) => json_reply(alloc, files_text(alloc, lines)?),
        Err(fault) => fault_reply(alloc, *fault),
    }
}

/// The reply to a read that gave nothing. Only one that shows what is damaged needs memory.
pub fn fault_reply(alloc: Global, fault: DirFault) -> Result<Response, NoMemory>
    ensures ok { IfOk result (λ response. response ≡ fault_reply_to fault) }
    ensures err { OnErr result (shows_fault fault ≡ true) }
{
    match fault {
        DirFault::Damaged(bad) => damaged(alloc, bad),
        DirFault::Failed => Ok(bare(alloc, 507)),
        DirFault::NoMemory => Ok(bare(alloc, 500)),
    }
}

/// A reply that is JSON. The text is moved into it.
fn json_reply(alloc: Global, text: Bytes) -> Result<Response, NoMemory>
    ensures { IfOk result (λ response. response ≡ json_reply_of text) }
{
    let content_type = Field {
        name: Bytes::copy(alloc, b"Content-Type")?,
        value: Bytes::copy(alloc, b"application/json; charset=utf-8")?,
    };
    Ok(Response {
        status: 200,
        fields: FieldList::from(vec![in alloc; content_type]?),
        body: ReplyBody::Whole(text),
    })
}
