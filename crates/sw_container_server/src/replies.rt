ghost use Rattle.std.specs.Prelude.{◌≡◌, true, IfOk, OnErr};
ghost use Rattle.sw_container_server.specs.Replies.{change_reply, made_status as made_status_of, redirect_reply, reply_to as reply_to_answer, shows_time};

use crate::moving::moved_reply;
use std::alloc::Global;
use sw_container_steps::{ContAnswer, ContChange};
use sw_hashpath::Place;
use sw_message::Response;
use sw_object_server::{at_time, bare};
use sw_outside::NoMemory;

/// The status that tells that this change was made, or had nothing to change. A creation that was is told by its answer.
pub fn made_status(change: &ContChange) -> u16
    ensures { result ≡ made_status_of change.now }
{
    match change {
        ContChange::Create { .. } => 201,
        ContChange::Remove { .. } => 204,
        ContChange::MergeRow { row } => { if row.deleted { 204 } else { 201 } }
        // No request asks for these.
        ContChange::MergeRows { .. } => 201,
        ContChange::SetRanges { .. } => 201,
        ContChange::Ack { .. } => 201,
        ContChange::CloseRange { .. } => 201,
        ContChange::EmptyOut => 201,
        ContChange::SetSync { .. } => 201,
    }
}

/// The reply to a change that was answered so. A row whose name is left to a shard is sent on there; only that reply, and one that shows the time of what
/// stands, need memory.
pub fn change_reply(
    alloc: Global,
    change: &ContChange,
    answer: &ContAnswer,
) -> Result<Response, NoMemory>
    ensures ok { IfOk result (λ response. response ≡ change_reply change.now answer.now) }
    ensures err { OnErr result (shows_time answer.now ≡ true) }
{
    match answer {
        ContAnswer::Redirect(shard) => redirect_reply(alloc, change, shard),
        _ => reply_to(alloc, made_status(change), answer),
    }
}

fn redirect_reply(alloc: Global, change: &ContChange, shard: &Place) -> Result<Response, NoMemory>
    ensures { IfOk result (λ response. response ≡ redirect_reply change.now shard.now) }
{
    match change {
        ContChange::MergeRow { row } => moved_reply(alloc, shard, row.name.as_slice()),
        _ => Ok(bare(alloc, 301)),
    }
}

/// The reply to a step that was answered so. `made` is the status where it was made. Only a reply that shows the time of what stands needs memory.
pub fn reply_to(alloc: Global, made: u16, answer: &ContAnswer) -> Result<Response, NoMemory>
    ensures ok { IfOk result (λ response. response ≡ reply_to_answer made answer.now) }
    ensures err { OnErr result (shows_time answer.now ≡ true) }
{
    match answer {
        ContAnswer::New(_) => Ok(bare(alloc, 201)),
        ContAnswer::There(_) => Ok(bare(alloc, 202)),
        ContAnswer::Done(_) => Ok(bare(alloc, made)),
        ContAnswer::Absent => Ok(bare(alloc, 404)),
        ContAnswer::Stale(time) => at_time(alloc, 409, *time),
        ContAnswer::NotEmpty(_) => Ok(bare(alloc, 409)),
        ContAnswer::HasRanges => Ok(bare(alloc, 409)),
        ContAnswer::Redirect(_) => Ok(bare(alloc, 301)),
        // No request is answered so.
        ContAnswer::NoRanges => Ok(bare(alloc, 404)),
        ContAnswer::StillOpen(_) => Ok(bare(alloc, 503)),
        ContAnswer::Later(_) => Ok(bare(alloc, 503)),
        ContAnswer::NotAcked(_) => Ok(bare(alloc, 503)),
        ContAnswer::JournalFull => Ok(bare(alloc, 503)),
        ContAnswer::Failed => Ok(bare(alloc, 507)),
        ContAnswer::NoMemory => Ok(bare(alloc, 500)),
    }
}
