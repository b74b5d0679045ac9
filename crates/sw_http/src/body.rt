ghost use Rattle.std.specs.Prelude.{◌≡◌, ℕ, ◌<◌, ◌≤◌, None, Some, Ok, Err, IfOk, IfSome, OnOk, OnErr};
ghost use Rattle.std.specs.Io.KnownBytes.{prepend_known};
ghost use Rattle.sw_http.specs.ChunkSteps.{IsUnread, TakesBody, HasNoBody, IsBodyCut, MayKeep};
ghost use Rattle.sw_http.specs.Reads.{ReadsWhile};
ghost use Rattle.sw_http.specs.Input.{HasFailed, IfSeen};
ghost use Rattle.sw_message.specs.declared.framing.Framing.TheVariants.{Length, Chunked};

use crate::chunk::take_chunked;
use crate::content::take_content;
use crate::held::Held;
use crate::input::ReadError;
use crate::limits::MAX_BODY;
use std::alloc::Global;
use sw_message::{Body, Framing};
use sw_outside::{Bytes, NoMemory, Source};

/// A body of which nothing was read yet, with room for `len` bytes. Of one that is too large nothing is kept, and without a length no
/// memory is taken.
fn unread_body(alloc: Global, len: usize) -> Result<Body, NoMemory>
    ensures unread { IfOk result (IsUnread len) }
    ensures for_some { OnErr result (0 < len) }
{
    if len > MAX_BODY {
        Ok(Body::TooLarge)
    } else {
        Ok(Body::Whole(Bytes::from(Vec::with_capacity(alloc, len)?)))
    }
}

/// Takes a body of `len` bytes off the input, where it may have as many.
fn take_plain<R: Source>(
    alloc: Global,
    held: &mut Held,
    source: &mut R,
    len: usize,
    room: usize,
) -> Result<Option<Body>, ReadError>
    requires { room ≤ 1_073_741_824 }
    ensures taken { IfOk result (λ found. IfSome found (TakesBody (prepend_known held.old (R.left source.old)) (prepend_known held.new (R.left source.new))
        (Some (Length len)) room)) }
    ensures for_some { OnErr result ((0 < len) × (len ≤ room)) }
    ensures none { result ≡ Ok None → IfSome (prepend_known held.old (R.left source.old)) (HasNoBody (Some (Length len)) room) }
    ensures sound { OnOk result (R.faults source.new ≡ R.faults source.old) }
    ensures starved { result ≡ Err ReadError.NoMemory → R.faults source.new ≡ R.faults source.old }
    ensures failed { result ≡ Err ReadError.Failed → HasFailed (R.faults source.old) (R.faults source.new) }
    ensures cut { result ≡ Err ReadError.Failed → IfSeen (prepend_known held.old (R.left source.old)) (R.left source.new) (IsBodyCut (Some (Length len)) room) }
    ensures reads { ReadsWhile R.left R.calls source.old source.new (prepend_known held.old (R.left source.old)) (IsBodyCut (Some (Length len)) room) }
    ensures source_number { R.number source.new ≡ R.number source.old }
{
    if len > room {
        return Ok(None);
    }
    let mut body = unread_body(alloc, len)?;
    if take_content(held, source, len, &mut body)? {
        Ok(Some(body))
    } else {
        Ok(None)
    }
}

/// Takes a chunked body off the input.
fn take_chunks<R: Source>(
    alloc: Global,
    held: &mut Held,
    source: &mut R,
    room: usize,
) -> Result<Option<Body>, ReadError>
    requires { room ≤ 1_073_741_824 }
    ensures taken { IfOk result (λ found. IfSome found (TakesBody (prepend_known held.old (R.left source.old)) (prepend_known held.new (R.left source.new))
        (Some Chunked) room)) }
    ensures none { result ≡ Ok None → IfSome (prepend_known held.old (R.left source.old)) (HasNoBody (Some Chunked) room) }
    ensures sound { OnOk result (R.faults source.new ≡ R.faults source.old) }
    ensures starved { result ≡ Err ReadError.NoMemory → R.faults source.new ≡ R.faults source.old }
    ensures failed { result ≡ Err ReadError.Failed → HasFailed (R.faults source.old) (R.faults source.new) }
    ensures cut { result ≡ Err ReadError.Failed → IfSeen (prepend_known held.old (R.left source.old)) (R.left source.new) (IsBodyCut (Some Chunked) room) }
    ensures reads { ReadsWhile R.left R.calls source.old source.new (prepend_known held.old (R.left source.old)) (IsBodyCut (Some Chunked) room) }
    ensures source_number { R.number source.new ≡ R.number source.old }
{
    let mut body = unread_body(alloc, 0)?;
    if take_chunked(held, source, room, &mut body)? {
        Ok(Some(body))
    } else {
        Ok(None)
    }
}

/// Takes the body off the input that a head with this framing announces. It answers `None` where none of at most `room` bytes stands
/// in front.
pub(crate) fn take_body<R: Source>(
    alloc: Global,
    held: &mut Held,
    source: &mut R,
    framing: Framing,
    room: usize,
) -> Result<Option<Body>, ReadError>
    requires { room ≤ 1_073_741_824 }
    ensures taken { IfOk result (λ found. IfSome found (TakesBody (prepend_known held.old (R.left source.old)) (prepend_known held.new (R.left source.new))
        (Some framing) room)) }
    ensures for_some { result ≡ Err ReadError.NoMemory → MayKeep (Some framing) room }
    ensures none { result ≡ Ok None → IfSome (prepend_known held.old (R.left source.old)) (HasNoBody (Some framing) room) }
    ensures sound { OnOk result (R.faults source.new ≡ R.faults source.old) }
    ensures starved { result ≡ Err ReadError.NoMemory → R.faults source.new ≡ R.faults source.old }
    ensures failed { result ≡ Err ReadError.Failed → HasFailed (R.faults source.old) (R.faults source.new) }
    ensures cut { result ≡ Err ReadError.Failed → IfSeen (prepend_known held.old (R.left source.old)) (R.left source.new) (IsBodyCut (Some framing) room) }
    ensures reads { ReadsWhile R.left R.calls source.old source.new (prepend_known held.old (R.left source.old)) (IsBodyCut (Some framing) room) }
    ensures source_number { R.number source.new ≡ R.number source.old }
{
    match framing {
        Framing::Unframed => Ok(Some(unread_body(alloc, 0)?)),
        Framing::Length(len) => take_plain(alloc, held, source, len, room),
        Framing::Chunked => take_chunks(alloc, held, source, room),
    }
}
