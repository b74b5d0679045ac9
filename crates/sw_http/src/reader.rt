ghost use Rattle.std.specs.Prelude.{◌≡◌, ◌≢◌, ◌⊎◌, ℕ, ◌≤◌, true, [], None, Some, Ok, Err, IfOk, IfSome, OnOk, OnErr, is_some};
ghost use Rattle.std.specs.Io.KnownBytes.{Appends, IsAtEnd, prepend_known};
ghost use Rattle.sw_outside.specs.Counts.{raised};
ghost use Rattle.sw_outside.specs.Faults.{HasRisen};
ghost use Rattle.sw_outside.specs.Taken.{AppendsPart};
ghost use Rattle.sw_http.specs.Continue.{Takes, FindsNoRequest, MayContinue, IsToldPart, IsToldOnce, IsCut, IsCutShort, IsStopped, asks_continue};
ghost use Rattle.sw_http.specs.Continue.{continue_text, puts_after, NeedsMore, MayHaveHead};
ghost use Rattle.sw_http.specs.ChunkSteps.{TakesBody, HasNoBody, IsBodyCut, MayKeep};
ghost use Rattle.sw_message.specs.Framing.{framing_of, is_framed};
ghost use Rattle.sw_http.specs.Reads.{ReadsWhile};
ghost use Rattle.sw_http.specs.Input.{HasFailed, IfSeen, fault_of};
ghost use Rattle.sw_http.specs.Request.{IsSkipped};
ghost use Rattle.sw_http.specs.declared.reader.HttpFault.TheVariants as faults;

use crate::body::take_body;
use crate::continue_::send_continue;
use crate::held::Held;
use crate::input::ReadError;
use crate::opening::{Opening, take_opening};
use std::alloc::Global;
use sw_message::{Body, FieldList, OpenRequest, Request, framing_of, is_framed};
use sw_outside::{Failed, Sink, Source};
use thiserror::Error;

/// Why no request was handed out.
#[derive(Clone, Copy, Debug, PartialEq, Eq, Error)]
pub enum HttpFault {
    #[error("the input is no request")]
    Bad,
    #[error("a read failed")]
    ReadFault,
    #[error("a write failed")]
    WriteFault,
    #[error("out of memory")]
    NoMemory,
}

impl From<ReadError> for HttpFault {
    ghost from_gives = { λ e fault. fault ≡ fault_of e };

    fn from(error: ReadError) -> HttpFault {
        match error {
            ReadError::Failed => HttpFault::ReadFault,
            ReadError::NoMemory => HttpFault::NoMemory,
        }
    }
}

impl From<Failed> for HttpFault {
    ghost from_gives = { λ _ fault. fault ≡ faults.WriteFault };

    fn from(_error: Failed) -> HttpFault {
        HttpFault::WriteFault
    }
}

/// Takes the next request off the input, which is what is held and then what the source has left.
///
/// Where the head of a request with a body has `Expect: 100-continue`, `100 Continue` is written before the body is read, in one call of
/// the sink. Nothing else is ever written.
///
/// No read is made where a whole request is held, nor behind what can't become a head, nor behind a head that doesn't say where its body ends or
/// says that it has more bytes than may be, nor behind what can't become that body: before each read no whole request stood in what was held and
/// read till then, and more bytes might still make one.
///
/// `None` comes where the input ended and nothing but CR and LF to be skipped was left. [`HttpFault::Bad`] comes where no front of the
/// input is a request's text.
///
/// [`HttpFault::ReadFault`] comes exactly where a read failed. What was held and read till then has no whole request, so no read is made
/// for what is there; and where a whole head stands in it the client had been told by then what that head asks for. Before a whole head
/// nothing but line ends was taken, and the next call goes on. [`HttpFault::WriteFault`] comes exactly where the write failed: then that
/// head and the line ends before it were taken, and nothing else. After [`HttpFault::Bad`], [`HttpFault::NoMemory`] and a read that
/// failed behind the head a part of the input may be gone.
///
/// A body over [`MAX_BODY`](crate::MAX_BODY) is read to its end and not kept. No more is held than a head and a piece, beside the body.
pub fn next_request<R: Source, W: Sink>(
    alloc: Global,
    held: &mut Held,
    source: &mut R,
    out: &mut W,
) -> Result<Option<Request>, HttpFault>
    ensures request { IfOk result (λ next. IfSome next (Takes (prepend_known held.old (R.left source.old)) (prepend_known held.new (R.left source.new))
        (W.taken out.old) (W.taken out.new))) }

    // The input ended, and nothing but line ends to be skipped was left.
    ensures ended { result ≡ Ok None → IfSome (prepend_known held.old (R.left source.old)) IsSkipped }
    ensures at_end { result ≡ Ok None → IsAtEnd (R.left source.new) }
    ensures nothing_left { result ≡ Ok None → IsAtEnd (prepend_known held.new (R.left source.new)) }
    ensures nothing_written { result ≡ Ok None → Appends (W.taken out.old) (W.taken out.new) [] }

    ensures bad { result ≡ Err HttpFault.Bad → FindsNoRequest (prepend_known held.old (R.left source.old)) (W.taken out.old) (W.taken out.new) }
    ensures may_continue { OnErr result (MayContinue (prepend_known held.old (R.left source.old)) (W.taken out.old) (W.taken out.new)) }
    ensures later { R.faults source.old ≤ R.faults source.new }
    ensures read_fault { result ≡ Err HttpFault.ReadFault → HasRisen (R.faults source.old) (R.faults source.new) }
    ensures sound { result ≢ Err HttpFault.ReadFault → R.faults source.new ≡ R.faults source.old }
    ensures failed_once { result ≡ Err HttpFault.ReadFault → R.faults source.new ≡ raised (R.faults source.old) }
    ensures seen { result ≡ Err HttpFault.ReadFault → IfSeen (prepend_known held.old (R.left source.old)) (R.left source.new)
        (IsCutShort (W.taken out.old) (W.taken out.new) (W.calls out.old) (W.calls out.new)) }
    ensures cut { result ≡ Err HttpFault.ReadFault → IsCut (prepend_known held.old (R.left source.old)) (prepend_known held.new (R.left source.new))
        (W.taken out.old) (W.taken out.new) }
    ensures written_later { W.faults out.old ≤ W.faults out.new }
    ensures write_fault { result ≡ Err HttpFault.WriteFault → HasRisen (W.faults out.old) (W.faults out.new) }
    ensures told_part { result ≡ Err HttpFault.WriteFault → IsToldPart (prepend_known held.old (R.left source.old)) (W.taken out.old) (W.taken out.new) }
    ensures written_sound { result ≢ Err HttpFault.WriteFault → W.faults out.new ≡ W.faults out.old }
    ensures write_failed_once { result ≡ Err HttpFault.WriteFault → W.faults out.new ≡ raised (W.faults out.old) }
    ensures stopped { result ≡ Err HttpFault.WriteFault → IsStopped (prepend_known held.old (R.left source.old)) (prepend_known held.new (R.left source.new))
        (W.taken out.old) (W.taken out.new) (W.calls out.old) (W.calls out.new) }

    // Memory is taken only where a head stands there or may still come: what can't become one is refused without.
    ensures wanted { result ≡ Err HttpFault.NoMemory → IfSeen (prepend_known held.old (R.left source.old)) (R.left source.new) MayHaveHead }

    // A read is made only where what was seen before it is no whole request, and may still become one.
    ensures reads { ReadsWhile R.left R.calls source.old source.new (prepend_known held.old (R.left source.old)) NeedsMore }

    // The sink is called once where the client waits to be told, and never else.
    ensures puts { (W.calls out.new ≡ W.calls out.old) ⊎ IsToldOnce (prepend_known held.old (R.left source.old)) (W.calls out.old) (W.calls out.new) }
    ensures told_once { IfOk result (λ next. IfSome next (λ request. W.calls out.new ≡ puts_after request.fields (W.calls out.old))) }
    ensures no_put { result ≡ Ok None → W.calls out.new ≡ W.calls out.old }
    ensures source_number { R.number source.new ≡ R.number source.old }
    ensures sink_number { W.number out.new ≡ W.number out.old }
{
    let (open, room) = match take_opening(alloc, held, source)? {
        Opening::Head(open, room) => (open, room),
        Opening::Ended => return Ok(None),
        Opening::Bad => return Err(HttpFault::Bad),
    };
    match read_body(alloc, held, source, out, &open.fields, room)? {
        Some(body) => Ok(Some(request_of(open, body))),
        None => Err(HttpFault::Bad),
    }
}

/// The request that a head and a body make.
fn request_of(head: OpenRequest, body: Body) -> Request
    ensures { result ≡ record {
      method = head.method;
      path = head.path;
      query = head.query;
      fields = head.fields;
      framed = is_framed head.fields;
      body = body;
    } }
{
    let framed = is_framed(&head.fields);
    Request {
        method: head.method,
        path: head.path,
        query: head.query,
        fields: head.fields,
        framed,
        body,
    }
}

/// Tells the client to go on where it asked, and takes the body off the input. It answers `None` where none of at most `room` bytes
/// stands in front.
fn read_body<R: Source, W: Sink>(
    alloc: Global,
    held: &mut Held,
    source: &mut R,
    out: &mut W,
    fields: &FieldList,
    room: usize,
) -> Result<Option<Body>, HttpFault>
    requires { room ≤ 1_073_741_824 }
    ensures taken { IfOk result (λ found. IfSome found (TakesBody (prepend_known held.old (R.left source.old)) (prepend_known held.new (R.left source.new))
        (framing_of fields.now) room)) }
    ensures none { result ≡ Ok None → IfSome (prepend_known held.old (R.left source.old)) (HasNoBody (framing_of fields.now) room) }
    ensures told { OnOk result (Appends (W.taken out.old) (W.taken out.new) (continue_text fields.now)) }
    ensures told_first { result ≡ Err HttpFault.ReadFault → Appends (W.taken out.old) (W.taken out.new) (continue_text fields.now) }
    ensures told_part { OnErr result (AppendsPart (W.taken out.old) (W.taken out.new) (continue_text fields.now)) }
    ensures not_bad { result ≢ Err HttpFault.Bad }
    ensures sound { OnOk result (R.faults source.new ≡ R.faults source.old) }
    ensures starved { result ≡ Err HttpFault.NoMemory → R.faults source.new ≡ R.faults source.old }
    ensures failed { result ≡ Err HttpFault.ReadFault → HasFailed (R.faults source.old) (R.faults source.new) }
    ensures cut { result ≡ Err HttpFault.ReadFault → IfSeen (prepend_known held.old (R.left source.old)) (R.left source.new)
        (IsBodyCut (framing_of fields.now) room) }
    ensures framed { result ≡ Err HttpFault.ReadFault → is_some (framing_of fields.now) ≡ true }
    ensures kept_for { result ≡ Err HttpFault.NoMemory → MayKeep (framing_of fields.now) room }
    ensures unread { result ≡ Err HttpFault.WriteFault → (held.new ≡ held.old) × (R.left source.new ≡ R.left source.old) ×
        (R.faults source.new ≡ R.faults source.old) }
    ensures asked { result ≡ Err HttpFault.WriteFault → asks_continue fields.now ≡ true }
    ensures puts { W.calls out.new ≡ puts_after fields.now (W.calls out.old) }
    ensures written_sound { result ≢ Err HttpFault.WriteFault → W.faults out.new ≡ W.faults out.old }
    ensures write_failed { result ≡ Err HttpFault.WriteFault → HasFailed (W.faults out.old) (W.faults out.new) }
    ensures reads { ReadsWhile R.left R.calls source.old source.new (prepend_known held.old (R.left source.old))
        (IsBodyCut (framing_of fields.now) room) }
    ensures source_number { R.number source.new ≡ R.number source.old }
    ensures sink_number { W.number out.new ≡ W.number out.old }
{
    let Some(framing) = framing_of(fields) else {
        return Ok(None);
    };
    send_continue(out, fields)?;
    Ok(take_body(alloc, held, source, framing, room)?)
}
