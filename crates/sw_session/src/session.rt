ghost use Rattle.std.specs.Prelude.{◌≡◌, ℕ, List, OnOk, Option, None, Ok, Err, []};
ghost use Rattle.std.specs.Io.KnownBytes.{IsAtEnd, prepend_known};
ghost use Rattle.sw_outside.specs.Readings.{TicksEach};
ghost use Rattle.sw_session.specs.Passages.{passage};
ghost use Rattle.sw_http.specs.Continue.{IsCutShort, NeedsMore};
ghost use Rattle.sw_http.specs.Input.{IfSeen};
ghost use Rattle.sw_http.specs.Reads.{ReadsWhile};
ghost use Rattle.sw_session.specs.Session.{IsBetween, IsSession, OwnPuts, WaitsForMore};
ghost use Rattle.sw_session.specs.declared.session.Turned.TheVariants as turns;
ghost use Rattle.sw_session.specs.Turn.{IsCounted, IsReceived, IsRefusal, IsTurn, PutsForReading, PutsForRefusal, PutsForTurn};

use crate::server::{Server, ServerFault};
use std::alloc::Global;
use sw_http::{Held, HttpFault, next_request};
use sw_message::{FieldList, ReplyBody, Request, Response, WriteFault, write_response};
use sw_outside::{Bytes, Clock, Sink, Source};

/// The greatest number of requests of one session.
pub const MOST_REQUESTS: u64 = 1_048_576;

/// Why a session ended before the end of its input.
#[derive(Clone, Copy, Debug, PartialEq, Eq)]
pub enum SessionFault {
    ReadFault,
    WriteFault,
    /// As many requests were answered as a session has at most.
    TooLong,
    /// The rest of the input is no request. It was refused with a 400.
    BadInput,
    /// The server can't go on.
    ServerFault,
    NoMemory,
}

impl From<WriteFault> for SessionFault {
    ghost use Rattle.std.specs.Prelude.{◌≡◌};
    ghost use Rattle.sw_session.specs.Fault.{fault_of};

    ghost from_gives = { λ error fault. fault ≡ fault_of error };

    fn from(error: WriteFault) -> SessionFault {
        match error {
            WriteFault::Failed => SessionFault::WriteFault,
            WriteFault::NoMemory => SessionFault::NoMemory,
        }
    }
}

impl From<ServerFault> for SessionFault {
    ghost use Rattle.std.specs.Prelude.{◌≡◌};
    ghost use Rattle.sw_session.specs.Fault.{halt_of};

    ghost from_gives = { λ error fault. fault ≡ halt_of error };

    fn from(error: ServerFault) -> SessionFault {
        match error {
            ServerFault::Failed => SessionFault::ServerFault,
            ServerFault::NoMemory => SessionFault::NoMemory,
        }
    }
}

/// Writes the refusal of a rest that is no request. The error tells how the session ends by it.
#[tactic(auto, unfolding(crate::specs::Turn::refusal))]
fn refuse<W: Sink>(alloc: Global, out: &mut W) -> Result<Option<Request>, SessionFault>
    ensures refused { IsRefusal (W.taken out.old) (W.taken out.new) result }
    ensures counted { (reads : ℕ) → IsCounted reads reads (W.faults out.old) (W.faults out.new) result }
    ensures puts { PutsForRefusal (W.calls out.old) (W.calls out.new) result }
    ensures sink_number { W.number out.new ≡ W.number out.old }
{
    match write_response(alloc, out, &refusal(alloc)) {
        Ok(()) => Err(SessionFault::BadInput),
        Err(WriteFault::Failed) => Err(SessionFault::WriteFault),
        Err(WriteFault::NoMemory) => Err(SessionFault::NoMemory),
    }
}

/// Reads one request, and refuses a rest that is none. Answers `None` where the input ended in place of a request.
fn receive<R: Source, W: Sink>(
    alloc: Global,
    held: &mut Held,
    source: &mut R,
    out: &mut W,
) -> Result<Option<Request>, SessionFault>
    ensures received { IsReceived (prepend_known held.old (R.left source.old)) (prepend_known held.new (R.left source.new)) (W.taken out.old)
        (W.taken out.new) result }
    ensures at_end { result ≡ Ok None → IsAtEnd (R.left source.new) }
    ensures counted { IsCounted (R.faults source.old) (R.faults source.new) (W.faults out.old) (W.faults out.new) result }
    ensures seen { result ≡ Err SessionFault.ReadFault → IfSeen (prepend_known held.old (R.left source.old)) (R.left source.new)
        (IsCutShort (W.taken out.old) (W.taken out.new) (W.calls out.old) (W.calls out.new)) }
    ensures puts { PutsForReading (prepend_known held.old (R.left source.old)) (W.calls out.old) (W.calls out.new) result }
    ensures reads { ReadsWhile R.left R.calls source.old source.new (prepend_known held.old (R.left source.old)) NeedsMore }
    ensures source_number { R.number source.new ≡ R.number source.old }
    ensures sink_number { W.number out.new ≡ W.number out.old }
{
    match next_request(alloc, held, source, out) {
        Ok(request) => Ok(request),
        Err(HttpFault::Bad) => refuse(alloc, out),
        Err(HttpFault::ReadFault) => Err(SessionFault::ReadFault),
        Err(HttpFault::WriteFault) => Err(SessionFault::WriteFault),
        Err(HttpFault::NoMemory) => Err(SessionFault::NoMemory),
    }
}

/// What a turn of a session's loop did.
#[derive(Clone, Copy)]
enum Turned {
    /// One request was answered, and the session goes on.
    Answered,
    /// The last one was answered.
    Closed,
    /// The input ended in place of a request.
    Ended,
}

/// Reads one request, has it answered at the moment that the clock then shows, and writes the reply. Nothing is written in place of a reply
/// where the server halts.
///
/// The room for the moment is made first, so that no request is read whose moment couldn't be kept.
fn turn<V: Server, R: Source, W: Sink, C: Clock>(
    alloc: Global,
    server: &mut V,
    moments: &mut Vec<u64>,
    held: &mut Held,
    source: &mut R,
    out: &mut W,
    clock: &mut C,
) -> Result<Turned, SessionFault>
    requires ready { V.ready server.old }
    ensures ready { OnOk result (V.ready server.new) }
    ensures turn { IsTurn V.last V.serves V.halts server.old server.new moments.old.items moments.new.items (prepend_known held.old (R.left source.old))
        (prepend_known held.new (R.left source.new)) (W.taken out.old) (W.taken out.new) result }
    ensures ticks { (start : Option (List ℕ)) → TicksEach start (C.readings clock.old) moments.old.items
        → TicksEach start (C.readings clock.new) moments.new.items }
    ensures at_end { result ≡ Ok turns.Ended → IsAtEnd (R.left source.new) }
    ensures counted { IsCounted (R.faults source.old) (R.faults source.new) (W.faults out.old) (W.faults out.new) result }
    ensures seen { result ≡ Err SessionFault.ReadFault → IfSeen (prepend_known held.old (R.left source.old)) (R.left source.new)
        (IsCutShort (W.taken out.old) (W.taken out.new) (W.calls out.old) (W.calls out.new)) }
    ensures puts { PutsForTurn V.last V.serves V.halts server.old server.new moments.old.items moments.new.items (prepend_known held.old (R.left source.old))
        (prepend_known held.new (R.left source.new)) (W.taken out.old) (W.taken out.new) (W.calls out.old) (W.calls out.new) result }
    ensures reads { ReadsWhile R.left R.calls source.old source.new (prepend_known held.old (R.left source.old)) NeedsMore }
    ensures source_number { R.number source.new ≡ R.number source.old }
    ensures sink_number { W.number out.new ≡ W.number out.old }
{
    if moments.reserve(1).is_err() {
        return Err(SessionFault::NoMemory);
    }
    let Some(request) = receive(alloc, held, source, out)? else {
        return Ok(Turned::Ended);
    };
    let now = clock.now();
    moments.push_reserved(now);
    let last = server.is_last(&request);
    let response = server.answer(alloc, request, now)?;
    write_response(alloc, out, &response)?;
    Ok(if last {
        Turned::Closed
    } else {
        Turned::Answered
    })
}

/// Answers the requests that come from the source, one after the other, each at the moment that the clock shows once it was read: to the
/// end of the input, or to the first request that is a last one, or at which the server halts. Behind that one nothing is read, and while a
/// whole request waits for its reply nothing is either.
/// `moments` is empty at the call, and holds these moments at the end.
pub fn serve<V: Server, R: Source, W: Sink, C: Clock>(
    alloc: Global,
    server: &mut V,
    moments: &mut Vec<u64>,
    source: &mut R,
    out: &mut W,
    clock: &mut C,
) -> Result<(), SessionFault>
    requires none_read { moments.old.items ≡ [] }
    requires ready { V.ready server.old }
    ensures session { IsSession V.last V.serves V.halts server.old (passage R.left R.faults source.old source.new) (passage W.taken W.faults out.old out.new)
        moments.new.items server.new result }
    ensures ticks { TicksEach (C.readings clock.old) (C.readings clock.new) moments.new.items }

    // A read is made only where all that came whole was answered: else one that fails would break this.
    ensures waits { result ≡ Err SessionFault.ReadFault → WaitsForMore V.last V.serves server.old server.new (R.left source.old) (R.left source.new)
        (W.taken out.old) (W.taken out.new) moments.new.items (W.calls out.old) (W.calls out.new) }

    // No read is made behind a last request, and none for one that came whole: what was seen before each were the texts of requests that
    // were answered, and a rest in which one may still come.
    ensures reads { ReadsWhile R.left R.calls source.old source.new (R.left source.old) (IsBetween V.last V.serves server.old moments.new.items) }

    // Each reply is one call of the sink, and so is what tells a client to go on, and a refusal. No other call is made.
    ensures own_puts { OwnPuts V.last V.serves V.halts server.old server.new (R.left source.old) (W.taken out.old) (W.taken out.new) moments.new.items
        (W.calls out.old) (W.calls out.new) result }
    ensures source_number { R.number source.new ≡ R.number source.old }
    ensures sink_number { W.number out.new ≡ W.number out.old }
{
    let mut held = Held::new(alloc);
    for _ in 0..MOST_REQUESTS {
        match turn(alloc, server, moments, &mut held, source, out, clock)? {
            Turned::Answered => {}
            Turned::Closed | Turned::Ended => return Ok(()),
        }
    }
    Err(SessionFault::TooLong)
}

/// The reply where the rest of the input is no request.
fn refusal(alloc: Global) -> Response
    ensures { result ≡ record { status = 400; fields = []; body = ReplyBody.Whole [] } }
{
    Response {
        status: 400,
        fields: FieldList::from(Vec::new(alloc)),
        body: ReplyBody::Whole(Bytes::from(Vec::new(alloc))),
    }
}
