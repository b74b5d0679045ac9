//! The front of a request: line ends that are skipped, and the head.
ghost use Rattle.std.specs.Prelude.{◌≡◌, ℕ, ◌≤◌, None, Ok, Err, IfOk, IfSome, OnErr, OnOk};
ghost use Rattle.std.specs.Io.KnownBytes.{Keeps, prepend_known};
ghost use Rattle.httparse.specs.Pieces.{Stops, is_newline};
ghost use Rattle.sw_http.specs.Continue.{AwaitsHead, MayHaveHead, Skips};
ghost use Rattle.sw_http.specs.Opening.{IsOpening, TakesHead, IsHeadCut, MayBeginHead};
ghost use Rattle.sw_http.specs.Reads.{ReadsWhile};
ghost use Rattle.sw_http.specs.Input.{HasFailed, IfSeen};
ghost use Rattle.sw_message.specs.Head.{HasNoHead};

use crate::head::read_head;
use crate::held::Held;
use crate::input::ReadError;
use crate::limits::{MAX_REQUEST, MAX_SKIPPED};
use crate::run::{Class, Run, skip_run};
use httparse::spans::EMPTY_HEADER_SPAN;
use std::alloc::Global;
use sw_message::{MAX_FIELDS, OpenRequest, open_request};
use sw_outside::Source;

/// What stands in front of the input.
pub(crate) enum Opening {
    /// A head, and how many bytes the body may have with its chunk lines and trailer.
    Head(OpenRequest, usize),
    /// The input ended, and nothing but line ends to be skipped was left.
    Ended,
    /// No head that may be.
    Bad,
}

/// Takes a head off the input, where nothing is to be skipped before it, and answers it and its length.
fn take_head<R: Source>(
    alloc: Global,
    held: &mut Held,
    source: &mut R,
) -> Result<Option<(OpenRequest, usize)>, ReadError>
    requires { Stops is_newline held.old }
    ensures taken { IfOk result (λ found. IfSome found (λ head. TakesHead (prepend_known held.old (R.left source.old))
        (prepend_known held.new (R.left source.new)) head.0 head.1)) }
    ensures none { result ≡ Ok None → IfSome (prepend_known held.old (R.left source.old)) HasNoHead }
    ensures kept { result ≡ Err ReadError.Failed → Keeps (prepend_known held.old (R.left source.old)) (prepend_known held.new (R.left source.new)) }
    ensures sound { OnOk result (R.faults source.new ≡ R.faults source.old) }
    ensures starved { result ≡ Err ReadError.NoMemory → R.faults source.new ≡ R.faults source.old }
    ensures failed { result ≡ Err ReadError.Failed → HasFailed (R.faults source.old) (R.faults source.new) }
    ensures cut { result ≡ Err ReadError.Failed → IfSeen (prepend_known held.old (R.left source.old)) (R.left source.new) IsHeadCut }
    ensures wanted { result ≡ Err ReadError.NoMemory → IfSeen (prepend_known held.old (R.left source.old)) (R.left source.new) MayBeginHead }
    ensures reads { ReadsWhile R.left R.calls source.old source.new (prepend_known held.old (R.left source.old)) IsHeadCut }
    ensures source_number { R.number source.new ≡ R.number source.old }
{
    let mut headers = [EMPTY_HEADER_SPAN; MAX_FIELDS];
    let Some(spans) = read_head(held, source, &mut headers)? else {
        return Ok(None);
    };
    let open = open_request(alloc, held.rest(), &headers, spans)?;
    held.advance(spans.len);
    Ok(Some((open, spans.len)))
}

/// Takes the line ends that are skipped and a head off the input. Where a read fails nothing but line ends was taken.
pub(crate) fn take_opening<R: Source>(
    alloc: Global,
    held: &mut Held,
    source: &mut R,
) -> Result<Opening, ReadError>
    ensures opening { IfOk result (IsOpening (prepend_known held.old (R.left source.old)) (prepend_known held.new (R.left source.new)) (R.left source.new)) }
    ensures kept { result ≡ Err ReadError.Failed → Skips (prepend_known held.old (R.left source.old)) (prepend_known held.new (R.left source.new)) }
    ensures sound { OnOk result (R.faults source.new ≡ R.faults source.old) }
    ensures starved { result ≡ Err ReadError.NoMemory → R.faults source.new ≡ R.faults source.old }
    ensures failed { result ≡ Err ReadError.Failed → HasFailed (R.faults source.old) (R.faults source.new) }
    ensures cut { result ≡ Err ReadError.Failed → IfSeen (prepend_known held.old (R.left source.old)) (R.left source.new) AwaitsHead }
    ensures wanted { result ≡ Err ReadError.NoMemory → IfSeen (prepend_known held.old (R.left source.old)) (R.left source.new) MayHaveHead }
    ensures reads { ReadsWhile R.left R.calls source.old source.new (prepend_known held.old (R.left source.old)) AwaitsHead }
    ensures source_number { R.number source.new ≡ R.number source.old }
{
    let skipped = match skip_run(Class::LineEnds, MAX_SKIPPED, held, source)? {
        Run::Begun(skipped) => skipped,
        Run::Ended => return Ok(Opening::Ended),
        Run::TooMany => return Ok(Opening::Bad),
    };
    match take_head(alloc, held, source)? {
        Some((open, len)) => Ok(Opening::Head(open, MAX_REQUEST - skipped - len)),
        None => Ok(Opening::Bad),
    }
}
