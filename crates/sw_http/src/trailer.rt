//! The trailer of a chunked body: fields, which are ignored, and the empty line.
ghost use Rattle.std.specs.Prelude.{◌≡◌, ◌⊎◌, ◌↔◌, ℕ, ◌≤◌, IsTrue, true, false, length, take, None, Ok, Err, IfOk, IfSome, OnOk, OnErr};
ghost use Rattle.std.specs.Io.KnownBytes.{Keeps, prepend_known};
ghost use Rattle.sw_http.specs.ChunkSteps.{HasNoTrailer, IsTrailerCut, IsTrailerAt, TakesTrailer, HasNoTrailerWithin};
ghost use Rattle.sw_http.specs.Reads.{ReadsWhile};
ghost use Rattle.sw_http.specs.Input.{HasFailed, IfSeen};
ghost use Rattle.httparse.specs.Grammar.{MayBecomeSection};
ghost use Rattle.sw_message.specs.Look.{IsLook, OnNotYet};
ghost use Rattle.sw_http.specs.Fronts.{HasNoNewLine, IsUnfinished};

use crate::held::Held;
use crate::input::ReadError;
use httparse::Status;
use httparse::spans::{EMPTY_HEADER_SPAN, HeaderSpan, parse_headers};
use sw_message::{Look, MAX_FIELDS, MAX_HEAD};
use sw_outside::Source;

/// Looks for a trailer in front of bytes.
fn find_trailer(bytes: &[u8], headers: &mut [HeaderSpan]) -> Look<usize>
    requires room { length headers.old ≡ 128 }
    ensures look { IsLook (IsTrailerAt bytes.now) HasNoTrailer bytes.now result }
    ensures unfinished { OnNotYet result (MayBecomeSection bytes.now) }
{
    match parse_headers(bytes, headers) {
        Ok(Status::Complete((len, _))) => {
            if len <= MAX_HEAD {
                Look::Whole(len)
            } else {
                Look::Never
            }
        }
        Ok(Status::Partial) => Look::NotYet,
        Err(_) => Look::Never,
    }
}

/// The same, where no trailer stands in front of the first `seen` bytes. A trailer ends with a line feed, so without a new one there is
/// no need to look.
fn find_new_trailer(bytes: &[u8], seen: usize, headers: &mut [HeaderSpan]) -> Look<usize>
    requires room { length headers.old ≡ 128 }
    requires within { seen ≤ length bytes.now }
    requires none_seen { HasNoTrailer (take seen bytes.now) }
    ensures look { IsLook (IsTrailerAt bytes.now) HasNoTrailer bytes.now result }
    ensures unfinished { OnNotYet result (MayBecomeSection bytes.now ⊎ HasNoNewLine seen bytes.now) }
{
    if bytes[seen..].contains(&b'\n') {
        find_trailer(bytes, headers)
    } else {
        Look::NotYet
    }
}

/// Reads until a trailer stands in front of what is held, and answers how many bytes it has. It answers `None` where none ever will.
fn read_trailer<R: Source>(held: &mut Held, source: &mut R) -> Result<Option<usize>, ReadError>
    ensures kept { Keeps (prepend_known held.old (R.left source.old)) (prepend_known held.new (R.left source.new)) }
    ensures found { IfOk result (λ found. IfSome found (IsTrailerAt held.new)) }
    ensures none { result ≡ Ok None → IfSome (prepend_known held.old (R.left source.old)) HasNoTrailer }
    ensures sound { OnOk result (R.faults source.new ≡ R.faults source.old) }
    ensures starved { result ≡ Err ReadError.NoMemory → R.faults source.new ≡ R.faults source.old }
    ensures failed { result ≡ Err ReadError.Failed → HasFailed (R.faults source.old) (R.faults source.new) }
    ensures cut { OnErr result (IfSeen (prepend_known held.old (R.left source.old)) (R.left source.new) IsTrailerCut) }
    ensures reads { ReadsWhile R.left R.calls source.old source.new (prepend_known held.old (R.left source.old)) IsTrailerCut }
    ensures source_number { R.number source.new ≡ R.number source.old }
{
    let mut headers = [EMPTY_HEADER_SPAN; MAX_FIELDS];
    let mut seen = 0;
    loop {
        match find_new_trailer(held.rest(), seen, &mut headers) {
            Look::Whole(len) => return Ok(Some(len)),
            Look::Never => return Ok(None),
            Look::NotYet => {}
        }
        seen = held.rest().len();
        if seen >= MAX_HEAD {
            return Ok(None);
        }
        if held.read_more(source)? == 0 {
            return Ok(None);
        }
    }
}

/// Takes a trailer off the input. It answers `false` where none of at most `room` bytes stands in front.
pub(crate) fn take_trailer<R: Source>(
    held: &mut Held,
    source: &mut R,
    room: usize,
) -> Result<bool, ReadError>
    ensures taken { result ≡ Ok true → TakesTrailer (prepend_known held.old (R.left source.old)) (prepend_known held.new (R.left source.new)) room }
    ensures none { result ≡ Ok false → IfSome (prepend_known held.old (R.left source.old)) (HasNoTrailerWithin room) }
    ensures sound { OnOk result (R.faults source.new ≡ R.faults source.old) }
    ensures starved { result ≡ Err ReadError.NoMemory → R.faults source.new ≡ R.faults source.old }
    ensures failed { result ≡ Err ReadError.Failed → HasFailed (R.faults source.old) (R.faults source.new) }
    ensures cut { OnErr result (IfSeen (prepend_known held.old (R.left source.old)) (R.left source.new) IsTrailerCut) }
    ensures reads { ReadsWhile R.left R.calls source.old source.new (prepend_known held.old (R.left source.old)) IsTrailerCut }
    ensures source_number { R.number source.new ≡ R.number source.old }
{
    match read_trailer(held, source)? {
        Some(len) if len <= room => {
            held.advance(len);
            Ok(true)
        }
        Some(_) => Ok(false),
        None => Ok(false),
    }
}
