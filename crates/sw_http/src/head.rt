ghost use Rattle.std.specs.Prelude.{◌≡◌, ◌⊎◌, ◌↔◌, ℕ, ◌≤◌, IsTrue, length, take, None, Ok, Err, IfOk, IfSome, OnOk, OnErr};
ghost use Rattle.std.specs.Io.KnownBytes.{Keeps, prepend_known};
ghost use Rattle.httparse.specs.Pieces.{Stops, is_newline};
ghost use Rattle.sw_message.specs.Head.{IsHeadAt, HasNoHead};
ghost use Rattle.httparse.specs.Grammar.{MayBecomeRequest};
ghost use Rattle.sw_message.specs.Look.{IsLook, OnNotYet};
ghost use Rattle.sw_http.specs.Fronts.{HasNoNewLine, IsUnfinished};
ghost use Rattle.sw_message.specs.Head.{IsPath};
ghost use Rattle.sw_http.specs.Reads.{ReadsWhile};
ghost use Rattle.sw_http.specs.Input.{HasFailed, IfSeen};
ghost use Rattle.sw_http.specs.Opening.{IsHeadCut};

use crate::held::Held;
use crate::input::ReadError;
use httparse::spans::{HeaderSpan, RequestSpans};
use sw_message::{Look, MAX_FIELDS, MAX_HEAD, find_head};
use sw_outside::Source;

/// The same, where no head stands in front of the first `seen` bytes. A head ends with a line feed, so without a new one there is no
/// need to look.
fn find_new_head(bytes: &[u8], seen: usize, headers: &mut [HeaderSpan]) -> Look<RequestSpans>
    requires room { length headers.old ≡ 128 }
    requires begins { Stops is_newline bytes.now }
    requires within { seen ≤ length bytes.now }
    requires none_seen { HasNoHead (take seen bytes.now) }
    ensures look { IsLook (IsHeadAt bytes.now headers.new) HasNoHead bytes.now result }
    ensures unfinished { OnNotYet result (MayBecomeRequest bytes.now ⊎ HasNoNewLine seen bytes.now) }
{
    if bytes[seen..].contains(&b'\n') {
        find_head(bytes, headers)
    } else {
        Look::NotYet
    }
}

/// Reads until a head stands in front of what is held. It answers `None` where none ever will: as soon as a line shows that what stands
/// there can't become one, and nothing is read behind that.
///
/// Whatever the pieces are, the bytes are gone over once for each line that a head may have, and not once for each piece.
pub(crate) fn read_head<R: Source>(
    held: &mut Held,
    source: &mut R,
    headers: &mut [HeaderSpan],
) -> Result<Option<RequestSpans>, ReadError>
    requires room { length headers.old ≡ 128 }
    requires begins { Stops is_newline held.old }
    ensures kept { Keeps (prepend_known held.old (R.left source.old)) (prepend_known held.new (R.left source.new)) }
    ensures found { IfOk result (λ found. IfSome found (IsHeadAt held.new headers.new)) }
    ensures none { result ≡ Ok None → IfSome (prepend_known held.old (R.left source.old)) HasNoHead }
    ensures sound { OnOk result (R.faults source.new ≡ R.faults source.old) }
    ensures starved { result ≡ Err ReadError.NoMemory → R.faults source.new ≡ R.faults source.old }
    ensures failed { result ≡ Err ReadError.Failed → HasFailed (R.faults source.old) (R.faults source.new) }
    ensures cut { OnErr result (IfSeen (prepend_known held.old (R.left source.old)) (R.left source.new) IsHeadCut) }
    ensures reads { ReadsWhile R.left R.calls source.old source.new (prepend_known held.old (R.left source.old)) IsHeadCut }
    ensures source_number { R.number source.new ≡ R.number source.old }
{
    let mut seen = 0;
    loop {
        match find_new_head(held.rest(), seen, headers) {
            Look::Whole(spans) => return Ok(Some(spans)),
            Look::Never => return Ok(None),
            Look::NotYet => {}
        }
        seen = held.rest().len();
        if seen >= MAX_HEAD {
            return Ok(None);
        }
        if held.read_more(source)? == 0 {
            return Ok(None);
        }
    }
}
