ghost use Rattle.std.specs.Prelude.{◌≡◌, ℕ, ◌≤◌, true, false, length, Ok, Err, IfSome, OnOk, OnErr};
ghost use Rattle.std.specs.Io.KnownBytes.{Consumes, prepend_known};
ghost use Rattle.httparse.specs.Ascii.{crlf_bytes};
ghost use Rattle.sw_http.specs.Reads.{ReadsWhile};
ghost use Rattle.sw_http.specs.Input.{HasFailed, HasNoLineEnd, IfSeen, IsShort};

use crate::held::Held;
use crate::input::ReadError;
use sw_message::{CRLF, begins_with};
use sw_outside::Source;

/// Takes a CR LF off the front of the input. It answers `false` where none stands there, at a first byte that begins none without a read.
pub(crate) fn take_line_end<R: Source>(held: &mut Held, source: &mut R) -> Result<bool, ReadError>
    ensures taken { result ≡ Ok true → Consumes (prepend_known held.old (R.left source.old)) (prepend_known held.new (R.left source.new)) crlf_bytes }
    ensures none { result ≡ Ok false → IfSome (prepend_known held.old (R.left source.old)) HasNoLineEnd }
    ensures sound { OnOk result (R.faults source.new ≡ R.faults source.old) }
    ensures starved { result ≡ Err ReadError.NoMemory → R.faults source.new ≡ R.faults source.old }
    ensures failed { result ≡ Err ReadError.Failed → HasFailed (R.faults source.old) (R.faults source.new) }
    ensures cut { OnErr result (IfSeen (prepend_known held.old (R.left source.old)) (R.left source.new) (IsShort held.old)) }
    ensures reads { ReadsWhile R.left R.calls source.old source.new (prepend_known held.old (R.left source.old)) (IsShort held.old) }
    ensures source_number { R.number source.new ≡ R.number source.old }
{
    loop {
        if begins_with(held.rest(), CRLF) {
            held.advance(CRLF.len());
            return Ok(true);
        }
        if !begins_with(CRLF, held.rest()) {
            return Ok(false);
        }
        if held.read_more(source)? == 0 {
            return Ok(false);
        }
    }
}
