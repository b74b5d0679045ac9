//! The line that tells the size of a chunk. Its blanks and its extension may be as long as a whole request: they are dropped as they
//! come, and `httparse` reads the line without them.
ghost use Rattle.std.specs.Prelude.{◌≡◌, ℕ, ◌+◌, ◌<◌, ◌≤◌, length, None, Ok, Err, IfOk, IfSome, OnOk, OnErr};
ghost use Rattle.std.specs.List.{prefix_len};
ghost use Rattle.std.specs.Char.{is_ascii_hexdigit};
ghost use Rattle.std.specs.Io.KnownBytes.{Keeps, prepend_known};
ghost use Rattle.std.specs.Str.Parse.{digits_value};
ghost use Rattle.httparse.specs.Grammar.{AllPass, is_ows};
ghost use Rattle.httparse.specs.Pieces.{Stops};
ghost use Rattle.sw_http.specs.ChunkSteps.{HasNoLine, HasDigits, TakesExtension, HasNoExtension, TakesTail, HasNoTail, TakesLine, HasNoLineWithin};
ghost use Rattle.sw_http.specs.ChunkSteps.{IsDigitsCut, IsExtensionCut, IsTailCut, IsLineCut};
ghost use Rattle.sw_http.specs.Reads.{ReadsWhile};
ghost use Rattle.sw_http.specs.Input.{HasFailed, IfSeen};

use crate::held::Held;
use crate::input::ReadError;
use crate::line_end::take_line_end;
use crate::run::{Class, take_run};
use httparse::{Status, parse_chunk_size};
use sw_message::{CRLF, begins_with};
use sw_outside::Source;

/// The greatest number of digits in the size of a chunk.
const MAX_SIZE_DIGITS: usize = 16;

/// Room for the digits and the line end.
const LINE_ROOM: usize = 18;

/// What a chunk line says, and how many bytes it has.
#[derive(Clone, Copy, Debug, PartialEq, Eq)]
pub(crate) struct SizeLine {
    pub size: usize,
    pub len: usize,
}

/// How many hexadecimal digits stand in front.
fn digit_run(bytes: &[u8]) -> usize
    ensures { result ≡ prefix_len is_ascii_hexdigit bytes.now }
{
    bytes.iter().take_while(|b| b.is_ascii_hexdigit()).count()
}

/// Reads until the digits of a chunk line and the byte behind them are held, and answers how many digits there are. It answers `None`
/// where no chunk line stands in front.
fn read_digits<R: Source>(held: &mut Held, source: &mut R) -> Result<Option<usize>, ReadError>
    ensures kept { Keeps (prepend_known held.old (R.left source.old)) (prepend_known held.new (R.left source.new)) }
    ensures found { IfOk result (λ found. IfSome found (HasDigits held.new)) }
    ensures none { result ≡ Ok None → IfSome (prepend_known held.old (R.left source.old)) HasNoLine }
    ensures sound { OnOk result (R.faults source.new ≡ R.faults source.old) }
    ensures starved { result ≡ Err ReadError.NoMemory → R.faults source.new ≡ R.faults source.old }
    ensures failed { result ≡ Err ReadError.Failed → HasFailed (R.faults source.old) (R.faults source.new) }
    ensures cut { OnErr result (IfSeen (prepend_known held.old (R.left source.old)) (R.left source.new) IsDigitsCut) }
    ensures reads { ReadsWhile R.left R.calls source.old source.new (prepend_known held.old (R.left source.old)) IsDigitsCut }
    ensures source_number { R.number source.new ≡ R.number source.old }
{
    loop {
        let run = digit_run(held.rest());
        if run > MAX_SIZE_DIGITS {
            return Ok(None);
        }
        if run < held.rest().len() {
            return Ok(if run == 0 { None } else { Some(run) });
        }
        if held.read_more(source)? == 0 {
            return Ok(None);
        }
    }
}

/// The number that the digits of a chunk line write.
fn size_of(digits: &[u8]) -> usize
    requires some { 0 < length digits.now }
    requires few { length digits.now ≤ 16 }
    requires digits { AllPass is_ascii_hexdigit digits.now }
    ensures { result ≡ digits_value 16 digits.now }
{
    let len = digits.len();
    let mut line = [b'\n'; LINE_ROOM];
    line[..len].copy_from_slice(digits);
    line[len] = b'\r';
    match parse_chunk_size(&line[..len + CRLF.len()]) {
        Ok(Status::Complete((_, size))) => size as usize,
        Ok(Status::Partial) => unreachable!(),
        Err(_) => unreachable!(),
    }
}

/// Takes the extension of a chunk line off the input, where it has at most `room` bytes, and answers how many it has.
fn take_extension<R: Source>(
    held: &mut Held,
    source: &mut R,
    room: usize,
) -> Result<Option<usize>, ReadError>
    requires begun { 0 < length held.old }
    requires limit { room ≤ 1_073_741_824 }
    ensures taken { IfOk result (λ found. IfSome found (TakesExtension (prepend_known held.old (R.left source.old)) (prepend_known held.new (R.left source.new))
        held.new)) }
    ensures bound { IfOk result (λ found. IfSome found (λ len. len ≤ room + 1)) }
    ensures none { result ≡ Ok None → IfSome (prepend_known held.old (R.left source.old)) (HasNoExtension room) }
    ensures sound { OnOk result (R.faults source.new ≡ R.faults source.old) }
    ensures starved { result ≡ Err ReadError.NoMemory → R.faults source.new ≡ R.faults source.old }
    ensures failed { result ≡ Err ReadError.Failed → HasFailed (R.faults source.old) (R.faults source.new) }
    ensures cut { OnErr result (IfSeen (prepend_known held.old (R.left source.old)) (R.left source.new) (IsExtensionCut room)) }
    ensures reads { ReadsWhile R.left R.calls source.old source.new (prepend_known held.old (R.left source.old)) (IsExtensionCut room) }
    ensures source_number { R.number source.new ≡ R.number source.old }
{
    if !begins_with(held.rest(), b";") {
        return Ok(Some(0));
    }
    held.advance(1);
    match take_run(Class::Extension, room, held, source)? {
        Some(len) => Ok(Some(len + 1)),
        None => Ok(None),
    }
}

/// Takes what stands behind the digits of a chunk line off the input, where it has at most `room` bytes, and answers how many it has.
fn take_tail<R: Source>(
    held: &mut Held,
    source: &mut R,
    room: usize,
) -> Result<Option<usize>, ReadError>
    requires { room ≤ 1_073_741_824 }
    ensures taken { IfOk result (λ found. IfSome found (TakesTail (prepend_known held.old (R.left source.old)) (prepend_known held.new (R.left source.new)))) }
    ensures bound { IfOk result (λ found. IfSome found (λ len. len ≤ room + 3)) }
    ensures none { result ≡ Ok None → IfSome (prepend_known held.old (R.left source.old)) (HasNoTail room) }
    ensures sound { OnOk result (R.faults source.new ≡ R.faults source.old) }
    ensures starved { result ≡ Err ReadError.NoMemory → R.faults source.new ≡ R.faults source.old }
    ensures failed { result ≡ Err ReadError.Failed → HasFailed (R.faults source.old) (R.faults source.new) }
    ensures cut { OnErr result (IfSeen (prepend_known held.old (R.left source.old)) (R.left source.new) (IsTailCut room)) }
    ensures reads { ReadsWhile R.left R.calls source.old source.new (prepend_known held.old (R.left source.old)) (IsTailCut room) }
    ensures source_number { R.number source.new ≡ R.number source.old }
{
    let Some(pad) = take_run(Class::Blanks, room, held, source)? else {
        return Ok(None);
    };
    let Some(extension) = take_extension(held, source, room - pad)? else {
        return Ok(None);
    };
    if take_line_end(held, source)? {
        Ok(Some(pad + extension + CRLF.len()))
    } else {
        Ok(None)
    }
}

/// Takes a chunk line off the input. It answers `None` where none of at most `room` bytes stands in front.
pub(crate) fn take_chunk_line<R: Source>(
    held: &mut Held,
    source: &mut R,
    room: usize,
) -> Result<Option<SizeLine>, ReadError>
    requires { room ≤ 1_073_741_824 }
    ensures taken { IfOk result (λ found. IfSome found (TakesLine (prepend_known held.old (R.left source.old)) (prepend_known held.new (R.left source.new)))) }
    ensures none { result ≡ Ok None → IfSome (prepend_known held.old (R.left source.old)) (HasNoLineWithin room) }
    ensures sound { OnOk result (R.faults source.new ≡ R.faults source.old) }
    ensures starved { result ≡ Err ReadError.NoMemory → R.faults source.new ≡ R.faults source.old }
    ensures failed { result ≡ Err ReadError.Failed → HasFailed (R.faults source.old) (R.faults source.new) }
    ensures cut { OnErr result (IfSeen (prepend_known held.old (R.left source.old)) (R.left source.new) (IsLineCut room)) }
    ensures reads { ReadsWhile R.left R.calls source.old source.new (prepend_known held.old (R.left source.old)) (IsLineCut room) }
    ensures source_number { R.number source.new ≡ R.number source.old }
{
    let Some(digits) = read_digits(held, source)? else {
        return Ok(None);
    };
    let size = size_of(&held.rest()[..digits]);
    held.advance(digits);
    let Some(tail) = take_tail(held, source, room)? else {
        return Ok(None);
    };
    Ok(Some(SizeLine {
        size,
        len: digits + tail,
    }))
}
