//! The chunks of a body, one after the other.
ghost use Rattle.std.specs.Prelude.{◌≡◌, ℕ, ◌+◌, ◌≤◌, true, false, IsTrue, ◌↔◌, ◌⊎◌, ◌<◌, Ok, Err, IfOk, IfSome, OnOk};
ghost use Rattle.std.specs.Io.KnownBytes.{prepend_known};
ghost use Rattle.sw_http.specs.Body.{IsWithinLimit};
ghost use Rattle.sw_http.specs.ChunkSteps.{TakesData, HasNoData, IsStep, TakesChunked, HasNoChunked, IsDataCut, IsSizedCut, IsChunkCut, IsChunkedCut};
ghost use Rattle.sw_http.specs.Reads.{ReadsWhile};
ghost use Rattle.sw_http.specs.Input.{HasFailed, IfSeen};

use crate::chunk_line::{SizeLine, take_chunk_line};
use crate::content::take_content;
use crate::held::Held;
use crate::input::ReadError;
use crate::line_end::take_line_end;
use crate::trailer::take_trailer;
use sw_message::{Body, CRLF};
use sw_outside::Source;

/// What one step through the chunks took.
pub(crate) enum Step {
    /// A chunk, of so many bytes with its line and its line end.
    More(usize),
    /// The line of size 0, of so many bytes.
    Last(usize),
    /// No chunked body that may be stands in front.
    Bad,
}

/// Whether a chunk with this line has at most `room` bytes.
fn fits(line: SizeLine, room: usize) -> bool
    requires { room ≤ 1_073_741_824 }
    ensures { IsTrue result ↔ (line.len + line.size + 2 ≤ room) }
{
    line.len <= room && line.size <= room && line.len + line.size + CRLF.len() <= room
}

/// Takes the bytes of a chunk and their line end off the input.
fn take_data<R: Source>(
    held: &mut Held,
    source: &mut R,
    size: usize,
    body: &mut Body,
) -> Result<bool, ReadError>
    requires { IsWithinLimit body.old }
    ensures taken { result ≡ Ok true → TakesData (prepend_known held.old (R.left source.old)) (prepend_known held.new (R.left source.new)) body.old body.new
        size }
    ensures none { result ≡ Ok false → IfSome (prepend_known held.old (R.left source.old)) (HasNoData size) }
    ensures sound { OnOk result (R.faults source.new ≡ R.faults source.old) }
    ensures starved { result ≡ Err ReadError.NoMemory → R.faults source.new ≡ R.faults source.old }
    ensures failed { result ≡ Err ReadError.Failed → HasFailed (R.faults source.old) (R.faults source.new) }
    ensures cut { result ≡ Err ReadError.Failed → IfSeen (prepend_known held.old (R.left source.old)) (R.left source.new) (IsDataCut size) }
    ensures reads { ReadsWhile R.left R.calls source.old source.new (prepend_known held.old (R.left source.old)) (IsDataCut size) }
    ensures source_number { R.number source.new ≡ R.number source.old }
{
    if take_content(held, source, size, body)? {
        take_line_end(held, source)
    } else {
        Ok(false)
    }
}

/// Takes the bytes of a chunk with this line off the input, where there is one of at most `room` bytes.
fn take_sized<R: Source>(
    held: &mut Held,
    source: &mut R,
    line: SizeLine,
    room: usize,
    body: &mut Body,
) -> Result<bool, ReadError>
    requires limit { room ≤ 1_073_741_824 }
    requires body { IsWithinLimit body.old }
    ensures taken { result ≡ Ok true → TakesData (prepend_known held.old (R.left source.old)) (prepend_known held.new (R.left source.new)) body.old body.new
        line.size }
    ensures fits { result ≡ Ok true → line.len + line.size + 2 ≤ room }
    ensures none { result ≡ Ok false → (room < line.len + line.size + 2) ⊎ IfSome (prepend_known held.old (R.left source.old)) (HasNoData line.size) }
    ensures sound { OnOk result (R.faults source.new ≡ R.faults source.old) }
    ensures starved { result ≡ Err ReadError.NoMemory → R.faults source.new ≡ R.faults source.old }
    ensures failed { result ≡ Err ReadError.Failed → HasFailed (R.faults source.old) (R.faults source.new) }
    ensures cut { result ≡ Err ReadError.Failed → IfSeen (prepend_known held.old (R.left source.old)) (R.left source.new) (IsSizedCut room line) }
    ensures reads { ReadsWhile R.left R.calls source.old source.new (prepend_known held.old (R.left source.old)) (IsSizedCut room line) }
    ensures source_number { R.number source.new ≡ R.number source.old }
{
    if fits(line, room) {
        take_data(held, source, line.size, body)
    } else {
        Ok(false)
    }
}

/// Takes a chunk off the input, or the line of size 0.
fn take_chunk<R: Source>(
    held: &mut Held,
    source: &mut R,
    room: usize,
    body: &mut Body,
) -> Result<Step, ReadError>
    requires limit { room ≤ 1_073_741_824 }
    requires body { IsWithinLimit body.old }
    ensures step { IfOk result (IsStep room (prepend_known held.old (R.left source.old)) (prepend_known held.new (R.left source.new)) body.old body.new) }
    ensures sound { OnOk result (R.faults source.new ≡ R.faults source.old) }
    ensures starved { result ≡ Err ReadError.NoMemory → R.faults source.new ≡ R.faults source.old }
    ensures failed { result ≡ Err ReadError.Failed → HasFailed (R.faults source.old) (R.faults source.new) }
    ensures cut { result ≡ Err ReadError.Failed → IfSeen (prepend_known held.old (R.left source.old)) (R.left source.new) (IsChunkCut room) }
    ensures reads { ReadsWhile R.left R.calls source.old source.new (prepend_known held.old (R.left source.old)) (IsChunkCut room) }
    ensures source_number { R.number source.new ≡ R.number source.old }
{
    let Some(line) = take_chunk_line(held, source, room)? else {
        return Ok(Step::Bad);
    };
    if line.size == 0 {
        return Ok(if line.len <= room {
            Step::Last(line.len)
        } else {
            Step::Bad
        });
    }
    if take_sized(held, source, line, room, body)? {
        Ok(Step::More(line.len + line.size + CRLF.len()))
    } else {
        Ok(Step::Bad)
    }
}

/// Takes a chunked body off the input. It answers `false` where none of at most `room` bytes stands in front.
pub(crate) fn take_chunked<R: Source>(
    held: &mut Held,
    source: &mut R,
    room: usize,
    body: &mut Body,
) -> Result<bool, ReadError>
    requires limit { room ≤ 1_073_741_824 }
    requires body { IsWithinLimit body.old }
    ensures taken { result ≡ Ok true → TakesChunked (prepend_known held.old (R.left source.old)) (prepend_known held.new (R.left source.new)) body.old body.new
        room }
    ensures none { result ≡ Ok false → IfSome (prepend_known held.old (R.left source.old)) (HasNoChunked room) }
    ensures sound { OnOk result (R.faults source.new ≡ R.faults source.old) }
    ensures starved { result ≡ Err ReadError.NoMemory → R.faults source.new ≡ R.faults source.old }
    ensures failed { result ≡ Err ReadError.Failed → HasFailed (R.faults source.old) (R.faults source.new) }
    ensures cut { result ≡ Err ReadError.Failed → IfSeen (prepend_known held.old (R.left source.old)) (R.left source.new) (IsChunkedCut room) }
    ensures reads { ReadsWhile R.left R.calls source.old source.new (prepend_known held.old (R.left source.old)) (IsChunkedCut room) }
    ensures source_number { R.number source.new ≡ R.number source.old }
{
    let mut left = room;
    loop {
        match take_chunk(held, source, left, body)? {
            Step::More(len) => left -= len,
            Step::Last(len) => return take_trailer(held, source, left - len),
            Step::Bad => return Ok(false),
        }
    }
}
