//! The bytes of a body. They are kept up to the greatest size of an object; beyond it they are only read.
ghost use Rattle.std.specs.Prelude.{[], ◌≡◌, ◌↔◌, ℕ, ◌<◌, ◌≤◌, true, false, length, Ok, Err, IfOk, OnErr, OnOk, IfSome};
ghost use Rattle.std.specs.Io.KnownBytes.{Keeps, IsAtEnd, prepend_known};
ghost use Rattle.sw_http.specs.Body.{IsKeptWith, IsWithinLimit, extended};
ghost use Rattle.sw_http.specs.ChunkSteps.{TakesBytes};
ghost use Rattle.sw_http.specs.Reads.{ReadsWhile};
ghost use Rattle.sw_http.specs.Input.{HasFailed, IfSeen};

use crate::held::Held;
use crate::input::{BODY_PIECE, PIECE, ReadError, read_behind};
use crate::limits::MAX_BODY;
use std::mem;
use sw_message::Body;
use sw_outside::{Bytes, NoMemory, Source};

/// Puts bytes behind those of a body. No memory is taken where it then is too large.
fn keep(body: &mut Body, more: &[u8]) -> Result<(), NoMemory>
    ensures kept { OnOk result (body.new ≡ extended body.old more.now) }
    ensures for_some { OnErr result (IsKeptWith body.old (length more.now)) }
{
    match mem::replace(body, Body::TooLarge) {
        Body::Whole(bytes) => {
            let mut bytes = Vec::from(bytes);
            if bytes.len().saturating_add(more.len()) <= MAX_BODY {
                bytes.extend_from_slice(more)?;
                *body = Body::Whole(Bytes::from(bytes));
            }
            Ok(())
        }
        Body::TooLarge => Ok(()),
    }
}

/// Reads where nothing is held. It answers `false` where the input ended.
fn hold_some<R: Source>(held: &mut Held, source: &mut R) -> Result<bool, ReadError>
    ensures kept { Keeps (prepend_known held.old (R.left source.old)) (prepend_known held.new (R.left source.new)) }
    ensures some { result ≡ Ok true → 0 < length held.new }
    ensures ended { result ≡ Ok false → IsAtEnd (prepend_known held.new (R.left source.new)) }
    ensures sound { OnOk result (R.faults source.new ≡ R.faults source.old) }
    ensures starved { result ≡ Err ReadError.NoMemory → R.faults source.new ≡ R.faults source.old }
    ensures failed { result ≡ Err ReadError.Failed → HasFailed (R.faults source.old) (R.faults source.new) }
    ensures cut { OnErr result (IfSeen (prepend_known held.old (R.left source.old)) (R.left source.new) (λ seen. length seen ≡ 0)) }
    ensures reads { ReadsWhile R.left R.calls source.old source.new (prepend_known held.old (R.left source.old)) (λ seen. length seen ≡ 0) }
    ensures source_number { R.number source.new ≡ R.number source.old }
{
    if !held.rest().is_empty() {
        return Ok(true);
    }
    Ok(held.read_more(source)? > 0)
}

/// Whether a body that has so many bytes more is still kept.
fn has_room(body: &Body, more: usize) -> bool
    ensures { result ≡ true ↔ IsKeptWith body.now more }
{
    match body {
        Body::Whole(bytes) => bytes.as_slice().len().saturating_add(more) <= MAX_BODY,
        Body::TooLarge => false,
    }
}

/// Reads some of the next bytes of a body straight to where they stay, at most `most` of them, and answers how many. It answers 0 only where the
/// input ended.
fn read_straight<R: Source>(
    source: &mut R,
    most: usize,
    body: &mut Body,
) -> Result<usize, ReadError>
    requires some { 0 < most }
    requires kept { IsKeptWith body.old most }
    ensures taken { IfOk result (λ n. (n ≤ most) × TakesBytes (R.left source.old) (R.left source.new) body.old body.new n) }
    ensures ended { result ≡ Ok 0 → IsAtEnd (R.left source.new) }
    ensures still { OnErr result (Keeps (R.left source.old) (R.left source.new)) }
    ensures sound { OnOk result (R.faults source.new ≡ R.faults source.old) }
    ensures starved { result ≡ Err ReadError.NoMemory → R.faults source.new ≡ R.faults source.old }
    ensures failed { result ≡ Err ReadError.Failed → HasFailed (R.faults source.old) (R.faults source.new) }
    ensures reads { ReadsWhile R.left R.calls source.old source.new (R.left source.old) (λ seen. seen ≡ []) }
    ensures source_number { R.number source.new ≡ R.number source.old }
{
    let Body::Whole(bytes) = mem::replace(body, Body::TooLarge) else {
        return Ok(0);
    };
    let mut bytes = Vec::from(bytes);
    let given = read_behind(&mut bytes, source, most.min(BODY_PIECE))?;
    *body = Body::Whole(Bytes::from(bytes));
    Ok(given)
}

/// Takes `len` bytes of a body off the input. It answers `false` where the input ends before.
pub(crate) fn take_content<R: Source>(
    held: &mut Held,
    source: &mut R,
    len: usize,
    body: &mut Body,
) -> Result<bool, ReadError>
    requires { IsWithinLimit body.old }
    ensures taken { result ≡ Ok true → TakesBytes (prepend_known held.old (R.left source.old)) (prepend_known held.new (R.left source.new)) body.old body.new
        len }
    ensures none { result ≡ Ok false → IfSome (prepend_known held.old (R.left source.old)) (λ bytes. length bytes < len) }
    ensures sound { OnOk result (R.faults source.new ≡ R.faults source.old) }
    ensures starved { result ≡ Err ReadError.NoMemory → R.faults source.new ≡ R.faults source.old }
    ensures failed { result ≡ Err ReadError.Failed → HasFailed (R.faults source.old) (R.faults source.new) }
    ensures cut { result ≡ Err ReadError.Failed → IfSeen (prepend_known held.old (R.left source.old)) (R.left source.new) (λ seen. length seen < len) }
    ensures for_some { OnErr result (0 < len) }
    ensures reads { ReadsWhile R.left R.calls source.old source.new (prepend_known held.old (R.left source.old)) (λ seen. length seen < len) }
    ensures source_number { R.number source.new ≡ R.number source.old }
{
    let mut taken = 0;
    while taken < len {
        let left = len - taken;
        if left >= PIECE && held.rest().is_empty() && has_room(body, left) {
            // Nothing of a large body that is still to come is copied: it is read to where it stays.
            let given = read_straight(source, left, body)?;
            if given == 0 {
                return Ok(false);
            }
            taken += given;
        } else {
            if !hold_some(held, source)? {
                return Ok(false);
            }
            let piece = held.rest().len().min(left);
            keep(body, &held.rest()[..piece])?;
            held.advance(piece);
            taken += piece;
        }
    }
    Ok(true)
}
