ghost use Rattle.std.specs.Prelude.{◌≡◌, ◌≢◌, [], ℕ, ◌+◌, ◌^◌, ◌<◌, ◌≤◌, drop, Err, IfOk, vec_len, OnOk};
ghost use Rattle.sw_outside.specs.Counts.{raised};
ghost use Rattle.sw_http.specs.Reads.{ReadsWhile};
ghost use Rattle.sw_http.specs.Input.{HasFailed, ReadsBehind};
ghost use Rattle.sw_http.specs.declared.input.ReadError.TheVariants as errors;

use std::alloc::AllocError;
use sw_outside::{Failed, NoMemory, Source};

/// How many bytes one read asks for of what may be a head, at most.
pub(crate) const PIECE: usize = 8_192;

/// The same of what is known to be a body's, which is read straight to where it stays.
pub(crate) const BODY_PIECE: usize = 262_144;

/// Room for one piece.
static ZEROS: [u8; BODY_PIECE] = [0; BODY_PIECE];

/// Why a step of the reader gave nothing.
#[derive(Clone, Copy, Debug, PartialEq, Eq)]
pub(crate) enum ReadError {
    Failed,
    NoMemory,
}

impl From<AllocError> for ReadError {
    ghost from_gives = { λ _ e. e ≡ errors.NoMemory };

    fn from(_error: AllocError) -> ReadError {
        ReadError::NoMemory
    }
}

impl From<NoMemory> for ReadError {
    ghost from_gives = { λ _ e. e ≡ errors.NoMemory };

    fn from(_error: NoMemory) -> ReadError {
        ReadError::NoMemory
    }
}

/// Reads at most `room` bytes, and puts them behind those that are there. It answers 0 only at the source's end.
///
/// The room is made before the read, so no byte that was read is lost.
pub(crate) fn read_behind<R: Source>(
    bytes: &mut Vec<u8>,
    source: &mut R,
    room: usize,
) -> Result<usize, ReadError>
    requires some { 0 < room }
    requires piece { room ≤ 262_144 }
    requires fits { vec_len bytes.old + room < 2 ^ 64 }
    ensures read { ReadsBehind bytes.old.items bytes.new.items (R.left source.old) (R.left source.new) result }
    ensures bound { IfOk result (λ n. n ≤ room) }
    ensures sound { OnOk result (R.faults source.new ≡ R.faults source.old) }
    ensures starved { result ≡ Err ReadError.NoMemory → R.faults source.new ≡ R.faults source.old }
    ensures failed { result ≡ Err ReadError.Failed → HasFailed (R.faults source.old) (R.faults source.new) }
    ensures called { result ≢ Err ReadError.NoMemory → R.calls source.new ≡ raised (R.calls source.old) }
    ensures uncalled { result ≡ Err ReadError.NoMemory → R.calls source.new ≡ R.calls source.old }
    ensures reads { ReadsWhile R.left R.calls source.old source.new (R.left source.old) (λ seen. seen ≡ []) }
    ensures source_number { R.number source.new ≡ R.number source.old }
{
    let had = bytes.len();
    bytes.extend_from_slice(&ZEROS[..room])?;
    match source.read(&mut bytes[had..]) {
        Ok(given) => {
            bytes.truncate(had + given);
            Ok(given)
        }
        Err(Failed) => {
            bytes.truncate(had);
            Err(ReadError::Failed)
        }
    }
}

/// Takes `n` bytes off the front.
pub(crate) fn drop_front(bytes: &mut Vec<u8>, n: usize)
    requires { n ≤ vec_len bytes.old }
    ensures { bytes.new.items ≡ drop n bytes.old.items }
{
    // Nothing is moved where nothing goes: a source that gives a byte a read would pay for all that is held each time.
    if n > 0 {
        let kept = bytes.len() - n;
        bytes.copy_within(n.., 0);
        bytes.truncate(kept);
    }
}
