ghost use Rattle.std.specs.Prelude.{◌≡◌, ◌≢◌, ℕ, ◌+◌, ◌^◌, ◌<◌, ◌≤◌, [], length, drop, Err, IfOk, OnOk};
ghost use Rattle.std.specs.Io.KnownBytes.{prepend_known};
ghost use Rattle.sw_outside.specs.Counts.{raised};
ghost use Rattle.sw_http.specs.Reads.{ReadsWhile};
ghost use Rattle.sw_http.specs.Input.{HasFailed, ReadsBehind};

use crate::input::{PIECE, ReadError, drop_front, read_behind};
use std::alloc::Global;
use std::marker::Model;
use sw_outside::Source;

/// The bytes that were read and not yet used. Contracts see the list of them.
///
/// Bytes are taken off the front by counting them: the others are moved only before a read, so a piece with many small requests in it
/// is moved once.
#[derive(Debug, Drop)]
pub struct Held {
    bytes: Vec<u8>,
    at: usize,
}

impl Model for Held {
    ghost use Rattle.std.specs.Prelude.{ℕ, ◌≤◌, List, drop, vec_len};

    ghost Value = { List ℕ };

    ghost view = { λ h. drop h.at h.bytes.items };

    ghost invariant = { λ h. h.at ≤ vec_len h.bytes };
}

impl Held {
    /// Nothing is held. This takes no memory.
    pub fn new(alloc: Global) -> Held
        ensures { result ≡ [] }
    {
        Held {
            bytes: Vec::new(alloc),
            at: 0,
        }
    }

    pub(crate) fn rest(&self) -> &[u8]
        ensures { result.now ≡ self.now }
    {
        &self.bytes[self.at..]
    }

    /// Takes `n` bytes off the front.
    pub(crate) fn advance(&mut self, n: usize)
        requires { n ≤ length self.old }
        ensures { self.new ≡ drop n self.old }
    {
        self.at += n;
    }

    /// Reads one piece more.
    pub(crate) fn read_more<R: Source>(&mut self, source: &mut R) -> Result<usize, ReadError>
        requires { length self.old + 8_192 < 2 ^ 64 }
        ensures read { ReadsBehind self.old self.new (R.left source.old) (R.left source.new) result }
        ensures bound { IfOk result (λ n. n ≤ 8_192) }
        ensures sound { OnOk result (R.faults source.new ≡ R.faults source.old) }
        ensures starved { result ≡ Err ReadError.NoMemory → R.faults source.new ≡ R.faults source.old }
        ensures failed { result ≡ Err ReadError.Failed → HasFailed (R.faults source.old) (R.faults source.new) }
        ensures called { result ≢ Err ReadError.NoMemory → R.calls source.new ≡ raised (R.calls source.old) }
        ensures uncalled { result ≡ Err ReadError.NoMemory → R.calls source.new ≡ R.calls source.old }
        ensures reads { ReadsWhile R.left R.calls source.old source.new (prepend_known self.old (R.left source.old)) (λ seen. seen ≡ self.old) }
        ensures source_number { R.number source.new ≡ R.number source.old }
    {
        drop_front(&mut self.bytes, self.at);
        self.at = 0;
        read_behind(&mut self.bytes, source, PIECE)
    }
}
