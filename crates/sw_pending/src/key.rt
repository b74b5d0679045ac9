ghost use Rattle.std.specs.Prelude.{◌≡◌, ◌≢◌, ◌++◌, length, drop, IfSome, IsNone};
ghost use Rattle.sw_pending.specs.Names.{IsKey, folder_text, name_text, named};
ghost use Rattle.sw_pending.specs.Records.{key_of};
ghost use Rattle.sw_pending.specs.declared.key.RecordKey.{RecordKey};

use crate::filed::Filed;
use sw_hashpath::hex_text;
use sw_metafile::{cut, digest_of, time_of};
use sw_timestamp::Timestamp;

/// How many bytes the folder of a record's file has.
pub const FOLDER_LENGTH: usize = 17;

/// How many bytes the name of a record's file has at most.
pub const NAME_ROOM: usize = 66;

/// By what a record is found: the hash of its name, and its time. There is one record at most for each.
#[derive(Clone, Copy, Debug, PartialEq, Eq)]
pub struct RecordKey {
    pub hash: [u8; 16],
    pub time: Timestamp,
}

impl Filed {
    /// By what this record is found.
    pub fn key(&self) -> RecordKey
        ensures { result ≡ key_of self.now }
    {
        RecordKey {
            hash: self.name.hash,
            time: self.time,
        }
    }
}

/// The folder of the files of a hash's records: `async_pending/<last three digits of the hash>`.
pub fn folder(hash: &[u8; 16]) -> [u8; FOLDER_LENGTH]
    ensures { result ≡ folder_text hash.now }
{
    let digits = hex_text(hash);
    let mut text = *b"async_pending/000";
    text[14..].copy_from_slice(&digits[29..]);
    text
}

/// Writes the name of the record's file to the front of `out`, and answers how many bytes it has: the digits of the hash, a
/// dash, and the time. The rest of `out` stays.
pub fn write_name(key: &RecordKey, out: &mut [u8; NAME_ROOM]) -> usize
    ensures count { result ≡ length (name_text key.now) }
    ensures text { out.new ≡ name_text key.now ++ drop result out.old }
    ensures key { IsKey key.now }
{
    let mut room = [0; 33];
    let count = key.time.write_text(&mut room);
    let end = 33 + count;
    out[..32].copy_from_slice(&hex_text(&key.hash));
    out[32..33].copy_from_slice(b"-");
    out[33..end].copy_from_slice(&room[..count]);
    end
}

/// Reads the name of a record's file. Every other text is none.
pub fn read_name(text: &[u8]) -> Option<RecordKey>
    ensures is { result ≡ named text.now }
    ensures key { IfSome result IsKey }
    ensures reads { IfSome result (λ key. text.now ≡ name_text key) }
    ensures refuses { IsNone result → (key : RecordKey) → IsKey key → text.now ≢ name_text key }
{
    key_in(text)
}

/// The hash and the time that are written in a name.
#[tactic(auto, unfolding(crate::specs::Names::named))]
fn key_in(text: &[u8]) -> Option<RecordKey>
    ensures { result ≡ named text.now }
{
    let (digits, rest) = cut(text, b'-')?;
    let hash = digest_of(digits)?;
    let time = time_of(rest)?;
    Some(RecordKey { hash, time })
}
