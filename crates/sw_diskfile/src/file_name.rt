ghost use Rattle.std.specs.Prelude.{◌≡◌, ◌≢◌, ◌≤◌, ◌↔◌, ◌++◌, ℕ, IsTrue, length, drop, IfOk, IsErr, IfSome, IsNone, Some, None, MatchResult};
ghost use Rattle.sw_timestamp.specs.TimeText.{text_of};
ghost use Rattle.sw_timestamp.specs.declared.tag.Tag.{Tag};
ghost use Rattle.sw_diskfile.specs.FileNames.{ending, name_text, named};

use sw_timestamp::{Tag, Timestamp};
use thiserror::Error;

/// How many bytes the name of a file has at most.
pub const NAME_ROOM: usize = 48;

/// The name of a file: the time and the kind of its write.
#[derive(Clone, Copy, Debug, PartialEq, Eq)]
pub struct FileName {
    pub time: Timestamp,
    pub tag: Tag,
}

/// The text is no name of a write's file.
#[derive(Clone, Copy, Debug, PartialEq, Eq, Error)]
#[error("not the name of a write's file")]
pub struct NotOurs;

/// Reads a time as it is written, and then `.data`, `.ts` or `.meta`. Every other text is [`NotOurs`].
pub fn read_name(text: &[u8]) -> Result<FileName, NotOurs>
    ensures is { MatchResult result (λ file. named text.now ≡ Some file) (λ _. named text.now ≡ None) }
    ensures reads { IfOk result (λ file. text.now ≡ name_text file) }
    ensures bound { IfOk result (λ file. file.time ≤ 999999999999999) }
    ensures refuses { IsErr result → (time : ℕ) (tag : Tag) → time ≤ 999999999999999 → text.now ≢ name_text (record { time = time; tag = tag }) }
{
    if let Some(time) = time_before(text, b".data") {
        return Ok(FileName {
            time,
            tag: Tag::Put,
        });
    }
    if let Some(time) = time_before(text, b".ts") {
        return Ok(FileName {
            time,
            tag: Tag::Del,
        });
    }
    if let Some(time) = time_before(text, b".meta") {
        return Ok(FileName {
            time,
            tag: Tag::Meta,
        });
    }
    Err(NotOurs)
}

/// The time that is written before this ending.
fn time_before(text: &[u8], ending: &[u8]) -> Option<Timestamp>
    ensures some { IfSome result (λ time. text.now ≡ text_of time ++ ending.now) }
    ensures bound { IfSome result (λ time. time ≤ 999999999999999) }
    ensures none { IsNone result → (time : ℕ) → time ≤ 999999999999999 → text.now ≢ text_of time ++ ending.now }
{
    let stem = text.strip_suffix(ending)?;
    written_time(stem)
}

/// The time that is written as this text, where there is one. Other spellings of a time are none.
pub fn written_time(text: &[u8]) -> Option<Timestamp>
    ensures some { IfSome result (λ time. text.now ≡ text_of time) }
    ensures bound { IfSome result (λ time. time ≤ 999999999999999) }
    ensures none { IsNone result → (time : ℕ) → time ≤ 999999999999999 → text.now ≢ text_of time }
{
    let Ok(time) = Timestamp::parse(text) else {
        return None;
    };
    if is_written(&time, text) {
        Some(time)
    } else {
        None
    }
}

/// Whether the time is written as this text.
fn is_written(time: &Timestamp, text: &[u8]) -> bool
    ensures { IsTrue result ↔ (text.now ≡ text_of time.now) }
{
    let mut room = [0; 33];
    let count = time.write_text(&mut room);
    &room[..count] == text
}

/// Writes the name to the front of `out`, and answers how many bytes it has. The rest of `out` stays.
pub fn write_name(file: &FileName, out: &mut [u8; NAME_ROOM]) -> usize
    ensures count { result ≡ length (name_text file.now) }
    ensures text { out.new ≡ name_text file.now ++ drop result out.old }
{
    let mut room = [0; 33];
    let count = file.time.write_text(&mut room);
    let ending = ending_of(file.tag);
    let end = count + ending.len();
    out[..count].copy_from_slice(&room[..count]);
    out[count..end].copy_from_slice(ending);
    end
}

fn ending_of(tag: Tag) -> &'static [u8]
    ensures { result.now ≡ ending tag }
{
    match tag {
        Tag::Put => b".data",
        Tag::Del => b".ts",
        Tag::Meta => b".meta",
    }
}
