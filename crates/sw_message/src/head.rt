ghost use Rattle.std.specs.Prelude.{◌≡◌, ◌↔◌, ◌≤◌, IsTrue, length};
ghost use Rattle.httparse.specs.Grammar.{MayBecomeRequest};
ghost use Rattle.httparse.specs.Pieces.{Stops, is_newline};
ghost use Rattle.sw_message.specs.Head.{IsHeadAt, HasNoHead, IsPath};
ghost use Rattle.sw_message.specs.Look.{IsLook, OnNotYet};

use crate::limits::MAX_HEAD;
use crate::look::Look;
use crate::text::begins_with;
use httparse::Status;
use httparse::spans::{HeaderSpan, RequestSpans, parse_request};

/// The minor version of HTTP/1.1.
const MINOR_VERSION: u8 = 1;

/// Whether a head of this size and this minor version is one that this server takes.
fn is_taken(len: usize, version: u8) -> bool
    ensures { IsTrue result ↔ ((len ≤ 65536) × (version ≡ 1)) }
{
    len <= MAX_HEAD && version == MINOR_VERSION
}

/// Whether a target begins with a slash.
fn is_path(target: &[u8]) -> bool
    ensures { IsTrue result ↔ IsPath target.now }
{
    begins_with(target, b"/")
}

/// Looks for a head in front of bytes that don't begin with a line end.
///
/// [`Look::NotYet`] comes only where more bytes can make a head by the parser's grammar: what can't become one is told at once. Whether this
/// server takes it is told once it is whole.
pub fn find_head(bytes: &[u8], headers: &mut [HeaderSpan]) -> Look<RequestSpans>
    requires room { length headers.old ≡ 128 }
    requires begins { Stops is_newline bytes.now }
    ensures look { IsLook (IsHeadAt bytes.now headers.new) HasNoHead bytes.now result }
    ensures unfinished { OnNotYet result (MayBecomeRequest bytes.now) }
{
    match parse_request(bytes, headers) {
        Ok(Status::Complete(spans)) => {
            if is_taken(spans.len, spans.version) && is_path(spans.path.of(bytes)) {
                Look::Whole(spans)
            } else {
                Look::Never
            }
        }
        Ok(Status::Partial) => Look::NotYet,
        Err(_) => Look::Never,
    }
}
