ghost use Rattle.std.specs.Prelude.{◌≡◌, IfOk};
ghost use Rattle.sw_control.specs.Texts.{files_text as files_text_of, text_reply as text_reply_of};

use std::alloc::Global;
use sw_message::{Field, FieldList, ReplyBody, Response};
use sw_outside::{Bytes, BytesList, NoMemory};

/// A reply that is a text. The text is moved into it.
pub fn text_reply(alloc: Global, text: Bytes) -> Result<Response, NoMemory>
    ensures { IfOk result (λ response. response ≡ text_reply_of text) }
{
    let content_type = Field {
        name: Bytes::copy(alloc, b"Content-Type")?,
        value: Bytes::copy(alloc, b"text/plain; charset=utf-8")?,
    };
    Ok(Response {
        status: 200,
        fields: FieldList::from(vec![in alloc; content_type]?),
        body: ReplyBody::Whole(text),
    })
}

/// The text of a list of files: each path and a line feed, in the list's order.
pub fn files_text(alloc: Global, paths: &BytesList) -> Result<Bytes, NoMemory>
    ensures { IfOk result (λ text. text ≡ files_text_of paths.now) }
{
    let mut text = Vec::new(alloc);
    for path in paths.as_slice() {
        text.extend_from_slice(path.as_slice())?;
        text.extend_from_slice(b"\n")?;
    }
    Ok(Bytes::from(text))
}
