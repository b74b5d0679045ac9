//! Messages of HTTP/1.1 as they stand in memory: fields, heads of requests, how a head says where its body ends, and the text of a reply.
//!
//! A head's text is `httparse`'s printed head, within the limits of this server (`specs/Head.antt`); [`find_head`] looks for one in front
//! of bytes and [`open_request`] copies its parts. [`framing_of`] reads where the body ends off the fields (`specs/Framing.antt`).
//! [`write_response`] adds exactly the text of a reply, `specs/Reply.antt`, in one call of the sink.
//!
//! The next layers up are `sw_http`, which takes requests off an input, and `sw_fields`, which reads what single fields say.
#![tactic(auto)]

mod fields;
mod framing;
mod head;
pub mod laws;
mod limits;
mod look;
mod parts;
mod reply_text;
mod request;
mod response;
mod text;
mod writer;

pub use fields::{Field, FieldList};
pub use framing::{Framing, framing_of, is_framed, length_of, says};
pub use head::find_head;
pub use limits::{MAX_FIELDS, MAX_HEAD, MAX_LENGTH_DIGITS};
pub use look::Look;
pub use parts::{OpenRequest, open_request};
pub use request::{Body, Request};
pub use response::{ReplyBody, Response};
pub use text::{CRLF, begins_with};
pub use writer::{WriteFault, write_response};
