//! Requests of HTTP/1.1, from a source of bytes.
//!
//! [`next_request`] takes one whole request off the input: the bytes held, and then those that the source has left. What a request's
//! text is stands in `specs/Request.antt`, its body in `specs/Body.antt` and `specs/Chunked.antt`, as a grammar over bytes, in the words
//! of the parser `httparse` and over the heads of `sw_message`. Nothing in it speaks of reading: so the request handed out, the end and
//! each refusal are the same for every way in which the source cuts its bytes. The laws in [`laws`] say that bytes have one reading
//! only. When a client that waits is told to go on stands in `specs/Continue.antt`.
//!
//! Runs of blanks, chunk extensions and the bytes of a body that is too large are dropped as they come, so little is held beside the body: no
//! clause says how much.
//!
//! The next layer up is `sw_session`, which has the requests answered one after the other.
#![tactic(auto)]

mod body;
mod chunk;
mod chunk_line;
mod content;
mod continue_;
mod head;
mod held;
mod input;
pub mod laws;
mod limits;
mod line_end;
mod opening;
mod reader;
mod run;
mod trailer;

pub use held::Held;
pub use limits::{MAX_BODY, MAX_REQUEST, MAX_SKIPPED};
pub use reader::{HttpFault, next_request};
