//! The object server: what a request asks the nodes for, and what is replied.
//!
//! [`answer`] is one request over any door. It has two halves. [`read_request`] is pure: a ring and a request alone decide what is
//! [`Asked`] for, which is one step at most, or with which status the request is refused; `specs/Asking.antt` has the tests in their order.
//! The other half calls the door for that step and replies to its answer, by `specs/Replies.antt` and `specs/Showing.antt`.
//!
//! The body of a PUT is moved into the content that is written, and the body of what a GET finds into its reply: neither is copied.
//!
//! What single fields say, and the metadata that they give an object, are read by `sw_fields`. Paths of other servers are read by the same
//! functions as those of objects: [`parts_of`], [`at_slash`], [`decoded`], [`partition_named`], [`has_number`]. Their replies are made by [`bare`],
//! [`at_time`] and [`field`].
//!
//! The next layers up are `sw_nodes` and `sw_cluster`, which route requests of a session and of a connection to this server.
#![tactic(auto)]

mod asked;
pub mod laws;
mod making;
mod partitions;
mod posting;
mod putting;
mod reading;
mod replies;
mod serving;
mod showing;
mod target;
mod verb;
mod verdict;

pub use asked::Asked;
pub use partitions::{has_number, partition_named};
pub use reading::read_request;
pub use replies::{at_time, bare, damaged, field, made_reply, reply_to, time_text};
pub use serving::answer;
pub use showing::shown;
pub use target::{Parts, at_slash, decoded, parts_of, slash_count};
pub use verb::Verb;
