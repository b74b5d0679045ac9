//! The container server: what a request for containers asks the nodes for, and what is replied.
//!
//! [`answer`] is one request over any door. It has two halves, as in `sw_object_server`. [`read_container_request`] is pure: a ring and a request alone
//! decide what is [asked](ContAsked) for, which is a step at a container, what is told of it or its listing, or with which status the request is
//! refused; `specs/Asking.antt` has the tests in their order. Which requests are this server's is told by [`is_for_containers`].
//!
//! The other half calls the door for that, at the device itself (`specs/Serving.antt`), and replies: [`reply_to`] of what a step was answered, with
//! [`made_status`] for a step that was made, [`info_reply`] of what is told of a container, and [`listing_reply`] of a listing
//! (`specs/Replies.antt`). A GET asks for two steps, one after the other: another's step may come between them. A listing's text is written once and
//! moved into the reply.
//!
//! Of a container that is split into shards the shards are asked too (`sw_sharded_listing`): counts are those of all of them, and a listing is put together
//! from theirs, at the replica of each that `X-Swc-Shard-Replica` names, or the first. One that doesn't answer refuses the request: nothing partial is
//! shown. [`moved_reply`] sends a client on with a row whose name is left to a shard. The next layer up, `sw_nodes`, routes requests to this server.
#![tactic(auto)]

mod asked;
mod fields;
pub mod laws;
mod looking;
mod making;
mod moving;
mod naming;
mod reading;
mod replies;
mod rows;
mod serving;
mod target;
mod telling;
mod verb;
mod verbs;
mod verdict;

pub use asked::ContAsked;
pub use moving::moved_reply;
pub use reading::read_container_request;
pub use replies::{change_reply, made_status, reply_to};
pub use serving::answer;
pub use target::is_for_containers;
pub use telling::{info_reply, listing_reply};
