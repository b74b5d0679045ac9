//! A session: pipelined requests are read from a source, answered by a [`Server`] one after the other, and their replies written to a sink.
//!
//! [`serve`] is the one call. What it promises is a statement over bytes: for each way to end, what was written is exactly what is written
//! for the requests that make up the input, as the grammar of `sw_http` cuts them, each answered at the clock's next moment by what the
//! server is after those before it. `specs/Session.antt` has the words. It holds over any server, known by two relations alone, of its
//! replies and of how it may halt, and over sources, sinks and clocks that tell nothing. A server that can't go on ends its session, and
//! nothing is written for the request at which it halted but what its client asked to be told. The server also says which requests are the
//! last of their session: behind one nothing is read or answered. [`asks_to_close`] is such a test, for sessions that are connections.
//!
//! The next layers up are `sw_nodes`, the nodes of a ring as a server, and `sw_cluster`, which serves a session or connections by it.
#![tactic(auto)]

mod closing;
pub mod laws;
mod server;
mod session;

pub use closing::asks_to_close;
pub use server::{Server, ServerFault};
pub use session::{MOST_REQUESTS, SessionFault, serve};
