//! The cluster: one command over any arguments, source, sinks, stores, doors and clock.
//!
//! [`cluster`] is the top call: it carries the theorem of the whole program. Below it, from the top: `words` and `opening` tell the command
//! and open its ring; `running` is the session of `run` (`sw_session`) over the nodes of a ring, whose volumes and keepers come from the stores
//! (`sw_stores`) and go back to them; each of its requests is answered by `sw_nodes`. `rounds` and `connection` are the connections of `serve`, which
//! answer for objects, replicas and containers over any door; `locate` and `whereabouts` say where a name is. [`laws`] says what follows from the clauses of
//! [`cluster`]: what was answered stands at the end, what listings show are exactly the live objects (`sw_listing_reply_laws`), and what commands come to one
//! after the other.
//!
//! The program `sw` makes the host's ends and calls it; `sw_cases` calls it on worked runs.
#![tactic(auto)]

mod command;
mod connection;
pub mod laws;
mod limits;
mod locate;
mod opening;
mod rounds;
mod running;
mod status;
mod volumes;
mod whereabouts;
mod words;

pub use command::{cluster, report};
pub use connection::{DoorServer, serve_connection};
pub use running::run_session;
pub use status::{DOOR_FAULT, NO_MEMORY, STORE_FAULT};
pub use whereabouts::where_text;
