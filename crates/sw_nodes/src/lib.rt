//! The nodes of a ring as the server of a session: one request, answered by all of them.
//!
//! [`Nodes`] tells which server a request is for. One for objects, replicas or containers is answered by that server over the nodes
//! (`sw_object_server`, `sw_replica_server`, `sw_container_server`). A control request (`sw_control`) is answered by what the world tells, or by what
//! is done with it: a read of records (`sw_updater`) or of shard ranges, a pass (`sw_steps`), or a restart, for which the device's volumes and keepers go
//! back to the stores (`sw_stores`) and are started anew.
//! [`laws`] says what two pushes, there and back, come to by their replies.
//!
//! The next layer up is `sw_cluster`, whose command `run` serves a session by it.
#![tactic(auto)]

pub mod laws;
mod server;

pub use server::Nodes;
