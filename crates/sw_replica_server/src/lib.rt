//! The replication server: what a device has of a partition, by which replicas are compared.
//!
//! [`answer`] is one request over any door whose method is REPLICATE. It asks for the hashes of a partition's suffixes, or for the files of some
//! suffixes, and has two halves as in `sw_object_server`: [`read_replication`] is pure and says what is [asked](ReplicaAsked) for, or with
//! which status the request is refused (`specs/Asking.antt` has the tests in their order); the other half reads at the device itself
//! (`specs/Serving.antt`), and replies with a JSON object of what was told (`specs/ReplicaText.antt`, `specs/Replies.antt`).
//!
//! No request of this server changes an object. The next layers up are `sw_nodes` and `sw_cluster`, which route requests of a
//! session and of a connection to it.
#![tactic(auto)]

mod asked;
pub mod laws;
mod reading;
mod replies;
mod serving;
mod suffix_list;
mod suffixes;
mod target;
mod texts;

pub use asked::ReplicaAsked;
pub use reading::read_replication;
pub use replies::{fault_reply, files_reply, hashes_reply};
pub use serving::answer;
pub use suffix_list::SuffixList;
pub use target::is_replication;
