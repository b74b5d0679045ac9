//! One listing of a container that is split into shards, and its counts, over any door.
//!
//! A replica of a container that is split lists only the names that it hasn't left to shards. [`list_across`] asks it how far it is split, and then asks each
//! shard that names are left to, and the container itself for the others, for what the query still asks for; [`count_across`] adds up what each tells of its
//! rows. Each is asked in one step at the device that is chosen of those that keep it.
//!
//! What is promised: exactly these calls are made, in this order, and nothing partial is ever answered: the first that gives nothing ends it with its answer,
//! also behind the limit of the query, and memory runs out only where some is taken. `specs/Parts` has the parts of a container, `specs/Across` and
//! `specs/Counts` the calls. [`laws`] say that the entries are the listing of all rows that were read, each within the range of its part, that parts stand in
//! the direction of a listing, and that a container that isn't split is listed as one listing of it would be.
//!
//! They also say what is left of the nodes, by what a listing is refused, and that a trail tells what was answered (`specs/Reads`).
//!
//! The next layer up is the container server, `sw_container_server`, which answers requests for a container that is split by these.
#![tactic(auto)]

mod asking;
mod counting;
pub mod laws;
mod listing;
mod parts;
mod serving;

pub use counting::count_across;
pub use listing::list_across;
