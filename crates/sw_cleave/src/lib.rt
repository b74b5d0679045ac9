//! The container sharder: moves the rows of a container that has shard ranges to its shards, over any door.
//!
//! [`create_shards`] finds where a container is cut, creates a shard for each range at all its devices, and sets the list of ranges at each replica.
//!
//! [`cleave_next`] takes the first range that is open: the rows of it that the devices of its shard aren't all known to have go to each of these in one
//! message, each acknowledgement is kept at the container at once, and then the container closes the range, if it can. From then on the range's names are
//! left to the shard. Once no range is open it takes the rows away.
//!
//! A range is closed only where each device of the shard acknowledged all rows of it; a row that came later keeps it open for another pass. The laws of
//! `sw_shard_laws` say of a ledger of tables why no row is lost by that.
//!
//! `specs/Creating` and `specs/Cleaving` have the calls of the two passes in their order and what each counts for, `specs/Cutting` the ranges into which a
//! container is cut, `specs/Causes` why a pass isn't done, and [`laws`] what is promised of them.
//!
//! The next layer up is `sw_steps`, whose passes control requests ask `sw_nodes` for.
#![tactic(auto)]

mod cleaving;
mod closing;
mod counting;
mod creating;
mod cutting;
pub mod laws;
mod offering;
mod shards;

pub use cleaving::cleave_next;
pub use creating::create_shards;
