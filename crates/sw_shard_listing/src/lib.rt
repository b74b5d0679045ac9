//! Listings of rows that lie in several ranges of names, as the shards of a container have them.
//!
//! A listing over ranges is put together from a listing of each, without a second list and without a copy of any rows: whoever
//! lists begins with [`begun`], asks each range in the direction of the listing for what [`moved`] makes of the query, and moves
//! the query on with [`pass`] behind what came, until nothing is left of its limit.
//!
//! What is promised: the three are exactly the definitions' queries, and want memory only for texts that aren't empty;
//! [`laws`] say that entries listed so, range after range, are the listing of all rows, whatever the query, and that a
//! listing depends on the live rows alone. The next layer, `sw_sharded_listing`, asks each shard of a container so.
#![tactic(auto)]

pub mod laws;
mod moving;

pub use moving::{begun, moved, pass};
