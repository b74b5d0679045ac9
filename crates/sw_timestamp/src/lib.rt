//! Times of writes, and the texts that stand for them.
//!
//! A [`Timestamp`] is a whole number of 10-microsecond units from 0 to [`GREATEST`]; contracts see it as that number.
//! Its text is read by exactly one grammar: 1 to 10 digits of seconds and, after a point, 1 to 5 decimals, where the
//! decimals that are missing on the right are zeros. The normal form has all of them. No call takes memory.
//!
//! [`Tag`] names the three kinds of a write, as file names and tables do. The next layer up is `sw_state`, which orders
//! the writes of one name by time and kind.
#![tactic(auto)]

pub mod laws;
mod reading;
mod tag;
mod timestamp;
mod writing;

pub use reading::NotTimestamp;
pub use tag::Tag;
pub use timestamp::{GREATEST, Timestamp};
