//! Listings of a container as JSON.
//!
//! [`to_json`] writes the entries of `sw_listing` as one list: an object with a row's values, its time as a date with six
//! decimals, or an object with what names are rolled up to. [`listed_time`] gives the date alone.
//!
//! What is promised: the bytes are exactly the format's, compact as `serde_json` writes them, and entries have one text
//! ([`laws`]). The next layer up is `sw_container_server`, which replies with them.
#![tactic(auto)]

mod dates;
pub mod laws;
mod values;
mod writing;

pub use dates::listed_time;
pub use writing::to_json;
