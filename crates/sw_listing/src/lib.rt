//! Listings of a container: what a query asks for, the entries that answer it, and their texts.
//!
//! [`Query::read`] reads the text of a query, or says what is wrong with it. [`list`] gives the entries of rows: the live
//! names that the query asks for, rolled up at its delimiter, in order, as many as its limit allows. [`to_text`] writes
//! entries a line each.
//!
//! What is promised: `list` is exactly the definition's listing of the rows, whatever the query, and `to_text` gives
//! exactly the format's bytes. The next layers up are `sw_listing_json`, and `sw_container_steps`, by whose reads a container
//! is listed.
#![tactic(auto)]

mod asked;
mod bad_query;
mod entry;
mod listing;
mod query;
mod reading;
mod rolled;
mod shown;
mod span;
mod text;
mod texts;
mod walking;

pub use bad_query::BadQuery;
pub use entry::{Entries, Entry};
pub use listing::list;
pub use query::Query;
pub use text::Text;
pub use texts::to_text;
