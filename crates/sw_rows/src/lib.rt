//! The rows of a container: what it knows of its objects, one row for each name, each under a number that is used once.
//!
//! A [`Row`] tells of one object: live with its size, type and ETag, or deleted. Of two rows of one name the later one
//! counts, and at one time the deleted one ([`Row::is_at_least`]). [`Rows::merge`] puts a row in exactly where the present
//! one doesn't count as much, under the next number (ROWID), so whoever has read all rows up to a number finds all that is
//! new above it. The rows' hash, count and bytes are those of the rows that stand, whatever came before.
//!
//! The next layers up are `sw_listing`, which answers queries over rows, and `sw_keeper`, where they are kept beside what else a
//! container has.
#![tactic(auto)]

mod exchange;
mod hash;
mod held;
mod index;
pub mod laws;
mod named_rows;
mod numbered;
mod numbered_rows;
mod numbers;
mod row;
mod rows;
mod rows_iter;
mod sums;

pub use named_rows::NamedRows;
pub use numbered::Numbered;
pub use numbered_rows::NumberedRows;
pub use row::Row;
pub use rows::Rows;
pub use rows_iter::RowsIter;
