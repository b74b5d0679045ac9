//! What the fields of a request say to a server.
//!
//! Single fields are told by [`time_of`], [`type_of`], [`agrees_with`] (the ETag), [`is_replicated`], [`asks_for_none`] and [`has_value`].
//! [`heads_of`] gives the metadata that a PUT or a POST gives an object: the second at which it expires ([`expiry_of`]) and its header items
//! ([`items_of`]), or nothing where either is refused. Names of fields are compared without case, and of a field that stands several times
//! the last one counts.
//!
//! The next layer up is `sw_object_server`, which puts these tests into the order of its refusals.
#![tactic(auto)]

mod expiry;
mod field_tests;
mod heads;
mod items;
pub mod laws;
mod limits;

pub use expiry::{BadExpiry, UNITS_PER_SECOND, expiry_of, is_expired, second_of};
pub use field_tests::{agrees_with, asks_for_none, has_value, is_replicated, time_of, type_of};
pub use heads::heads_of;
pub use items::items_of;
pub use limits::{MAX_EXPIRING_NAME, MAX_ITEM_NAME, MAX_ITEM_VALUE, MAX_ITEMS, MAX_METADATA};
