//! Points: up to which number (ROWID) of a container's rows each device has what is owed to it.
//!
//! A replica that sends its rows to another one keeps how far that one has them all, so that the next time only later rows are sent. [`Points`] is a
//! finite map from a range and a device to such a number, and a number in it only rises. `specs/Points` has the words.
//!
//! The next layer up is the tables of a container (`sw_keeper`), which have the points of its replicas.
#![tactic(auto)]

mod points;

pub use points::Points;
