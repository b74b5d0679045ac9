//! The journal of an object lock: the writes and the changes of records that were made since it began, and those that may have been.
//!
//! A [`Journal`] keeps entries in the order in which they were made, and doubts: changes whose call of the volume failed, so that their files stand or
//! don't. The doubt of a write is settled by the next listing of its directory, and that of a record by the next read of its file. Two limits say when
//! nothing further may come.
//!
//! It knows no volume. The next layer up is `sw_objdir`, which keeps one beside the volume that its writes go to.
#![tactic(auto)]

mod entries;
mod journal;

pub use journal::Journal;
